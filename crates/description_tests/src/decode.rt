// Bytes, written as words parted by single spaces. A word is bytes in small hex digits, or `N*HH`, which is one byte N
// times. No bytes are `0*00`.
use reports::hexes::byte_of;
use std::alloc::Global;
use std::io;
use std::io::ErrorKind;

// How often the bytes of a word stand there, and their digits.
fn run(word: &str) -> io::Result<(usize, &str)> {
    let Some((times, digits)) = word.split_once('*') else {
        return Ok((1, word));
    };
    let times = times.parse().map_err(|_| ErrorKind::InvalidData)?;
    Ok((times, digits))
}

// The other test program of descriptions has this reader too: in a crate that both use it would be public, and its contract would need a
// definition of the notation that repeats these lines.
pub(crate) fn decode(heap: Global, words: &str) -> io::Result<Vec<u8>> {
    let mut file = Vec::new(heap);
    for word in words.split(' ') {
        let (times, digits) = run(word)?;
        // Each byte is stored before the next one is read, so a word that is damaged behind its first bytes still asks for their memory.
        for pair in digits.as_bytes().chunks(2) {
            let byte = byte_of(pair).ok_or(ErrorKind::InvalidData)?;
            let length = file.len().saturating_add(times);
            file.resize(length, byte)?;
        }
    }
    Ok(file)
}
