// A text, written as a word: its bytes in small hex digits, or `-` for the empty one.
use reports::hexes::byte_of;
use std::alloc::Global;
use std::io;
use std::io::ErrorKind;

pub(crate) fn decode(heap: Global, word: &str) -> io::Result<Vec<u8>> {
    let mut text = Vec::new(heap);
    if word == "-" {
        return Ok(text);
    }
    // Each byte is stored before the next one is read, as in the other test programs.
    for pair in word.as_bytes().chunks(2) {
        text.push(byte_of(pair).ok_or(ErrorKind::InvalidData)?)?;
    }
    Ok(text)
}
