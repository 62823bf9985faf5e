// Reading a file of any length, up to a limit.
use crate::failure::Failure;
use pathways::limits::TEXT_BYTES;
use std::fs::File;
use std::io;
use std::io::Read;

// One byte more than a table or a playlist may have, so that the check sees that a file is too long.
const READ_BYTES: u64 = TEXT_BYTES as u64 + 1;

fn read_front(rt: &HostRuntime, path: &str) -> io::Result<Vec<u8>> {
    let mut bytes = Vec::new(rt.alloc());
    File::open(rt, path)?
        .take(READ_BYTES)
        .read_to_end(&mut bytes)?;
    Ok(bytes)
}

// The first bytes of a file.
pub(crate) fn read(rt: &HostRuntime, path: String) -> Result<Vec<u8>, Failure> {
    read_front(rt, path.as_str()).map_err(|error| Failure::Unreadable(path, error))
}
