// Service tables and playlists in hex, each put to its check and to its reader.
//
// A line of the input is a case. Its bytes are words as src/decode.rt reads them, and so is a playlist's own URI, in one
// word:
//
//     NAME table BYTES ..
//     NAME playlist OWN BYTES ..
//
// Of each case this is printed, and at the end the number of cases:
//
//     NAME accepted DIALECT STEERING-URI ID:MEMBERS ..
//     NAME refused NUMBER PLACE LAYER example
//
// Below an accepted one stands a line for each member URI, or, for more than four, their number and a digest. The reader
// of a refused one has to give the description of the table `example`; where it does not, the line ends in `other`. A
// line `  wrong ..` follows where a question past the end or with an empty buffer is not refused as it has to be. A line
// that is no case gives `line NUMBER unreadable`.
//
// The cases and what is expected of them are written by tools/steering_reference.py, which has readers of its own.
#![tactic(auto)]

mod decode;

use crate::decode::decode;
use playlist::reading::Playlist;
use reports::report::Report;
use std::io;
use std::io::{BufRead, BufReader, ErrorKind};
use table::reading::ServiceTable;

// The name of a case, its kind, and the words behind them.
fn parts(line: &[u8]) -> Option<(&str, &str, &str)> {
    let text = std::str::from_utf8(line).ok()?;
    let (name, rest) = text.trim_end().split_once(' ')?;
    let (kind, words) = rest.split_once(' ')?;
    Some((name, kind, words))
}

fn table_case(rt: &HostRuntime, name: &str, words: &str) -> io::Result<()> {
    let file = decode(rt.alloc(), words)?;
    let report = Report {
        name,
        verdict: table::check::check(file.as_slice()),
        description: &ServiceTable::new(file.as_slice()),
    };
    print!(rt; "{report}")
}

fn playlist_case(rt: &HostRuntime, name: &str, words: &str) -> io::Result<()> {
    let (own, words) = words.split_once(' ').ok_or(ErrorKind::InvalidData)?;
    let own = decode(rt.alloc(), own)?;
    let text = decode(rt.alloc(), words)?;
    let report = Report {
        name,
        verdict: multivariant::check::check(own.as_slice(), text.as_slice()),
        description: &Playlist::new(rt.alloc(), own.as_slice(), text.as_slice())?,
    };
    print!(rt; "{report}")
}

fn case(rt: &HostRuntime, line: &[u8]) -> io::Result<()> {
    match parts(line) {
        Some((name, "table", words)) => table_case(rt, name, words),
        Some((name, "playlist", words)) => playlist_case(rt, name, words),
        _ => Err(ErrorKind::InvalidData.into()),
    }
}

// Each test program has this loop, and cuts its lines itself: in a crate that they share these would be public, and no clause can say what
// is printed.
fn run(rt: &HostRuntime) -> io::Result<()> {
    let input = BufReader::new(rt.alloc(), rt.stdin())?;
    let mut cases = 0u64;
    for (number, line) in (1u64..).zip(input.split(rt.alloc(), b'\n')) {
        let line = line?;
        match case(rt, line.as_slice()) {
            Ok(()) => cases = cases.saturating_add(1),
            Err(error) if error.kind() == ErrorKind::InvalidData => {
                println!(rt; "line {number} unreadable")?;
            }
            Err(error) => return Err(error),
        }
    }
    println!(rt; "{cases} cases")
}

fn main(rt: HostRuntime) -> io::Result<()> {
    run(&rt)
}
