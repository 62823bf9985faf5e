// Service tables in hex, each put to the table check and to the reader.
//
// A line of the input is a case: its name and the words that give the bytes of the table, as src/decode.rt reads them.
// Of each case this is printed, and at the end the number of cases:
//
//     NAME accepted DIALECT STEERING-URI ID:MEMBERS ..
//     NAME refused NUMBER PLACE LAYER example
//
// Below an accepted table stands a line for each member URI, or, for more than four, their number and a digest. The
// reader of a refused table has to give the description of the table `example`; where it does not, the line ends in
// `other`. A line `  wrong ..` follows where a question past the end or with an empty buffer is not refused as it has to be.
// A line that is no case gives `line NUMBER unreadable`.
//
// The cases and what is expected of them are written by tools/table_reference.py, which has a reader of its own.
#![tactic(auto)]

mod decode;

use crate::decode::decode;
use reports::report::Report;
use std::io;
use std::io::{BufRead, BufReader, ErrorKind};
use table::check::check;
use table::reading::ServiceTable;

// The name of a case and the words behind it.
fn parts(line: &[u8]) -> Option<(&str, &str)> {
    let text = std::str::from_utf8(line).ok()?;
    text.trim_end().split_once(' ')
}

fn case(rt: &HostRuntime, line: &[u8]) -> io::Result<()> {
    let (name, words) = parts(line).ok_or(ErrorKind::InvalidData)?;
    let file = decode(rt.alloc(), words)?;
    let report = Report {
        name,
        verdict: check(file.as_slice()),
        description: &ServiceTable::new(file.as_slice()),
    };
    print!(rt; "{report}")
}

// Each test program has this loop, and cuts its lines itself: in a crate that they share these would be public, and no clause can say what
// is printed.
fn run(rt: &HostRuntime) -> io::Result<()> {
    let input = BufReader::new(rt.alloc(), rt.stdin())?;
    let mut cases = 0u64;
    for (number, line) in (1u64..).zip(input.split(rt.alloc(), b'\n')) {
        let line = line?;
        match case(rt, line.as_slice()) {
            Ok(()) => cases = cases.saturating_add(1),
            Err(error) if error.kind() == ErrorKind::InvalidData => {
                println!(rt; "line {number} unreadable")?;
            }
            Err(error) => return Err(error),
        }
    }
    println!(rt; "{cases} cases")
}

fn main(rt: HostRuntime) -> io::Result<()> {
    run(&rt)
}
