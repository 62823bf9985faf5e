// References, parameters and hosts in hex, each put to the function that answers it.
//
// A line of the input is a case, its arguments words as src/decode.rt reads them:
//
//     NAME resolve BASE REFERENCE
//     NAME set URI PARAMETER VALUE
//     NAME host URI HOST
//
// Of each case `NAME TEXT` is printed, or `NAME none` where there is no answer; and at the end the number of cases. A
// line that is no case gives `line NUMBER unreadable`.
//
// The cases and what is expected of them are written by tools/steering_reference.py, which has functions of its own.
#![tactic(auto)]

mod decode;

use crate::decode::decode;
use references::resolution::resolve;
use rewriting::hosts::replace_host;
use rewriting::parameters::set_parameter;
use std::alloc::Global;
use std::io;
use std::io::{BufRead, BufReader, ErrorKind};
use terms::text::Text;

// The URI with a parameter set, whose name and value are `words`.
fn set(heap: Global, uri: &[u8], words: &str) -> io::Result<Option<Text<512>>> {
    let (name, value) = words.split_once(' ').ok_or(ErrorKind::InvalidData)?;
    let name = decode(heap, name)?;
    let value = decode(heap, value)?;
    Ok(set_parameter::<512>(uri, name.as_slice(), value.as_slice()))
}

// The answer to a case, whose arguments are `words`.
fn answer(heap: Global, kind: &str, words: &str) -> io::Result<Option<Text<512>>> {
    let (first, rest) = words.split_once(' ').ok_or(ErrorKind::InvalidData)?;
    let uri = decode(heap, first)?;
    let uri = uri.as_slice();
    match kind {
        "resolve" => {
            let reference = decode(heap, rest)?;
            Ok(resolve(uri, reference.as_slice()))
        }
        "set" => set(heap, uri, rest),
        "host" => {
            let host = decode(heap, rest)?;
            Ok(replace_host::<512>(uri, host.as_slice()))
        }
        _ => Err(ErrorKind::InvalidData.into()),
    }
}

// The name of a case, its kind, and the words behind them.
fn parts(line: &[u8]) -> Option<(&str, &str, &str)> {
    let text = std::str::from_utf8(line).ok()?;
    let (name, rest) = text.trim_end().split_once(' ')?;
    let (kind, words) = rest.split_once(' ')?;
    Some((name, kind, words))
}

fn case(rt: &HostRuntime, line: &[u8]) -> io::Result<()> {
    let (name, kind, words) = parts(line).ok_or(ErrorKind::InvalidData)?;
    let Some(text) = answer(rt.alloc(), kind, words)? else {
        return println!(rt; "{name} none");
    };
    match std::str::from_utf8(text.as_bytes()) {
        Ok(text) => println!(rt; "{name} {text}"),
        Err(_) => println!(rt; "{name} (no text)"),
    }
}

// Each test program has this loop, and cuts its lines itself: in a crate that they share these would be public, and no clause can say what
// is printed.
fn run(rt: &HostRuntime) -> io::Result<()> {
    let input = BufReader::new(rt.alloc(), rt.stdin())?;
    let mut cases = 0u64;
    for (number, line) in (1u64..).zip(input.split(rt.alloc(), b'\n')) {
        let line = line?;
        match case(rt, line.as_slice()) {
            Ok(()) => cases = cases.saturating_add(1),
            Err(error) if error.kind() == ErrorKind::InvalidData => {
                println!(rt; "line {number} unreadable")?;
            }
            Err(error) => return Err(error),
        }
    }
    println!(rt; "{cases} cases")
}

fn main(rt: HostRuntime) -> io::Result<()> {
    run(&rt)
}
