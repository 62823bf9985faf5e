// The program `steer`: prints the description that a service table or an HLS playlist holds.
#![tactic(auto)]

mod command;
mod failure;
mod reading;
mod show;

use crate::command::{Command, USAGE, parse, words};
use crate::failure::Failure;
use crate::reading::read;
use crate::show::show;
use multivariant::check::check as check_playlist;
use playlist::reading::Playlist;
use std::process::ExitCode;
use table::check::check as check_table;
use table::reading::ServiceTable;

fn table(rt: &HostRuntime, path: String) -> Result<(), Failure> {
    let file = read(rt, path)?;
    check_table(file.as_slice())?;
    show(rt, &ServiceTable::new(file.as_slice()))
}

fn playlist(rt: &HostRuntime, uri: String, path: String) -> Result<(), Failure> {
    let file = read(rt, path)?;
    check_playlist(uri.as_bytes(), file.as_slice())?;
    let playlist = Playlist::new(rt.alloc(), uri.as_bytes(), file.as_slice())?;
    show(rt, &playlist)
}

fn run(rt: &HostRuntime) -> Result<(), Failure> {
    match parse(words(rt)?)? {
        Command::Help => Ok(print!(rt; "{USAGE}")?),
        Command::Table(path) => table(rt, path),
        Command::Playlist(uri, path) => playlist(rt, uri, path),
    }
}

fn main(rt: HostRuntime) -> ExitCode {
    match run(&rt) {
        Ok(()) => ExitCode::SUCCESS,
        Err(failure) => {
            let _ = failure.tell(&rt);
            ExitCode::FAILURE
        }
    }
}
