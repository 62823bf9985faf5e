// What the words of the command line ask for.
use std::env::Args;
use std::{env, fmt, io};

pub const USAGE: &str = "\
usage: steer table FILE           print the description that the service table FILE holds
       steer playlist URI FILE    print the description that the HLS playlist FILE holds, which was fetched from URI
       steer help                 print this text

A table or playlist that is refused gives one line, `refused NUMBER PLACE LAYER REASON`, and status 1.
";

#[derive(Drop)]
pub enum Command {
    Help,
    Table(String),
    // The playlist's own URI, and its file.
    Playlist(String, String),
}

// Why the words are no command.
#[derive(Drop)]
pub enum Misuse {
    NoWords(io::Error),
    NoCommand,
    UnknownCommand(String),
    NoFile,
    NoUri,
    NoPlaylist,
    Excess(String),
}

impl fmt::Display for Misuse {
    fn fmt<W: fmt::Write>(&self, f: &mut fmt::Formatter<W>) -> fmt::Result {
        match self {
            Misuse::NoWords(error) => write!(f, "cannot read the arguments: {error}"),
            Misuse::NoCommand => write!(f, "no command is given"),
            Misuse::UnknownCommand(word) => write!(f, "there is no command `{word}`"),
            Misuse::NoFile => write!(f, "`table` takes a file, and none is given"),
            Misuse::NoUri => write!(f, "`playlist` takes a URI and a file, and none is given"),
            Misuse::NoPlaylist => write!(
                f,
                "`playlist` takes a file behind the URI, and none is given"
            ),
            Misuse::Excess(word) => write!(f, "the argument `{word}` is one too many"),
        }
    }
}

// The words of the command line, of which the first is the program's own name.
pub(crate) fn words(rt: &HostRuntime) -> Result<Args, Misuse> {
    env::args(rt).map_err(Misuse::NoWords)
}

pub(crate) fn parse(mut words: Args) -> Result<Command, Misuse> {
    let _program = words.next();
    let name = words.next().ok_or(Misuse::NoCommand)?;
    let command = match name.as_str() {
        "help" | "--help" | "-h" => Command::Help,
        "table" => Command::Table(words.next().ok_or(Misuse::NoFile)?),
        "playlist" => {
            let uri = words.next().ok_or(Misuse::NoUri)?;
            Command::Playlist(uri, words.next().ok_or(Misuse::NoPlaylist)?)
        }
        _ => return Err(Misuse::UnknownCommand(name)),
    };
    if let Some(word) = words.next() {
        return Err(Misuse::Excess(word));
    }
    Ok(command)
}
