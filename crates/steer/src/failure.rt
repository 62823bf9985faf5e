// What ends the program with status 1, and what is said of it.
use crate::command::{Misuse, USAGE};
use std::alloc::AllocError;
use std::io;
use terms::fault::Fault;

#[derive(Drop)]
pub enum Failure {
    Misuse(Misuse),
    Unreadable(String, io::Error),
    Fault(Fault),
    // No memory for the index of a playlist.
    NoMemory,
    // An answer that is no text; a checked table or playlist gives none.
    NoText,
    Unwritten(io::Error),
}

impl From<Misuse> for Failure {
    fn from(misuse: Misuse) -> Failure {
        Failure::Misuse(misuse)
    }
}

impl From<Fault> for Failure {
    fn from(fault: Fault) -> Failure {
        Failure::Fault(fault)
    }
}

impl From<AllocError> for Failure {
    fn from(_error: AllocError) -> Failure {
        Failure::NoMemory
    }
}

// Only what is printed takes this way.
impl From<io::Error> for Failure {
    fn from(error: io::Error) -> Failure {
        Failure::Unwritten(error)
    }
}

impl Failure {
    // A fault is the program's answer and goes to standard output, all else to standard error.
    pub(crate) fn tell(&self, rt: &(impl Print + Eprint)) -> io::Result<()> {
        match self {
            Failure::Misuse(misuse) => eprint!(rt; "steer: {misuse}\n{USAGE}"),
            Failure::Unreadable(path, error) => eprintln!(rt;
                "steer: cannot read `{path}`: {error}"
            ),
            Failure::Fault(fault) => println!(rt; "refused {fault}"),
            Failure::NoMemory => eprintln!(rt;
                "steer: there is no memory for the index of the playlist"
            ),
            Failure::NoText => eprintln!(rt;
                "steer: the description gave an answer that is no text"
            ),
            Failure::Unwritten(error) => eprintln!(rt; "steer: cannot write the answer: {error}"),
        }
    }
}
