//! What can go wrong, in one line each.
use fault::Fault;
use listing::Trouble;
use std::alloc::{AllocError, AllocFailed};
use std::num::ParseIntError;
use std::{fmt, io};

/// Why the program ends without doing what it was asked.
#[derive(Drop)]
pub enum Problem {
    /// an input that breaks a rule
    Refused(Fault),
    /// words on the command line that say nothing
    Usage(&'static str),
    /// a line of a script that is no call, by its number
    Script(usize),
    /// a file that cannot be read
    Unreadable(String, io::Error),
    /// standard output or memory failed
    Io(io::Error),
    /// there was no memory for the replies
    Memory,
}

/// Why words could not be read.
#[derive(Drop)]
pub enum Misread {
    /// they say nothing where they stand
    Words,
    /// there was no memory for what they say
    Memory(AllocError),
}

impl Misread {
    /// The problem that the words are, where it was not memory that failed.
    pub(crate) fn or(self, problem: Problem) -> Problem {
        match self {
            Misread::Words => problem,
            Misread::Memory(error) => Problem::from(error),
        }
    }
}

impl From<ParseIntError> for Misread {
    fn from(_error: ParseIntError) -> Misread {
        Misread::Words
    }
}

impl From<AllocError> for Misread {
    fn from(error: AllocError) -> Misread {
        Misread::Memory(error)
    }
}

impl From<Fault> for Problem {
    fn from(fault: Fault) -> Problem {
        Problem::Refused(fault)
    }
}

impl From<io::Error> for Problem {
    fn from(error: io::Error) -> Problem {
        Problem::Io(error)
    }
}

impl From<AllocError> for Problem {
    fn from(error: AllocError) -> Problem {
        Problem::Io(io::Error::from(error))
    }
}

impl<T: Drop> From<AllocFailed<T>> for Problem {
    fn from(_refused: AllocFailed<T>) -> Problem {
        Problem::Memory
    }
}

impl From<Trouble> for Problem {
    fn from(trouble: Trouble) -> Problem {
        match trouble {
            Trouble::Memory => Problem::Memory,
            Trouble::Refused(fault) => Problem::Refused(fault),
        }
    }
}

impl fmt::Display for Problem {
    fn fmt<W: fmt::Write>(&self, f: &mut fmt::Formatter<W>) -> fmt::Result {
        match self {
            Problem::Refused(fault) => write!(f, "refused: {fault}"),
            Problem::Usage(words) => write!(f, "usage: {words}"),
            Problem::Script(line) => write!(
                f,
                "usage: line {line} of the script is no call: pose A B all|shortest, next [K], again, check WORDS, resume WORDS"
            ),
            Problem::Unreadable(path, error) => {
                let path = path.as_str();
                write!(f, "cannot read {path}: {error}")
            }
            Problem::Io(error) => write!(f, "stopped: {error}"),
            Problem::Memory => write!(f, "stopped: no memory"),
        }
    }
}
