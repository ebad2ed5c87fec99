//! Why a trial stops.
use crate::calls::{Difference, Verdict};
use std::alloc::{AllocError, AllocFailed};
use std::io;

/// What ends a trial before its end.
#[derive(Drop)]
pub enum Trouble {
    /// no memory is left
    Memory,
    /// the lister needs more than a trial is given
    Large,
    /// words on the command line that say nothing
    Usage,
    /// standard output failed
    Output(io::Error),
    /// a text, a floor or a call is refused
    Refused(Verdict),
    /// lister and library answer a call in different ways
    Different(Difference),
    /// they find different faults with a pattern or a floor
    Unlike {
        expected: Option<Verdict>,
        got: Option<Verdict>,
    },
}

impl From<AllocError> for Trouble {
    fn from(_error: AllocError) -> Trouble {
        Trouble::Memory
    }
}

impl<T: Drop> From<AllocFailed<T>> for Trouble {
    fn from(_error: AllocFailed<T>) -> Trouble {
        Trouble::Memory
    }
}

impl From<io::Error> for Trouble {
    fn from(error: io::Error) -> Trouble {
        Trouble::Output(error)
    }
}

impl From<Verdict> for Trouble {
    fn from(verdict: Verdict) -> Trouble {
        Trouble::Refused(verdict)
    }
}
