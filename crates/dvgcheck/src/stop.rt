//! Why a run ends without an answer, or before its last.

use crate::input::is_no_memory;
use dvg_cmd::{Outcome, RunFault, status_of};
use std::alloc::{AllocError, AllocFailed};
use std::io;

/// Why a run ends without an answer, or before its last.
#[derive(Drop)]
pub enum Stop {
    /// The command line asks for help or for the version: the text.
    Help(String),
    /// `clap` refuses an argument, or there is none: the text for standard error.
    Usage(String),
    /// An argument that `clap` takes, or the file of labels, has no meaning: the line on standard error, without its LF.
    Line(String),
    /// The command line can't be read or asks for what can't be, or it names no frame: the line, without its LF.
    Misuse(&'static str),
    /// A file can't be read that names frames or addresses: the line, without its LF.
    Unreadable(&'static str),
    /// A fault of the run, behind frames that came to this; to `Accepted` where there are none.
    Fault { fault: RunFault, frames: Outcome },
}

impl Stop {
    /// What this line says.
    pub fn saying(line: Result<String, AllocError>) -> Stop {
        match line {
            Ok(line) => Stop::Line(line),
            Err(error) => error.into(),
        }
    }

    /// What something that could not be read ends the run by, unless there was no memory for it.
    pub fn unread(error: &io::Error, stop: Stop) -> Stop {
        if is_no_memory(error) {
            RunFault::Memory.into()
        } else {
            stop
        }
    }

    /// The same behind frames that came to this.
    pub fn behind(self, frames: Outcome) -> Stop {
        match self {
            Stop::Fault { fault, .. } => Stop::Fault { fault, frames },
            _ => self,
        }
    }
}

/// The exit status of a fault behind frames that came to this: that one of them could not be read is worse than that memory was out.
pub fn status_behind(fault: RunFault, frames: Outcome) -> u8 {
    match frames {
        Outcome::Unread => status_of(&Ok(frames)),
        _ => status_of(&Err(fault)),
    }
}

impl From<RunFault> for Stop {
    fn from(fault: RunFault) -> Stop {
        Stop::Fault {
            fault,
            frames: Outcome::Accepted,
        }
    }
}

impl From<AllocError> for Stop {
    fn from(_error: AllocError) -> Stop {
        RunFault::Memory.into()
    }
}

impl<T: Drop> From<AllocFailed<T>> for Stop {
    fn from(_error: AllocFailed<T>) -> Stop {
        RunFault::Memory.into()
    }
}
