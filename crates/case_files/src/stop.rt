// What ends the program early.
ghost use Rattle.std.specs.Prelude.{◌≡◌};

use std::alloc::{AllocError, AllocFailed};
use std::io;
use std::io::ErrorKind;

/// What ends the program early.
#[derive(Clone, Copy)]
pub enum Stop {
    /// A line of a case file is no case.
    BadCase,
    /// A case file could not be read.
    Unreadable,
    /// A write failed.
    Unwritten,
    NoMemory,
}

impl Stop {
    ghost use Rattle.case_files.specs.Statuses.{number_of_stop};

    /// The exit status.
    pub fn number(&self) -> u8
        ensures { result ≡ number_of_stop self.now }
    {
        match self {
            Stop::BadCase => 2,
            Stop::Unreadable => 5,
            Stop::Unwritten => 6,
            Stop::NoMemory => 7,
        }
    }
}

impl From<AllocError> for Stop {
    fn from(_: AllocError) -> Self {
        Stop::NoMemory
    }
}

impl<T: Drop> From<AllocFailed<T>> for Stop {
    fn from(_: AllocFailed<T>) -> Self {
        Stop::NoMemory
    }
}

impl From<io::Error> for Stop {
    fn from(error: io::Error) -> Self {
        if error.kind() == ErrorKind::OutOfMemory {
            Stop::NoMemory
        } else {
            Stop::Unreadable
        }
    }
}
