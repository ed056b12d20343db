// What stops a run before its text is whole.
ghost use Rattle.std.specs.Prelude.{◌≡◌};
ghost use Rattle.gdrun.specs.declared.stop.Stop.TheVariants.{NoMemory, SinkFault};

use host_io::WriteError;
use std::alloc::{AllocError, AllocFailed};

/// What stops a run before its text is whole.
#[derive(Clone, Copy, Debug, PartialEq, Eq)]
pub enum Stop {
    NoMemory,
    SinkFault,
}

impl From<AllocError> for Stop {
    ghost from_gives = { λ _ e. e ≡ NoMemory };

    fn from(_: AllocError) -> Self {
        Stop::NoMemory
    }
}

impl<T: Drop> From<AllocFailed<T>> for Stop {
    ghost from_gives = { λ _ e. e ≡ NoMemory };

    fn from(_: AllocFailed<T>) -> Self {
        Stop::NoMemory
    }
}

impl From<WriteError> for Stop {
    ghost from_gives = { λ _ e. e ≡ SinkFault };

    fn from(_: WriteError) -> Self {
        Stop::SinkFault
    }
}
