// What ends a line early.

use case_files::Stop;
use std::alloc::{AllocError, AllocFailed};
use variant_values::faults::{RunFault, Trouble};

/// What ends a line early.
#[derive(Clone, Copy)]
pub enum Refusal {
    /// the fault that is printed in the place of a value
    Fault(RunFault),
    /// what ends the program
    Ended(Stop),
}

/// Where a line is no case, a value names what is not there, or a call that was refused left another heap.
pub const BAD_CASE: Refusal = Refusal::Ended(Stop::BadCase);

impl From<RunFault> for Refusal {
    fn from(fault: RunFault) -> Self {
        Refusal::Fault(fault)
    }
}

impl From<Trouble> for Refusal {
    fn from(trouble: Trouble) -> Self {
        match trouble {
            Trouble::Fault(fault) => Refusal::Fault(fault),
            Trouble::NoMemory => Refusal::Ended(Stop::NoMemory),
        }
    }
}

impl From<AllocError> for Refusal {
    fn from(_: AllocError) -> Self {
        Refusal::Ended(Stop::NoMemory)
    }
}

impl<T: Drop> From<AllocFailed<T>> for Refusal {
    fn from(_: AllocFailed<T>) -> Self {
        Refusal::Ended(Stop::NoMemory)
    }
}
