ghost use Rattle.std.specs.Prelude.{◌≡◌};
ghost use Rattle.variant_values.specs.Faults.{comes_before};
ghost use Rattle.variant_values.specs.declared.faults.Trouble.TheVariants.{Fault, NoMemory};

use std::alloc::{AllocError, AllocFailed};

/// Why a run ends. Where several apply to one operation or call, the first of this list comes.
#[derive(Clone, Copy, Debug, PartialEq, Eq)]
pub enum RunFault {
    NullAccess,
    FreedAccess,
    NotCallable,
    NoMember,
    NoMethod,
    NoSignal,
    BadArgs,
    BadOperands,
    BadKey,
    BadIndex,
    ElementType,
    NoKey,
    BadFormat,
    BadType,
    NodeBusy,
    NoNode,
    AlreadyConnected,
    NotConnected,
    DivisionByZero,
    BadShift,
    TooDeep,
    TooLong,
    HeapFull,
    OutputFull,
    CallTooDeep,
    AssertFailed,
}

impl RunFault {
    /// Whether the fault comes where another applies too.
    pub fn comes_before(self, other: RunFault) -> bool
        ensures { result ≡ comes_before self other }
    {
        (self as u8) < other as u8
    }
}

/// Why a call on values gives no answer.
#[derive(Clone, Copy, Debug, PartialEq, Eq)]
pub enum Trouble {
    Fault(RunFault),
    NoMemory,
}

impl From<RunFault> for Trouble {
    ghost from_gives = { λ fault t. t ≡ Fault fault };

    fn from(fault: RunFault) -> Self {
        Trouble::Fault(fault)
    }
}

impl From<AllocError> for Trouble {
    ghost from_gives = { λ _ t. t ≡ NoMemory };

    fn from(_: AllocError) -> Self {
        Trouble::NoMemory
    }
}

impl<T: Drop> From<AllocFailed<T>> for Trouble {
    ghost from_gives = { λ _ t. t ≡ NoMemory };

    fn from(_: AllocFailed<T>) -> Self {
        Trouble::NoMemory
    }
}
