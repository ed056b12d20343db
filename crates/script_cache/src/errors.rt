//! Why a call of the cache gives nothing.
ghost use Rattle.std.specs.Prelude.{◌≡◌};
ghost use Rattle.script_cache.specs.ClaimErrors.{claim_error};

/// Why nothing was requested.
#[derive(Clone, Copy, Debug, PartialEq, Eq)]
pub enum RequestError {
    /// The project has no file of this path.
    NoSuchFile,
    /// Another pass holds the turn.
    Held,
}

/// Why no task was claimed.
#[derive(Clone, Copy, Debug, PartialEq, Eq)]
pub enum ClaimError {
    /// Another pass holds the turn.
    Held,
    /// Every known file is finished.
    AllDone,
    /// Each task that is left waits for one under way.
    NothingReady,
    /// The task is ready again.
    NoMemory,
}

/// Why there is no status.
#[derive(Clone, Copy, Debug, PartialEq, Eq)]
pub enum StatusError {
    /// The project has no file of this path.
    NoSuchFile,
    /// Another pass holds the turn.
    Held,
}

/// Why there is no load.
#[derive(Clone, Copy, Debug, PartialEq, Eq)]
pub enum CacheAnswerError {
    /// The project has no file of this path.
    NoSuchFile,
    /// Another pass holds the turn.
    Held,
    /// A file of the closure is not finished.
    Unfinished,
    NoMemory,
}

/// Why no task was done.
#[derive(Clone, Copy, Debug, PartialEq, Eq)]
pub enum NoRaise {
    /// Every known file is finished.
    AllDone,
    /// Each task that is left waits for one under way.
    NothingReady,
    /// The task that was claimed is ready again.
    NoMemory,
}

impl From<NoRaise> for ClaimError {
    ghost from_gives = { λ none e. e ≡ claim_error none };

    fn from(none: NoRaise) -> Self {
        match none {
            NoRaise::AllDone => ClaimError::AllDone,
            NoRaise::NothingReady => ClaimError::NothingReady,
            NoRaise::NoMemory => ClaimError::NoMemory,
        }
    }
}
