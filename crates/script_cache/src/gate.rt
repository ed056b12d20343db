//! Who is told of a task before and after it is computed.
use gd_syntax::ResPath;

/// Told of each task of `ScriptCache::raise`, on its own thread and without the turn.
pub trait Gate: Sync {
    /// The task was claimed.
    fn before(&self, path: &ResPath, stage: u8);

    /// The task was published.
    fn after(&self, path: &ResPath, stage: u8);
}

/// A gate that does nothing.
#[derive(Clone, Copy, Debug, PartialEq, Eq)]
pub struct NoGate;

impl Gate for NoGate {
    fn before(&self, _path: &ResPath, _stage: u8) {}

    fn after(&self, _path: &ResPath, _stage: u8) {}
}
