//! The cache, and the passes that threads enter it with.
ghost use Rattle.std.specs.Prelude.{◌≡◌};
ghost use Rattle.turn_lock.specs.Passes.{project_of};

use crate::shared_core::SharedCore;
use stage_core::StageWork;
use turn_lock::{Pass, TurnLock};

mod files;
mod looks;
mod passes;
mod raising;
mod requests;
mod tasks;

/// What a thread enters a cache with. It has no bytes.
pub type CachePass<O> = Pass<SharedCore<O>>;

/// The results of one project's stages, shared by threads.
#[derive(Drop)]
pub struct ScriptCache<W: StageWork> {
    work: W,
    lock: TurnLock<SharedCore<W::Out>>,
    ghost same_project: { project_of (λ s. s.core.state.project) lock ≡ W.project work },
}
