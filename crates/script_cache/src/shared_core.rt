//! A core as a lock keeps it.
ghost use Rattle.std.specs.Prelude.{◌≡◌, ℕ, List, length};

use stage_core::{Core, Entry, StageOut, TasksInProgress};
use turn_lock::Told;

/// A core, of which a lock knows the project, the log and the tasks under way.
#[derive(Drop)]
pub struct SharedCore<O: StageOut> {
    pub core: Core<O>,
}

impl<O: StageOut> Told for SharedCore<O> {
    type Project = O::Project;

    type Entry = Entry<O>;

    type State = TasksInProgress;

    ghost project = { λ s. s.core.state.project };

    ghost log = { λ s. s.core.state.log };

    ghost state = { λ s. s.core.state.in_progress };

    fn log_len(&self) -> u64 {
        self.core.log_len()
    }
}
