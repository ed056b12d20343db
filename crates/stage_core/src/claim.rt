//! A task under way.
ghost use Rattle.std.specs.Prelude.{◌≡◌};
ghost use Rattle.stage_core.specs.Begins.{Begins};
ghost use Rattle.stage_core.specs.Machine.{IsOpen};

use crate::engine::Core;
use crate::work::StageOut;
use std::marker::Model;
use std::snapshot::Snapshot;

/// Why no task was claimed.
#[derive(Clone, Copy, Debug, PartialEq, Eq)]
pub enum NoClaim {
    /// Every known file is finished.
    AllDone,
    /// Each task that is left waits for one under way.
    NothingReady,
}

/// A task under way. It must be spent by `Core::publish` or `Core::give_back`.
pub struct Claim<O: StageOut> {
    // The core as the claim left it, for contracts alone.
    pub(crate) core: Snapshot<Core<O>>,
    pub(crate) file: u32,
    pub(crate) stage: u8,
}

impl<O: StageOut> Model for Claim<O> {
    ghost use Rattle.stage_core.specs.CoreState.{Task};

    ghost Value = { Task O.Project O };

    ghost use Rattle.stage_core.specs.Machine.{IsOpen};

    ghost view = { λ c. record { project = c.core.value.state.project; log = c.core.value.state.log; file = c.file; stage = c.stage } };

    ghost invariant = { λ c. IsOpen O.StageOut c.core.value.state.log c.file c.stage };
}

impl<O: StageOut> Claim<O> {
    /// The file of the task.
    pub fn file(&self) -> u32
        ensures { result ≡ self.now.file }
    {
        self.file
    }

    /// The stage of the task, from 1 to 5.
    pub fn stage(&self) -> u8
        ensures { result ≡ self.now.stage }
    {
        self.stage
    }

    /// A core whose log begins with the claim's has the task open. It does nothing, and serves proofs of callers that
    /// hold a claim over other calls.
    pub fn stays_open(&self, core: &Core<O>)
        requires later { Begins self.now.log core.now.state.log }
        ensures open { IsOpen O.StageOut core.now.state.log self.now.file self.now.stage }
    {
        let _ = core;
        let _ = &self.core;
    }
}
