//! Tasks on their way from a claim to a publish.
ghost use Rattle.std.specs.Prelude.{◌≡◌};

use stage_core::{Claim, Need, Outcome, StageOut};
use std::marker::Model;

/// A task under way, with what it needs. It must be spent by `ScriptCache::compute` or `ScriptCache::try_give_back`.
pub struct Job<O: StageOut> {
    pub(crate) claim: Claim<O>,
    pub(crate) needs: Vec<Need<O>>,
}

impl<O: StageOut> Model for Job<O> {
    ghost use Rattle.stage_core.specs.CoreState.{Task};

    ghost Value = { Task O.Project O };

    ghost use Rattle.script_cache.specs.Tasks.{HasNeeds};

    ghost view = { λ j. j.claim };

    ghost invariant = { λ j. HasNeeds O.StageOut j.claim j.needs.items };
}

impl<O: StageOut> Job<O> {
    /// The file of the task.
    pub fn file(&self) -> u32
        ensures { result ≡ self.now.file }
    {
        self.claim.file()
    }

    /// The stage of the task, from 1 to 5.
    pub fn stage(&self) -> u8
        ensures { result ≡ self.now.stage }
    {
        self.claim.stage()
    }
}

/// A task under way, with its outcome. It must be spent by `ScriptCache::try_publish`.
pub struct Finished<O: StageOut> {
    pub(crate) claim: Claim<O>,
    pub(crate) outcome: Outcome<O>,
}

impl<O: StageOut> Model for Finished<O> {
    ghost use Rattle.script_cache.specs.Tasks.{FinishedTask};

    ghost Value = { FinishedTask O.Project O };

    ghost use Rattle.stage_core.specs.Log.{value_of};
    ghost use Rattle.stage_core.specs.Machine.{HoldsValue};

    ghost view = { λ f. record { task = f.claim; outcome = value_of f.outcome } };

    ghost invariant = { λ f. HoldsValue O.StageOut f.claim.project f.claim.file f.claim.stage (value_of f.outcome) };
}

/// A task that was published.
#[derive(Clone, Copy, Debug, PartialEq, Eq)]
pub struct Raised {
    pub file: u32,
    pub stage: u8,
}
