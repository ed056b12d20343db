//! Tasks: claimed, computed, and published or given back.
ghost use Rattle.std.specs.Prelude.{◌≡◌, ◌≢◌, ◌≤◌, ℕ, true, [], ◌∷◌, IfOk, IfErr, OnOk, Err, length};
ghost use mathlib.Core.List.{IsPrefix};
ghost use Rattle.stage_core.specs.Begins.{Begins};
ghost use Rattle.stage_core.specs.Log.{Publishes, GivesBack};
ghost use Rattle.stage_core.specs.Machine.{claimed, given_back, outcomes, is_claimed, HoldsValue, IsReady};
ghost use Rattle.turn_lock.specs.Passes.{seen_by, lost_by};
ghost use Rattle.script_cache.specs.Entries.{AreAllDone, IsCachePass, IsHeldOut, IsTaskOfPass, HasMade, HasClaimed, HasGivenBack, IsBack, FindsAllDone, FindsNothing};

use super::{CachePass, ScriptCache};
use crate::errors::{ClaimError, NoRaise};
use crate::job::{Finished, Job, Raised};
use stage_core::{Core, NoClaim, StageOut, StageWork};
use std::alloc::{AllocError, Global};

/// Claims a task. Without memory for its needs it is given back.
pub(super) fn claim_job<O: StageOut>(alloc: Global, core: &mut Core<O>) -> Result<Job<O>, NoRaise>
    ensures project { core.new.state.project ≡ core.old.state.project }
    ensures grows { Begins core.old.state.log core.new.state.log }
    ensures task { IfOk result (λ job. IsReady O.StageOut core.old.state.log core.old.state.in_progress job.file job.stage × (core.new.state ≡ claimed core.old.state job.file job.stage)) }
    ensures job { IfOk result (λ job. (job.project ≡ core.old.state.project) × (job.log ≡ core.new.state.log)) }
    ensures all_done { result ≡ Err NoRaise.AllDone → AreAllDone O.StageOut core.old.state.log × (core.new.state ≡ core.old.state) }
    ensures nothing_ready { result ≡ Err NoRaise.NothingReady → ((file stage : ℕ) → IsReady O.StageOut core.old.state.log core.old.state.in_progress file stage → ⊥) × (AreAllDone O.StageOut core.old.state.log → ⊥) × (core.new.state ≡ core.old.state) }
    ensures no_memory { result ≡ Err NoRaise.NoMemory → ((file : ℕ) × (stage : ℕ) × IsReady O.StageOut core.old.state.log core.old.state.in_progress file stage × (core.new.state ≡ given_back (claimed core.old.state file stage) file stage)) }
{
    match core.claim() {
        Ok(claim) => match core.needs(alloc, &claim) {
            Ok(needs) => Ok(Job { claim, needs }),
            Err(AllocError) => {
                core.give_back(claim);
                Err(NoRaise::NoMemory)
            }
        },
        Err(NoClaim::AllDone) => Err(NoRaise::AllDone),
        Err(NoClaim::NothingReady) => Err(NoRaise::NothingReady),
    }
}

impl<W: StageWork> ScriptCache<W> {
    /// Claims a task that is ready.
    pub fn try_claim(
        &self,
        alloc: Global,
        pass: &mut CachePass<W::Out>,
    ) -> Result<Job<W::Out>, ClaimError>
        requires { IsCachePass self.now.lock pass.old }
        ensures pass { IsCachePass self.now.lock pass.new }
        ensures seen { IsPrefix (seen_by pass.old) (seen_by pass.new) }
        ensures claimed { IfOk result (λ job. HasClaimed W.Out.StageOut (W.project self.now.work) job.file job.stage [] pass.old pass.new) }
        ensures logged { IfOk result (λ job. is_claimed (seen_by pass.new) job.file job.stage ≡ true) }
        ensures job { IfOk result (λ job. IsTaskOfPass (W.project self.now.work) job pass.new) }
        ensures all_done { result ≡ Err ClaimError.AllDone → FindsAllDone W.Out.StageOut (W.project self.now.work) pass.old pass.new }
        ensures nothing_ready { result ≡ Err ClaimError.NothingReady → FindsNothing W.Out.StageOut (W.project self.now.work) pass.old pass.new }
        ensures no_memory { result ≡ Err ClaimError.NoMemory → HasGivenBack W.Out.StageOut (W.project self.now.work) pass.old pass.new }
        ensures unlost { result ≢ Err ClaimError.Held → lost_by pass.new ≡ lost_by pass.old }
        ensures held { result ≡ Err ClaimError.Held → IsHeldOut self.now.lock pass.old pass.new }
    {
        let Ok(mut turn) = pass.try_enter(&self.lock) else {
            return Err(ClaimError::Held);
        };
        let found = claim_job(alloc, &mut turn.value().core);
        turn.leave();
        match found {
            Ok(job) => Ok(job),
            Err(none) => Err(ClaimError::from(none)),
        }
    }

    /// The task's outcome. It takes no turn. Without memory the job comes back.
    pub fn compute(&self, alloc: Global, job: Job<W::Out>) -> Result<Finished<W::Out>, Job<W::Out>>
        requires { job.project ≡ W.project self.now.work }
        ensures done { IfOk result (λ done. done.task ≡ job) }
        ensures value { IfOk result (λ done. HoldsValue W.Out.StageOut (W.project self.now.work) job.file job.stage done.outcome) }
        ensures back { IfErr result (λ back. back ≡ job) }
    {
        let Job { claim, needs } = job;
        match self
            .work
            .compute(alloc, claim.file(), claim.stage(), &needs)
        {
            Ok(outcome) => Ok(Finished { claim, outcome }),
            Err(AllocError) => Err(Job { claim, needs }),
        }
    }

    /// Publishes the outcome.
    pub fn try_publish(
        &self,
        pass: &mut CachePass<W::Out>,
        done: Finished<W::Out>,
    ) -> Result<Raised, Finished<W::Out>>
        requires pass { IsCachePass self.now.lock pass.old }
        requires done { IsTaskOfPass (W.project self.now.work) done.task pass.old }
        ensures pass { IsCachePass self.now.lock pass.new }
        ensures seen { IsPrefix (seen_by pass.old) (seen_by pass.new) }
        ensures task { IfOk result (λ raised. (raised.file ≡ done.task.file) × (raised.stage ≡ done.task.stage)) }
        ensures published { OnOk result (HasMade (W.project self.now.work) (Publishes done.task.file done.task.stage done.outcome ∷ []) pass.old pass.new) }
        ensures logged { OnOk result (done.task.stage ≤ length (outcomes (seen_by pass.new) done.task.file)) }
        ensures unlost { OnOk result (lost_by pass.new ≡ lost_by pass.old) }
        ensures back { IfErr result (λ back. back ≡ done) }
        ensures held { IfErr result (λ _. IsHeldOut self.now.lock pass.old pass.new) }
    {
        let Ok(mut turn) = pass.try_enter(&self.lock) else {
            return Err(done);
        };
        let Finished { claim, outcome } = done;
        let raised = Raised {
            file: claim.file(),
            stage: claim.stage(),
        };
        let core = &mut turn.value().core;
        claim.stays_open(core);
        core.publish(claim, outcome);
        turn.leave();
        Ok(raised)
    }

    /// Ends the task without an outcome. It is ready again.
    pub fn try_give_back(
        &self,
        pass: &mut CachePass<W::Out>,
        job: Job<W::Out>,
    ) -> Result<(), Job<W::Out>>
        requires pass { IsCachePass self.now.lock pass.old }
        requires job { IsTaskOfPass (W.project self.now.work) job pass.old }
        ensures pass { IsCachePass self.now.lock pass.new }
        ensures seen { IsPrefix (seen_by pass.old) (seen_by pass.new) }
        ensures given_back { OnOk result (HasMade (W.project self.now.work) (GivesBack job.file job.stage ∷ []) pass.old pass.new) }
        ensures stands { OnOk result (IsBack W.Out.StageOut job.file job.stage pass.new) }
        ensures unlost { OnOk result (lost_by pass.new ≡ lost_by pass.old) }
        ensures back { IfErr result (λ back. back ≡ job) }
        ensures held { IfErr result (λ _. IsHeldOut self.now.lock pass.old pass.new) }
    {
        let Ok(mut turn) = pass.try_enter(&self.lock) else {
            return Err(job);
        };
        let Job { claim, needs: _ } = job;
        let core = &mut turn.value().core;
        claim.stays_open(core);
        core.give_back(claim);
        turn.leave();
        Ok(())
    }
}
