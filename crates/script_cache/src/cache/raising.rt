//! One task from its claim to its publish.
ghost use Rattle.std.specs.Prelude.{◌≡◌, ◌<◌, ◌≤◌, ℕ, [], ◌∷◌, IfOk, Err, length, ◌⊎◌};
ghost use mathlib.Core.List.{IsPrefix};
ghost use Rattle.stage_core.specs.Log.{Publishes, GivesBack};
ghost use Rattle.stage_core.specs.Machine.{outcomes};
ghost use Rattle.turn_lock.specs.Passes.{seen_by};
ghost use Rattle.script_cache.specs.Entries.{IsCachePass, IsTaskOfPass, HasMade, HasClaimed, HasGivenBack, IsBack, HasRaised, HasRetried, FindsAllDone, FindsNothing};

use super::tasks::claim_job;
use super::{CachePass, ScriptCache};
use crate::errors::NoRaise;
use crate::gate::Gate;
use crate::job::{Finished, Job, Raised};
use stage_core::StageWork;
use std::alloc::Global;
use std::sync::Wait;

impl<W: StageWork> ScriptCache<W> {
    fn claim<R: Wait>(
        &self,
        rt: &R,
        alloc: Global,
        pass: &mut CachePass<W::Out>,
    ) -> Result<Job<W::Out>, NoRaise>
        requires { IsCachePass self.now.lock pass.old }
        ensures pass { IsCachePass self.now.lock pass.new }
        ensures seen { IsPrefix (seen_by pass.old) (seen_by pass.new) }
        ensures claimed { IfOk result (λ job. HasClaimed W.Out.StageOut (W.project self.now.work) job.file job.stage [] pass.old pass.new) }
        ensures job { IfOk result (λ job. IsTaskOfPass (W.project self.now.work) job pass.new) }
        ensures all_done { result ≡ Err NoRaise.AllDone → FindsAllDone W.Out.StageOut (W.project self.now.work) pass.old pass.new }
        ensures nothing_ready { result ≡ Err NoRaise.NothingReady → FindsNothing W.Out.StageOut (W.project self.now.work) pass.old pass.new }
        ensures no_memory { result ≡ Err NoRaise.NoMemory → HasGivenBack W.Out.StageOut (W.project self.now.work) pass.old pass.new }
    {
        let mut turn = self.lock.enter(rt, pass);
        let found = claim_job(alloc, &mut turn.value().core);
        turn.leave();
        found
    }

    fn publish<R: Wait>(
        &self,
        rt: &R,
        pass: &mut CachePass<W::Out>,
        done: Finished<W::Out>,
    ) -> Raised
        requires pass { IsCachePass self.now.lock pass.old }
        requires done { IsTaskOfPass (W.project self.now.work) done.task pass.old }
        ensures pass { IsCachePass self.now.lock pass.new }
        ensures seen { IsPrefix (seen_by pass.old) (seen_by pass.new) }
        ensures task { (result.file ≡ done.task.file) × (result.stage ≡ done.task.stage) }
        ensures published { HasMade (W.project self.now.work) (Publishes done.task.file done.task.stage done.outcome ∷ []) pass.old pass.new }
        ensures logged { done.task.stage ≤ length (outcomes (seen_by pass.new) done.task.file) }
    {
        let mut turn = self.lock.enter(rt, pass);
        let Finished { claim, outcome } = done;
        let raised = Raised {
            file: claim.file(),
            stage: claim.stage(),
        };
        let core = &mut turn.value().core;
        claim.stays_open(core);
        core.publish(claim, outcome);
        turn.leave();
        raised
    }

    fn give_back<R: Wait>(&self, rt: &R, pass: &mut CachePass<W::Out>, job: Job<W::Out>)
        requires pass { IsCachePass self.now.lock pass.old }
        requires job { IsTaskOfPass (W.project self.now.work) job pass.old }
        ensures pass { IsCachePass self.now.lock pass.new }
        ensures seen { IsPrefix (seen_by pass.old) (seen_by pass.new) }
        ensures given_back { HasMade (W.project self.now.work) (GivesBack job.file job.stage ∷ []) pass.old pass.new }
        ensures back { IsBack W.Out.StageOut job.file job.stage pass.new }
    {
        let mut turn = self.lock.enter(rt, pass);
        let Job { claim, needs: _ } = job;
        let core = &mut turn.value().core;
        claim.stays_open(core);
        core.give_back(claim);
        turn.leave();
    }

    /// Does one task: claims it, computes it without the turn, and publishes it. The gate is told before it is computed
    /// and after its publish.
    pub fn raise<R: Wait, G: Gate>(
        &self,
        rt: &R,
        alloc: Global,
        pass: &mut CachePass<W::Out>,
        gate: &G,
    ) -> Result<Raised, NoRaise>
        requires { IsCachePass self.now.lock pass.old }
        ensures pass { IsCachePass self.now.lock pass.new }
        ensures seen { IsPrefix (seen_by pass.old) (seen_by pass.new) }
        ensures raised { IfOk result (λ raised. HasRaised W.Out.StageOut (W.project self.now.work) raised.file raised.stage pass.old pass.new) }
        ensures past { IfOk result (λ raised. length (outcomes (seen_by pass.old) raised.file) < raised.stage) }
        ensures logged { IfOk result (λ raised. raised.stage ≤ length (outcomes (seen_by pass.new) raised.file)) }
        ensures all_done { result ≡ Err NoRaise.AllDone → FindsAllDone W.Out.StageOut (W.project self.now.work) pass.old pass.new }
        ensures nothing_ready { result ≡ Err NoRaise.NothingReady → FindsNothing W.Out.StageOut (W.project self.now.work) pass.old pass.new }
        ensures no_memory { result ≡ Err NoRaise.NoMemory → HasGivenBack W.Out.StageOut (W.project self.now.work) pass.old pass.new ⊎ HasRetried W.Out.StageOut (W.project self.now.work) pass.old pass.new }
    {
        let job = match self.claim(rt, alloc, pass) {
            Ok(job) => job,
            Err(none) => return Err(none),
        };
        let stage = job.stage();
        let path = self.work.path(job.file());
        gate.before(path, stage);
        match self.compute(alloc, job) {
            Ok(done) => {
                let raised = self.publish(rt, pass, done);
                gate.after(path, stage);
                Ok(raised)
            }
            Err(job) => {
                self.give_back(rt, pass, job);
                Err(NoRaise::NoMemory)
            }
        }
    }
}
