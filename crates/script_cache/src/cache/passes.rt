//! How a cache begins, and passes for further threads.
ghost use Rattle.std.specs.Prelude.{◌≡◌, ◌+◌, [], IfOk, Some};
ghost use mathlib.Core.List.{IsPrefix};
ghost use Rattle.stage_core.specs.Machine.{start};
ghost use Rattle.turn_lock.specs.Rule.{longer};
ghost use Rattle.turn_lock.specs.Passes.{KeepsTurns, HasNoTurns, seen_by, left_by, lost_by, splits_of};
ghost use Rattle.script_cache.specs.Entries.{IsCachePass};

use super::{CachePass, ScriptCache};
use crate::shared_core::SharedCore;
use stage_core::{Core, StageWork};
use std::alloc::{AllocError, Global};
use turn_lock::TurnLock;

impl<W: StageWork> ScriptCache<W> {
    /// A cache in which nothing was requested, and the first pass of it. Without memory the work is dropped.
    pub fn open(alloc: Global, work: W) -> Result<(ScriptCache<W>, CachePass<W::Out>), AllocError>
    where
        W: Drop,
        ensures work { IfOk result (λ r. r.0.work ≡ work) }
        ensures pass { IfOk result (λ r. IsCachePass r.0.lock r.1) }
        ensures seen { IfOk result (λ r. seen_by r.1 ≡ []) }
        ensures left { IfOk result (λ r. left_by r.1 ≡ Some (start W.Out.StageOut (W.project work)).in_progress) }
        ensures turns { IfOk result (λ r. HasNoTurns r.1) }
        ensures splits { IfOk result (λ r. splits_of r.1 ≡ 0) }
    {
        let core = Core::new(alloc, work.project(), work.files())?;
        let (lock, pass) = TurnLock::new(alloc, SharedCore { core })?;
        Ok((ScriptCache { work, lock }, pass))
    }

    /// A pass for another thread, which has seen as much and has left the same tasks under way. It took no turn yet.
    pub fn split_pass(&self, pass: &mut CachePass<W::Out>) -> CachePass<W::Out>
        requires { IsCachePass self.now.lock pass.old }
        ensures pass { IsCachePass self.now.lock pass.new }
        ensures splits { splits_of pass.new ≡ splits_of pass.old + 1 }
        ensures same { (seen_by pass.new ≡ seen_by pass.old)
            × (left_by pass.new ≡ left_by pass.old) × (lost_by pass.new ≡ lost_by pass.old)
            × KeepsTurns pass.old pass.new }
        ensures new_pass { IsCachePass self.now.lock result }
        ensures seen { seen_by result ≡ seen_by pass.old }
        ensures left { left_by result ≡ left_by pass.old }
        ensures unsplit { splits_of result ≡ 0 }
        ensures unlost { lost_by result ≡ 0 }
        ensures turns { HasNoTurns result }
    {
        self.lock.split_pass(pass)
    }

    /// The pass has then seen the longer of both logs.
    pub fn join_pass(&self, pass: &mut CachePass<W::Out>, other: CachePass<W::Out>)
        requires pass { IsCachePass self.now.lock pass.old }
        requires other { IsCachePass self.now.lock other }
        ensures pass { IsCachePass self.now.lock pass.new }
        ensures seen { seen_by pass.new ≡ longer (seen_by pass.old) (seen_by other) }
        ensures begun_by_this { IsPrefix (seen_by pass.old) (seen_by pass.new) }
        ensures begun_by_other { IsPrefix (seen_by other) (seen_by pass.new) }
        ensures same { (left_by pass.new ≡ left_by pass.old)
            × (splits_of pass.new ≡ splits_of pass.old) × (lost_by pass.new ≡ lost_by pass.old)
            × KeepsTurns pass.old pass.new }
    {
        self.lock.join_pass(pass, other);
    }
}
