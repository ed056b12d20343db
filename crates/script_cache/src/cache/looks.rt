//! Statuses and loads.
ghost use Rattle.std.specs.Prelude.{◌≡◌, ◌≢◌, ◌↔◌, ◌<◌, [], ℕ, Err, IfOk, OnOk, false, true};
ghost use mathlib.Core.List.{IsPrefix};
ghost use Rattle.stage_core.specs.Load.{IsAnswer, InClosure};
ghost use Rattle.stage_core.specs.Machine.{outcomes, is_done_at};
ghost use Rattle.turn_lock.specs.Passes.{seen_by, lost_by};
ghost use Rattle.script_cache.specs.Entries.{IsCachePass, IsHeldOut, HasMade};
ghost use Rattle.script_cache.specs.Files.{HasNoFile, IsStatusAt, IsAnswerAt, IsUnfinishedAt};

use super::{CachePass, ScriptCache};
use crate::errors::{CacheAnswerError, StatusError};
use gd_syntax::ResPath;
use stage_core::{Answer, AnswerError, RefStatus, StageWork};
use std::alloc::Global;
use std::sync::Wait;

impl<W: StageWork> ScriptCache<W> {
    /// How far the file of the path has come, by a log that begins with what the pass had seen.
    pub fn try_status(
        &self,
        pass: &mut CachePass<W::Out>,
        path: &ResPath,
    ) -> Result<RefStatus, StatusError>
        requires { IsCachePass self.now.lock pass.old }
        ensures pass { IsCachePass self.now.lock pass.new }
        ensures seen { IsPrefix (seen_by pass.old) (seen_by pass.new) }
        ensures status { IfOk result (λ status. IsStatusAt W.Out.StageOut (W.project self.now.work) path.now (seen_by pass.new) status) }
        ensures looked { OnOk result (HasMade (W.project self.now.work) [] pass.old pass.new) }
        ensures unlost { OnOk result (lost_by pass.new ≡ lost_by pass.old) }
        ensures no_file { (result ≡ Err StatusError.NoSuchFile) ↔ HasNoFile W.Out.StageOut (W.project self.now.work) path.now }
        ensures untouched { result ≡ Err StatusError.NoSuchFile → pass.new ≡ pass.old }
        ensures held { result ≡ Err StatusError.Held → IsHeldOut self.now.lock pass.old pass.new }
    {
        let Some(file) = self.find(path) else {
            return Err(StatusError::NoSuchFile);
        };
        let Ok(mut turn) = pass.try_enter(&self.lock) else {
            return Err(StatusError::Held);
        };
        let status = turn.value().core.status(file);
        turn.leave();
        Ok(status)
    }

    /// The load of the file of the path.
    pub fn try_answer(
        &self,
        alloc: Global,
        pass: &mut CachePass<W::Out>,
        path: &ResPath,
    ) -> Result<Answer<W::Out>, CacheAnswerError>
        requires { IsCachePass self.now.lock pass.old }
        ensures pass { IsCachePass self.now.lock pass.new }
        ensures seen { IsPrefix (seen_by pass.old) (seen_by pass.new) }
        ensures answer { IfOk result (λ answer. IsAnswerAt W.Out.StageOut (W.project self.now.work) path.now (seen_by pass.new) answer) }
        ensures unfinished { result ≡ Err CacheAnswerError.Unfinished → IsUnfinishedAt W.Out.StageOut (W.project self.now.work) path.now (seen_by pass.new) }
        ensures looked { result ≢ Err CacheAnswerError.NoSuchFile → result ≢ Err CacheAnswerError.Held → HasMade (W.project self.now.work) [] pass.old pass.new }
        ensures unlost { result ≢ Err CacheAnswerError.Held → lost_by pass.new ≡ lost_by pass.old }
        ensures no_file { (result ≡ Err CacheAnswerError.NoSuchFile) ↔ HasNoFile W.Out.StageOut (W.project self.now.work) path.now }
        ensures untouched { result ≡ Err CacheAnswerError.NoSuchFile → pass.new ≡ pass.old }
        ensures held { result ≡ Err CacheAnswerError.Held → IsHeldOut self.now.lock pass.old pass.new }
    {
        let Some(file) = self.find(path) else {
            return Err(CacheAnswerError::NoSuchFile);
        };
        let Ok(mut turn) = pass.try_enter(&self.lock) else {
            return Err(CacheAnswerError::Held);
        };
        let answer = turn.value().core.answer(alloc, file);
        turn.leave();
        match answer {
            Ok(answer) => Ok(answer),
            Err(AnswerError::Unfinished) => Err(CacheAnswerError::Unfinished),
            Err(AnswerError::NoMemory) => Err(CacheAnswerError::NoMemory),
        }
    }

    /// Waits for the turn, and gives the load of the file of the path.
    pub fn answer<R: Wait>(
        &self,
        rt: &R,
        alloc: Global,
        pass: &mut CachePass<W::Out>,
        path: &ResPath,
    ) -> Result<Answer<W::Out>, CacheAnswerError>
        requires { IsCachePass self.now.lock pass.old }
        ensures pass { IsCachePass self.now.lock pass.new }
        ensures seen { IsPrefix (seen_by pass.old) (seen_by pass.new) }
        ensures answer { IfOk result (λ answer. IsAnswerAt W.Out.StageOut (W.project self.now.work) path.now (seen_by pass.new) answer) }
        ensures unfinished { result ≡ Err CacheAnswerError.Unfinished → IsUnfinishedAt W.Out.StageOut (W.project self.now.work) path.now (seen_by pass.new) }
        ensures looked { result ≢ Err CacheAnswerError.NoSuchFile → HasMade (W.project self.now.work) [] pass.old pass.new }
        ensures no_file { (result ≡ Err CacheAnswerError.NoSuchFile) ↔ HasNoFile W.Out.StageOut (W.project self.now.work) path.now }
        ensures untouched { result ≡ Err CacheAnswerError.NoSuchFile → pass.new ≡ pass.old }
        ensures never_held { result ≢ Err CacheAnswerError.Held }
    {
        let Some(file) = self.find(path) else {
            return Err(CacheAnswerError::NoSuchFile);
        };
        let mut turn = self.lock.enter(rt, pass);
        let answer = turn.value().core.answer(alloc, file);
        turn.leave();
        match answer {
            Ok(answer) => Ok(answer),
            Err(AnswerError::Unfinished) => Err(CacheAnswerError::Unfinished),
            Err(AnswerError::NoMemory) => Err(CacheAnswerError::NoMemory),
        }
    }
}
