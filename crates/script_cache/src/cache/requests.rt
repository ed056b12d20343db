//! Requests.
ghost use Rattle.std.specs.Prelude.{◌≡◌, ◌≢◌, ◌↔◌, ℕ, true, [], ◌∷◌, OnOk, Err};
ghost use mathlib.Core.List.{IsPrefix};
ghost use Rattle.stage_core.specs.Log.{Requests};
ghost use Rattle.turn_lock.specs.Passes.{seen_by, lost_by};
ghost use Rattle.script_cache.specs.Entries.{IsCachePass, IsHeldOut, HasRequested};
ghost use Rattle.script_cache.specs.Files.{HasNoFile};

use super::{CachePass, ScriptCache};
use crate::errors::RequestError;
use gd_syntax::ResPath;
use stage_core::StageWork;
use std::sync::Wait;

impl<W: StageWork> ScriptCache<W> {
    /// Makes the file of the path known. A repeat changes nothing.
    pub fn try_request(
        &self,
        pass: &mut CachePass<W::Out>,
        path: &ResPath,
    ) -> Result<(), RequestError>
        requires { IsCachePass self.now.lock pass.old }
        ensures pass { IsCachePass self.now.lock pass.new }
        ensures seen { IsPrefix (seen_by pass.old) (seen_by pass.new) }
        ensures requested { OnOk result (HasRequested W.Out.StageOut (W.project self.now.work) path.now pass.old pass.new) }
        ensures unlost { OnOk result (lost_by pass.new ≡ lost_by pass.old) }
        ensures no_file { (result ≡ Err RequestError.NoSuchFile) ↔ HasNoFile W.Out.StageOut (W.project self.now.work) path.now }
        ensures untouched { result ≡ Err RequestError.NoSuchFile → pass.new ≡ pass.old }
        ensures held { result ≡ Err RequestError.Held → IsHeldOut self.now.lock pass.old pass.new }
    {
        let Some(file) = self.find(path) else {
            return Err(RequestError::NoSuchFile);
        };
        let Ok(mut turn) = pass.try_enter(&self.lock) else {
            return Err(RequestError::Held);
        };
        turn.value().core.request(file);
        turn.leave();
        Ok(())
    }

    /// Waits for the turn, and makes the file of the path known. A repeat changes nothing.
    pub fn request<R: Wait>(
        &self,
        rt: &R,
        pass: &mut CachePass<W::Out>,
        path: &ResPath,
    ) -> Result<(), RequestError>
        requires { IsCachePass self.now.lock pass.old }
        ensures pass { IsCachePass self.now.lock pass.new }
        ensures seen { IsPrefix (seen_by pass.old) (seen_by pass.new) }
        ensures requested { OnOk result (HasRequested W.Out.StageOut (W.project self.now.work) path.now pass.old pass.new) }
        ensures no_file { (result ≡ Err RequestError.NoSuchFile) ↔ HasNoFile W.Out.StageOut (W.project self.now.work) path.now }
        ensures untouched { result ≡ Err RequestError.NoSuchFile → pass.new ≡ pass.old }
        ensures never_held { result ≢ Err RequestError.Held }
    {
        let Some(file) = self.find(path) else {
            return Err(RequestError::NoSuchFile);
        };
        let mut turn = self.lock.enter(rt, pass);
        turn.value().core.request(file);
        turn.leave();
        Ok(())
    }
}
