//! Which file a path names.
ghost use Rattle.std.specs.Prelude.{IfSome, IfNone};
ghost use Rattle.script_cache.specs.Files.{IsFileAt, HasNoFile};

use super::ScriptCache;
use gd_syntax::ResPath;
use stage_core::StageWork;

impl<W: StageWork> ScriptCache<W> {
    pub(super) fn find(&self, path: &ResPath) -> Option<u32>
        ensures some { IfSome result (λ file. IsFileAt W.Out.StageOut (W.project self.now.work) path.now file) }
        ensures none { IfNone result (HasNoFile W.Out.StageOut (W.project self.now.work) path.now) }
    {
        self.work.find(path)
    }
}
