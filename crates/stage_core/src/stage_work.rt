//! The work whose results a core keeps.
ghost use Rattle.std.specs.Prelude.{◌≡◌, ◌≢◌, ℕ, ◌<◌, IfOk, IfSome, IfNone};
ghost use Rattle.stage_core.specs.Log.{value_of};
ghost use Rattle.stage_core.specs.Machine.{HoldsValue};
ghost use Rattle.stage_core.specs.Value.{IsTaskOf, AreNeedsOf};

use crate::work::{Need, Outcome, StageOut};
use gd_syntax::ResPath;
use std::alloc::{AllocError, Global};

/// The files of one project, and the computing of their stages.
pub trait StageWork {
    type Out: StageOut;

    ghost project: { Self → Self.Out.Project };

    fn project(&self) -> &<Self::Out as StageOut>::Project
        ensures { result.now ≡ project self.now };

    /// The number of files.
    fn files(&self) -> u32
        ensures { result ≡ Self.Out.files (project self.now) };

    /// The file of a path.
    fn find(&self, path: &ResPath) -> Option<u32>
        ensures some { IfSome result (λ file. (file < Self.Out.files (project self.now)) × (Self.Out.path (project self.now) file ≡ path.now)) }
        ensures none { IfNone result ((file : ℕ) → file < Self.Out.files (project self.now) → Self.Out.path (project self.now) file ≢ path.now) };

    /// The path of a file.
    fn path(&self, file: u32) -> &ResPath
        requires { file < Self.Out.files (project self.now) }
        ensures { result.now ≡ Self.Out.path (project self.now) file };

    /// The outcome of a task, from the outcomes of the files that it needs.
    fn compute(
        &self,
        alloc: Global,
        file: u32,
        stage: u8,
        needs: &[Need<Self::Out>],
    ) -> Result<Outcome<Self::Out>, AllocError>
        requires task { IsTaskOf Self.Out.StageOut (project self.now) file stage }
        requires needs { AreNeedsOf Self.Out.StageOut (project self.now) file stage needs.now }
        ensures { IfOk result (λ outcome. HoldsValue Self.Out.StageOut (project self.now) file stage (value_of outcome)) };
}
