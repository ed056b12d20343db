//! What a stage gives: results, refusals, and what a project says of them.
ghost use Rattle.std.specs.Prelude.{◌≡◌, ◌≢◌, ℕ, ◌<◌, ◌≤◌, ◌⊎◌, List, Contains};
ghost use Rattle.std.specs.declared.cmp.Ordering.TheVariants.{Less};
ghost use Rattle.stage_core.specs.Stages.{IsBlockedBy, IsStoppedBefore};
ghost use Rattle.stage_core.specs.declared.work.StageValue.TheVariants.{Done, Blocked, Absent};
ghost use Rattle.stage_core.specs.Paths.{path_order};

use gd_syntax::LoadFault;
use std::sync::Arc;

/// What a project says of a file at a stage.
#[derive(Clone, Copy, Debug, PartialEq, Eq)]
pub enum StageValue {
    /// The stage has a result.
    Done,
    /// The file has a fault of this stage.
    Refused(LoadFault),
    /// Another file that it needs was refused or blocked at an earlier stage.
    Blocked,
    /// The file was refused or blocked at an earlier stage.
    Absent,
}

/// A result of a stage. What it says of projects is for contracts alone.
pub trait StageOut: Drop {
    type Project: Drop;

    ghost use Rattle.stage_core.specs.declared.work.StageValue.{StageValue};

    /// The number of files of a project.
    ghost files: { Self.Project → ℕ };

    /// The bytes of a file's path.
    ghost path: { Self.Project → ℕ → List ℕ };

    /// The value of a file at a stage from 1 to 5, but for the result.
    ghost value: { Self.Project → ℕ → ℕ → StageValue };

    /// A result is that of the file at the stage.
    ghost holds: { Self.Project → ℕ → ℕ → Self → Type 0 };

    /// The direct links of a file whose stage 1 has a result.
    ghost file_links: { Self.Project → ℕ → List ℕ };

    /// Its direct bases or instances.
    ghost file_walk: { Self.Project → ℕ → List ℕ };

    ghost links: { Self → List ℕ };

    ghost walk: { Self → List ℕ };

    /// The file's direct links, in a result of stage 1.
    fn links(&self) -> &[u32]
        ensures { result.now ≡ links self.now };

    /// The file's direct bases or instances, in a result of stage 1.
    fn walk(&self) -> &[u32]
        ensures { result.now ≡ walk self.now };

    ghost links_of_value: { (p : Self.Project) (f : ℕ) (x : Self) → holds p f 1 x → links x ≡ file_links p f };

    ghost walk_of_value: { (p : Self.Project) (f : ℕ) (x : Self) → holds p f 1 x → walk x ≡ file_walk p f };

    ghost links_in_range: { (p : Self.Project) (f h : ℕ) → Contains (file_links p f) h → h < files p };

    ghost walk_in_range: { (p : Self.Project) (f h : ℕ) → Contains (file_walk p f) h → h < files p };

    ghost walk_within_links: { (p : Self.Project) (f h : ℕ) → Contains (file_walk p f) h → (h ≡ f) ⊎ Contains (file_links p f) h };

    ghost absent_after: { (p : Self.Project) (f j k : ℕ) → f < files p → 1 ≤ j → j < k → k ≤ 5 → value p f j ≢ Done → value p f k ≡ Absent };

    ghost absent_only_after: { (p : Self.Project) (f k : ℕ) → f < files p → 1 ≤ k → k ≤ 5 → value p f k ≡ Absent → IsStoppedBefore (value p) f k };

    ghost blocked_by: { (p : Self.Project) (f k : ℕ) → f < files p → 1 ≤ k → k ≤ 5 → value p f k ≡ Blocked → IsBlockedBy (value p) (file_links p) (file_walk p) f k };

    ghost paths_ascend: { (p : Self.Project) (f h : ℕ) → f < h → h < files p → path_order (path p f) (path p h) ≡ Less };
}

/// What a task publishes.
#[derive(Drop)]
pub enum Outcome<O> {
    Done(Arc<O>),
    Refused(LoadFault),
    /// Another file among the needs was refused or blocked at an earlier stage.
    Blocked,
}

/// A file that a task needs, with its outcome.
#[derive(Drop)]
pub struct Need<O> {
    pub file: u32,
    pub outcome: Outcome<O>,
}
