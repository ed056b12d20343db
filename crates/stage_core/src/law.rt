//! What holds after any events, and of any logs.
ghost use Rattle.stage_core.specs.Begins.{Begins};
ghost use Rattle.stage_core.specs.Log.{Entry, Event};
ghost use Rattle.stage_core.specs.Machine.{start, run, AreAllowed, IsOpen};
ghost use Rattle.std.specs.Prelude.{List, ℕ};
ghost use Rattle.stage_core.specs.Schedule.{IsConsistent};

use crate::work::StageOut;

/// Whatever events come, each of which may come where it comes: each outcome in the log holds the project's value, no
/// task is published twice, at most five outcomes of a file are published, and while a known file is unfinished a task
/// is ready or under way.
pub fn every_schedule<O: StageOut>()
    ensures { (project : O.Project) (events : List (Event O)) → AreAllowed O.StageOut (start O.StageOut project) events → IsConsistent O.StageOut project (run (start O.StageOut project) events) }
{}

/// A task that is open by a log is open by each log that begins with it.
pub fn stays_open<O: StageOut>()
    ensures { (log later : List (Entry O)) (file stage : ℕ) → Begins log later → IsOpen O.StageOut log file stage → IsOpen O.StageOut later file stage }
{}
