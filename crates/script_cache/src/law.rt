//! What holds of any logs.
ghost use Rattle.std.specs.Prelude.{List, ℕ};
ghost use Rattle.stage_core.specs.Begins.{Begins};
ghost use Rattle.stage_core.specs.Machine.{outcomes};
ghost use Rattle.stage_core.specs.Status.{status_of};
ghost use Rattle.stage_core.specs.declared.log.Entry.{Entry};
ghost use Rattle.script_cache.specs.Statuses.{HasNotGoneBack};

/// By a log that begins with another, no file's status is behind that by the other. What a pass sees only grows, so no
/// status that it is told goes back.
pub fn no_status_goes_back<O>()
    ensures { (log later : List (Entry O)) (file : ℕ) → Begins log later → HasNotGoneBack (status_of (outcomes log file)) (status_of (outcomes later file)) }
{}
