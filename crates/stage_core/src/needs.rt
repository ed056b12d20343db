//! What a task gets of the files that it needs.
#![tactic(auto, using(crate::proofs::Scan::scans), unfolding(crate::specs::Machine::outcomes))]

ghost use Rattle.std.specs.Prelude.{◌≡◌, ◌≢◌, ℕ, ◌+◌, ◌*◌, ◌-◌, ◌<◌, ◌≤◌, ◌↔◌, ◌==◌, List, [], map, length, IsTrue, true, if◌then◌else◌, Contains, All, IfOk, Some, slice_get, option_map};
ghost use Rattle.stage_core.specs.Rows.{log_of};
ghost use Rattle.stage_core.specs.Log.{value_of};
ghost use Rattle.stage_core.specs.Machine.{outcomes, is_done_at};
ghost use Rattle.stage_core.specs.Stages.{stage_needed};
ghost use Rattle.stage_core.specs.Needs.{outcome_for, IsNeedOutcome};

use crate::log_rows::{LogRow, outcome_count, published};
use crate::ready::needed;
use crate::work::{Need, Outcome};
use std::alloc::{AllocError, Global};
use std::sync::Arc;

/// The same outcome, which shares its result.
pub fn share<O>(outcome: &Outcome<O>) -> Result<Outcome<O>, AllocError>
    ensures { IfOk result (λ other. value_of other ≡ value_of outcome.now) }
{
    match outcome {
        Outcome::Done(out) => Ok(Outcome::Done(Arc::try_clone(out)?)),
        Outcome::Refused(fault) => Ok(Outcome::Refused(*fault)),
        Outcome::Blocked => Ok(Outcome::Blocked),
    }
}

/// The outcome of the file at this place.
pub fn outcome_at<O>(rows: &[LogRow<O>], file: u32, place: usize) -> Option<&Outcome<O>>
    ensures { slice_get (outcomes (log_of rows.now) file) place ≡ option_map (λ o. value_of o.now) result }
{
    let mut before = 0;
    for row in rows {
        if let Some(outcome) = published(row, file) {
            if before == place {
                return Some(outcome);
            }
            before += 1;
        }
    }
    None
}

pub fn need<O: Drop>(
    rows: &[LogRow<O>],
    file: u32,
    stage: u8,
    other: u32,
) -> Result<Need<O>, AllocError>
    requires above { 2 ≤ stage }
    requires done { is_done_at (outcomes (log_of rows.now) other) (stage_needed file stage other) ≡ true }
    ensures of { IfOk result (λ need. need.file ≡ other) }
    ensures handed { IfOk result (IsNeedOutcome (log_of rows.now) file stage) }
{
    let place = outcome_count(rows, other).min(needed(file, stage, other) as usize) - 1;
    match outcome_at(rows, other, place) {
        Some(outcome) => Ok(Need {
            file: other,
            outcome: share(outcome)?,
        }),
        None => unreachable!(),
    }
}

pub fn all_needs<O: Drop>(
    alloc: Global,
    rows: &[LogRow<O>],
    file: u32,
    stage: u8,
    others: &[u32],
) -> Result<Vec<Need<O>>, AllocError>
    requires above { 2 ≤ stage }
    requires done { (other : ℕ) → Contains others.now other → is_done_at (outcomes (log_of rows.now) other) (stage_needed file stage other) ≡ true }
    ensures of { IfOk result (λ needs. map (λ n. n.file) needs.items ≡ others.now) }
    ensures handed { IfOk result (λ needs. All (IsNeedOutcome (log_of rows.now) file stage) needs.items) }
{
    let mut needs = Vec::new(alloc);
    for other in others {
        needs.push(need(rows, file, stage, *other)?)?;
    }
    Ok(needs)
}
