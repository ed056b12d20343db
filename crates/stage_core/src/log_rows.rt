//! Scans of the log's rows.
#![tactic(auto, using(crate::proofs::Scan::scans), unfolding(crate::specs::Machine::outcomes, crate::specs::Machine::is_requested, crate::specs::Machine::is_claimed, crate::specs::Machine::has_final, crate::specs::Machine::is_done_at, crate::specs::Machine::edges))]

ghost use Rattle.std.specs.Prelude.{◌≡◌, ℕ, ◌+◌, ◌*◌, ◌<◌, ◌≤◌, List, [], length, IsTrue, if◌then◌else◌, option_map, slice_get};
ghost use Rattle.stage_core.specs.Rows.{log_of, entry_of};
ghost use Rattle.stage_core.specs.Log.{value_of};
ghost use Rattle.stage_core.specs.Machine.{outcome_in, is_request_of, is_claim_of, is_final, outcomes, is_requested, is_claimed, has_final, is_done_at, edges};

use crate::work::{Outcome, StageOut};

#[derive(Drop)]
pub enum LogRow<O> {
    Request(u32),
    Claim(u32, u8),
    Publish(u32, u8, Outcome<O>),
}

/// What the row publishes of the file.
pub fn published<O>(row: &LogRow<O>, file: u32) -> Option<&Outcome<O>>
    ensures { outcome_in file (entry_of row.now) ≡ option_map (λ o. value_of o.now) result }
{
    match row {
        LogRow::Publish(of, _, outcome) if *of == file => Some(outcome),
        _ => None,
    }
}

/// How many outcomes of the file are in the log.
pub fn outcome_count<O>(rows: &[LogRow<O>], file: u32) -> usize
    ensures { result ≡ length (outcomes (log_of rows.now) file) }
{
    let mut count = 0;
    for row in rows {
        if published(row, file).is_some() {
            count += 1;
        }
    }
    count
}

fn is_request_of<O>(row: &LogRow<O>, file: u32) -> bool
    ensures { result ≡ is_request_of file (entry_of row.now) }
{
    match row {
        LogRow::Request(of) => *of == file,
        _ => false,
    }
}

pub fn has_request<O>(rows: &[LogRow<O>], file: u32) -> bool
    ensures { result ≡ is_requested (log_of rows.now) file }
{
    for row in rows {
        if is_request_of(row, file) {
            return true;
        }
    }
    false
}

fn is_claim_of<O>(row: &LogRow<O>, file: u32, stage: u8) -> bool
    ensures { result ≡ is_claim_of file stage (entry_of row.now) }
{
    match row {
        LogRow::Claim(of, at) => *of == file && *at == stage,
        _ => false,
    }
}

pub fn has_claim<O>(rows: &[LogRow<O>], file: u32, stage: u8) -> bool
    ensures { result ≡ is_claimed (log_of rows.now) file stage }
{
    for row in rows {
        if is_claim_of(row, file, stage) {
            return true;
        }
    }
    false
}

/// No outcome follows this one.
pub fn is_final<O>(outcome: &Outcome<O>) -> bool
    ensures { result ≡ is_final (value_of outcome.now) }
{
    !matches!(outcome, Outcome::Done(_))
}

/// An outcome of the file is Refused or Blocked.
pub fn has_final<O>(rows: &[LogRow<O>], file: u32) -> bool
    ensures { result ≡ has_final (outcomes (log_of rows.now) file) }
{
    for row in rows {
        if let Some(outcome) = published(row, file) {
            if is_final(outcome) {
                return true;
            }
        }
    }
    false
}

pub fn is_done<O>(rows: &[LogRow<O>], file: u32, stage: u8) -> bool
    ensures { result ≡ is_done_at (outcomes (log_of rows.now) file) stage }
{
    stage as usize <= outcome_count(rows, file) || has_final(rows, file)
}

/// The first outcome of the file.
fn first_outcome<O>(rows: &[LogRow<O>], file: u32) -> Option<&Outcome<O>>
    ensures { slice_get (outcomes (log_of rows.now) file) 0 ≡ option_map (λ o. value_of o.now) result }
{
    for row in rows {
        if let Some(outcome) = published(row, file) {
            return Some(outcome);
        }
    }
    None
}

/// The files that the file's stage 1 names, by its walk or by its links.
pub fn direct_files<O: StageOut>(rows: &[LogRow<O>], file: u32, by_walk: bool) -> &[u32]
    ensures { result.now ≡ edges (if by_walk then O.walk else O.links) (log_of rows.now) file }
{
    match first_outcome(rows, file) {
        Some(Outcome::Done(out)) if by_walk => out.walk(),
        Some(Outcome::Done(out)) => out.links(),
        _ => &[],
    }
}
