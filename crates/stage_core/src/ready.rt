//! Which paths are known, and which tasks are ready.
ghost use Rattle.std.specs.Prelude.{◌≡◌, ◌≢◌, ℕ, ◌+◌, ◌*◌, ◌-◌, ◌<◌, ◌≤◌, ◌↔◌, ◌==◌, List, [], length, IsTrue, true, if◌then◌else◌, vec_len, vec_capacity, Contains, All, IfSome, IfNone};
ghost use Rattle.stage_core.specs.Rows.{log_of};
ghost use Rattle.stage_core.specs.CoreState.{AreInRange};
ghost use Rattle.stage_core.specs.Machine.{outcomes, is_done_at, IsKnown, IsReady, AreNeedsDone};
ghost use Rattle.stage_core.specs.Stages.{stage_needed};

use crate::closure::{add_file, add_reachable};
use crate::log_rows::{LogRow, has_request, is_done, outcome_count};
use crate::work::StageOut;

/// Writes the known files.
pub fn find_known<O: StageOut>(rows: &[LogRow<O>], files: u32, known: &mut Vec<u32>)
    requires in_range { AreInRange O.StageOut (log_of rows.now) files }
    requires room { files ≤ vec_capacity known.old }
    ensures known { (file : ℕ) → Contains known.new.items file ↔ IsKnown O.StageOut (log_of rows.now) file }
    ensures capacity { vec_capacity known.new ≡ vec_capacity known.old }
{
    known.clear();
    for file in 0..files {
        if has_request(rows, file) {
            add_file(known, file, files);
        }
    }
    add_reachable(rows, false, files, known);
}

/// The stage that the task needs of the other file.
pub fn needed(file: u32, stage: u8, other: u32) -> u8
    requires { 2 ≤ stage }
    ensures { result ≡ stage_needed file stage other }
{
    if stage != 5 {
        stage - 1
    } else if other == file {
        4
    } else {
        3
    }
}

fn all_done<O>(rows: &[LogRow<O>], file: u32, stage: u8, others: &[u32]) -> bool
    requires { 2 ≤ stage }
    ensures { IsTrue result ↔ ((other : ℕ) → Contains others.now other → is_done_at (outcomes (log_of rows.now) other) (stage_needed file stage other) ≡ true) }
{
    for other in others {
        if !is_done(rows, *other, needed(file, stage, *other)) {
            return false;
        }
    }
    true
}

/// Whether the needs of the task are done. The vector of visited files is a place to work in.
pub fn are_needs_done<O: StageOut>(
    rows: &[LogRow<O>],
    files: u32,
    file: u32,
    stage: u8,
    visited: &mut Vec<u32>,
) -> bool
    requires file { file < files }
    requires in_range { AreInRange O.StageOut (log_of rows.now) files }
    requires room { files ≤ vec_capacity visited.old }
    ensures done { IsTrue result ↔ AreNeedsDone O.StageOut (log_of rows.now) file stage }
    ensures capacity { vec_capacity visited.new ≡ vec_capacity visited.old }
{
    if stage < 2 {
        return true;
    }
    visited.clear();
    add_file(visited, file, files);
    add_reachable(rows, stage == 2, files, visited);
    all_done(rows, file, stage, visited)
}

/// The file's task, if it is ready.
pub fn ready_stage<O: StageOut>(
    rows: &[LogRow<O>],
    in_progress: &[u8],
    files: u32,
    file: u32,
    visited: &mut Vec<u32>,
) -> Option<u8>
    requires file { (file < files) × (file < length in_progress.now) }
    requires known { IsKnown O.StageOut (log_of rows.now) file }
    requires in_range { AreInRange O.StageOut (log_of rows.now) files }
    requires room { files ≤ vec_capacity visited.old }
    ensures some { IfSome result (λ stage. IsReady O.StageOut (log_of rows.now) in_progress.now file stage) }
    ensures none { IfNone result ((stage : ℕ) → IsReady O.StageOut (log_of rows.now) in_progress.now file stage → ⊥) }
    ensures capacity { vec_capacity visited.new ≡ vec_capacity visited.old }
{
    if in_progress[file as usize] != 0 || is_done(rows, file, 5) {
        return None;
    }
    let stage = outcome_count(rows, file) as u8 + 1;
    if are_needs_done(rows, files, file, stage, visited) {
        Some(stage)
    } else {
        None
    }
}

/// A task that is ready.
pub fn ready_task<O: StageOut>(
    rows: &[LogRow<O>],
    in_progress: &[u8],
    files: u32,
    known: &[u32],
    visited: &mut Vec<u32>,
) -> Option<(u32, u8)>
    requires known { (file : ℕ) → Contains known.now file → (file < files) × (file < length in_progress.now) × IsKnown O.StageOut (log_of rows.now) file }
    requires in_range { AreInRange O.StageOut (log_of rows.now) files }
    requires room { files ≤ vec_capacity visited.old }
    ensures some { IfSome result (λ task. IsReady O.StageOut (log_of rows.now) in_progress.now task.0 task.1) }
    ensures none { IfNone result ((file stage : ℕ) → Contains known.now file → IsReady O.StageOut (log_of rows.now) in_progress.now file stage → ⊥) }
    ensures capacity { vec_capacity visited.new ≡ vec_capacity visited.old }
{
    for file in known {
        if let Some(stage) = ready_stage(rows, in_progress, files, *file, visited) {
            return Some((*file, stage));
        }
    }
    None
}

pub fn are_finished<O>(rows: &[LogRow<O>], known: &[u32]) -> bool
    ensures { IsTrue result ↔ ((file : ℕ) → Contains known.now file → is_done_at (outcomes (log_of rows.now) file) 5 ≡ true) }
{
    for file in known {
        if !is_done(rows, *file, 5) {
            return false;
        }
    }
    true
}
