//! Files that a walk has reached, as a list with room for all.
#![tactic(auto, using(crate::proofs::Reach::file_set_steps), unfolding(crate::specs::FileSets::is_in, crate::specs::FileSets::with_file))]

ghost use Rattle.std.specs.Prelude.{◌≡◌, ◌≢◌, ℕ, ◌+◌, ◌*◌, ◌<◌, ◌≤◌, ◌↔◌, List, [], length, IsTrue, if◌then◌else◌, vec_len, vec_capacity, Contains, All};
ghost use Rattle.stage_core.specs.Rows.{log_of};
ghost use Rattle.stage_core.specs.Machine.{edges};
ghost use Rattle.stage_core.specs.Stages.{Reaches};
ghost use Rattle.stage_core.specs.FileSets.{is_in, IsFileSet, with_file, with_files};

use crate::log_rows::{LogRow, direct_files};
use crate::work::StageOut;

pub fn contains_file(set: &[u32], file: u32) -> bool
    ensures { result ≡ is_in file set.now }
{
    set.iter().any(|other| *other == file)
}

pub fn add_file(visited: &mut Vec<u32>, file: u32, files: u32)
    requires in_range { file < files }
    requires room { files ≤ vec_capacity visited.old }
    requires visited { IsFileSet files visited.old.items }
    ensures after { visited.new.items ≡ with_file visited.old.items file }
    ensures capacity { vec_capacity visited.new ≡ vec_capacity visited.old }
{
    if !contains_file(visited, file) {
        visited.push_reserved(file);
    }
}

pub fn add_files(visited: &mut Vec<u32>, more: &[u32], files: u32)
    requires in_range { (file : ℕ) → Contains more.now file → file < files }
    requires room { files ≤ vec_capacity visited.old }
    requires visited { IsFileSet files visited.old.items }
    ensures after { visited.new.items ≡ with_files visited.old.items more.now }
    ensures capacity { vec_capacity visited.new ≡ vec_capacity visited.old }
{
    for file in more {
        add_file(visited, *file, files);
    }
}

/// Adds to the files visited all that they lead to.
pub fn add_reachable<O: StageOut>(
    rows: &[LogRow<O>],
    by_walk: bool,
    files: u32,
    visited: &mut Vec<u32>,
)
    requires in_range { (a b : ℕ) → Contains (edges (if by_walk then O.walk else O.links) (log_of rows.now) a) b → b < files }
    requires room { files ≤ vec_capacity visited.old }
    requires visited { IsFileSet files visited.old.items }
    ensures reached { (b : ℕ) → Contains visited.new.items b ↔ ((a : ℕ) × Contains visited.old.items a × Reaches (edges (if by_walk then O.walk else O.links) (log_of rows.now)) a b) }
    ensures visited { IsFileSet files visited.new.items }
    ensures capacity { vec_capacity visited.new ≡ vec_capacity visited.old }
{
    let mut at = 0;
    while at < visited.len() {
        let source = visited[at];
        add_files(visited, direct_files(rows, source, by_walk), files);
        at += 1;
    }
}
