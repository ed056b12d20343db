//! The load of a file.

ghost use Rattle.std.specs.Prelude.{◌≡◌, ℕ, List, filter, filter_map, map, IfOk, slice_get, option_map};
ghost use Rattle.stage_core.specs.FileSets.{is_in, files_below};
ghost use Rattle.stage_core.specs.Load.{fault_entry, result_entry, result_value, done_value};
ghost use Rattle.stage_core.specs.Machine.{outcomes};
ghost use Rattle.stage_core.specs.Rows.{log_of};
ghost use Rattle.stage_core.specs.declared.answer.AnswerError.TheVariants.{NoMemory};

use crate::closure::contains_file;
use crate::log_rows::LogRow;
use crate::needs::outcome_at;
use crate::status::status;
use crate::work::Outcome;
use gd_syntax::LoadFault;
use std::alloc::{AllocError, Global};
use std::sync::Arc;

/// The load of a file, by path.
#[derive(Drop)]
pub enum Answer<O> {
    /// The results of stage 5 of the files of its closure.
    Ok(Vec<(u32, Arc<O>)>),
    /// The files of its closure that have a fault.
    Refused(Vec<(u32, LoadFault)>),
}

/// Why there is no load yet.
#[derive(Clone, Copy, Debug, PartialEq, Eq)]
pub enum AnswerError {
    /// A file of the closure is not finished.
    Unfinished,
    NoMemory,
}

impl From<AllocError> for AnswerError {
    ghost from_gives = { λ _ e. e ≡ NoMemory };

    fn from(_: AllocError) -> Self {
        AnswerError::NoMemory
    }
}

/// The files of the set, in ascending order.
pub fn in_order(alloc: Global, files: u32, set: &[u32]) -> Result<Vec<u32>, AllocError>
    ensures { IfOk result (λ ordered. ordered.items ≡ filter (λ file. is_in file set.now) (files_below files)) }
{
    let mut ordered = Vec::new(alloc);
    for file in 0..files {
        if contains_file(set, file) {
            ordered.push(file)?;
        }
    }
    Ok(ordered)
}

/// Those of the files that were refused, with their faults.
pub fn faults_of<O>(
    alloc: Global,
    rows: &[LogRow<O>],
    files: &[u32],
) -> Result<Vec<(u32, LoadFault)>, AllocError>
    ensures { IfOk result (λ faults. faults.items ≡ filter_map (fault_entry (log_of rows.now)) files.now) }
{
    let mut faults = Vec::new(alloc);
    for file in files {
        if let Some(fault) = status(rows, *file).fault() {
            faults.push((*file, fault))?;
        }
    }
    Ok(faults)
}

/// The file's result of stage 5.
fn compiled<O>(rows: &[LogRow<O>], file: u32) -> Option<&Arc<O>>
    ensures { done_value (slice_get (outcomes (log_of rows.now) file) 4) ≡ option_map (λ arc. arc.now.value) result }
{
    match outcome_at(rows, file, 4) {
        Some(Outcome::Done(out)) => Some(out),
        _ => None,
    }
}

/// The files' results of stage 5.
pub fn results_of<O: Drop>(
    alloc: Global,
    rows: &[LogRow<O>],
    files: &[u32],
) -> Result<Vec<(u32, Arc<O>)>, AllocError>
    ensures { IfOk result (λ results. map result_value results.items ≡ filter_map (result_entry (log_of rows.now)) files.now) }
{
    let mut results = Vec::new(alloc);
    for file in files {
        if let Some(out) = compiled(rows, *file) {
            results.push((*file, Arc::try_clone(out)?))?;
        }
    }
    Ok(results)
}
