// Runs over folders and sinks in memory.

use crate::cases::{Case, Runs};
use case_files::{Stop, print_answer};
use gdrun::{Status, gd_main_alone};
use host_io::{MemoryFolder, MemorySink};
use std::alloc::{AllocError, Global};
use std::str;

/// How many bytes a sink takes.
const ROOM: usize = 1_000_000;

/// What a run answered, and what it wrote.
#[derive(Drop)]
struct Outcome {
    status: Status,
    out: MemorySink,
}

fn copy_files(
    alloc: Global,
    files: &[(String, Vec<u8>)],
) -> Result<Vec<(String, Vec<u8>)>, AllocError> {
    let mut all = Vec::new(alloc);
    for (path, bytes) in files {
        all.push((path.clone()?, bytes.clone()?))?;
    }
    Ok(all)
}

/// Runs the words of a case over these files.
fn run_over(alloc: Global, case: &Case, files: Vec<(String, Vec<u8>)>) -> Result<Outcome, Stop> {
    if !MemoryFolder::can_hold(alloc, &files)? {
        return Err(Stop::BadCase);
    }
    let mut folder = MemoryFolder::new(files, case.failing_calls.clone()?);
    let mut out = MemorySink::new(alloc, ROOM, case.failing_writes.clone()?)?;
    let status = gd_main_alone(alloc, &case.words, &mut folder, &mut out);
    Ok(Outcome { status, out })
}

/// Prints what was written, line by line, and the status.
fn print_outcome<R: Print + AllocGlobal>(rt: &R, outcome: &Outcome) -> Result<(), Stop> {
    let text = str::from_utf8(outcome.out.taken())
        .ok()
        .ok_or(Stop::BadCase)?;
    for line in text.lines() {
        print_answer(rt, line)?;
    }
    if !text.is_empty() && !text.ends_with('\n') {
        print_answer(rt, "(no line end)")?;
    }
    let number = outcome.status.number();
    let status = format!(in rt.alloc(); "status {number}")?;
    print_answer(rt, status.as_str())
}

/// How many fronts of the last file were run, and how many of these runs were refused with a report.
#[derive(Clone, Copy)]
struct Fronts {
    all: u64,
    refused: u64,
}

fn count_fronts(alloc: Global, case: &Case, path: &str, bytes: &[u8]) -> Result<Fronts, Stop> {
    let mut fronts = Fronts { all: 0, refused: 0 };
    for end in 0..bytes.len() {
        let mut files = Vec::new(alloc);
        files.push((String::from_str(alloc, path)?, bytes[..end].to_vec(alloc)?))?;
        let outcome = run_over(alloc, case, files)?;
        fronts.all = fronts.all.saturating_add(1);
        let is_report = outcome.out.taken().starts_with(b"refused ");
        if outcome.status == Status::Refused && is_report {
            fronts.refused = fronts.refused.saturating_add(1);
        }
    }
    Ok(fronts)
}

fn run_fronts<R: Print + AllocGlobal>(rt: &R, case: &Case) -> Result<(), Stop> {
    let (path, bytes) = case.files.last().ok_or(Stop::BadCase)?;
    let Fronts { all, refused } = count_fronts(rt.alloc(), case, path.as_str(), bytes)?;
    let line = format!(in rt.alloc(); "{all} fronts, {refused} refused")?;
    print_answer(rt, line.as_str())
}

/// Runs a case, and prints what it gives.
pub fn run_case<R: Print + AllocGlobal>(rt: &R, case: &Case) -> Result<(), Stop> {
    match case.runs {
        Runs::EachFront => run_fronts(rt, case),
        Runs::Once => {
            let files = copy_files(rt.alloc(), &case.files)?;
            print_outcome(rt, &run_over(rt.alloc(), case, files)?)
        }
    }
}
