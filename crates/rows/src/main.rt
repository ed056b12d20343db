//! Runs the program's commands over folders in memory, so that worked rows are data: `rows FILE..`.
//!
//! A case stands on several lines and ends with an empty line, or with its file. They are printed as they stand, and then,
//! further in, what the run writes and its status. A line that begins with `#` is printed alone.
//!
//! - `run WORDS` begins a case: the words of the command line. `each front WORDS` runs on each front of the case's last file,
//!   alone in its folder, and prints how many there are and how many of these runs are refused.
//! - `  res://NAME: TEXT` is a file of the folder. In TEXT `\n`, `\t`, `\r`, `\\`, `\}` and `\xHH` are a byte each, and
//!   `\N{..}` is what stands in the braces N times.
//! - `  empty scripts: N` are N files `res://s0.gd` and so on.
//! - `  calls that fail: N ..` and `  writes that fail: N ..` list the folder's calls and the sink's writes that fail, from 0.
#![tactic(auto)]

mod cases;
mod memory;

use crate::cases::{Case, add_line, case_of};
use crate::memory::run_case;
use case_files::{Stop, print_line, read_text};
use std::env;
use std::process::ExitCode;
use std::rt::{Env, Files};

/// Runs the case that stands open, if one does.
fn end_case<R: Print + AllocGlobal>(rt: &R, open: Option<Case>) -> Result<(), Stop> {
    match open {
        Some(case) => run_case(rt, &case),
        None => Ok(()),
    }
}

/// Reads a line of a case file, and answers the case that stands open behind it.
fn read_line<R: Print + AllocGlobal>(
    rt: &R,
    line: &str,
    open: Option<Case>,
) -> Result<Option<Case>, Stop> {
    if line.is_empty() {
        end_case(rt, open)?;
        print_line(rt, line)?;
        return Ok(None);
    }
    print_line(rt, line)?;
    if line.starts_with('#') {
        return Ok(open);
    }
    match open {
        None => Ok(Some(case_of(rt.alloc(), line)?.ok_or(Stop::BadCase)?)),
        Some(mut case) => {
            add_line(rt.alloc(), &mut case, line.trim_start())?;
            Ok(Some(case))
        }
    }
}

fn run_file<R: Print + Files + AllocGlobal>(rt: &R, name: &str) -> Result<(), Stop> {
    let text = read_text(rt, name)?;
    let mut open = None;
    for line in text.lines() {
        open = read_line(rt, line, open)?;
    }
    end_case(rt, open)
}

/// Runs the files that the words name.
fn run<R: Env + Files + Print + AllocGlobal>(rt: &R) -> Result<(), Stop> {
    for name in env::args(rt)?.skip(1) {
        run_file(rt, name.as_str())?;
    }
    Ok(())
}

fn main(rt: HostRuntime) -> ExitCode {
    match run(&rt) {
        Ok(()) => ExitCode::SUCCESS,
        Err(stop) => ExitCode::from(stop.number()),
    }
}
