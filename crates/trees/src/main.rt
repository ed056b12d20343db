//! Prints what texts of GDScript are read as, so that tables of texts are data: `trees FILE..`.
//!
//! A file `*.gd` is a script. Its name is printed, then a line for each head and each member, and a line with the kinds of
//! fault that its fronts have. Any other file has a case on each line, `KIND: TEXT` or `KIND DETAIL: TEXT`. The line is
//! printed, and below it what the text is read as. A line that is empty or begins with `#` is printed alone.
//!
//! - KIND is `tokens`, `name` (the global name of the header), `header` (where it ends), `expression`, `type`, `result` (the
//!   type of a result), `script`, `body` (what stands behind `func f()`), `pattern` (the patterns of the one branch of a
//!   `match`) or `fronts` (each front of a script).
//! - DETAIL is `places` (each place is printed), `size` (the number of items or members is printed), the number of forms that
//!   are open round an expression, or the line that a script's header ends before.
//! - In TEXT `\n`, `\t`, `\r`, `\\`, `\}` and `\xHH` are a byte each, `\N{..}` is what stands in the braces N times, and `\>`
//!   is a tab for each `\>` before it.
//!
//! A fault is printed as `LINE:COLUMN KIND`. In a tree, brackets stand round each form that has an operator, `<e>` is an
//! expression in parentheses, and a path in a pattern begins with `@`. A line of statements ends in `;`, with ` ; ` between
//! them, and braces stand round a block. Heads and members stand behind their places, with `; ` between them. Behind ` | `
//! stands the place after an expression or a type that does not end its line.
#![tactic(auto)]

mod answers;
mod cases;
mod expressions;
mod fronts;
mod members;
mod operators;
mod part;
mod patterns;
mod places;
mod scripts;
mod show;
mod statements;

use crate::answers::answer;
use crate::cases::case_of;
use crate::scripts::file_lines;
use case_files::{Stop, print_answer, print_line, read_text};
use std::env;
use std::process::ExitCode;
use std::rt::{Env, Files};

/// Prints a line of a case file, and below a case what its text is read as.
fn run_line<R: Print + AllocGlobal>(rt: &R, line: &str) -> Result<(), Stop> {
    print_line(rt, line)?;
    if line.is_empty() || line.starts_with('#') {
        return Ok(());
    }
    let case = case_of(line).ok_or(Stop::BadCase)?;
    let found = answer(rt.alloc(), case)?;
    print_answer(rt, found.as_str())
}

/// Prints a script's name, and below it what the script is read as.
fn run_script<R: Print + AllocGlobal>(rt: &R, name: &str, text: &[u8]) -> Result<(), Stop> {
    print_line(rt, name)?;
    for line in file_lines(rt.alloc(), text)?.iter() {
        print_answer(rt, line.as_str())?;
    }
    Ok(())
}

/// Prints a script, or a file of cases.
fn run_file<R: Print + Files + AllocGlobal>(rt: &R, name: &str) -> Result<(), Stop> {
    let text = read_text(rt, name)?;
    if name.ends_with(".gd") {
        return run_script(rt, name, text.as_bytes());
    }
    for line in text.lines() {
        run_line(rt, line)?;
    }
    Ok(())
}

/// Prints the files that the words name.
fn run<R: Env + Files + Print + AllocGlobal>(rt: &R) -> Result<(), Stop> {
    for name in env::args(rt)?.skip(1) {
        run_file(rt, name.as_str())?;
    }
    Ok(())
}

fn main(rt: HostRuntime) -> ExitCode {
    match run(&rt) {
        Ok(()) => ExitCode::SUCCESS,
        Err(stop) => ExitCode::from(stop.number()),
    }
}
