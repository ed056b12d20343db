// Reading a file of cases, and printing what a case gives.

use crate::stop::Stop;
use std::fs;
use std::rt::Files;

/// The text of a file.
pub fn read_text<R: Files + AllocGlobal>(rt: &R, name: &str) -> Result<String, Stop> {
    Ok(fs::read_to_string(rt, name)?)
}

pub fn print_line(rt: &impl Print, line: &str) -> Result<(), Stop> {
    rt.println(line).map_err(|_| Stop::Unwritten)
}

/// Prints a line of what a case gives, which stands further in than the case.
pub fn print_answer(rt: &impl Print, answer: &str) -> Result<(), Stop> {
    rt.print("    ").map_err(|_| Stop::Unwritten)?;
    print_line(rt, answer)
}
