//! Prints a function that has every instruction, and what `verify` says of code in which one operand is in range or out of it.
//!
//! A case is a function of three instructions with so many registers, a step at both ends and the case's own between them, or
//! instructions of its own, and behind it a function of one step. `ok` stands where the code is checked, and else the place of the
//! first bad instruction. The lists of the code have one item each.
#![tactic(auto)]

mod every;
mod in_range;
mod made;
mod out_of_range;
mod verdicts;

use crate::every::every_instruction;
use crate::in_range::{
    calls_in_range, matches_in_range, members_in_range, units_in_range, values_in_range,
};
use crate::out_of_range::{
    calls_out_of_range, limits, matches_out_of_range, members_out_of_range, units_out_of_range,
    values_out_of_range,
};
use crate::verdicts::{code_that_comes_back, place_cases};
use anyhow::Result;

fn run<R: Print + AllocGlobal>(rt: &R) -> Result<()> {
    let function = every_instruction(rt.alloc())?;
    rt.print(&function)?;
    values_in_range(rt)?;
    members_in_range(rt)?;
    calls_in_range(rt)?;
    matches_in_range(rt)?;
    units_in_range(rt)?;
    values_out_of_range(rt)?;
    members_out_of_range(rt)?;
    calls_out_of_range(rt)?;
    matches_out_of_range(rt)?;
    units_out_of_range(rt)?;
    limits(rt)?;
    place_cases(rt)?;
    code_that_comes_back(rt)
}

fn main(rt: HostRuntime) -> Result<()> {
    run(&rt)
}
