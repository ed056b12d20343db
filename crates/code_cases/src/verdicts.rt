use crate::made::{code_of, function_of};
use anyhow::Result;
use gd_bytecode::{BadCode, FunctionCode, Instr, Reg, verify};
use std::alloc::{AllocError, Global};

/// Code whose first function has these instructions, where it comes back from the check as bad.
fn refused(
    alloc: Global,
    registers: u8,
    instructions: &[Instr],
) -> Result<Option<BadCode>, AllocError> {
    let function = function_of(alloc, registers, instructions)?;
    match verify(code_of(alloc, function)?) {
        Ok(_) => Ok(None),
        Err(bad) => Ok(Some(bad)),
    }
}

/// The place of its first bad instruction, where there is one.
fn bad_place(
    alloc: Global,
    registers: u8,
    instructions: &[Instr],
) -> Result<Option<u128>, AllocError> {
    match refused(alloc, registers, instructions)? {
        None => Ok(None),
        Some(bad) => Ok(Some(bad.place)),
    }
}

/// Each instruction between two steps, with what the check says of it.
pub fn tell_each<R: Print + AllocGlobal>(
    rt: &R,
    registers: u8,
    instructions: &[Instr],
) -> Result<()> {
    for instr in instructions {
        let instr = *instr;
        match bad_place(rt.alloc(), registers, &[Instr::Step, instr, Instr::Step])? {
            None => println!(rt; "{instr}: ok")?,
            Some(place) => println!(rt; "{instr}: {place}")?,
        }
    }
    Ok(())
}

fn tell<R: Print + AllocGlobal>(
    rt: &R,
    case: &str,
    registers: u8,
    instructions: &[Instr],
) -> Result<()> {
    match bad_place(rt.alloc(), registers, instructions)? {
        None => println!(rt; "{case}: ok")?,
        Some(place) => println!(rt; "{case}: {place}")?,
    }
    Ok(())
}

/// Instructions of their own.
pub fn place_cases<R: Print + AllocGlobal>(rt: &R) -> Result<()> {
    tell(
        rt,
        "back to a walk",
        5,
        &[
            Instr::WalkNext {
                walk: Reg(1),
                skip: 0,
            },
            Instr::JumpBack { back: 1 },
        ],
    )?;
    tell(
        rt,
        "back to what takes no step",
        5,
        &[Instr::Step, Instr::MatchDrop, Instr::JumpBack { back: 1 }],
    )?;
    tell(
        rt,
        "two bad instructions",
        5,
        &[
            Instr::Step,
            Instr::Push { from: Reg(9) },
            Instr::Push { from: Reg(8) },
        ],
    )?;
    tell(
        rt,
        "the first instruction",
        5,
        &[Instr::Push { from: Reg(5) }, Instr::Step],
    )?;
    tell(rt, "no instruction", 0, &[])
}

fn print_all<R: Print>(rt: &R, functions: &[FunctionCode]) -> Result<()> {
    for function in functions {
        rt.print(function)?;
    }
    Ok(())
}

fn print_refused<R: Print>(rt: &R, bad: &BadCode) -> Result<()> {
    let place = bad.place;
    println!(rt; "out of range at {place}:")?;
    print_all(rt, bad.code.functions.as_slice())
}

/// Code whose second instruction is bad, as it comes back.
pub fn code_that_comes_back<R: Print + AllocGlobal>(rt: &R) -> Result<()> {
    let instructions = [Instr::Step, Instr::Push { from: Reg(5) }, Instr::Step];
    match refused(rt.alloc(), 5, &instructions)? {
        None => Ok(()),
        Some(bad) => print_refused(rt, &bad),
    }
}
