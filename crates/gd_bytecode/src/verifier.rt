//! The check of code: each register, constant, name, function, row and jump is in range.

ghost use Rattle.std.specs.Prelude.{◌≡◌, ◌+◌, ◌<◌, ◌^◌, length, None};
ghost use Rattle.std.specs.List.{list_all, position_from, range_with_len};
ghost use Rattle.gd_bytecode.specs.Forms.{registers_in, run};
ghost use Rattle.gd_bytecode.specs.Checks.{HasVerified, first_bad, is_below, is_in, is_truth, is_well, judged, jumps_well, register_limit, step_at};

use crate::file_code::{Code, FunctionCode};
use crate::forms::{Jump, Registers};
use crate::instructions::{Args, Op, Reg};
use std::marker::Model;

/// The most registers that a frame may have.
pub const MOST_REGISTERS: u8 = 250;

/// Code in which no instruction names what is out of range. Contracts see the code.
#[derive(Drop)]
pub struct CheckedCode {
    code: Code,
}

impl Model for CheckedCode {
    ghost use Rattle.std.specs.Prelude.{◌≡◌, None};
    ghost use Rattle.std.specs.Coded.{codes};
    ghost use Rattle.folder_meaning.specs.contracts.const_value.ConstValue as constant;
    ghost use Rattle.gd_bytecode.specs.declared.file_code.Code.{Code};
    ghost use Rattle.gd_bytecode.specs.Checks.{first_bad};

    ghost Value = { Code };

    ghost coded = { Prim.hlevel (codes, constant.the_row.coded) };

    ghost view = { λ c. c.code };

    ghost invariant = { λ c. first_bad c.code ≡ None };
}

impl CheckedCode {
    pub fn code(&self) -> &Code
        ensures same { result.now ≡ self.now }
        ensures checked { first_bad result.now ≡ None }
    {
        &self.code
    }
}

/// Code with an instruction that names what is out of range. `place` is that of the first such instruction, counted over all
/// functions.
#[derive(Drop)]
pub struct BadCode {
    pub place: u128,
    pub code: Code,
}

fn is_below(register: Reg, limit: u8) -> bool
    ensures { result ≡ is_below limit register.0 }
{
    register.0 < limit
}

/// So many registers from the first on.
fn row_is_below(first: Reg, count: u8, limit: u8) -> bool
    ensures { result ≡ list_all (is_below limit) (range_with_len first.0 count) }
{
    count == 0 || u16::from(first.0) + u16::from(count) <= u16::from(limit)
}

fn args_are_below(args: Args, limit: u8) -> bool
    ensures { result ≡ list_all (is_below limit) (run args) }
{
    row_is_below(args.first, args.count, limit)
}

fn registers_are_below(registers: Registers, limit: u8) -> bool
    ensures { result ≡ list_all (is_below limit) (registers_in registers) }
{
    match registers {
        Registers::None => true,
        Registers::One(a) => is_below(a, limit),
        Registers::Two(a, b) => is_below(a, limit) && is_below(b, limit),
        Registers::Three(a, b, c) => {
            is_below(a, limit) && is_below(b, limit) && is_below(c, limit)
        }
        Registers::Call(to, args) => is_below(to, limit) && args_are_below(args, limit),
        Registers::CallOf(to, of, args) => {
            is_below(to, limit) && is_below(of, limit) && args_are_below(args, limit)
        }
        Registers::Walk(walk) => row_is_below(walk, 4, limit),
        Registers::WalkFrom(walk, from) => is_below(from, limit) && row_is_below(walk, 3, limit),
        Registers::WalkArgs(walk, args) => {
            row_is_below(walk, 3, limit) && args_are_below(args, limit)
        }
        Registers::Open(locals, bound) => {
            row_is_below(Reg(0), locals, limit) && row_is_below(Reg(0), bound, limit)
        }
    }
}

fn is_in(number: Option<u32>, len: usize) -> bool
    ensures { result ≡ is_in len number }
{
    match number {
        None => true,
        Some(number) => (number as usize) < len,
    }
}

/// Whether the instruction at this place takes a step.
fn takes_step(ops: &[Op], at: usize) -> bool
    ensures { result ≡ step_at ops.now at }
{
    match ops.get(at) {
        None => false,
        Some(op) => op.instr.form().takes_step,
    }
}

fn jumps_well(ops: &[Op], at: usize, jump: Option<Jump>) -> bool
    requires { at < length ops.now }
    ensures { result ≡ jumps_well ops.now at jump }
{
    match jump {
        None => true,
        Some(Jump::Skip(skip)) => (skip as usize) < ops.len() - at - 1,
        Some(Jump::Back(back)) => back as usize <= at && takes_step(ops, at - back as usize),
    }
}

fn register_limit(function: &FunctionCode) -> u8
    ensures { result ≡ register_limit function.now }
{
    function.registers.min(MOST_REGISTERS)
}

fn is_well(code: &Code, function: &FunctionCode, at: usize, op: &Op) -> bool
    requires { at < length function.now.ops }
    ensures { result ≡ is_well code.now function.now at op.now.instr }
{
    let form = op.instr.form();
    registers_are_below(form.registers, register_limit(function))
        && is_in(form.constant, code.constants.len())
        && is_in(form.name, code.names.len())
        && is_in(form.item, code.names.len())
        && is_in(form.function, code.known_functions.len())
        && is_in(form.row, code.globals.len())
        && jumps_well(function.ops.as_slice(), at, form.jump)
}

/// The first bad instruction of a function, where so many instructions stand before it.
fn first_bad_in(code: &Code, function: &FunctionCode, before: u128) -> Option<u128>
    requires { before + length function.now.ops < 2 ^ 128 }
    ensures { result ≡ position_from is_truth before (judged code.now function.now 0 function.now.ops) }
{
    let mut rest = function.ops.as_slice();
    let mut at = 0;
    while let [op, after @ ..] = rest {
        if !is_well(code, function, at, op) {
            return Some(before + at as u128);
        }
        at += 1;
        rest = after;
    }
    None
}

fn first_bad(code: &Code) -> Option<u128>
    ensures { result ≡ first_bad code.now }
{
    let mut before: u128 = 0;
    for function in code.functions.as_slice() {
        let size = function.ops.len();
        match first_bad_in(code, function, before) {
            Some(place) => return Some(place),
            None => before += size as u128,
        }
    }
    None
}

/// Hands the code back as checked, or with the place of its first bad instruction. It takes no memory.
pub fn verify(code: Code) -> Result<CheckedCode, BadCode>
    ensures { HasVerified code result }
{
    match first_bad(&code) {
        None => Ok(CheckedCode { code }),
        Some(place) => Err(BadCode { place, code }),
    }
}
