//! The text of code: one line an instruction.

use crate::file_code::FunctionCode;
use crate::forms::{Form, Jump, Registers};
use crate::instructions::{Args, Instr, Op, Reg};
use std::fmt;

impl fmt::Display for Reg {
    fn fmt<W: fmt::Write>(&self, f: &mut fmt::Formatter<W>) -> fmt::Result {
        let number = self.0;
        write!(f, "r{number}")
    }
}

impl fmt::Display for Args {
    fn fmt<W: fmt::Write>(&self, f: &mut fmt::Formatter<W>) -> fmt::Result {
        let first = self.first;
        let count = self.count;
        write!(f, "({first}, {count})")
    }
}

impl fmt::Display for Registers {
    fn fmt<W: fmt::Write>(&self, f: &mut fmt::Formatter<W>) -> fmt::Result {
        match *self {
            Registers::None => Ok(()),
            Registers::One(a) => write!(f, " {a}"),
            Registers::Two(a, b) => write!(f, " {a}, {b}"),
            Registers::Three(a, b, c) => write!(f, " {a}, {b}, {c}"),
            Registers::Call(to, args) => write!(f, " {to}, {args}"),
            Registers::CallOf(to, of, args) => write!(f, " {to}, {of}, {args}"),
            Registers::Walk(walk) => write!(f, " {walk}"),
            Registers::WalkFrom(walk, from) => write!(f, " {walk}, {from}"),
            Registers::WalkArgs(walk, args) => write!(f, " {walk}, {args}"),
            Registers::Open(locals, bound) => write!(f, " {locals}, {bound}"),
        }
    }
}

impl fmt::Display for Jump {
    fn fmt<W: fmt::Write>(&self, f: &mut fmt::Formatter<W>) -> fmt::Result {
        match *self {
            Jump::Skip(skip) => write!(f, " +{skip}"),
            Jump::Back(back) => write!(f, " -{back}"),
        }
    }
}

/// A number with the letter of its list, where the instruction names one.
fn write_number<W: fmt::Write>(
    f: &mut fmt::Formatter<W>,
    letter: &str,
    number: Option<u32>,
) -> fmt::Result {
    match number {
        Some(number) => write!(f, " {letter}{number}"),
        None => Ok(()),
    }
}

impl fmt::Display for Form {
    fn fmt<W: fmt::Write>(&self, f: &mut fmt::Formatter<W>) -> fmt::Result {
        fmt::Display::fmt(&self.registers, f)?;
        write_number(f, "K", self.constant)?;
        write_number(f, "N", self.name)?;
        write_number(f, "N", self.item)?;
        write_number(f, "F", self.function)?;
        write_number(f, "G", self.row)?;
        match self.jump {
            Some(jump) => fmt::Display::fmt(&jump, f),
            None => Ok(()),
        }
    }
}

impl Instr {
    fn mnemonic(&self) -> &'static str {
        match *self {
            Instr::LoadNull { .. } => "load_null",
            Instr::LoadConst { .. } => "load_const",
            Instr::LoadGlobal { .. } => "load_global",
            Instr::LoadCallable { .. } => "load_callable",
            Instr::LoadSignal { .. } => "load_signal",
            Instr::Move { .. } => "move",
            Instr::Store { .. } => "store",
            Instr::ToBool { .. } => "to_bool",
            Instr::Not { .. } => "not",
            Instr::Unary { .. } => "unary",
            Instr::Binary { .. } => "binary",
            Instr::GetField { .. } => "get_field",
            Instr::SetField { .. } => "set_field",
            Instr::GetMember { .. } => "get_member",
            Instr::GetItem { .. } => "get_item",
            Instr::SetMember { .. } => "set_member",
            Instr::GetIndex { .. } => "get_index",
            Instr::SetIndex { .. } => "set_index",
            Instr::Push { .. } => "push",
            Instr::MakeArray { .. } => "make_array",
            Instr::MakeDict { .. } => "make_dict",
            Instr::Check { .. } => "check",
            Instr::IsType { .. } => "is_type",
            Instr::AsType { .. } => "as_type",
            Instr::FindCallee { .. } => "find_callee",
            Instr::CallFound { .. } => "call_found",
            Instr::CallOwn { .. } => "call_own",
            Instr::CallNative { .. } => "call_native",
            Instr::CallValue { .. } => "call_value",
            Instr::CallGlobal { .. } => "call_global",
            Instr::CallFunction { .. } => "call_function",
            Instr::New { .. } => "new",
            Instr::WalkValue { .. } => "walk_value",
            Instr::WalkRange { .. } => "walk_range",
            Instr::WalkNext { .. } => "walk_next",
            Instr::MatchStart { .. } => "match_start",
            Instr::MatchSame { .. } => "match_same",
            Instr::MatchArray { .. } => "match_array",
            Instr::MatchDict { .. } => "match_dict",
            Instr::MatchKeys { .. } => "match_keys",
            Instr::MatchItem { .. } => "match_item",
            Instr::MatchEntry { .. } => "match_entry",
            Instr::MatchDrop => "match_drop",
            Instr::MatchBind => "match_bind",
            Instr::Step => "step",
            Instr::EndUnit { .. } => "end_unit",
            Instr::Jump { .. } => "jump",
            Instr::JumpUnless { .. } => "jump_unless",
            Instr::JumpIfOpen { .. } => "jump_if_open",
            Instr::JumpBack { .. } => "jump_back",
            Instr::Assert { .. } => "assert",
            Instr::Return { .. } => "return",
            Instr::Fail { .. } => "fail",
        }
    }

    /// What an instruction has that its form does not name.
    fn write_detail<W: fmt::Write>(&self, f: &mut fmt::Formatter<W>) -> fmt::Result {
        match *self {
            Instr::Unary { op, .. } => write!(f, " {op:?}"),
            Instr::Binary { op, .. } => write!(f, " {op:?}"),
            Instr::GetField { field, .. } => write!(f, " field {field}"),
            Instr::SetField { field, sure, .. } => write!(f, " field {field} sure {sure}"),
            Instr::SetMember { sure, .. } => write!(f, " sure {sure}"),
            Instr::MakeArray { count, element, .. } => write!(f, " {count} {element:?}"),
            Instr::MakeDict { count, .. } => write!(f, " {count}"),
            Instr::Check { type_of, .. } => write!(f, " {type_of:?}"),
            Instr::IsType { type_of, .. } => write!(f, " {type_of:?}"),
            Instr::AsType { type_of, .. } => write!(f, " {type_of:?}"),
            Instr::CallFound { sure, .. } => write!(f, " sure {sure}"),
            Instr::CallOwn { sure, .. } => write!(f, " sure {sure}"),
            Instr::CallFunction { on_self, sure, .. } => write!(
                f,
                " on_self {on_self} sure {sure}"
            ),
            Instr::New {
                class_tag,
                sure,
                ..
            } => write!(f, " {class_tag:?} sure {sure}"),
            Instr::MatchArray { count, or_more, .. } => write!(f, " {count} or_more {or_more}"),
            Instr::MatchItem { place } => write!(f, " {place}"),
            Instr::Fail { fault } => write!(f, " {fault:?}"),
            _ => Ok(()),
        }
    }
}

impl fmt::Display for Instr {
    fn fmt<W: fmt::Write>(&self, f: &mut fmt::Formatter<W>) -> fmt::Result {
        f.write_str(self.mnemonic())?;
        fmt::Display::fmt(&self.form(), f)?;
        self.write_detail(f)
    }
}

impl fmt::Display for Op {
    fn fmt<W: fmt::Write>(&self, f: &mut fmt::Formatter<W>) -> fmt::Result {
        let line = self.line;
        write!(f, "{line:>5}  ")?;
        fmt::Display::fmt(&self.instr, f)
    }
}

/// A line for each instruction: its place, the line of its unit, and the instruction.
impl fmt::Display for FunctionCode {
    fn fmt<W: fmt::Write>(&self, f: &mut fmt::Formatter<W>) -> fmt::Result {
        let mut place: usize = 0;
        for op in self.ops.as_slice() {
            write!(f, "{place:>4}  ")?;
            fmt::Display::fmt(op, f)?;
            f.write_str("\n")?;
            place = place.wrapping_add(1);
        }
        Ok(())
    }
}
