use crate::verdicts::tell_each;
use anyhow::Result;
use folder_meaning::ScriptType;
use gd_bytecode::{Args, Instr, Reg};
use variant_values::{BinaryOp, ClassTag, RunFault, UnaryOp};

/// Values, operators, containers and types with each operand the last in range.
pub fn values_in_range<R: Print + AllocGlobal>(rt: &R) -> Result<()> {
    tell_each(
        rt,
        5,
        &[
            Instr::LoadNull { to: Reg(4) },
            Instr::LoadConst {
                to: Reg(4),
                constant: 0,
            },
            Instr::LoadGlobal { to: Reg(4), row: 0 },
            Instr::LoadCallable {
                to: Reg(4),
                name: 0,
            },
            Instr::LoadSignal {
                to: Reg(4),
                name: 0,
            },
            Instr::Move {
                to: Reg(4),
                from: Reg(4),
            },
            Instr::Store {
                local: Reg(4),
                from: Reg(4),
            },
            Instr::ToBool {
                to: Reg(4),
                from: Reg(4),
            },
            Instr::Not {
                to: Reg(4),
                from: Reg(4),
            },
            Instr::Unary {
                to: Reg(4),
                from: Reg(4),
                op: UnaryOp::Neg,
            },
            Instr::Binary {
                to: Reg(4),
                left: Reg(4),
                right: Reg(4),
                op: BinaryOp::Add,
            },
            Instr::Push { from: Reg(4) },
            Instr::MakeArray {
                to: Reg(4),
                count: 1,
                element: None,
            },
            Instr::MakeDict {
                to: Reg(4),
                count: 1,
            },
            Instr::Check {
                of: Reg(4),
                type_of: ScriptType::Int,
            },
            Instr::IsType {
                to: Reg(4),
                from: Reg(4),
                type_of: ScriptType::Int,
            },
            Instr::AsType {
                to: Reg(4),
                from: Reg(4),
                type_of: ScriptType::Int,
            },
        ],
    )
}

/// Members and indexes with each operand the last in range.
pub fn members_in_range<R: Print + AllocGlobal>(rt: &R) -> Result<()> {
    tell_each(
        rt,
        5,
        &[
            Instr::GetField {
                to: Reg(4),
                field: 9,
            },
            Instr::SetField {
                from: Reg(4),
                field: 9,
                sure: true,
            },
            Instr::GetMember {
                to: Reg(4),
                of: Reg(4),
                name: 0,
            },
            Instr::GetItem {
                to: Reg(4),
                of: Reg(4),
                name: 0,
                item: 0,
            },
            Instr::SetMember {
                of: Reg(4),
                from: Reg(4),
                name: 0,
                sure: true,
            },
            Instr::GetIndex {
                to: Reg(4),
                of: Reg(4),
                index: Reg(4),
            },
            Instr::SetIndex {
                of: Reg(4),
                index: Reg(4),
                from: Reg(4),
            },
        ],
    )
}

/// Calls with each operand the last in range.
pub fn calls_in_range<R: Print + AllocGlobal>(rt: &R) -> Result<()> {
    tell_each(
        rt,
        5,
        &[
            Instr::FindCallee {
                of: Reg(4),
                name: 0,
            },
            Instr::CallFound {
                to: Reg(4),
                args: Args {
                    first: Reg(3),
                    count: 2,
                },
                sure: 0,
            },
            Instr::CallOwn {
                to: Reg(4),
                args: Args {
                    first: Reg(3),
                    count: 2,
                },
                name: 0,
                sure: 0,
            },
            Instr::CallNative {
                to: Reg(4),
                args: Args {
                    first: Reg(3),
                    count: 2,
                },
                name: 0,
            },
            Instr::CallValue {
                to: Reg(4),
                of: Reg(4),
                args: Args {
                    first: Reg(3),
                    count: 2,
                },
            },
            Instr::CallGlobal {
                to: Reg(4),
                args: Args {
                    first: Reg(3),
                    count: 2,
                },
                name: 0,
            },
            Instr::CallFunction {
                to: Reg(4),
                args: Args {
                    first: Reg(3),
                    count: 2,
                },
                function: 0,
                on_self: true,
                sure: 0,
            },
            Instr::New {
                to: Reg(4),
                args: Args {
                    first: Reg(3),
                    count: 2,
                },
                class_tag: ClassTag::Node,
                sure: 0,
            },
        ],
    )
}

/// Walks and matches with each operand the last in range.
pub fn matches_in_range<R: Print + AllocGlobal>(rt: &R) -> Result<()> {
    tell_each(
        rt,
        5,
        &[
            Instr::WalkValue {
                walk: Reg(2),
                from: Reg(4),
            },
            Instr::WalkRange {
                walk: Reg(2),
                args: Args {
                    first: Reg(3),
                    count: 2,
                },
            },
            Instr::WalkNext {
                walk: Reg(1),
                skip: 0,
            },
            Instr::MatchStart { from: Reg(4) },
            Instr::MatchSame {
                other: Reg(4),
                skip: 0,
            },
            Instr::MatchArray {
                skip: 0,
                count: 2,
                or_more: true,
            },
            Instr::MatchDict { skip: 0 },
            Instr::MatchKeys { keys: 0, skip: 0 },
            Instr::MatchItem { place: 9 },
            Instr::MatchEntry { key: 0, skip: 0 },
            Instr::MatchDrop,
            Instr::MatchBind,
        ],
    )
}

/// Units, jumps and ends with each operand the last in range.
pub fn units_in_range<R: Print + AllocGlobal>(rt: &R) -> Result<()> {
    tell_each(
        rt,
        5,
        &[
            Instr::Step,
            Instr::EndUnit {
                locals: 5,
                bound: 5,
            },
            Instr::Jump { skip: 0 },
            Instr::JumpUnless {
                condition: Reg(4),
                skip: 0,
            },
            Instr::JumpIfOpen {
                local: Reg(4),
                skip: 0,
            },
            Instr::JumpBack { back: 1 },
            Instr::Assert { condition: Reg(4) },
            Instr::Return { value: Reg(4) },
            Instr::Fail {
                fault: RunFault::NoMember,
            },
        ],
    )
}
