use folder_meaning::ScriptType;
use gd_bytecode::{Args, FunctionCode, Instr, Op, Reg};
use std::alloc::{AllocError, Global};
use tree_lists::Items;
use variant_values::{BinaryOp, ClassTag, ElementTag, RunFault, UnaryOp};

fn push_all(ops: &mut Items<Op>, instructions: &[Instr]) -> Result<(), AllocError> {
    for instr in instructions {
        ops.push(Op {
            line: 12,
            instr: *instr,
        })?;
    }
    Ok(())
}

/// Values, operators, containers and types.
fn push_values(ops: &mut Items<Op>) -> Result<(), AllocError> {
    push_all(
        ops,
        &[
            Instr::LoadNull { to: Reg(1) },
            Instr::LoadConst {
                to: Reg(2),
                constant: 3,
            },
            Instr::LoadGlobal { to: Reg(2), row: 4 },
            Instr::LoadCallable {
                to: Reg(2),
                name: 5,
            },
            Instr::LoadSignal {
                to: Reg(2),
                name: 5,
            },
            Instr::Move {
                to: Reg(3),
                from: Reg(2),
            },
            Instr::Store {
                local: Reg(1),
                from: Reg(3),
            },
            Instr::ToBool {
                to: Reg(3),
                from: Reg(3),
            },
            Instr::Not {
                to: Reg(3),
                from: Reg(3),
            },
            Instr::Unary {
                op: UnaryOp::Neg,
                to: Reg(3),
                from: Reg(2),
            },
            Instr::Binary {
                op: BinaryOp::Add,
                to: Reg(2),
                left: Reg(2),
                right: Reg(3),
            },
            Instr::Push { from: Reg(2) },
            Instr::MakeArray {
                to: Reg(2),
                count: 1,
                element: Some(ElementTag::Int),
            },
            Instr::MakeDict {
                to: Reg(2),
                count: 2,
            },
            Instr::Check {
                of: Reg(2),
                type_of: ScriptType::Dict,
            },
            Instr::IsType {
                to: Reg(2),
                from: Reg(2),
                type_of: ScriptType::Array(None),
            },
            Instr::AsType {
                to: Reg(2),
                from: Reg(2),
                type_of: ScriptType::Int,
            },
        ],
    )
}

/// Members and indexes.
fn push_members(ops: &mut Items<Op>) -> Result<(), AllocError> {
    push_all(
        ops,
        &[
            Instr::GetField {
                to: Reg(2),
                field: 6,
            },
            Instr::SetField {
                field: 6,
                from: Reg(2),
                sure: true,
            },
            Instr::GetMember {
                to: Reg(2),
                of: Reg(2),
                name: 5,
            },
            Instr::GetItem {
                to: Reg(2),
                of: Reg(2),
                name: 5,
                item: 7,
            },
            Instr::SetMember {
                of: Reg(2),
                name: 5,
                from: Reg(3),
                sure: false,
            },
            Instr::GetIndex {
                to: Reg(2),
                of: Reg(2),
                index: Reg(3),
            },
            Instr::SetIndex {
                of: Reg(2),
                index: Reg(3),
                from: Reg(4),
            },
        ],
    )
}

/// Calls.
fn push_calls(ops: &mut Items<Op>) -> Result<(), AllocError> {
    push_all(
        ops,
        &[
            Instr::FindCallee {
                of: Reg(2),
                name: 5,
            },
            Instr::CallFound {
                to: Reg(2),
                args: Args {
                    first: Reg(3),
                    count: 2,
                },
                sure: 3,
            },
            Instr::CallOwn {
                to: Reg(2),
                name: 5,
                args: Args {
                    first: Reg(2),
                    count: 1,
                },
                sure: 0,
            },
            Instr::CallNative {
                to: Reg(2),
                name: 5,
                args: Args {
                    first: Reg(3),
                    count: 1,
                },
            },
            Instr::CallValue {
                to: Reg(2),
                of: Reg(2),
                args: Args {
                    first: Reg(3),
                    count: 0,
                },
            },
            Instr::CallGlobal {
                to: Reg(2),
                name: 5,
                args: Args {
                    first: Reg(2),
                    count: 1,
                },
            },
            Instr::CallFunction {
                to: Reg(2),
                function: 8,
                on_self: true,
                args: Args {
                    first: Reg(2),
                    count: 1,
                },
                sure: 1,
            },
            Instr::New {
                to: Reg(2),
                class_tag: ClassTag::Node,
                args: Args {
                    first: Reg(2),
                    count: 0,
                },
                sure: 0,
            },
        ],
    )
}

/// Walks and matches.
fn push_matches(ops: &mut Items<Op>) -> Result<(), AllocError> {
    push_all(
        ops,
        &[
            Instr::WalkValue {
                walk: Reg(2),
                from: Reg(2),
            },
            Instr::WalkRange {
                walk: Reg(2),
                args: Args {
                    first: Reg(2),
                    count: 1,
                },
            },
            Instr::WalkNext {
                walk: Reg(2),
                skip: 9,
            },
            Instr::MatchStart { from: Reg(2) },
            Instr::MatchSame {
                other: Reg(3),
                skip: 9,
            },
            Instr::MatchArray {
                count: 2,
                or_more: true,
                skip: 9,
            },
            Instr::MatchDict { skip: 9 },
            Instr::MatchKeys { keys: 3, skip: 9 },
            Instr::MatchItem { place: 1 },
            Instr::MatchEntry { key: 3, skip: 9 },
            Instr::MatchDrop,
            Instr::MatchBind,
        ],
    )
}

/// Units, jumps and ends.
fn push_units(ops: &mut Items<Op>) -> Result<(), AllocError> {
    push_all(
        ops,
        &[
            Instr::Step,
            Instr::EndUnit {
                locals: 2,
                bound: 4,
            },
            Instr::Jump { skip: 9 },
            Instr::JumpUnless {
                condition: Reg(2),
                skip: 9,
            },
            Instr::JumpIfOpen {
                local: Reg(2),
                skip: 9,
            },
            Instr::JumpBack { back: 9 },
            Instr::Assert { condition: Reg(2) },
            Instr::Return { value: Reg(2) },
            Instr::Fail {
                fault: RunFault::NoMember,
            },
        ],
    )
}

/// A function that has each instruction once.
pub fn every_instruction(alloc: Global) -> Result<FunctionCode, AllocError> {
    let mut ops = Items::new(alloc);
    push_values(&mut ops)?;
    push_members(&mut ops)?;
    push_calls(&mut ops)?;
    push_matches(&mut ops)?;
    push_units(&mut ops)?;
    Ok(FunctionCode {
        line: 11,
        is_static: false,
        parameters: Items::new(alloc),
        registers: 5,
        ops,
    })
}
