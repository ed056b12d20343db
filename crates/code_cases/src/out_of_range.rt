use crate::verdicts::tell_each;
use anyhow::Result;
use folder_meaning::ScriptType;
use gd_bytecode::{Args, Instr, Reg};
use variant_values::{BinaryOp, ClassTag, RunFault, UnaryOp};

/// Values, operators, containers and types where in each row one operand is out of range.
pub fn values_out_of_range<R: Print + AllocGlobal>(rt: &R) -> Result<()> {
    tell_each(
        rt,
        5,
        &[
            Instr::LoadNull { to: Reg(5) },
            Instr::LoadConst {
                to: Reg(5),
                constant: 0,
            },
            Instr::LoadConst {
                to: Reg(4),
                constant: 1,
            },
            Instr::LoadGlobal { to: Reg(5), row: 0 },
            Instr::LoadGlobal { to: Reg(4), row: 1 },
            Instr::LoadCallable {
                to: Reg(5),
                name: 0,
            },
            Instr::LoadCallable {
                to: Reg(4),
                name: 1,
            },
            Instr::LoadSignal {
                to: Reg(5),
                name: 0,
            },
            Instr::LoadSignal {
                to: Reg(4),
                name: 1,
            },
            Instr::Move {
                to: Reg(5),
                from: Reg(4),
            },
            Instr::Move {
                to: Reg(4),
                from: Reg(5),
            },
            Instr::Store {
                local: Reg(5),
                from: Reg(4),
            },
            Instr::Store {
                local: Reg(4),
                from: Reg(5),
            },
            Instr::ToBool {
                to: Reg(5),
                from: Reg(4),
            },
            Instr::ToBool {
                to: Reg(4),
                from: Reg(5),
            },
            Instr::Not {
                to: Reg(5),
                from: Reg(4),
            },
            Instr::Not {
                to: Reg(4),
                from: Reg(5),
            },
            Instr::Unary {
                to: Reg(5),
                from: Reg(4),
                op: UnaryOp::Neg,
            },
            Instr::Unary {
                to: Reg(4),
                from: Reg(5),
                op: UnaryOp::Neg,
            },
            Instr::Binary {
                to: Reg(5),
                left: Reg(4),
                right: Reg(4),
                op: BinaryOp::Add,
            },
            Instr::Binary {
                to: Reg(4),
                left: Reg(5),
                right: Reg(4),
                op: BinaryOp::Add,
            },
            Instr::Binary {
                to: Reg(4),
                left: Reg(4),
                right: Reg(5),
                op: BinaryOp::Add,
            },
            Instr::Push { from: Reg(5) },
            Instr::MakeArray {
                to: Reg(5),
                count: 1,
                element: None,
            },
            Instr::MakeDict {
                to: Reg(5),
                count: 1,
            },
            Instr::Check {
                of: Reg(5),
                type_of: ScriptType::Int,
            },
            Instr::IsType {
                to: Reg(5),
                from: Reg(4),
                type_of: ScriptType::Int,
            },
            Instr::IsType {
                to: Reg(4),
                from: Reg(5),
                type_of: ScriptType::Int,
            },
            Instr::AsType {
                to: Reg(5),
                from: Reg(4),
                type_of: ScriptType::Int,
            },
            Instr::AsType {
                to: Reg(4),
                from: Reg(5),
                type_of: ScriptType::Int,
            },
        ],
    )
}

/// Members and indexes where in each row one operand is out of range.
pub fn members_out_of_range<R: Print + AllocGlobal>(rt: &R) -> Result<()> {
    tell_each(
        rt,
        5,
        &[
            Instr::GetField {
                to: Reg(5),
                field: 9,
            },
            Instr::SetField {
                from: Reg(5),
                field: 9,
                sure: true,
            },
            Instr::GetMember {
                to: Reg(5),
                of: Reg(4),
                name: 0,
            },
            Instr::GetMember {
                to: Reg(4),
                of: Reg(5),
                name: 0,
            },
            Instr::GetMember {
                to: Reg(4),
                of: Reg(4),
                name: 1,
            },
            Instr::GetItem {
                to: Reg(5),
                of: Reg(4),
                name: 0,
                item: 0,
            },
            Instr::GetItem {
                to: Reg(4),
                of: Reg(5),
                name: 0,
                item: 0,
            },
            Instr::GetItem {
                to: Reg(4),
                of: Reg(4),
                name: 1,
                item: 0,
            },
            Instr::GetItem {
                to: Reg(4),
                of: Reg(4),
                name: 0,
                item: 1,
            },
            Instr::SetMember {
                of: Reg(5),
                from: Reg(4),
                name: 0,
                sure: true,
            },
            Instr::SetMember {
                of: Reg(4),
                from: Reg(5),
                name: 0,
                sure: true,
            },
            Instr::SetMember {
                of: Reg(4),
                from: Reg(4),
                name: 1,
                sure: true,
            },
            Instr::GetIndex {
                to: Reg(5),
                of: Reg(4),
                index: Reg(4),
            },
            Instr::GetIndex {
                to: Reg(4),
                of: Reg(5),
                index: Reg(4),
            },
            Instr::GetIndex {
                to: Reg(4),
                of: Reg(4),
                index: Reg(5),
            },
            Instr::SetIndex {
                of: Reg(5),
                index: Reg(4),
                from: Reg(4),
            },
            Instr::SetIndex {
                of: Reg(4),
                index: Reg(5),
                from: Reg(4),
            },
            Instr::SetIndex {
                of: Reg(4),
                index: Reg(4),
                from: Reg(5),
            },
        ],
    )
}

/// Calls where in each row one operand is out of range.
pub fn calls_out_of_range<R: Print + AllocGlobal>(rt: &R) -> Result<()> {
    tell_each(
        rt,
        5,
        &[
            Instr::FindCallee {
                of: Reg(5),
                name: 0,
            },
            Instr::FindCallee {
                of: Reg(4),
                name: 1,
            },
            Instr::CallFound {
                to: Reg(5),
                args: Args {
                    first: Reg(3),
                    count: 2,
                },
                sure: 0,
            },
            Instr::CallFound {
                to: Reg(4),
                args: Args {
                    first: Reg(3),
                    count: 3,
                },
                sure: 0,
            },
            Instr::CallOwn {
                to: Reg(5),
                args: Args {
                    first: Reg(3),
                    count: 2,
                },
                name: 0,
                sure: 0,
            },
            Instr::CallOwn {
                to: Reg(4),
                args: Args {
                    first: Reg(3),
                    count: 3,
                },
                name: 0,
                sure: 0,
            },
            Instr::CallOwn {
                to: Reg(4),
                args: Args {
                    first: Reg(3),
                    count: 2,
                },
                name: 1,
                sure: 0,
            },
            Instr::CallNative {
                to: Reg(5),
                args: Args {
                    first: Reg(3),
                    count: 2,
                },
                name: 0,
            },
            Instr::CallNative {
                to: Reg(4),
                args: Args {
                    first: Reg(3),
                    count: 3,
                },
                name: 0,
            },
            Instr::CallNative {
                to: Reg(4),
                args: Args {
                    first: Reg(3),
                    count: 2,
                },
                name: 1,
            },
            Instr::CallValue {
                to: Reg(5),
                of: Reg(4),
                args: Args {
                    first: Reg(3),
                    count: 2,
                },
            },
            Instr::CallValue {
                to: Reg(4),
                of: Reg(5),
                args: Args {
                    first: Reg(3),
                    count: 2,
                },
            },
            Instr::CallValue {
                to: Reg(4),
                of: Reg(4),
                args: Args {
                    first: Reg(3),
                    count: 3,
                },
            },
            Instr::CallGlobal {
                to: Reg(5),
                args: Args {
                    first: Reg(3),
                    count: 2,
                },
                name: 0,
            },
            Instr::CallGlobal {
                to: Reg(4),
                args: Args {
                    first: Reg(3),
                    count: 3,
                },
                name: 0,
            },
            Instr::CallGlobal {
                to: Reg(4),
                args: Args {
                    first: Reg(3),
                    count: 2,
                },
                name: 1,
            },
            Instr::CallFunction {
                to: Reg(5),
                args: Args {
                    first: Reg(3),
                    count: 2,
                },
                function: 0,
                on_self: true,
                sure: 0,
            },
            Instr::CallFunction {
                to: Reg(4),
                args: Args {
                    first: Reg(3),
                    count: 3,
                },
                function: 0,
                on_self: true,
                sure: 0,
            },
            Instr::CallFunction {
                to: Reg(4),
                args: Args {
                    first: Reg(3),
                    count: 2,
                },
                function: 1,
                on_self: true,
                sure: 0,
            },
            Instr::New {
                to: Reg(5),
                args: Args {
                    first: Reg(3),
                    count: 2,
                },
                class_tag: ClassTag::Node,
                sure: 0,
            },
            Instr::New {
                to: Reg(4),
                args: Args {
                    first: Reg(3),
                    count: 3,
                },
                class_tag: ClassTag::Node,
                sure: 0,
            },
        ],
    )
}

/// Walks and matches where in each row one operand is out of range.
pub fn matches_out_of_range<R: Print + AllocGlobal>(rt: &R) -> Result<()> {
    tell_each(
        rt,
        5,
        &[
            Instr::WalkValue {
                walk: Reg(3),
                from: Reg(4),
            },
            Instr::WalkValue {
                walk: Reg(2),
                from: Reg(5),
            },
            Instr::WalkRange {
                walk: Reg(3),
                args: Args {
                    first: Reg(3),
                    count: 2,
                },
            },
            Instr::WalkRange {
                walk: Reg(2),
                args: Args {
                    first: Reg(3),
                    count: 3,
                },
            },
            Instr::WalkNext {
                walk: Reg(2),
                skip: 0,
            },
            Instr::WalkNext {
                walk: Reg(1),
                skip: 1,
            },
            Instr::MatchStart { from: Reg(5) },
            Instr::MatchSame {
                other: Reg(5),
                skip: 0,
            },
            Instr::MatchSame {
                other: Reg(4),
                skip: 1,
            },
            Instr::MatchArray {
                skip: 1,
                count: 2,
                or_more: true,
            },
            Instr::MatchDict { skip: 1 },
            Instr::MatchKeys { keys: 1, skip: 0 },
            Instr::MatchKeys { keys: 0, skip: 1 },
            Instr::MatchEntry { key: 1, skip: 0 },
            Instr::MatchEntry { key: 0, skip: 1 },
        ],
    )
}

/// Units, jumps and ends where in each row one operand is out of range.
pub fn units_out_of_range<R: Print + AllocGlobal>(rt: &R) -> Result<()> {
    tell_each(
        rt,
        5,
        &[
            Instr::EndUnit {
                locals: 6,
                bound: 5,
            },
            Instr::EndUnit {
                locals: 5,
                bound: 6,
            },
            Instr::Jump { skip: 1 },
            Instr::JumpUnless {
                condition: Reg(5),
                skip: 0,
            },
            Instr::JumpUnless {
                condition: Reg(4),
                skip: 1,
            },
            Instr::JumpIfOpen {
                local: Reg(5),
                skip: 0,
            },
            Instr::JumpIfOpen {
                local: Reg(4),
                skip: 1,
            },
            Instr::JumpBack { back: 0 },
            Instr::JumpBack { back: 2 },
            Instr::Assert { condition: Reg(5) },
            Instr::Return { value: Reg(5) },
        ],
    )
}

/// The most registers of a frame, and the greatest numbers.
pub fn limits<R: Print + AllocGlobal>(rt: &R) -> Result<()> {
    tell_each(
        rt,
        255,
        &[
            Instr::Push { from: Reg(249) },
            Instr::Push { from: Reg(250) },
            Instr::EndUnit {
                locals: 250,
                bound: 250,
            },
            Instr::EndUnit {
                locals: 250,
                bound: 251,
            },
            Instr::EndUnit {
                locals: 251,
                bound: 250,
            },
            Instr::CallGlobal {
                to: Reg(0),
                name: 0,
                args: Args {
                    first: Reg(255),
                    count: 0,
                },
            },
            Instr::CallGlobal {
                to: Reg(0),
                name: 0,
                args: Args {
                    first: Reg(255),
                    count: 255,
                },
            },
            Instr::Jump { skip: 4294967295 },
        ],
    )
}
