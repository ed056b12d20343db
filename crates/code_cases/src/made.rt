use folder_meaning::ConstValue;
use gd_bytecode::{Code, FunctionCode, GlobalRow, Instr, KnownFunction, Op};
use gd_syntax::{Name, Text};
use std::alloc::{AllocError, Global};
use tree_lists::Items;
use variant_values::ClassTag;

fn name(alloc: Global) -> Result<Name, AllocError> {
    let mut text = Text::new(alloc);
    text.push('n')?;
    Ok(Name::from_text(text))
}

/// A function of these instructions, at line 7.
pub fn function_of(
    alloc: Global,
    registers: u8,
    instructions: &[Instr],
) -> Result<FunctionCode, AllocError> {
    let mut ops = Items::new(alloc);
    for instr in instructions {
        ops.push(Op {
            line: 7,
            instr: *instr,
        })?;
    }
    Ok(FunctionCode {
        line: 6,
        is_static: false,
        parameters: Items::new(alloc),
        registers,
        ops,
    })
}

/// Code of this function and another of one step, with a constant, a name, a known function and a global row.
pub fn code_of(alloc: Global, function: FunctionCode) -> Result<Code, AllocError> {
    let mut functions = Items::new(alloc);
    functions.push(function)?;
    functions.push(function_of(alloc, 1, &[Instr::Step])?)?;
    let mut constants = Items::new(alloc);
    constants.push(ConstValue::Null)?;
    let mut names = Items::new(alloc);
    names.push(name(alloc)?)?;
    let mut known_functions = Items::new(alloc);
    known_functions.push(KnownFunction {
        class_tag: ClassTag::Object,
        name: name(alloc)?,
    })?;
    let mut globals = Items::new(alloc);
    globals.push(GlobalRow {
        name: name(alloc)?,
        file: 0,
    })?;
    Ok(Code {
        file: 0,
        functions,
        constants,
        names,
        known_functions,
        classes: Items::new(alloc),
        globals,
        scene: None,
    })
}
