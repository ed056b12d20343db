//! Register code of scripts: its instructions, its form, its check and its text.
#![tactic(auto)]

mod disassembly;
mod file_code;
mod forms;
mod instructions;
pub mod laws;
mod verifier;

pub use file_code::{
    ClassCode, Code, ExportedValue, FieldCode, FunctionCode, GlobalRow, KnownFunction, NamedCode,
    NodeSource, Parameter, SceneCode, SceneConnection, SceneNode,
};
pub use forms::{Form, Jump, Registers};
pub use instructions::{Args, Instr, Op, Reg};
pub use verifier::{BadCode, CheckedCode, MOST_REGISTERS, verify};
