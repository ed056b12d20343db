//! Reads expressions and types from tokens, by the grammar of `gd_syntax`.
#![tactic(auto)]

mod climb;
mod found;
mod levels;
mod lists;
mod operand;
mod postfix;
pub mod reader;
mod rules;
mod top;
mod types;

pub use top::{MAX_LEVELS, expression};
pub use types::{result_type, type_name};
