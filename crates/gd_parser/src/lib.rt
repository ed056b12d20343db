//! Reads declarations, statements, classes and whole files from tokens, by the grammar of `gd_syntax`.
#![tactic(auto)]

mod blocks;
mod branches;
mod classes;
mod declarations;
mod found_patterns;
mod functions;
mod lists;
mod members;
mod patterns;
mod script;
mod statements;

pub use script::parse;
