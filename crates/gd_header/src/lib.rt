//! The header of a script: its global name, and where it ends.
#![tactic(auto)]

mod cursor;
mod global;
mod parts;
mod words;

pub use global::{header, header_end};
