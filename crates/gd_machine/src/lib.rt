//! Runs scripts.
#![tactic(auto)]

mod machine;
mod report;
#[cfg(test)]
mod tests;
mod values;

pub use machine::{CodePlace, Ending, Machine, Program, printed_pieces_are_the_text};
pub use report::ending_line;
