//! Changes of a container that come whole or not at all: `merge` and `resize`.
#![tactic(auto)]

pub mod laws;
pub mod merges;
pub mod resizes;
#[cfg(test)]
mod tests;
