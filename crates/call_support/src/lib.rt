//! What the calls of strings and of containers share: arguments, views of a cell, walks within limits, changes of a cell.
#![tactic(auto)]

pub mod arguments;
pub mod changes;
pub mod copies;
pub mod views;
pub mod walks;
