//! The top call: what a list of words means over a project folder, and its statuses.
#![tactic(auto)]

mod command;
mod file;
mod laws;
mod run;
mod single;
mod status;
mod stop;
mod taken;
#[cfg(test)]
mod tests;
mod top;
mod words;
mod write;

pub use laws::{chains_keep_their_value, what_is_taken};
pub use status::Status;
pub use top::{gd_main_alone, outcomes_are_determined, run_in_memory};
