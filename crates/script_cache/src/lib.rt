//! The loader's core under a lock, shared by threads.
#![tactic(auto)]

mod cache;
mod crossing;
mod errors;
mod gate;
mod job;
mod law;
#[cfg(test)]
mod sample;
mod shared_core;
#[cfg(test)]
mod tests;

pub use cache::{CachePass, ScriptCache};
pub use errors::{CacheAnswerError, ClaimError, NoRaise, RequestError, StatusError};
pub use gate::{Gate, NoGate};
pub use job::{Finished, Job, Raised};
pub use law::no_status_goes_back;
pub use shared_core::SharedCore;
