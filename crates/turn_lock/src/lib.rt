//! A lock round a value that has a log which only grows. Whoever enters finds a log that begins with all that it had seen.
#![tactic(auto)]

mod crossing;
mod lock;
#[cfg(test)]
mod tests;
mod told;
mod view;

pub use lock::{Held, Pass, Turn, TurnLock, TurnOut};
pub use told::Told;
