//! The pure core of the loader: which stage of which file may be computed next, and what was published so far.
#![tactic(auto)]

mod answer;
mod claim;
mod closure;
mod engine;
mod law;
mod log;
mod log_rows;
mod needs;
mod ready;
#[cfg(test)]
mod sample;
mod stage_work;
mod status;
#[cfg(test)]
mod tests;
mod thread_safety;
mod work;

pub use answer::{Answer, AnswerError};
pub use claim::{Claim, NoClaim};
pub use engine::Core;
pub use law::{every_schedule, stays_open};
pub use log::{Entry, OutcomeValue, TasksInProgress};
pub use stage_work::StageWork;
pub use status::RefStatus;
pub use work::{Need, Outcome, StageOut, StageValue};
