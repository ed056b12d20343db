//! Laws of what scripts mean, that no call is needed for.
#![tactic(auto)]

pub mod allowance;
pub mod knowing;
