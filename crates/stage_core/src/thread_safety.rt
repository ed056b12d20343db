//! What may cross threads and be shared by them.
use crate::answer::Answer;
use crate::claim::Claim;
use crate::engine::Core;
use crate::work::{Need, Outcome, StageOut};

fn crosses<T: Send + Sync>(_value: &T) {}

/// Cores, claims, answers and what a task gets and gives cross threads where the results may.
pub fn cross_threads<O: StageOut + Send + Sync>(
    core: &Core<O>,
    claim: &Claim<O>,
    need: &Need<O>,
    outcome: &Outcome<O>,
    answer: &Answer<O>,
) {
    crosses(core);
    crosses(claim);
    crosses(need);
    crosses(outcome);
    crosses(answer);
}
