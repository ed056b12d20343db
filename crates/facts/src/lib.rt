//! Facts of nodes: laws of every language whose rules say what each node's fact hangs on.
#![tactic(auto)]

mod laws;

pub use laws::{
    HasAgreement, HasLikeness, HasNodes, HasStages, a_node_has_one_fact,
    a_node_without_a_fact_leads_to_a_fault, agreeing_rules_give_the_same, facts_are_decided,
    facts_hang_on_needs, outcomes_are_determined, outcomes_hang_on_their_files,
    reached_files_are_listed,
};
