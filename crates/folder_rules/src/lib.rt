//! What the files of a folder name, which classes extend which, and what a load of a file comes to.
#![tactic(auto)]

mod laws;

pub use laws::{
    bases_come_to_one_of_three, done_at_stage_two_has_ancestors, each_stage_has_one_outcome,
    files_hang_on_what_they_read, folders_mean_as_worked_out, nodes_of_folders_are_decided,
    outcomes_hang_on_what_is_reached, what_has_no_fact_reaches_a_fault,
    what_is_known_is_that_of_the_folder,
};
