//! Calls of arrays and dictionaries, and operators on all values.
#![tactic(auto)]

mod array_calls;
mod arrays;
mod comparisons;
mod dict_calls;
mod dicts;
mod elements;
mod indexing;
mod laws;
mod operations;
mod sorts;
#[cfg(test)]
mod tests;
mod truths;

pub use array_calls::array_call;
pub use dict_calls::dict_call;
pub use indexing::{get_index, set_index};
pub use laws::{a_sort_is_sorted, texts_are_ordered_by_code_points};
pub use operations::operate;
pub use truths::truth;
