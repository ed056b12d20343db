//! Methods of strings, texts of values and formats.
#![tactic(auto)]

mod builders;
pub mod calls;
mod directives;
mod edges;
pub mod formats;
mod joins;
mod laws;
mod methods;
mod pieces;
mod searches;
#[cfg(test)]
mod tests;
pub mod texts;

pub use calls::string_call;
pub use formats::format_text;
pub use laws::{
    a_part_is_contained, a_place_is_the_first, a_split_cuts_at_the_first_place, a_split_joins_again,
};
pub use texts::text_of;
