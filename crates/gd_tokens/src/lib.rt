//! The tokens of a script.
#![tactic(auto)]

mod found;
mod keywords;
mod layout;
mod lines;
mod list;
mod numbers;
mod reader;
mod scan;
mod signs;
mod strings;
mod texts;
mod words;

pub use reader::past;
pub use scan::is_blank;
pub use texts::{tokens, valid_front};
pub use words::{is_quote, starts_word};
