//! What programs share that run files of cases, so that tables of texts are data: how the files are read, how texts are
//! escaped in them, what is printed below a case, and what ends a program early.
#![tactic(auto)]

mod escapes;
mod files;
mod stop;

pub use escapes::{bytes_of, push_quoted};
pub use files::{print_answer, print_line, read_text};
pub use stop::Stop;
