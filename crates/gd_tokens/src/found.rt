// What stands at a place of a text.
use gd_syntax::{FaultKind, Kind};

/// What stands at a place, with the number of its characters.
#[derive(Drop)]
pub enum Found {
    /// A space or a tab.
    Space,
    /// A comment, or a line end that joins two lines.
    Gap(usize),
    LineEnd(usize),
    Token(Kind, usize),
    /// No token, with the fault so many characters further on.
    Wrong(FaultKind, usize),
    /// A string that nothing closes.
    Unended,
}
