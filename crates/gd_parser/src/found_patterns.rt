// What the rules of patterns have read, with the place of the token after it.

use gd_syntax::{Pattern, PatternEntry};
use tree_lists::Items;

/// A pattern, and whether a `var` stands in it.
#[derive(Debug, Drop)]
pub struct FoundPattern {
    pub tree: Pattern,
    pub binds: bool,
    pub at: usize,
}

/// Patterns, and whether a `var` stands in one.
#[derive(Debug, Drop)]
pub struct FoundPatterns {
    pub items: Items<Pattern>,
    pub binds: bool,
    pub at: usize,
}

/// An entry of a dictionary, and whether a `var` stands in it.
#[derive(Debug, Drop)]
pub struct FoundEntry {
    pub tree: PatternEntry,
    pub binds: bool,
    pub at: usize,
}

#[derive(Debug, Drop)]
pub struct FoundEntries {
    pub items: Items<PatternEntry>,
    pub binds: bool,
    pub at: usize,
}
