// What rules have read, with the place of the token after it.

use gd_syntax::{Expr, Identifier};
use tree_lists::{Boxed, Items};

/// A tree and its levels.
#[derive(Debug, Drop)]
pub struct Found {
    pub tree: Boxed<Expr>,
    pub levels: usize,
    pub at: usize,
}

/// Expressions, and the levels of the deepest.
#[derive(Debug, Drop)]
pub struct FoundList {
    pub items: Items<Expr>,
    pub levels: usize,
    pub at: usize,
}

/// `key: value`, and the levels of the deeper.
#[derive(Debug, Drop)]
pub struct FoundEntry {
    pub key: Boxed<Expr>,
    pub value: Boxed<Expr>,
    pub levels: usize,
    pub at: usize,
}

#[derive(Debug, Drop)]
pub struct FoundEntries {
    pub items: Items<(Expr, Expr)>,
    pub levels: usize,
    pub at: usize,
}

/// `key = value`, and the levels of the value.
#[derive(Debug, Drop)]
pub struct FoundField {
    pub key: Identifier,
    pub value: Boxed<Expr>,
    pub levels: usize,
    pub at: usize,
}

#[derive(Debug, Drop)]
pub struct FoundFields {
    pub items: Items<(Identifier, Expr)>,
    pub levels: usize,
    pub at: usize,
}
