// Trees of patterns.

use crate::fault::Place;
use crate::name::Name;
use crate::tree::{Identifier, Literal};
use tree_lists::{Boxed, Items};

/// `key: pattern` in a dictionary, where the pattern may be missing.
#[cycle(pattern)]
#[derive(Debug, PartialEq, Drop)]
pub struct PatternEntry {
    pub place: Place,
    pub key: Literal,
    pub value: Option<Boxed<Pattern>>,
}

/// A pattern of a `match`. The place is that of its first token.
#[cycle(pattern)]
#[derive(Debug, PartialEq, Drop)]
pub enum Pattern {
    /// `_`
    Wildcard(Place),
    /// `var x`
    Bind(Place, Identifier),
    /// a literal, and whether `-` stands before it
    Literal(Place, bool, Literal),
    /// the names between the dots
    Path(Place, Items<Name>),
    /// `[p, ..]`, and whether more items may follow
    Array(Place, Items<Pattern>, bool),
    /// `{k: p, ..}`, and whether there may be more entries
    Dict(Place, Items<PatternEntry>, bool),
}
