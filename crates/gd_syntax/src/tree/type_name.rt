// Names and types, as declarations have them.

use crate::fault::Place;
use crate::name::{Name, Text};
use crate::tree::Expr;
use tree_lists::Items;

/// A name that is declared, or is a key, and where it stands.
#[derive(Debug, PartialEq, Drop)]
pub struct Identifier {
    pub place: Place,
    pub name: Name,
}

/// The path of a `preload` or `load`, and where it stands.
#[derive(Debug, PartialEq, Drop)]
pub struct PathText {
    pub place: Place,
    pub text: Text,
}

/// The type of an array's elements as it is written: the names between the dots.
#[derive(Debug, PartialEq, Drop)]
pub struct ElementName {
    pub place: Place,
    pub names: Items<Name>,
}

/// A type as it is written.
#[derive(Debug, PartialEq, Drop)]
pub enum TypeName {
    /// The names between the dots, and the type of an array's elements, which no type has yet.
    Named(Place, Items<Name>, Option<ElementName>),
    /// `void`, which stands after `->` alone.
    Void(Place),
}

/// What a variable or a parameter is declared to be.
#[derive(Debug, PartialEq, Drop)]
pub enum Declared {
    /// `: Type = value`, where each part may be missing.
    Typed(Option<TypeName>, Option<Expr>),
    /// `:= value`, where the value gives the type.
    Inferred(Expr),
}
