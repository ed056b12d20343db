// Trees of classes and their members.

use crate::fault::Place;
use crate::name::{Name, Text};
use crate::tree::{Declared, Expr, Identifier, Stmt, TypeName};
use tree_lists::Items;

/// `@name(args)`
#[derive(Debug, PartialEq, Drop)]
pub struct Annotation {
    pub place: Place,
    pub name: Name,
    pub args: Items<Expr>,
}

/// What a base begins with.
#[derive(Debug, PartialEq, Drop)]
pub enum BaseRoot {
    /// the path of a file
    Path(Text),
    Name(Name),
}

/// What a class extends: a file or a class, and the names of inner classes after the dots.
#[derive(Debug, PartialEq, Drop)]
pub struct Base {
    pub place: Place,
    pub root: BaseRoot,
    pub names: Items<Name>,
}

/// A line above the members of a file.
#[derive(Debug, PartialEq, Drop)]
pub enum Head {
    Annotation(Annotation),
    ClassName(Place, Identifier, Option<Base>),
    Extends(Place, Base),
}

#[derive(Debug, PartialEq, Drop)]
pub struct Var {
    pub place: Place,
    pub annotations: Items<Annotation>,
    pub name: Identifier,
    pub declared: Declared,
}

#[derive(Debug, PartialEq, Drop)]
pub struct Const {
    pub place: Place,
    pub name: Identifier,
    pub type_name: Option<TypeName>,
    pub value: Expr,
}

#[derive(Debug, PartialEq, Drop)]
pub struct EnumItem {
    pub name: Identifier,
    pub value: Option<Expr>,
}

#[derive(Debug, PartialEq, Drop)]
pub struct Enum {
    pub place: Place,
    pub name: Option<Identifier>,
    pub items: Items<EnumItem>,
}

#[derive(Debug, PartialEq, Drop)]
pub struct Param {
    pub name: Identifier,
    pub declared: Declared,
}

#[derive(Debug, PartialEq, Drop)]
pub struct Signal {
    pub place: Place,
    pub name: Identifier,
    pub params: Items<Param>,
}

#[derive(Debug, PartialEq, Drop)]
pub struct Func {
    pub place: Place,
    pub annotations: Items<Annotation>,
    pub is_static: bool,
    pub name: Identifier,
    pub params: Items<Param>,
    pub result: Option<TypeName>,
    pub body: Items<Stmt>,
}

/// An inner class.
#[cycle(member)]
#[derive(Debug, PartialEq, Drop)]
pub struct Class {
    pub place: Place,
    pub name: Identifier,
    pub base: Option<Base>,
    pub members: Items<Member>,
}

/// A member of a class. The place is that of its first token.
#[cycle(member)]
#[derive(Debug, PartialEq, Drop)]
pub enum Member {
    Pass(Place),
    Var(Var),
    Const(Const),
    Enum(Enum),
    Signal(Signal),
    Func(Func),
    Class(Class),
}

/// A file.
#[derive(Debug, PartialEq, Drop)]
pub struct Script {
    pub place: Place,
    pub heads: Items<Head>,
    pub members: Items<Member>,
}
