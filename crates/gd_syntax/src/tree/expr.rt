// Trees of expressions.

use crate::fault::Place;
use crate::name::{Name, Text};
use crate::tree::{Identifier, PathText, TypeName};
use tree_lists::{Boxed, Items};

/// A binary operator. `Within` is `in`.
#[derive(Clone, Copy, Debug, PartialEq, Eq)]
pub enum TreeOp {
    Add,
    Sub,
    Mul,
    Div,
    Rem,
    Shl,
    Shr,
    BitAnd,
    BitXor,
    BitOr,
    Eq,
    Ne,
    Lt,
    Gt,
    Le,
    Ge,
    Within,
    And,
    Or,
}

/// `~`, `+` or `-` before an operand.
#[derive(Clone, Copy, Debug, PartialEq, Eq)]
pub enum TreePrefix {
    Inv,
    Plus,
    Neg,
}

/// A value that is written as one token.
#[derive(Debug, PartialEq, Drop)]
pub enum Literal {
    Null,
    Bool(bool),
    Int(i64),
    Text(Text),
}

/// An expression. The place is that of its first token.
#[derive(Debug, PartialEq, Drop)]
pub enum Expr {
    Literal(Place, Literal),
    Name(Place, Name),
    /// `self`
    This(Place),
    /// `(e)`
    Paren(Place, Boxed<Expr>),
    /// `[e, ..]`
    Array(Place, Items<Expr>),
    /// `{k: v, ..}`
    Dict(Place, Items<(Expr, Expr)>),
    /// `{name = v, ..}`
    Table(Place, Items<(Identifier, Expr)>),
    /// `preload("p")`
    Preload(Place, PathText),
    /// `load("p")`
    Load(Place, PathText),
    /// `$A/B`
    NodePath(Place, Items<Name>),
    /// `$"A/B"`
    NodeText(Place, Text),
    /// `super(args)`
    Super(Place, Items<Expr>),
    /// `super.f(args)`
    SuperCall(Place, Name, Items<Expr>),
    /// `x[i]`
    Index(Place, Boxed<Expr>, Boxed<Expr>),
    /// `x.name`
    Member(Place, Boxed<Expr>, Name),
    /// `f(args)`
    Call(Place, Boxed<Expr>, Items<Expr>),
    /// `x is Type`
    Is(Place, Boxed<Expr>, TypeName),
    /// `x is not Type`
    IsNot(Place, Boxed<Expr>, TypeName),
    Prefix(Place, TreePrefix, Boxed<Expr>),
    Binary {
        place: Place,
        op: TreeOp,
        left: Boxed<Expr>,
        right: Boxed<Expr>,
    },
    /// `not x`; `a not in b` is `not` over `a in b`
    Not(Place, Boxed<Expr>),
    /// `value if condition else otherwise`
    Ternary {
        place: Place,
        value: Boxed<Expr>,
        condition: Boxed<Expr>,
        otherwise: Boxed<Expr>,
    },
    /// `x as Type`
    As(Place, Boxed<Expr>, TypeName),
}
