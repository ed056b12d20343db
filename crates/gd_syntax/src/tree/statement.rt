// Trees of statements.

use crate::fault::Place;
use crate::tree::{Const, Expr, Identifier, Pattern, TypeName, Var};
use tree_lists::Items;

/// `=`, or a binary operator with `=`.
#[derive(Clone, Copy, Debug, PartialEq, Eq)]
pub enum AssignOp {
    Set,
    Add,
    Sub,
    Mul,
    Div,
    Rem,
    BitAnd,
    BitOr,
    BitXor,
    Shl,
    Shr,
}

/// A statement that opens no block. The place is that of its first token.
#[derive(Debug, PartialEq, Drop)]
pub enum Simple {
    Pass(Place),
    Break(Place),
    Continue(Place),
    Return(Place, Option<Expr>),
    Var(Var),
    Const(Const),
    /// the condition and the message
    Assert(Place, Expr, Option<Expr>),
    Assign {
        place: Place,
        target: Expr,
        op: AssignOp,
        value: Expr,
    },
    Expr(Place, Expr),
}

/// A condition and its block. The place is that of the word `if` or `elif`.
#[cycle(statement)]
#[derive(Debug, PartialEq, Drop)]
pub struct Branch {
    pub place: Place,
    pub condition: Expr,
    pub body: Items<Stmt>,
}

/// The patterns of a branch of a `match`, the first of which has its place, and its block.
#[cycle(statement)]
#[derive(Debug, PartialEq, Drop)]
pub struct MatchBranch {
    pub patterns: Items<Pattern>,
    pub body: Items<Stmt>,
}

/// A statement. The place is that of its first token. A block is a list of statements.
#[cycle(statement)]
#[derive(Debug, PartialEq, Drop)]
pub enum Stmt {
    /// the simple statements of a line
    Line(Place, Items<Simple>),
    /// the branches of `if` and `elif`, and the block of `else`
    If(Place, Items<Branch>, Option<Items<Stmt>>),
    For {
        place: Place,
        name: Identifier,
        type_name: Option<TypeName>,
        subject: Expr,
        body: Items<Stmt>,
    },
    While(Place, Expr, Items<Stmt>),
    /// the subject, and the branches
    Match(Place, Expr, Items<MatchBranch>),
}
