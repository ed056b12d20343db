//! What the loader, the compiler and the machine share of the syntax of GDScript: places, paths of a project, faults
//! and trees.
#![tactic(auto)]

mod fault;
mod first;
mod name;
mod path;
mod stops;
mod tables;
#[cfg(test)]
mod tests;
mod threads;
mod token;
mod tree;

pub use fault::{FaultKind, Form, LoadFault, Place, SolveError};
pub use first::{FirstItem, FirstPrint, FirstProduct, FirstScript, FirstSum, SumOp};
pub use name::{Name, Text};
pub use path::{PathError, ResPath};
pub use stops::{Sought, refusal};
pub use tables::tables_of_the_language;
pub use threads::may_cross;
pub use token::{KEYWORDS, Kind, Mark, SIGNS, Token};
pub use tree::{
    Annotation, AssignOp, Base, BaseRoot, Branch, Class, Const, Declared, ElementName, Enum,
    EnumItem, Expr, Func, Head, Identifier, Literal, MatchBranch, Member, Param, PathText, Pattern,
    PatternEntry, Script, Signal, Simple, Stmt, TreeOp, TreePrefix, TypeName, Var,
};
