// Trees of the language. A production of the grammar with alternatives is an enum, another is a struct.

mod expr;
mod member;
mod pattern;
mod statement;
mod type_name;

pub use expr::{Expr, Literal, TreeOp, TreePrefix};
pub use member::{
    Annotation, Base, BaseRoot, Class, Const, Enum, EnumItem, Func, Head, Member, Param, Script,
    Signal, Var,
};
pub use pattern::{Pattern, PatternEntry};
pub use statement::{AssignOp, Branch, MatchBranch, Simple, Stmt};
pub use type_name::{Declared, ElementName, Identifier, PathText, TypeName};
