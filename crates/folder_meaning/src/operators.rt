// The operators of trees, as those of values.
ghost use Rattle.std.specs.Prelude.{◌≡◌};
ghost use Rattle.folder_meaning.specs.Operators as of_tree;

use gd_syntax::{TreeOp, TreePrefix};
use variant_values::{BinaryOp, UnaryOp};

/// The operator of values with the same spelling.
pub fn value_op(op: TreeOp) -> BinaryOp
    ensures { result ≡ of_tree.value_op op }
{
    match op {
        TreeOp::Add => BinaryOp::Add,
        TreeOp::Sub => BinaryOp::Sub,
        TreeOp::Mul => BinaryOp::Mul,
        TreeOp::Div => BinaryOp::Div,
        TreeOp::Rem => BinaryOp::Rem,
        TreeOp::Shl => BinaryOp::Shl,
        TreeOp::Shr => BinaryOp::Shr,
        TreeOp::BitAnd => BinaryOp::BitAnd,
        TreeOp::BitXor => BinaryOp::BitXor,
        TreeOp::BitOr => BinaryOp::BitOr,
        TreeOp::Eq => BinaryOp::Eq,
        TreeOp::Ne => BinaryOp::Ne,
        TreeOp::Lt => BinaryOp::Lt,
        TreeOp::Gt => BinaryOp::Gt,
        TreeOp::Le => BinaryOp::Le,
        TreeOp::Ge => BinaryOp::Ge,
        TreeOp::Within => BinaryOp::Within,
        TreeOp::And => BinaryOp::And,
        TreeOp::Or => BinaryOp::Or,
    }
}

/// The operator of values with the same spelling.
pub fn value_prefix(op: TreePrefix) -> UnaryOp
    ensures { result ≡ of_tree.value_prefix op }
{
    match op {
        TreePrefix::Inv => UnaryOp::Inv,
        TreePrefix::Plus => UnaryOp::Plus,
        TreePrefix::Neg => UnaryOp::Neg,
    }
}
