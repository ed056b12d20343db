// Operators as they are printed.
ghost use Rattle.std.specs.Prelude.{◌≡◌};
ghost use Rattle.trees.specs.Texts.{assign_text, binary_text, prefix_text};

use gd_syntax::{AssignOp, TreeOp, TreePrefix};

pub fn binary_word(op: TreeOp) -> &'static str
    ensures { result.now ≡ binary_text op }
{
    match op {
        TreeOp::Add => " + ",
        TreeOp::Sub => " - ",
        TreeOp::Mul => " * ",
        TreeOp::Div => " / ",
        TreeOp::Rem => " % ",
        TreeOp::Shl => " << ",
        TreeOp::Shr => " >> ",
        TreeOp::BitAnd => " & ",
        TreeOp::BitXor => " ^ ",
        TreeOp::BitOr => " | ",
        TreeOp::Eq => " == ",
        TreeOp::Ne => " != ",
        TreeOp::Lt => " < ",
        TreeOp::Gt => " > ",
        TreeOp::Le => " <= ",
        TreeOp::Ge => " >= ",
        TreeOp::Within => " in ",
        TreeOp::And => " and ",
        TreeOp::Or => " or ",
    }
}

pub fn prefix_word(op: TreePrefix) -> &'static str
    ensures { result.now ≡ prefix_text op }
{
    match op {
        TreePrefix::Inv => "~",
        TreePrefix::Plus => "+",
        TreePrefix::Neg => "-",
    }
}

pub fn assign_word(op: AssignOp) -> &'static str
    ensures { result.now ≡ assign_text op }
{
    match op {
        AssignOp::Set => " = ",
        AssignOp::Add => " += ",
        AssignOp::Sub => " -= ",
        AssignOp::Mul => " *= ",
        AssignOp::Div => " /= ",
        AssignOp::Rem => " %= ",
        AssignOp::BitAnd => " &= ",
        AssignOp::BitOr => " |= ",
        AssignOp::BitXor => " ^= ",
        AssignOp::Shl => " <<= ",
        AssignOp::Shr => " >>= ",
    }
}
