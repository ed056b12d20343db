// The levels of operators, from tight to loose. Levels 1 to 8, 10 and 11 are those of binary operators.
ghost use Rattle.std.specs.Prelude.{◌≡◌, ◌≢◌, ◌≤◌};
ghost use Rattle.gd_syntax.specs.Operators as spec;

use gd_syntax::{Mark, TreeOp, TreePrefix};

/// `~ + -` before an operand.
pub const PREFIX: u8 = 0;

/// `not` and `!` before an operand.
pub const NOT: u8 = 9;

/// `or`, the loosest binary operator.
pub const OR: u8 = 11;

pub const TERNARY: u8 = 12;

/// `as`, the loosest level.
pub const AS: u8 = 13;

/// The level of the binary operator that begins with this token, or 0.
pub fn level_of(mark: Option<Mark>) -> u8
    ensures value { result ≡ spec.level_of mark }
    ensures small { result ≤ 11 }
    ensures binary { result ≢ 9 }
{
    match mark {
        Some(Mark::Star | Mark::Slash | Mark::Percent) => 1,
        Some(Mark::Plus | Mark::Minus) => 2,
        Some(Mark::ShiftLeft | Mark::ShiftRight) => 3,
        Some(Mark::Amp) => 4,
        Some(Mark::Caret) => 5,
        Some(Mark::Bar) => 6,
        Some(
            Mark::Equal
            | Mark::Differ
            | Mark::Less
            | Mark::Greater
            | Mark::LessEqual
            | Mark::GreaterEqual,
        ) => 7,
        Some(Mark::In | Mark::Not) => 8,
        Some(Mark::And | Mark::AmpAmp) => 10,
        Some(Mark::Or | Mark::BarBar) => 11,
        _ => 0,
    }
}

/// The binary operator of one token.
pub fn operator_of(mark: Option<Mark>) -> Option<TreeOp>
    ensures { result ≡ spec.operator_of mark }
{
    match mark {
        Some(Mark::Star) => Some(TreeOp::Mul),
        Some(Mark::Slash) => Some(TreeOp::Div),
        Some(Mark::Percent) => Some(TreeOp::Rem),
        Some(Mark::Plus) => Some(TreeOp::Add),
        Some(Mark::Minus) => Some(TreeOp::Sub),
        Some(Mark::ShiftLeft) => Some(TreeOp::Shl),
        Some(Mark::ShiftRight) => Some(TreeOp::Shr),
        Some(Mark::Amp) => Some(TreeOp::BitAnd),
        Some(Mark::Caret) => Some(TreeOp::BitXor),
        Some(Mark::Bar) => Some(TreeOp::BitOr),
        Some(Mark::Equal) => Some(TreeOp::Eq),
        Some(Mark::Differ) => Some(TreeOp::Ne),
        Some(Mark::Less) => Some(TreeOp::Lt),
        Some(Mark::Greater) => Some(TreeOp::Gt),
        Some(Mark::LessEqual) => Some(TreeOp::Le),
        Some(Mark::GreaterEqual) => Some(TreeOp::Ge),
        Some(Mark::In) => Some(TreeOp::Within),
        Some(Mark::And | Mark::AmpAmp) => Some(TreeOp::And),
        Some(Mark::Or | Mark::BarBar) => Some(TreeOp::Or),
        _ => None,
    }
}

/// The operator before an operand, of the level `PREFIX`.
pub fn prefix_of(mark: Option<Mark>) -> Option<TreePrefix>
    ensures { result ≡ spec.prefix_of mark }
{
    match mark {
        Some(Mark::Tilde) => Some(TreePrefix::Inv),
        Some(Mark::Plus) => Some(TreePrefix::Plus),
        Some(Mark::Minus) => Some(TreePrefix::Neg),
        _ => None,
    }
}

pub fn is_not(mark: Option<Mark>) -> bool
    ensures { result ≡ spec.is_not mark }
{
    matches!(mark, Some(Mark::Not | Mark::Bang))
}
