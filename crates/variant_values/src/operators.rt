// Operators on values that stand in no cell.
ghost use Rattle.std.specs.Prelude.{◌≡◌, ◌≢◌, cond, false, not, option_map, true};
ghost use Rattle.std.specs.Int.{int_shl, int_shr, w64};
ghost use Rattle.variant_values.specs.Operators.{Answers, amount_of, binary_of, equal, int_binary, int_unary, joined, key_of, number_of, or_bad, other_binary, same_text, shifted, text_binary, text_order, truth_of, unary_of, is_container, is_scalar_op, is_text};
ghost use Rattle.variant_values.specs.declared.operators.BinaryOp.TheVariants.{Add, Div, Rem};

use crate::classes::is_same_class;
use crate::faults::{RunFault, Trouble};
use crate::texts::Str;
use crate::values::{Key, Value};
use std::alloc::{AllocError, Global};

/// The most bytes that a string may have.
pub const LONGEST_STRING: usize = 1_048_576;

/// The most items of an array, and entries of a dictionary.
pub const MOST_ITEMS: usize = 1_048_576;

/// A binary operator of the language. `Within` is `in`.
#[derive(Clone, Copy, Debug, PartialEq, Eq)]
pub enum BinaryOp {
    Add,
    Sub,
    Mul,
    Div,
    Rem,
    Shl,
    Shr,
    BitAnd,
    BitXor,
    BitOr,
    Eq,
    Ne,
    Lt,
    Gt,
    Le,
    Ge,
    Within,
    And,
    Or,
}

/// `~`, `+` or `-` before an operand.
#[derive(Clone, Copy, Debug, PartialEq, Eq)]
pub enum UnaryOp {
    Inv,
    Plus,
    Neg,
}

fn truth(b: bool) -> Result<Value, RunFault>
    ensures { result ≡ truth_of b }
{
    Ok(Value::Bool(b))
}

fn number(n: i64) -> Result<Value, RunFault>
    ensures { result ≡ number_of n }
{
    Ok(Value::Int(n))
}

fn shift_amount(amount: i64) -> Option<u32>
    ensures { result ≡ amount_of amount }
{
    if 0 <= amount && amount < 64 {
        Some(amount as u32)
    } else {
        None
    }
}

fn shift(a: i64, amount: i64, left: bool) -> Result<Value, RunFault>
    ensures { result ≡ shifted (amount_of amount) (cond left (int_shl w64 a) (int_shr a)) }
{
    let Some(n) = shift_amount(amount) else {
        return Err(RunFault::BadShift);
    };
    number(if left { a << n } else { a >> n })
}

fn divide(a: i64, b: i64) -> Result<Value, RunFault>
    ensures { result ≡ int_binary Div a b }
{
    if b == 0 {
        return Err(RunFault::DivisionByZero);
    }
    number(a.wrapping_div(b))
}

fn remainder(a: i64, b: i64) -> Result<Value, RunFault>
    ensures { result ≡ int_binary Rem a b }
{
    if b == 0 {
        return Err(RunFault::DivisionByZero);
    }
    number(a.wrapping_rem(b))
}

/// Two whole numbers under an operator.
fn int_binary(op: BinaryOp, a: i64, b: i64) -> Result<Value, RunFault>
    ensures { result ≡ int_binary op a b }
{
    match op {
        BinaryOp::Add => number(a.wrapping_add(b)),
        BinaryOp::Sub => number(a.wrapping_sub(b)),
        BinaryOp::Mul => number(a.wrapping_mul(b)),
        BinaryOp::Div => divide(a, b),
        BinaryOp::Rem => remainder(a, b),
        BinaryOp::Shl => shift(a, b, true),
        BinaryOp::Shr => shift(a, b, false),
        BinaryOp::BitAnd => number(a & b),
        BinaryOp::BitXor => number(a ^ b),
        BinaryOp::BitOr => number(a | b),
        BinaryOp::Eq => truth(a == b),
        BinaryOp::Ne => truth(a != b),
        BinaryOp::Lt => truth(a < b),
        BinaryOp::Gt => truth(a > b),
        BinaryOp::Le => truth(a <= b),
        BinaryOp::Ge => truth(a >= b),
        BinaryOp::Within | BinaryOp::And | BinaryOp::Or => Err(RunFault::BadOperands),
    }
}

/// One string after the other.
fn joined(alloc: Global, a: &Str, b: &Str) -> Result<Value, Trouble>
    ensures { Answers result (joined a.now b.now) }
{
    if a.len() + b.len() > LONGEST_STRING {
        return Err(Trouble::Fault(RunFault::TooLong));
    }
    let mut text = String::with_capacity(alloc, a.len() + b.len())?;
    text.push_str(a.as_str())?;
    text.push_str(b.as_str())?;
    Ok(Value::Str(Str::from_string(text)?))
}

/// Two strings under a comparison.
fn compare_texts(op: BinaryOp, a: &Str, b: &Str) -> Result<Value, RunFault>
    requires { op ≢ Add }
    ensures { result ≡ text_binary op a.now b.now }
{
    let (a, b) = (a.as_str(), b.as_str());
    match op {
        BinaryOp::Eq => truth(a == b),
        BinaryOp::Ne => truth(a != b),
        BinaryOp::Lt => truth(a < b),
        BinaryOp::Gt => truth(a > b),
        BinaryOp::Le => truth(a <= b),
        BinaryOp::Ge => truth(a >= b),
        _ => Err(RunFault::BadOperands),
    }
}

fn text_binary(alloc: Global, op: BinaryOp, a: &Str, b: &Str) -> Result<Value, Trouble>
    ensures { Answers result (text_binary op a.now b.now) }
{
    match op {
        BinaryOp::Add => joined(alloc, a, b),
        _ => Ok(compare_texts(op, a, b)?),
    }
}

fn same_text(a: &Str, b: &Str) -> bool
    ensures { result ≡ same_text a.now b.now }
{
    a.as_str() == b.as_str()
}

/// Whether two values that are no containers are equal, or `None` where they cannot be compared.
pub fn equal(a: &Value, b: &Value) -> Option<bool>
    ensures { result ≡ equal a.now b.now }
{
    match (a, b) {
        (Value::Null, Value::Null) => Some(true),
        (Value::Null, _) | (_, Value::Null) => Some(false),
        (Value::Bool(a), Value::Bool(b)) => Some(*a == *b),
        (Value::Int(a), Value::Int(b)) => Some(*a == *b),
        (Value::Str(a), Value::Str(b)) => Some(same_text(a, b)),
        (Value::Object(a), Value::Object(b)) => Some(a.0 == b.0),
        (Value::Callable(a, f), Value::Callable(b, g)) => Some(a.0 == b.0 && same_text(f, g)),
        (Value::Signal(a, f), Value::Signal(b, g)) => Some(a.0 == b.0 && same_text(f, g)),
        (Value::Class(a), Value::Class(b)) => Some(is_same_class(a, b)),
        (Value::Scene(a, p), Value::Scene(b, q)) => Some(*a == *b && same_text(p, q)),
        (Value::Weak(a), Value::Weak(b)) => Some(a.0 == b.0),
        _ => None,
    }
}

fn or_bad(answer: Option<bool>) -> Result<Value, RunFault>
    ensures { result ≡ or_bad answer }
{
    match answer {
        Some(b) => truth(b),
        None => Err(RunFault::BadOperands),
    }
}

fn negated(answer: Option<bool>) -> Option<bool>
    ensures { result ≡ option_map not answer }
{
    match answer {
        Some(b) => Some(!b),
        None => None,
    }
}

/// Two values that are neither both whole numbers nor both strings.
fn other_binary(op: BinaryOp, a: &Value, b: &Value) -> Result<Value, RunFault>
    ensures { result ≡ other_binary op a.now b.now }
{
    match op {
        BinaryOp::Eq => or_bad(equal(a, b)),
        BinaryOp::Ne => or_bad(negated(equal(a, b))),
        _ => Err(RunFault::BadOperands),
    }
}

/// The value of a binary operation on values that stand in no cell. `and`, `or` and `in` are evaluated elsewhere, and
/// so is a string before `%`.
pub fn binary(alloc: Global, op: BinaryOp, a: &Value, b: &Value) -> Result<Value, Trouble>
    requires left { is_container a.now ≡ false }
    requires right { is_container b.now ≡ false }
    requires operator { is_scalar_op op ≡ true }
    requires format { op ≡ Rem → is_text a.now ≡ false }
    ensures { Answers result (binary_of op a.now b.now) }
{
    match (a, b) {
        (Value::Int(a), Value::Int(b)) => Ok(int_binary(op, *a, *b)?),
        (Value::Str(a), Value::Str(b)) => text_binary(alloc, op, a, b),
        _ => Ok(other_binary(op, a, b)?),
    }
}

fn int_unary(op: UnaryOp, a: i64) -> i64
    ensures { result ≡ int_unary op a }
{
    match op {
        UnaryOp::Inv => !a,
        UnaryOp::Plus => a,
        UnaryOp::Neg => a.wrapping_neg(),
    }
}

/// The value of an operator before a value.
pub fn unary(op: UnaryOp, a: &Value) -> Result<Value, RunFault>
    ensures { result ≡ unary_of op a.now }
{
    match a {
        Value::Int(a) => number(int_unary(op, *a)),
        _ => Err(RunFault::BadOperands),
    }
}

impl Key {
    /// The key that a value is. `BadKey` where its kind is none of a key's.
    pub fn of(value: &Value) -> Result<Key, Trouble>
        ensures { Answers result (key_of value.now) }
    {
        match value {
            Value::Bool(b) => Ok(Key::Bool(*b)),
            Value::Int(n) => Ok(Key::Int(*n)),
            Value::Str(text) => Ok(Key::Str(text.clone()?)),
            Value::Object(serial) => Ok(Key::Object(*serial)),
            _ => Err(Trouble::Fault(RunFault::BadKey)),
        }
    }
}
