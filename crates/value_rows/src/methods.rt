// Methods and operators by their names in scripts.
ghost use Rattle.std.specs.Prelude.{◌≡◌};
ghost use Rattle.value_rows.specs.Operators.{value_op, value_prefix};

use gd_syntax::{TreeOp, TreePrefix};
use variant_values::container_methods::{ArrayMethod, DictMethod};
use variant_values::operators::{BinaryOp, UnaryOp};
use variant_values::string_methods::StrMethod;

pub fn string_method(name: &str) -> Option<StrMethod> {
    let method = match name {
        "length" => StrMethod::Length,
        "is_empty" => StrMethod::IsEmpty,
        "substr" => StrMethod::Substr,
        "left" => StrMethod::Left,
        "right" => StrMethod::Right,
        "find" => StrMethod::Find,
        "contains" => StrMethod::Contains,
        "begins_with" => StrMethod::BeginsWith,
        "ends_with" => StrMethod::EndsWith,
        "replace" => StrMethod::Replace,
        "split" => StrMethod::Split,
        "join" => StrMethod::Join,
        "repeat" => StrMethod::Repeat,
        "to_upper" => StrMethod::ToUpper,
        "to_lower" => StrMethod::ToLower,
        "strip_edges" => StrMethod::StripEdges,
        "is_valid_int" => StrMethod::IsValidInt,
        "to_int" => StrMethod::ToInt,
        "unicode_at" => StrMethod::UnicodeAt,
        _ => return None,
    };
    Some(method)
}

pub fn array_method(name: &str) -> Option<ArrayMethod> {
    let method = match name {
        "size" => ArrayMethod::Size,
        "is_empty" => ArrayMethod::IsEmpty,
        "append" => ArrayMethod::Append,
        "push_back" => ArrayMethod::PushBack,
        "push_front" => ArrayMethod::PushFront,
        "pop_back" => ArrayMethod::PopBack,
        "pop_front" => ArrayMethod::PopFront,
        "front" => ArrayMethod::Front,
        "back" => ArrayMethod::Back,
        "insert" => ArrayMethod::Insert,
        "remove_at" => ArrayMethod::RemoveAt,
        "erase" => ArrayMethod::Erase,
        "clear" => ArrayMethod::Clear,
        "has" => ArrayMethod::Has,
        "find" => ArrayMethod::Find,
        "count" => ArrayMethod::Count,
        "slice" => ArrayMethod::Slice,
        "reverse" => ArrayMethod::Reverse,
        "sort" => ArrayMethod::Sort,
        "duplicate" => ArrayMethod::Duplicate,
        "append_array" => ArrayMethod::AppendArray,
        "resize" => ArrayMethod::Resize,
        "fill" => ArrayMethod::Fill,
        _ => return None,
    };
    Some(method)
}

pub fn dict_method(name: &str) -> Option<DictMethod> {
    let method = match name {
        "size" => DictMethod::Size,
        "is_empty" => DictMethod::IsEmpty,
        "has" => DictMethod::Has,
        "get" => DictMethod::Get,
        "keys" => DictMethod::Keys,
        "values" => DictMethod::Values,
        "erase" => DictMethod::Erase,
        "clear" => DictMethod::Clear,
        "duplicate" => DictMethod::Duplicate,
        "merge" => DictMethod::Merge,
        _ => return None,
    };
    Some(method)
}

pub fn binary_op(op: TreeOp) -> BinaryOp
    ensures { result ≡ value_op op }
{
    match op {
        TreeOp::Add => BinaryOp::Add,
        TreeOp::Sub => BinaryOp::Sub,
        TreeOp::Mul => BinaryOp::Mul,
        TreeOp::Div => BinaryOp::Div,
        TreeOp::Rem => BinaryOp::Rem,
        TreeOp::Shl => BinaryOp::Shl,
        TreeOp::Shr => BinaryOp::Shr,
        TreeOp::BitAnd => BinaryOp::BitAnd,
        TreeOp::BitXor => BinaryOp::BitXor,
        TreeOp::BitOr => BinaryOp::BitOr,
        TreeOp::Eq => BinaryOp::Eq,
        TreeOp::Ne => BinaryOp::Ne,
        TreeOp::Lt => BinaryOp::Lt,
        TreeOp::Gt => BinaryOp::Gt,
        TreeOp::Le => BinaryOp::Le,
        TreeOp::Ge => BinaryOp::Ge,
        TreeOp::Within => BinaryOp::Within,
        TreeOp::And => BinaryOp::And,
        TreeOp::Or => BinaryOp::Or,
    }
}

pub fn unary_op(op: TreePrefix) -> UnaryOp
    ensures { result ≡ value_prefix op }
{
    match op {
        TreePrefix::Inv => UnaryOp::Inv,
        TreePrefix::Plus => UnaryOp::Plus,
        TreePrefix::Neg => UnaryOp::Neg,
    }
}
