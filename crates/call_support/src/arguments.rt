// Arguments of methods, by number and kind.
ghost use Rattle.std.specs.Prelude.{◌≡◌, option_copied, option_map, None, true, IfSome};
ghost use Rattle.variant_values.specs.Heaps.{cell_at, is_array, is_dict, knows};
ghost use Rattle.variant_values.specs.ContainerCalls.{dict_in, truth_in};
ghost use Rattle.variant_values.specs.StringMethods.{array_in, string_in, int_in, natural, count_in, span_of, span_in, is_none_given, both, one_given, two_given, one_or_two_given};

use ref_objects::heap::Heap;
use variant_values::texts::Str;
use variant_values::values::{Serial, Value};

pub fn is_none_given(args: &[Value]) -> bool
    ensures { result ≡ is_none_given args.now }
{
    match args {
        [] => true,
        [_, ..] => false,
    }
}

fn string_in(v: &Value) -> Option<&Str>
    ensures { option_copied result ≡ string_in v.now }
{
    match v {
        Value::Str(text) => Some(text),
        _ => None,
    }
}

/// A whole number.
pub fn int_in(v: &Value) -> Option<i64>
    ensures { result ≡ int_in v.now }
{
    match v {
        Value::Int(n) => Some(*n),
        _ => None,
    }
}

/// A number that is not negative.
pub fn natural(n: i64) -> Option<usize>
    ensures { result ≡ natural n }
{
    if n < 0 { None } else { Some(n as usize) }
}

fn count_in(v: &Value) -> Option<usize>
    ensures { result ≡ count_in v.now }
{
    match v {
        Value::Int(n) => natural(*n),
        _ => None,
    }
}

fn span_of(n: i64) -> Option<Option<usize>>
    ensures { result ≡ span_of n }
{
    if n == -1 {
        return Some(None);
    }
    if n < 0 { None } else { Some(Some(n as usize)) }
}

fn span_in(v: &Value) -> Option<Option<usize>>
    ensures { result ≡ span_in v.now }
{
    match v {
        Value::Int(n) => span_of(*n),
        _ => None,
    }
}

pub fn one_string(args: &[Value]) -> Option<&Str>
    ensures { option_copied result ≡ one_given string_in args.now }
{
    match args {
        [] => None,
        [v] => string_in(v),
        [_, _, ..] => None,
    }
}

pub fn one_int(args: &[Value]) -> Option<i64>
    ensures { result ≡ one_given int_in args.now }
{
    match args {
        [] => None,
        [v] => int_in(v),
        [_, _, ..] => None,
    }
}

pub fn one_count(args: &[Value]) -> Option<usize>
    ensures { result ≡ one_given count_in args.now }
{
    match args {
        [] => None,
        [v] => count_in(v),
        [_, _, ..] => None,
    }
}

fn two_parts<'a>(first: &'a Value, second: &'a Value) -> Option<(&'a Str, &'a Str)>
    ensures { option_map (λ p. (p.0.now, p.1.now)) result ≡ both (string_in first.now) (string_in second.now) }
{
    match (string_in(first), string_in(second)) {
        (Some(a), Some(b)) => Some((a, b)),
        _ => None,
    }
}

pub fn two_strings(args: &[Value]) -> Option<(&Str, &Str)>
    ensures { option_map (λ p. (p.0.now, p.1.now)) result ≡ two_given string_in string_in args.now }
{
    match args {
        [first, second] => two_parts(first, second),
        _ => None,
    }
}

fn string_beside(v: &Value, count: Option<usize>) -> Option<(&Str, usize)>
    ensures { option_map (λ p. (p.0.now, p.1)) result ≡ both (string_in v.now) count }
{
    match (string_in(v), count) {
        (Some(text), Some(n)) => Some((text, n)),
        _ => None,
    }
}

/// A string, and a number of characters that is 0 where it is left out.
pub fn string_and_count(args: &[Value]) -> Option<(&Str, usize)>
    ensures { option_map (λ p. (p.0.now, p.1)) result ≡ one_or_two_given string_in count_in 0 args.now }
{
    match args {
        [v] => string_beside(v, Some(0)),
        [v, count] => string_beside(v, count_in(count)),
        _ => None,
    }
}

fn count_beside(v: &Value, span: Option<Option<usize>>) -> Option<(usize, Option<usize>)>
    ensures { result ≡ both (count_in v.now) span }
{
    match (count_in(v), span) {
        (Some(n), Some(span)) => Some((n, span)),
        _ => None,
    }
}

/// A place, and a number of characters or the rest. The second may be left out.
pub fn count_and_span(args: &[Value]) -> Option<(usize, Option<usize>)>
    ensures { result ≡ one_or_two_given count_in span_in None args.now }
{
    match args {
        [v] => count_beside(v, Some(None)),
        [v, span] => count_beside(v, span_in(span)),
        _ => None,
    }
}

/// A truth.
pub fn truth_in(v: &Value) -> Option<bool>
    ensures { result ≡ truth_in v.now }
{
    match v {
        Value::Bool(b) => Some(*b),
        _ => None,
    }
}

/// An array.
pub fn array_in(heap: &Heap, v: &Value) -> Option<Serial>
    requires { knows heap.now.state.cells v.now ≡ true }
    ensures value { result ≡ array_in v.now }
    ensures array { IfSome result (λ s. is_array (cell_at heap.now.state.cells s.0) ≡ true) }
{
    match v {
        Value::Array(s) => Some(*s),
        _ => None,
    }
}

/// A dictionary.
pub fn dict_in(heap: &Heap, v: &Value) -> Option<Serial>
    requires { knows heap.now.state.cells v.now ≡ true }
    ensures value { result ≡ dict_in v.now }
    ensures dict { IfSome result (λ s. is_dict (cell_at heap.now.state.cells s.0) ≡ true) }
{
    match v {
        Value::Dict(s) => Some(*s),
        _ => None,
    }
}
