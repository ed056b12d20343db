// The methods of a string that look at strings and numbers alone.
ghost use Rattle.std.specs.Prelude.{◌≡◌, chars};
ghost use Rattle.std.specs.List.{repeat};
ghost use Rattle.variant_values.specs.Operators.{Answers};
ghost use Rattle.variant_values.specs.StringMethods.{begins_value, code_value, contains_value, edges_value, emptiness_value, ends_value, find_value, int_value, left_value, length_value, lower_value, made, repeat_value, right_value, span_at, spelled, substr_value, upper_value, validity_value};

use crate::edges::{is_whole_number, whole_number, without_back, without_front};
use crate::searches::{
    begins_with, char_at, count_chars, ends_with, first_place, place_from, split_chars,
};
use call_support::arguments::{
    count_and_span, is_none_given, one_count, one_int, one_string, string_and_count, two_strings,
};
use std::alloc::Global;
use variant_values::faults::{RunFault, Trouble};
use variant_values::operators::LONGEST_STRING;
use variant_values::texts::Str;
use variant_values::values::Value;

pub const BAD_ARGS: Trouble = Trouble::Fault(RunFault::BadArgs);

/// A string of the language, where the text is no longer than one may be.
fn made(alloc: Global, text: &str) -> Result<Value, Trouble>
    ensures { Answers result (made text.now) }
{
    if text.len() > LONGEST_STRING {
        return Err(Trouble::Fault(RunFault::TooLong));
    }
    Ok(Value::Str(Str::new(alloc, text)?))
}

pub fn length(of: &Str, args: &[Value]) -> Result<Value, Trouble>
    ensures { Answers result (length_value of.now args.now) }
{
    if !is_none_given(args) {
        return Err(BAD_ARGS);
    }
    Ok(Value::Int(count_chars(of.as_str()) as i64))
}

pub fn is_empty(of: &Str, args: &[Value]) -> Result<Value, Trouble>
    ensures { Answers result (emptiness_value of.now args.now) }
{
    if !is_none_given(args) {
        return Err(BAD_ARGS);
    }
    Ok(Value::Bool(of.as_str().is_empty()))
}

/// So many characters from a place on, or the rest.
fn span_at(alloc: Global, text: &str, from: usize, span: Option<usize>) -> Result<Value, Trouble>
    ensures { Answers result (made (spelled (span_at from span (chars text.now)))) }
{
    let (_, rest) = split_chars(text, from);
    match span {
        None => made(alloc, rest),
        Some(n) => made(alloc, split_chars(rest, n).0),
    }
}

pub fn substr(alloc: Global, of: &Str, args: &[Value]) -> Result<Value, Trouble>
    ensures { Answers result (substr_value of.now args.now) }
{
    let Some((from, span)) = count_and_span(args) else {
        return Err(BAD_ARGS);
    };
    span_at(alloc, of.as_str(), from, span)
}

pub fn left(alloc: Global, of: &Str, args: &[Value]) -> Result<Value, Trouble>
    ensures { Answers result (left_value of.now args.now) }
{
    let Some(n) = one_count(args) else {
        return Err(BAD_ARGS);
    };
    made(alloc, split_chars(of.as_str(), n).0)
}

pub fn right(alloc: Global, of: &Str, args: &[Value]) -> Result<Value, Trouble>
    ensures { Answers result (right_value of.now args.now) }
{
    let Some(n) = one_count(args) else {
        return Err(BAD_ARGS);
    };
    let text = of.as_str();
    made(
        alloc,
        split_chars(text, count_chars(text).saturating_sub(n)).1,
    )
}

pub fn contains(of: &Str, args: &[Value]) -> Result<Value, Trouble>
    ensures { Answers result (contains_value of.now args.now) }
{
    let Some(what) = one_string(args) else {
        return Err(BAD_ARGS);
    };
    Ok(Value::Bool(first_place(of.as_str(), what.as_str()).is_some()))
}

pub fn begins(of: &Str, args: &[Value]) -> Result<Value, Trouble>
    ensures { Answers result (begins_value of.now args.now) }
{
    let Some(what) = one_string(args) else {
        return Err(BAD_ARGS);
    };
    Ok(Value::Bool(begins_with(of.as_str(), what.as_str())))
}

pub fn ends(of: &Str, args: &[Value]) -> Result<Value, Trouble>
    ensures { Answers result (ends_value of.now args.now) }
{
    let Some(what) = one_string(args) else {
        return Err(BAD_ARGS);
    };
    Ok(Value::Bool(ends_with(of.as_str(), what.as_str())))
}

pub fn to_upper(alloc: Global, of: &Str, args: &[Value]) -> Result<Value, Trouble>
    ensures { Answers result (upper_value of.now args.now) }
{
    if !is_none_given(args) {
        return Err(BAD_ARGS);
    }
    if of.len() > LONGEST_STRING {
        return Err(Trouble::Fault(RunFault::TooLong));
    }
    let mut text = String::from_str(alloc, of.as_str())?;
    text.make_ascii_uppercase();
    Ok(Value::Str(Str::from_string(text)?))
}

pub fn to_lower(alloc: Global, of: &Str, args: &[Value]) -> Result<Value, Trouble>
    ensures { Answers result (lower_value of.now args.now) }
{
    if !is_none_given(args) {
        return Err(BAD_ARGS);
    }
    if of.len() > LONGEST_STRING {
        return Err(Trouble::Fault(RunFault::TooLong));
    }
    let mut text = String::from_str(alloc, of.as_str())?;
    text.make_ascii_lowercase();
    Ok(Value::Str(Str::from_string(text)?))
}

fn repeated(alloc: Global, text: &str, n: usize) -> Result<Value, Trouble>
    ensures { Answers result (made (repeat n text.now)) }
{
    if n as u128 * text.len() as u128 > LONGEST_STRING as u128 {
        return Err(Trouble::Fault(RunFault::TooLong));
    }
    let text = text.repeat(alloc, n)?;
    Ok(Value::Str(Str::from_string(text)?))
}

pub fn repeat(alloc: Global, of: &Str, args: &[Value]) -> Result<Value, Trouble>
    ensures { Answers result (repeat_value of.now args.now) }
{
    let Some(n) = one_count(args) else {
        return Err(BAD_ARGS);
    };
    repeated(alloc, of.as_str(), n)
}

pub fn find(of: &Str, args: &[Value]) -> Result<Value, Trouble>
    ensures { Answers result (find_value of.now args.now) }
{
    let Some((what, from)) = string_and_count(args) else {
        return Err(BAD_ARGS);
    };
    Ok(Value::Int(match place_from(of.as_str(), what.as_str(), from) {
        Some(place) => place as i64,
        None => -1,
    }))
}

pub fn strip_edges(alloc: Global, of: &Str, args: &[Value]) -> Result<Value, Trouble>
    ensures { Answers result (edges_value of.now args.now) }
{
    if !is_none_given(args) {
        return Err(BAD_ARGS);
    }
    made(alloc, without_back(without_front(of.as_str())))
}

pub fn is_valid_int(of: &Str, args: &[Value]) -> Result<Value, Trouble>
    ensures { Answers result (validity_value of.now args.now) }
{
    if !is_none_given(args) {
        return Err(BAD_ARGS);
    }
    Ok(Value::Bool(is_whole_number(of.as_str())))
}

pub fn to_int(of: &Str, args: &[Value]) -> Result<Value, Trouble>
    ensures { Answers result (int_value of.now args.now) }
{
    if !is_none_given(args) {
        return Err(BAD_ARGS);
    }
    match whole_number(of.as_str()) {
        Some(n) => Ok(Value::Int(n)),
        None => Err(BAD_ARGS),
    }
}

pub fn unicode_at(of: &Str, args: &[Value]) -> Result<Value, Trouble>
    ensures { Answers result (code_value of.now args.now) }
{
    let Some(index) = one_int(args) else {
        return Err(BAD_ARGS);
    };
    match char_at(of.as_str(), index) {
        Some(c) => Ok(Value::Int(c as i64)),
        None => Err(Trouble::Fault(RunFault::BadIndex)),
    }
}
