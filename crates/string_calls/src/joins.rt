// Strings joined, replaced and split.
ghost use Rattle.std.specs.Prelude.{◌≡◌, ◌<◌, ◌∷◌, length};
ghost use Rattle.std.specs.List.{join_by, list_all};
ghost use Rattle.variant_values.specs.Heaps.{KnowsAll};
ghost use Rattle.variant_values.specs.Operators.{Answers, is_text};
ghost use Rattle.variant_values.specs.StringMethods.{join_items, join_value, made, parts, plain_text, replace_value, replaced};
ghost use Rattle.string_calls.specs.Writes.{Writes, FindsParts, PushesPart};

use crate::builders::StringBuilder;
use crate::methods::BAD_ARGS;
use crate::searches::split_first;
use call_support::arguments::two_strings;
use call_support::views::items;
use call_support::walks::MOST_ITEMS;
use ref_objects::heap::Heap;
use std::alloc::Global;
use variant_values::cells::Values;
use variant_values::faults::{RunFault, Trouble};
use variant_values::operators::LONGEST_STRING;
use variant_values::texts::Str;
use variant_values::values::Value;

fn plain_text(v: &Value) -> &str
    ensures { result.now ≡ plain_text v.now }
{
    match v {
        Value::Str(text) => text.as_str(),
        _ => "",
    }
}

fn is_text(v: &Value) -> bool
    ensures { result ≡ is_text v.now }
{
    matches!(v, Value::Str(_))
}

fn write_joined(
    out: &mut StringBuilder,
    separator: &str,
    first: &Value,
    others: &[Value],
) -> Result<(), Trouble>
    ensures { Writes out.old out.new result (join_by plain_text separator.now (first.now ∷ others.now)) }
{
    out.write(plain_text(first))?;
    for v in others {
        out.write_both(separator, plain_text(v))?;
    }
    Ok(())
}

fn joined(alloc: Global, separator: &str, items: &[Value]) -> Result<Value, Trouble>
    ensures { Answers result (made (join_by plain_text separator.now items.now)) }
{
    let mut out = StringBuilder::new(alloc);
    if let [first, others @ ..] = items {
        write_joined(&mut out, separator, first, others)?;
    }
    Ok(Value::Str(out.finish()?))
}

fn are_texts(items: &[Value]) -> bool
    ensures { result ≡ list_all is_text items.now }
{
    items.iter().all(|v| is_text(v))
}

fn join_items(alloc: Global, separator: &str, items: &[Value]) -> Result<Value, Trouble>
    ensures { Answers result (join_items separator.now items.now) }
{
    if !are_texts(items) {
        return Err(BAD_ARGS);
    }
    joined(alloc, separator, items)
}

/// The strings of an array, with this one between them.
pub fn join(alloc: Global, heap: &Heap, of: &Str, args: &[Value]) -> Result<Value, Trouble>
    requires { KnowsAll heap.now.state.cells args.now }
    ensures { Answers result (join_value heap.now.state.cells of.now args.now) }
{
    match args {
        [Value::Array(s)] => join_items(alloc, of.as_str(), items(heap, *s)),
        _ => Err(BAD_ARGS),
    }
}

fn write_replaced(
    out: &mut StringBuilder,
    text: &str,
    what: &str,
    with: &str,
) -> Result<(), Trouble>
    requires { 0 < length what.now }
    ensures { Writes out.old out.new result (replaced what.now with.now text.now) }
{
    let mut rest = text;
    while let Some((part, after)) = split_first(rest, what) {
        out.write_both(part, with)?;
        rest = after;
    }
    out.write(rest)
}

fn replaced(alloc: Global, text: &str, what: &str, with: &str) -> Result<Value, Trouble>
    requires { 0 < length what.now }
    ensures { Answers result (made (replaced what.now with.now text.now)) }
{
    let mut out = StringBuilder::new(alloc);
    write_replaced(&mut out, text, what, with)?;
    Ok(Value::Str(out.finish()?))
}

pub fn replace(alloc: Global, of: &Str, args: &[Value]) -> Result<Value, Trouble>
    ensures { Answers result (replace_value of.now args.now) }
{
    let Some((what, with)) = two_strings(args) else {
        return Err(BAD_ARGS);
    };
    if what.len() == 0 {
        return Err(BAD_ARGS);
    }
    replaced(alloc, of.as_str(), what.as_str(), with.as_str())
}

/// A string more, where the part is not too long and the array has room.
fn push_part(alloc: Global, found: &mut Values, part: &str) -> Result<(), Trouble>
    ensures { PushesPart found.old found.new result part.now }
{
    if part.len() > LONGEST_STRING {
        return Err(Trouble::Fault(RunFault::TooLong));
    }
    if found.len() as u64 >= MOST_ITEMS {
        return Err(Trouble::Fault(RunFault::TooLong));
    }
    let text = Str::new(alloc, part)?;
    found.push(Value::Str(text))?;
    Ok(())
}

/// The parts of a text between the places of another, as long as strings may be and as many as an array may have.
pub fn parts(alloc: Global, text: &str, by: &str) -> Result<Values, Trouble>
    requires { 0 < length by.now }
    ensures { FindsParts result (parts by.now text.now) }
{
    let mut found = Values::new(alloc);
    let mut rest = text;
    while let Some((part, after)) = split_first(rest, by) {
        push_part(alloc, &mut found, part)?;
        rest = after;
    }
    push_part(alloc, &mut found, rest)?;
    Ok(found)
}
