// Texts of values.
ghost use Rattle.std.specs.Prelude.{◌≡◌, ◌<◌, ◌++◌, ◌∷◌, true, length, codes, decimal};
ghost use Rattle.std.specs.List.{join_by};
ghost use Rattle.variant_values.specs.Heaps.{knows, knows_key, knows_object, KnowsAll, KnowsEntries, cell_at};
ghost use Rattle.variant_values.specs.Operators.{Answers};
ghost use Rattle.variant_values.specs.ValueTexts.{object_text, own_name, key_text, shown, array_text, dict_text, entry_text, text_in, fitting, value_text, most_levels};
ghost use Rattle.string_calls.specs.Writes.{Writes};

use crate::builders::StringBuilder;
use call_support::views::{entries, items};
use call_support::walks::{MOST_LEVELS, is_within};
use ref_objects::heap::Heap;
use std::alloc::Global;
use variant_values::cells::Cell;
use variant_values::classes::{ClassNames, Lineage};
use variant_values::entries::Entries;
use variant_values::faults::{RunFault, Trouble};
use variant_values::operators::LONGEST_STRING;
use variant_values::texts::Str;
use variant_values::values::{Key, Serial, Value};

/// The name of an object's class.
fn own_name<'a>(names: &'a ClassNames, lineage: &Lineage) -> &'a str
    ensures { result.now ≡ own_name names.now lineage.now }
{
    match lineage.as_slice() {
        [] => "",
        [class, ..] => names.text(*class),
    }
}

fn write_living(
    out: &mut StringBuilder,
    names: &ClassNames,
    lineage: &Lineage,
    serial: u64,
) -> Result<(), Trouble>
    ensures { Writes out.old out.new result (codes "<" ++ own_name names.now lineage.now ++ codes "#" ++ decimal serial ++ codes ">") }
{
    out.write_between("<", own_name(names, lineage), "#")?;
    out.write_serial(serial)?;
    out.write(">")
}

fn write_object(
    out: &mut StringBuilder,
    heap: &Heap,
    of: Serial,
    names: &ClassNames,
) -> Result<(), Trouble>
    requires { knows_object heap.now.state.cells of ≡ true }
    ensures { Writes out.old out.new result (object_text names.now of.0 (cell_at heap.now.state.cells of.0)) }
{
    match heap.cell(of) {
        Some(Cell::Object(o)) => write_living(out, names, &o.lineage, of.0),
        _ => out.write("<Freed Object>"),
    }
}

fn write_key(
    out: &mut StringBuilder,
    heap: &Heap,
    key: &Key,
    names: &ClassNames,
) -> Result<(), Trouble>
    requires { knows_key heap.now.state.cells key.now ≡ true }
    ensures { Writes out.old out.new result (key_text heap.now.state.cells names.now key.now) }
{
    match key {
        Key::Bool(b) => out.write_truth(*b),
        Key::Int(n) => out.write_number(*n),
        Key::Str(s) => out.write_quoted(s.as_str()),
        Key::Object(s) => write_object(out, heap, *s, names),
    }
}

/// The text of a value, with so many levels of containers opened.
#[cycle(texts)]
fn write_value(
    out: &mut StringBuilder,
    heap: &Heap,
    v: &Value,
    names: &ClassNames,
    levels: u32,
) -> Result<(), Trouble>
    requires { knows heap.now.state.cells v.now ≡ true }
    ensures { Writes out.old out.new result (text_in levels heap.now.state.cells names.now v.now) }
{
    match v {
        Value::Null => out.write("<null>"),
        Value::Bool(b) => out.write_truth(*b),
        Value::Int(n) => out.write_number(*n),
        Value::Str(s) => out.write(s.as_str()),
        Value::Array(_) if levels == 0 => out.write("[...]"),
        Value::Dict(_) if levels == 0 => out.write("{...}"),
        Value::Array(s) => write_array(out, heap, items(heap, *s), names, levels - 1),
        Value::Dict(s) => write_dict(out, heap, entries(heap, *s), names, levels - 1),
        Value::Object(s) => write_object(out, heap, *s, names),
        Value::Callable(_, method) => out.write_between("<Callable ", method.as_str(), ">"),
        Value::Signal(_, signal) => out.write_between("<Signal ", signal.as_str(), ">"),
        Value::Class(class) => out.write_between("<", names.text(*class), ">"),
        Value::Scene(_, path) => out.write_between("<PackedScene ", path.as_str(), ">"),
        Value::Weak(_) => out.write("<WeakRef>"),
    }
}

/// A separator, and the text of a value within a container.
#[cycle(texts)]
fn write_shown(
    out: &mut StringBuilder,
    front: &str,
    heap: &Heap,
    v: &Value,
    names: &ClassNames,
    levels: u32,
) -> Result<(), Trouble>
    requires { knows heap.now.state.cells v.now ≡ true }
    ensures { Writes out.old out.new result (front.now ++ shown (text_in levels heap.now.state.cells names.now) v.now) }
{
    out.write(front)?;
    match v {
        Value::Str(s) => out.write_quoted(s.as_str()),
        _ => write_value(out, heap, v, names, levels),
    }
}

#[cycle(texts)]
fn write_array(
    out: &mut StringBuilder,
    heap: &Heap,
    items: &[Value],
    names: &ClassNames,
    levels: u32,
) -> Result<(), Trouble>
    requires { KnowsAll heap.now.state.cells items.now }
    ensures { Writes out.old out.new result (array_text (text_in levels heap.now.state.cells names.now) items.now) }
{
    out.write("[")?;
    if let [first, others @ ..] = items {
        write_items(out, heap, first, others, names, levels)?;
    }
    out.write("]")
}

#[cycle(texts)]
fn write_items(
    out: &mut StringBuilder,
    heap: &Heap,
    first: &Value,
    others: &[Value],
    names: &ClassNames,
    levels: u32,
) -> Result<(), Trouble>
    requires first { knows heap.now.state.cells first.now ≡ true }
    requires others { KnowsAll heap.now.state.cells others.now }
    ensures { Writes out.old out.new result (join_by (shown (text_in levels heap.now.state.cells names.now)) (codes ", ") (first.now ∷ others.now)) }
{
    write_shown(out, "", heap, first, names, levels)?;
    for v in others {
        write_shown(out, ", ", heap, v, names, levels)?;
    }
    Ok(())
}

#[cycle(texts)]
fn write_dict(
    out: &mut StringBuilder,
    heap: &Heap,
    entries: &Entries,
    names: &ClassNames,
    levels: u32,
) -> Result<(), Trouble>
    requires { KnowsEntries heap.now.state.cells entries.now }
    ensures { Writes out.old out.new result (dict_text heap.now.state.cells names.now (text_in levels heap.now.state.cells names.now) entries.now) }
{
    if entries.len() == 0 {
        return out.write("{}");
    }
    out.write("{ ")?;
    write_entries(out, heap, entries, names, levels)?;
    out.write(" }")
}

#[cycle(texts)]
fn write_entries(
    out: &mut StringBuilder,
    heap: &Heap,
    entries: &Entries,
    names: &ClassNames,
    levels: u32,
) -> Result<(), Trouble>
    requires known { KnowsEntries heap.now.state.cells entries.now }
    requires some { 0 < length entries.now }
    ensures { Writes out.old out.new result (join_by (entry_text heap.now.state.cells names.now (text_in levels heap.now.state.cells names.now)) (codes ", ") entries.now) }
{
    let first = entries.entry_at(0);
    write_entry(out, "", heap, first.0, first.1, names, levels)?;
    for i in 1..entries.len() {
        let (key, v) = entries.entry_at(i);
        write_entry(out, ", ", heap, key, v, names, levels)?;
    }
    Ok(())
}

/// A separator, and an entry of a dictionary.
#[cycle(texts)]
fn write_entry(
    out: &mut StringBuilder,
    front: &str,
    heap: &Heap,
    key: &Key,
    v: &Value,
    names: &ClassNames,
    levels: u32,
) -> Result<(), Trouble>
    requires key { knows_key heap.now.state.cells key.now ≡ true }
    requires value { knows heap.now.state.cells v.now ≡ true }
    ensures { Writes out.old out.new result (front.now ++ entry_text heap.now.state.cells names.now (text_in levels heap.now.state.cells names.now) (key.now, v.now)) }
{
    out.write(front)?;
    write_key(out, heap, key, names)?;
    write_shown(out, ": ", heap, v, names, levels)
}

/// A text that stands already, without a copy.
fn fitting(text: &Str) -> Result<Str, Trouble>
    ensures { Answers result (fitting text.now) }
{
    if text.len() > LONGEST_STRING {
        return Err(Trouble::Fault(RunFault::TooLong));
    }
    Ok(text.clone()?)
}

fn built_text(alloc: Global, heap: &Heap, v: &Value, names: &ClassNames) -> Result<Str, Trouble>
    requires { knows heap.now.state.cells v.now ≡ true }
    ensures { Answers result (fitting (text_in most_levels heap.now.state.cells names.now v.now)) }
{
    let mut out = StringBuilder::new(alloc);
    write_value(&mut out, heap, v, names, MOST_LEVELS)?;
    Ok(out.finish()?)
}

/// The text of a value whose walk stays within the limits.
pub fn text_within(
    alloc: Global,
    heap: &Heap,
    v: &Value,
    names: &ClassNames,
) -> Result<Str, Trouble>
    requires { knows heap.now.state.cells v.now ≡ true }
    ensures { Answers result (fitting (text_in most_levels heap.now.state.cells names.now v.now)) }
{
    match v {
        Value::Str(text) => fitting(text),
        _ => built_text(alloc, heap, v, names),
    }
}

/// The text of a value, as `str` and `print` show it. `TooDeep` where it would open a container below the 64th level or
/// comes to more than 1,048,576 items, and else `TooLong` where it has more than 1,048,576 bytes.
pub fn text_of(alloc: Global, heap: &Heap, v: &Value, names: &ClassNames) -> Result<Str, Trouble>
    requires { knows heap.now.state.cells v.now ≡ true }
    ensures { Answers result (value_text heap.now.state.cells names.now v.now) }
{
    if !is_within(heap, v) {
        return Err(Trouble::Fault(RunFault::TooDeep));
    }
    text_within(alloc, heap, v, names)
}
