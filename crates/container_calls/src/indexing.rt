// Reading and writing by an index.
ghost use Rattle.std.specs.Prelude.{◌≡◌, ◌∷◌, [], true, length, nat_le, IfOk, slice_get};
ghost use Rattle.std.specs.Char.{encode_utf8};
ghost use Rattle.std.specs.Str.{chars};
ghost use Rattle.variant_values.specs.Heaps.{cell_at, is_array, is_dict, entries_of, items_of, knows, knows_key, KnowsAll};
ghost use Rattle.variant_values.specs.Operators.{Answers, key_of};
ghost use Rattle.variant_values.specs.Changes.{Keeps, HasGiven};
ghost use Rattle.variant_values.specs.Indexing.{character_at, entry_at, entry_put, entry_put_at, index_of, index_put, item_at, item_put, spot};
ghost use Rattle.variant_values.specs.Keys.{with_entry};
ghost use Rattle.variant_values.specs.declared.values.Value.{Value as AValue};
ghost use Rattle.call_support.specs.Retaining.{RetainsAsMuch};

use crate::elements::is_taken;
use call_support::changes::{set_entry, splice};
use call_support::views::{element, entries, items, value_at};
use ref_objects::heap::Heap;
use std::alloc::{AllocError, Global};
use variant_values::entries::Entries;
use variant_values::faults::{RunFault, Trouble};
use variant_values::operators::MOST_ITEMS;
use variant_values::texts::Str;
use variant_values::values::{Key, Serial, Value};

/// The place of an index among `len`, where a negative one counts from the end.
pub(crate) fn spot(index: i64, len: usize) -> Option<usize>
    ensures { result ≡ spot index len }
{
    let size = index.unsigned_abs() as usize;
    if index < 0 {
        if size <= len { Some(len - size) } else { None }
    } else {
        if size < len { Some(size) } else { None }
    }
}

fn item_at(heap: &Heap, items: &[Value], at: Option<usize>) -> Result<Value, Trouble>
    requires { KnowsAll heap.now.state.cells items.now }
    ensures value { Answers result (item_at items.now at) }
    ensures known { IfOk result (λ v. knows heap.now.state.cells v ≡ true) }
{
    let Some(at) = at else {
        return Err(Trouble::Fault(RunFault::BadIndex));
    };
    match items.get(at) {
        Some(v) => Ok(v.clone()?),
        None => Err(Trouble::Fault(RunFault::BadIndex)),
    }
}

fn item(heap: &Heap, items: &[Value], index: i64) -> Result<Value, Trouble>
    requires { KnowsAll heap.now.state.cells items.now }
    ensures value { Answers result (item_at items.now (spot index (length items.now))) }
    ensures known { IfOk result (λ v. knows heap.now.state.cells v ≡ true) }
{
    item_at(heap, items, spot(index, items.len()))
}

fn text_of_char(alloc: Global, c: char) -> Result<Str, AllocError>
    ensures { IfOk result (λ text. text ≡ encode_utf8 c) }
{
    let mut text = String::new(alloc);
    text.push(c)?;
    Str::from_string(text)
}

fn count_chars(text: &Str) -> usize
    ensures { result ≡ length (chars text.now) }
{
    text.as_str().chars().count()
}

fn char_at(text: &Str, at: usize) -> Option<char>
    ensures { result ≡ slice_get (chars text.now) at }
{
    text.as_str().chars().nth(at)
}

fn character(alloc: Global, text: &Str, index: i64) -> Result<Value, Trouble>
    ensures { Answers result (character_at (chars text.now) (spot index (length (chars text.now)))) }
{
    let Some(at) = spot(index, count_chars(text)) else {
        return Err(Trouble::Fault(RunFault::BadIndex));
    };
    match char_at(text, at) {
        Some(c) => Ok(Value::Str(text_of_char(alloc, c)?)),
        None => Err(Trouble::Fault(RunFault::BadIndex)),
    }
}

fn entry(heap: &Heap, of: Serial, index: &Value) -> Result<Value, Trouble>
    requires { is_dict (cell_at heap.now.state.cells of.0) ≡ true }
    ensures value { Answers result (entry_at (entries_of (cell_at heap.now.state.cells of.0)) (key_of index.now)) }
    ensures known { IfOk result (λ v. knows heap.now.state.cells v ≡ true) }
{
    let key = Key::of(index)?;
    match value_at(heap, of, &key) {
        Some(v) => Ok(v.clone()?),
        None => Err(Trouble::Fault(RunFault::NoKey)),
    }
}

/// `of[index]`: an array or a text by place, where a negative one counts from the end, and a dictionary by key.
pub fn get_index(alloc: Global, heap: &Heap, of: &Value, index: &Value) -> Result<Value, Trouble>
    requires { knows heap.now.state.cells of.now ≡ true }
    ensures value { Answers result (index_of heap.now.state.cells of.now index.now) }
    ensures known { IfOk result (λ v. knows heap.now.state.cells v ≡ true) }
{
    match (of, index) {
        (Value::Array(s), Value::Int(i)) => item(heap, items(heap, *s), *i),
        (Value::Str(text), Value::Int(i)) => character(alloc, text, *i),
        (Value::Dict(s), _) => entry(heap, *s, index),
        _ => Err(Trouble::Fault(RunFault::BadOperands)),
    }
}

fn set_item(
    alloc: Global,
    heap: &mut Heap,
    of: Serial,
    index: i64,
    to: Value,
) -> Result<(), Trouble>
    requires array { is_array (cell_at heap.old.state.cells of.0) ≡ true }
    requires to { knows heap.old.state.cells to ≡ true }
    ensures given { HasGiven result heap.old.state heap.new.state (item_put heap.old.state of.0 (spot index (length (items_of (cell_at heap.old.state.cells of.0)))) to) }
    ensures keeps { Keeps heap.old.state.cells heap.new.state.cells }
    ensures kept { RetainsAsMuch heap.old.state heap.new.state }
{
    let Some(at) = spot(index, items(heap, of).len()) else {
        return Err(Trouble::Fault(RunFault::BadIndex));
    };
    if !is_taken(heap, element(heap, of), &to) {
        return Err(Trouble::Fault(RunFault::ElementType));
    }
    splice(heap, of, at, 1, one(alloc, to)?)
}

/// Gives a dictionary an entry, where it has not too many then.
fn put_entry(heap: &mut Heap, of: Serial, key: Key, to: Value) -> Result<(), Trouble>
    requires dict { is_dict (cell_at heap.old.state.cells of.0) ≡ true }
    requires key { knows_key heap.old.state.cells key ≡ true }
    requires to { knows heap.old.state.cells to ≡ true }
    ensures given { HasGiven result heap.old.state heap.new.state (entry_put_at heap.old.state of.0 key to) }
    ensures keeps { Keeps heap.old.state.cells heap.new.state.cells }
    ensures kept { RetainsAsMuch heap.old.state heap.new.state }
{
    if !has_room(entries(heap, of), &key) {
        return Err(Trouble::Fault(RunFault::TooLong));
    }
    set_entry(heap, of, key, to)
}

/// Whether there are not too many entries once a key is among them.
fn has_room(entries: &Entries, key: &Key) -> bool
    ensures { (v : AValue) → result ≡ nat_le (length (with_entry entries.now key.now v)) 1048576 }
{
    match entries.get(key) {
        Some(_) => entries.len() <= MOST_ITEMS,
        None => entries.len() < MOST_ITEMS,
    }
}

fn set_by_key(heap: &mut Heap, of: Serial, index: &Value, to: Value) -> Result<(), Trouble>
    requires dict { is_dict (cell_at heap.old.state.cells of.0) ≡ true }
    requires index { knows heap.old.state.cells index.now ≡ true }
    requires to { knows heap.old.state.cells to ≡ true }
    ensures given { HasGiven result heap.old.state heap.new.state (entry_put heap.old.state of.0 (key_of index.now) to) }
    ensures keeps { Keeps heap.old.state.cells heap.new.state.cells }
    ensures kept { RetainsAsMuch heap.old.state heap.new.state }
{
    put_entry(heap, of, Key::of(index)?, to)
}

/// `of[index] = to`. A text takes no character.
pub fn set_index(
    alloc: Global,
    heap: &mut Heap,
    of: &Value,
    index: &Value,
    to: Value,
) -> Result<(), Trouble>
    requires of { knows heap.old.state.cells of.now ≡ true }
    requires index { knows heap.old.state.cells index.now ≡ true }
    requires to { knows heap.old.state.cells to ≡ true }
    ensures given { HasGiven result heap.old.state heap.new.state (index_put heap.old.state of.now index.now to) }
    ensures keeps { Keeps heap.old.state.cells heap.new.state.cells }
    ensures kept { RetainsAsMuch heap.old.state heap.new.state }
{
    match (of, index) {
        (Value::Array(s), Value::Int(i)) => set_item(alloc, heap, *s, *i, to),
        (Value::Dict(s), _) => set_by_key(heap, *s, index, to),
        _ => Err(Trouble::Fault(RunFault::BadOperands)),
    }
}

/// A list of one value.
pub(crate) fn one(alloc: Global, v: Value) -> Result<Vec<Value>, AllocError>
    ensures { IfOk result (λ list. list.items ≡ v ∷ []) }
{
    let mut list = Vec::new(alloc);
    list.push(v)?;
    Ok(list)
}
