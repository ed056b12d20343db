ghost use Rattle.std.specs.Prelude.{◌≡◌, ◌+◌, ◌<◌, ◌≤◌, ◌^◌, length, take};
ghost use Rattle.std.specs.List.{sum_by, list_any};
ghost use Rattle.variant_values.specs.Classes.{is_ref_counted};
ghost use Rattle.variant_values.specs.Places.{text_weight, item_weight, cell_weight, is_counted_cell, key_weight, entry_weight, room_left};

use crate::cells::Cell;
use crate::classes::ClassTag;
use crate::entries::Entries;
use crate::values::{Key, Value};

/// The bytes of a value that is a string, and 0 of another.
pub fn text_weight(v: &Value) -> u64
    ensures weight { result ≡ text_weight v.now }
    ensures small { result < 2 ^ 63 }
{
    match v {
        Value::Null => 0,
        Value::Bool(_) => 0,
        Value::Int(_) => 0,
        Value::Str(s) => s.len() as u64,
        Value::Array(_) => 0,
        Value::Dict(_) => 0,
        Value::Object(_) => 0,
        Value::Callable(_, _) => 0,
        Value::Signal(_, _) => 0,
        Value::Class(_) => 0,
        Value::Scene(_, _) => 0,
        Value::Weak(_) => 0,
    }
}

/// What a value weighs as an item of an array or a field of an object.
pub fn item_weight(v: &Value) -> u64
    ensures { result ≡ item_weight v.now }
{
    2 + text_weight(v)
}

/// What an entry of a dictionary weighs.
pub fn entry_weight(key: &Key, value: &Value) -> u128
    ensures weight { result ≡ entry_weight (key.now, value.now) }
    ensures small { result < 2 ^ 65 }
{
    4 + (key_weight(key) as u128 + text_weight(value) as u128)
}

pub fn items_weight(values: &[Value]) -> u64
    requires { sum_by item_weight values.now < 2 ^ 63 }
    ensures { result ≡ sum_by item_weight values.now }
{
    let mut total = 0;
    for v in values {
        total += item_weight(v);
    }
    total
}

/// What is left of so much room, where the values have it.
pub fn items_room(values: &[Value], room: u64) -> Option<u64>
    ensures { result ≡ room_left room (sum_by item_weight values.now) }
{
    let mut left = room;
    for v in values {
        let weight = item_weight(v);
        if weight > left {
            return None;
        }
        left -= weight;
    }
    Some(left)
}

/// The bytes of a key that is a string, and 0 of another.
pub fn key_weight(k: &Key) -> u64
    ensures weight { result ≡ key_weight k.now }
    ensures small { result < 2 ^ 63 }
{
    match k {
        Key::Bool(_) => 0,
        Key::Int(_) => 0,
        Key::Str(s) => s.len() as u64,
        Key::Object(_) => 0,
    }
}

pub fn is_ref_counted(tag: &ClassTag) -> bool
    ensures { result ≡ is_ref_counted tag.now }
{
    match tag {
        ClassTag::Object => false,
        ClassTag::RefCounted => true,
        ClassTag::Node => false,
        ClassTag::Script(_) => false,
    }
}

/// Whether one of the classes is RefCounted.
pub fn any_ref_counted(tags: &[ClassTag]) -> bool
    ensures { result ≡ list_any is_ref_counted tags.now }
{
    tags.iter().any(|t| is_ref_counted(t))
}

/// Whether the sweep may take a cell.
pub fn is_counted(cell: &Cell) -> bool
    ensures { result ≡ is_counted_cell cell.now }
{
    match cell {
        Cell::Array(_, _) => true,
        Cell::Dict(_) => true,
        Cell::Object(o) => any_ref_counted(o.lineage.as_slice()) && o.node.is_none(),
    }
}

/// What a cell weighs.
pub fn cell_weight(cell: &Cell) -> u64
    requires { cell_weight cell.now < 2 ^ 63 }
    ensures { result ≡ cell_weight cell.now }
{
    match cell {
        Cell::Array(values, _) => 16 + items_weight(values.as_slice()),
        Cell::Dict(entries) => 16 + entries.weight(),
        Cell::Object(o) => 16 + items_weight(o.fields.as_slice()),
    }
}

/// What is left of so much room, where the cell has it.
pub fn cell_room(cell: &Cell, room: u64) -> Option<u64>
    ensures { result ≡ room_left room (cell_weight cell.now) }
{
    if room < 16 {
        return None;
    }
    match cell {
        Cell::Array(values, _) => items_room(values.as_slice(), room - 16),
        Cell::Dict(entries) => entries.room_left(room - 16),
        Cell::Object(o) => items_room(o.fields.as_slice(), room - 16),
    }
}
