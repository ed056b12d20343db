//! The methods of dictionaries, one by one.
ghost use Rattle.std.specs.Prelude.{◌≡◌, [], ◌∷◌, ◌++◌, true, map, IfOk, OnOk, unwrap_or};
ghost use Rattle.variant_values.specs.Heaps.{cell_at, is_dict, knows};
ghost use Rattle.std.specs.Map.{lookup};
ghost use Rattle.variant_values.specs.Keys.{same_key};
ghost use Rattle.variant_values.specs.Operators.{key_of, Answers};
ghost use Rattle.variant_values.specs.Changes.{Keeps, HasGiven};
ghost use Rattle.variant_values.specs.DictMethods.{dict_clear_of, dict_emptiness_of, dict_erase_of, dict_shallow_of, dict_size_of, entries_in, keys_of, presence_of, value_of, value_of_key, values_of};
ghost use Rattle.container_calls.specs.Walks.{IsLastKey};
ghost use Rattle.call_support.specs.Retaining.{RetainsAsMuch};

use call_support::changes::{new_array, new_dict};
use call_support::copies::copied_entries;
use call_support::views::{entries, value_at};
use ref_objects::heap::Heap;
use std::alloc::{AllocError, Global};
use variant_values::entries::Entries;
use variant_values::faults::{RunFault, Trouble};
use variant_values::values::{Key, Serial, Value};

/// How many entries a dictionary has.
pub fn size(heap: &Heap, of: Serial) -> Result<Value, RunFault>
    requires { is_dict (cell_at heap.now.state.cells of.0) ≡ true }
    ensures value { result ≡ dict_size_of (entries_in heap.now.state of.0) }
    ensures known { IfOk result (λ v. knows heap.now.state.cells v ≡ true) }
{
    Ok(Value::Int(entries(heap, of).len() as i64))
}

/// Whether it has none.
pub fn is_empty(heap: &Heap, of: Serial) -> Result<Value, RunFault>
    requires { is_dict (cell_at heap.now.state.cells of.0) ≡ true }
    ensures value { result ≡ dict_emptiness_of (entries_in heap.now.state of.0) }
    ensures known { IfOk result (λ v. knows heap.now.state.cells v ≡ true) }
{
    Ok(Value::Bool(entries(heap, of).len() == 0))
}

/// Whether a key is there.
pub fn has(heap: &Heap, of: Serial, key: &Value) -> Result<Value, Trouble>
    requires { is_dict (cell_at heap.now.state.cells of.0) ≡ true }
    ensures value { Answers result (presence_of (entries_in heap.now.state of.0) (key_of key.now)) }
    ensures known { IfOk result (λ v. knows heap.now.state.cells v ≡ true) }
{
    let key = Key::of(key)?;
    Ok(Value::Bool(entries(heap, of).get(&key).is_some()))
}

fn value_or(heap: &Heap, of: Serial, key: &Key, default: &Value) -> Result<Value, Trouble>
    requires dict { is_dict (cell_at heap.now.state.cells of.0) ≡ true }
    requires default { knows heap.now.state.cells default.now ≡ true }
    ensures value { Answers result (Ok (unwrap_or (lookup (same_key key.now) (entries_in heap.now.state of.0)) default.now)) }
    ensures known { IfOk result (λ v. knows heap.now.state.cells v ≡ true) }
{
    match value_at(heap, of, key) {
        Some(v) => Ok(v.clone()?),
        None => Ok(default.clone()?),
    }
}

/// The value of a key, or the default where it is missing.
pub fn get(heap: &Heap, of: Serial, key: &Value, default: &Value) -> Result<Value, Trouble>
    requires dict { is_dict (cell_at heap.now.state.cells of.0) ≡ true }
    requires default { knows heap.now.state.cells default.now ≡ true }
    ensures value { Answers result (value_of (entries_in heap.now.state of.0) (key_of key.now) default.now) }
    ensures known { IfOk result (λ v. knows heap.now.state.cells v ≡ true) }
{
    let key = Key::of(key)?;
    value_or(heap, of, &key, default)
}

/// The value that a key is.
fn value_of_key(key: &Key) -> Result<Value, AllocError>
    ensures { IfOk result (λ v. v ≡ value_of_key key.now) }
{
    match key {
        Key::Bool(b) => Ok(Value::Bool(*b)),
        Key::Int(n) => Ok(Value::Int(*n)),
        Key::Str(text) => Ok(Value::Str(text.clone()?)),
        Key::Object(serial) => Ok(Value::Object(*serial)),
    }
}

fn list_keys(alloc: Global, entries: &Entries) -> Result<Vec<Value>, AllocError>
    ensures { IfOk result (λ list. list.items ≡ map (λ e. value_of_key e.0) entries.now) }
{
    let mut list = Vec::new(alloc);
    for i in 0..entries.len() {
        let (key, _) = entries.entry_at(i);
        list.push(value_of_key(key)?)?;
    }
    Ok(list)
}

fn push_copy(list: &mut Vec<Value>, v: &Value) -> Result<(), AllocError>
    ensures { OnOk result (list.new.items ≡ list.old.items ++ v.now ∷ []) }
{
    list.push(v.clone()?)?;
    Ok(())
}

fn list_values(alloc: Global, entries: &Entries) -> Result<Vec<Value>, AllocError>
    ensures { IfOk result (λ list. list.items ≡ map (λ e. e.1) entries.now) }
{
    let mut list = Vec::new(alloc);
    for i in 0..entries.len() {
        let (_, value) = entries.entry_at(i);
        push_copy(&mut list, value)?;
    }
    Ok(list)
}

/// A new array of the keys, in order.
pub fn keys(alloc: Global, heap: &mut Heap, of: Serial) -> Result<Value, Trouble>
    requires { is_dict (cell_at heap.old.state.cells of.0) ≡ true }
    ensures given { HasGiven result heap.old.state heap.new.state (keys_of heap.old.state of.0) }
    ensures keeps { Keeps heap.old.state.cells heap.new.state.cells }
    ensures kept { RetainsAsMuch heap.old.state heap.new.state }
    ensures known { IfOk result (λ v. knows heap.new.state.cells v ≡ true) }
{
    let list = list_keys(alloc, entries(heap, of))?;
    new_array(heap, list, None)
}

/// A new array of the values, in order.
pub fn values(alloc: Global, heap: &mut Heap, of: Serial) -> Result<Value, Trouble>
    requires { is_dict (cell_at heap.old.state.cells of.0) ≡ true }
    ensures given { HasGiven result heap.old.state heap.new.state (values_of heap.old.state of.0) }
    ensures keeps { Keeps heap.old.state.cells heap.new.state.cells }
    ensures kept { RetainsAsMuch heap.old.state heap.new.state }
    ensures known { IfOk result (λ v. knows heap.new.state.cells v ≡ true) }
{
    let list = list_values(alloc, entries(heap, of))?;
    new_array(heap, list, None)
}

/// Takes a key out, and gives whether it was there.
pub fn erase(heap: &mut Heap, of: Serial, key: &Value) -> Result<Value, Trouble>
    requires dict { is_dict (cell_at heap.old.state.cells of.0) ≡ true }
    requires key { knows heap.old.state.cells key.now ≡ true }
    ensures given { HasGiven result heap.old.state heap.new.state (dict_erase_of heap.old.state of.0 (key_of key.now)) }
    ensures keeps { Keeps heap.old.state.cells heap.new.state.cells }
    ensures kept { RetainsAsMuch heap.old.state heap.new.state }
    ensures known { IfOk result (λ v. knows heap.new.state.cells v ≡ true) }
{
    let key = Key::of(key)?;
    Ok(Value::Bool(heap.remove_entry(of, &key)))
}

/// A copy of the last key, where there is one.
fn last_key(entries: &Entries) -> Result<Option<Key>, AllocError>
    ensures { IfOk result (λ key. IsLastKey key entries.now) }
{
    if entries.len() == 0 {
        return Ok(None);
    }
    let (key, _) = entries.entry_at(entries.len() - 1);
    Ok(Some(key.clone()?))
}

/// Takes out all entries.
pub fn clear(heap: &mut Heap, of: Serial) -> Result<Value, Trouble>
    requires { is_dict (cell_at heap.old.state.cells of.0) ≡ true }
    ensures given { HasGiven result heap.old.state heap.new.state (dict_clear_of heap.old.state of.0) }
    ensures keeps { Keeps heap.old.state.cells heap.new.state.cells }
    ensures kept { RetainsAsMuch heap.old.state heap.new.state }
    ensures known { IfOk result (λ v. knows heap.new.state.cells v ≡ true) }
{
    while let Some(key) = last_key(entries(heap, of))? {
        heap.remove_entry(of, &key);
    }
    Ok(Value::Null)
}

/// A new dictionary of the same entries. Containers inside stay shared.
pub fn duplicate(alloc: Global, heap: &mut Heap, of: Serial) -> Result<Value, Trouble>
    requires { is_dict (cell_at heap.old.state.cells of.0) ≡ true }
    ensures given { HasGiven result heap.old.state heap.new.state (dict_shallow_of heap.old.state of.0) }
    ensures keeps { Keeps heap.old.state.cells heap.new.state.cells }
    ensures kept { RetainsAsMuch heap.old.state heap.new.state }
    ensures known { IfOk result (λ v. knows heap.new.state.cells v ≡ true) }
{
    let copy = copied_entries(alloc, entries(heap, of))?;
    new_dict(heap, copy)
}
