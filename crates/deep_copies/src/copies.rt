// Copies of containers, those inside first. The heap takes the whole.
ghost use Rattle.std.specs.Prelude.{◌≡◌, ◌<◌, true, length, slice_get, IfOk, OnOk, Some};
ghost use Rattle.variant_values.specs.declared.cells.Cell.TheVariants.{Array as ArrayCell, Dict as DictCell};
ghost use Rattle.variant_values.specs.Heaps.{cell_at, entries_of, is_array, is_dict, items_of, knows, knows_key, with_new, KnowsAll, KnowsEntries};
ghost use Rattle.variant_values.specs.Keys.{with_entry};
ghost use Rattle.variant_values.specs.Changes.{Keeps};
ghost use Rattle.variant_values.specs.Copies.{copied, copied_items, copied_entries, new_array_of, new_dict_of};
ghost use Rattle.deep_copies.specs.CopyWeights.{array_copy, dict_copy, Fits};
ghost use Rattle.call_support.specs.Retaining.{RetainsAsMuch};

use call_support::changes::{new_array, new_dict};
use call_support::views::{element, entries, items};
use ref_objects::heap::Heap;
use std::alloc::{AllocError, Global};
use variant_values::classes::ElementTag;
use variant_values::entries::Entries;
use variant_values::faults::Trouble;
use variant_values::values::{Key, Serial, Value};

/// Makes the copy of an array.
fn place_array(
    heap: &mut Heap,
    items: Vec<Value>,
    of: Option<ElementTag>,
) -> Result<Value, AllocError>
    requires known { KnowsAll heap.old.state.cells items.items }
    requires fits { Fits (with_new heap.old.state (ArrayCell items.items of)).cells }
    ensures copy { IfOk result (λ v. (v, heap.new.state) ≡ new_array_of of (items.items, heap.old.state)) }
    ensures keeps { Keeps heap.old.state.cells heap.new.state.cells }
    ensures kept { RetainsAsMuch heap.old.state heap.new.state }
    ensures known { IfOk result (λ v. knows heap.new.state.cells v ≡ true) }
{
    match new_array(heap, items, of) {
        Ok(v) => Ok(v),
        Err(Trouble::NoMemory) => Err(AllocError),
        Err(Trouble::Fault(_)) => unreachable!(),
    }
}

/// Makes the copy of a dictionary.
fn place_dict(heap: &mut Heap, entries: Entries) -> Result<Value, AllocError>
    requires known { KnowsEntries heap.old.state.cells entries }
    requires fits { Fits (with_new heap.old.state (DictCell entries)).cells }
    ensures copy { IfOk result (λ v. (v, heap.new.state) ≡ new_dict_of (entries, heap.old.state)) }
    ensures keeps { Keeps heap.old.state.cells heap.new.state.cells }
    ensures kept { RetainsAsMuch heap.old.state heap.new.state }
    ensures known { IfOk result (λ v. knows heap.new.state.cells v ≡ true) }
{
    match new_dict(heap, entries) {
        Ok(v) => Ok(v),
        Err(Trouble::NoMemory) => Err(AllocError),
        Err(Trouble::Fault(_)) => unreachable!(),
    }
}

/// The same value.
fn shared(v: &Value) -> Result<Value, AllocError>
    ensures { IfOk result (λ copy. copy ≡ v.now) }
{
    Ok(v.clone()?)
}

/// An item of an array.
fn item(heap: &Heap, of: Serial, index: usize) -> Result<Value, AllocError>
    requires array { is_array (cell_at heap.now.state.cells of.0) ≡ true }
    requires within { index < length (items_of (cell_at heap.now.state.cells of.0)) }
    ensures value { IfOk result (λ v. slice_get (items_of (cell_at heap.now.state.cells of.0)) index ≡ Some v) }
    ensures known { IfOk result (λ v. knows heap.now.state.cells v ≡ true) }
{
    Ok(items(heap, of)[index].clone()?)
}

/// An entry of a dictionary.
fn entry(heap: &Heap, of: Serial, index: usize) -> Result<(Key, Value), AllocError>
    requires dict { is_dict (cell_at heap.now.state.cells of.0) ≡ true }
    requires within { index < length (entries_of (cell_at heap.now.state.cells of.0)) }
    ensures value { IfOk result (λ e. slice_get (entries_of (cell_at heap.now.state.cells of.0)) index ≡ Some e) }
    ensures key { IfOk result (λ e. knows_key heap.now.state.cells e.0 ≡ true) }
    ensures known { IfOk result (λ e. knows heap.now.state.cells e.1 ≡ true) }
{
    let (key, value) = entries(heap, of).entry_at(index);
    Ok((key.clone()?, value.clone()?))
}

/// Puts an entry in.
fn enter(entries: &mut Entries, key: Key, value: Value) -> Result<(), AllocError>
    ensures { OnOk result (entries.new ≡ with_entry entries.old key value) }
{
    entries.insert(key, value)?;
    Ok(())
}

/// A copy of a value with so many levels of containers.
#[cycle(copies)]
pub fn copy_value(
    alloc: Global,
    heap: &mut Heap,
    v: &Value,
    levels: u32,
) -> Result<Value, AllocError>
    requires known { knows heap.old.state.cells v.now ≡ true }
    requires fits { Fits (copied levels heap.old.state v.now).1.cells }
    ensures copy { IfOk result (λ w. (w, heap.new.state) ≡ copied levels heap.old.state v.now) }
    ensures keeps { Keeps heap.old.state.cells heap.new.state.cells }
    ensures kept { RetainsAsMuch heap.old.state heap.new.state }
    ensures known { IfOk result (λ w. knows heap.new.state.cells w ≡ true) }
{
    if levels == 0 {
        return shared(v);
    }
    match v {
        Value::Array(s) => copy_array(alloc, heap, *s, levels - 1),
        Value::Dict(s) => copy_dict(alloc, heap, *s, levels - 1),
        _ => shared(v),
    }
}

#[cycle(copies)]
fn copy_array(alloc: Global, heap: &mut Heap, of: Serial, levels: u32) -> Result<Value, AllocError>
    requires known { is_array (cell_at heap.old.state.cells of.0) ≡ true }
    requires fits { Fits (array_copy levels heap.old.state of).1.cells }
    ensures copy { IfOk result (λ w. (w, heap.new.state) ≡ array_copy levels heap.old.state of) }
    ensures keeps { Keeps heap.old.state.cells heap.new.state.cells }
    ensures kept { RetainsAsMuch heap.old.state heap.new.state }
    ensures known { IfOk result (λ w. knows heap.new.state.cells w ≡ true) }
{
    let element = element(heap, of);
    let copy = copy_items(alloc, heap, of, levels)?;
    place_array(heap, copy, element)
}

#[cycle(copies)]
fn copy_dict(alloc: Global, heap: &mut Heap, of: Serial, levels: u32) -> Result<Value, AllocError>
    requires known { is_dict (cell_at heap.old.state.cells of.0) ≡ true }
    requires fits { Fits (dict_copy levels heap.old.state of).1.cells }
    ensures copy { IfOk result (λ w. (w, heap.new.state) ≡ dict_copy levels heap.old.state of) }
    ensures keeps { Keeps heap.old.state.cells heap.new.state.cells }
    ensures kept { RetainsAsMuch heap.old.state heap.new.state }
    ensures known { IfOk result (λ w. knows heap.new.state.cells w ≡ true) }
{
    let copy = copy_entries(alloc, heap, of, levels)?;
    place_dict(heap, copy)
}

#[cycle(copies)]
fn copy_items(
    alloc: Global,
    heap: &mut Heap,
    of: Serial,
    levels: u32,
) -> Result<Vec<Value>, AllocError>
    requires known { is_array (cell_at heap.old.state.cells of.0) ≡ true }
    requires fits { Fits (copied_items (copied levels) heap.old.state (items_of (cell_at heap.old.state.cells of.0))).1.cells }
    ensures copy { IfOk result (λ list. (list.items, heap.new.state) ≡ copied_items (copied levels) heap.old.state (items_of (cell_at heap.old.state.cells of.0))) }
    ensures keeps { Keeps heap.old.state.cells heap.new.state.cells }
    ensures kept { RetainsAsMuch heap.old.state heap.new.state }
    ensures known { IfOk result (λ list. KnowsAll heap.new.state.cells list.items) }
{
    let mut copy = Vec::new(alloc);
    for i in 0..items(heap, of).len() {
        let v = item(heap, of, i)?;
        copy.push(copy_value(alloc, heap, &v, levels)?)?;
    }
    Ok(copy)
}

#[cycle(copies)]
fn copy_entries(
    alloc: Global,
    heap: &mut Heap,
    of: Serial,
    levels: u32,
) -> Result<Entries, AllocError>
    requires known { is_dict (cell_at heap.old.state.cells of.0) ≡ true }
    requires fits { Fits (copied_entries (copied levels) heap.old.state (entries_of (cell_at heap.old.state.cells of.0))).1.cells }
    ensures copy { IfOk result (λ es. (es, heap.new.state) ≡ copied_entries (copied levels) heap.old.state (entries_of (cell_at heap.old.state.cells of.0))) }
    ensures keeps { Keeps heap.old.state.cells heap.new.state.cells }
    ensures kept { RetainsAsMuch heap.old.state heap.new.state }
    ensures known { IfOk result (λ es. KnowsEntries heap.new.state.cells es) }
{
    let mut copy = Entries::new(alloc);
    for i in 0..entries(heap, of).len() {
        let (key, v) = entry(heap, of, i)?;
        let inner = copy_value(alloc, heap, &v, levels)?;
        enter(&mut copy, key, inner)?;
    }
    Ok(copy)
}
