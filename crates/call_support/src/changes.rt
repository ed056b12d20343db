// Changes of one cell, each with all that can come of it.
ghost use Rattle.std.specs.Prelude.{◌≡◌, ◌+◌, ◌≤◌, [], length, true, Ok, IfOk};
ghost use Rattle.variant_values.specs.Heaps.{cell_at, is_array, is_dict, items_of, knows, knows_key, with_splice, with_entry_at, KnowsAll, KnowsEntries};
ghost use Rattle.variant_values.specs.Changes.{Keeps, HasGiven, new_array, new_dict, weighed};
ghost use Rattle.call_support.specs.Retaining.{RetainsAsMuch};

use ref_objects::heap::Heap;
use std::alloc::Global;
use variant_values::cells::{Cell, Values};
use variant_values::classes::ElementTag;
use variant_values::entries::Entries;
use variant_values::faults::Trouble;
use variant_values::values::{Key, Serial, Value};

/// Puts values into an array in the place of `out` items from an index on.
pub fn splice(
    heap: &mut Heap,
    of: Serial,
    at: usize,
    out: usize,
    put: Vec<Value>,
) -> Result<(), Trouble>
    requires array { is_array (cell_at heap.old.state.cells of.0) ≡ true }
    requires items { at + out ≤ length (items_of (cell_at heap.old.state.cells of.0)) }
    requires put { KnowsAll heap.old.state.cells put.items }
    ensures given { HasGiven result heap.old.state heap.new.state (weighed (with_splice heap.old.state of.0 at out put.items) tt) }
    ensures keeps { Keeps heap.old.state.cells heap.new.state.cells }
    ensures kept { RetainsAsMuch heap.old.state heap.new.state }
{
    match heap.splice(of, at, out, put) {
        Ok(()) => Ok(()),
        Err(trouble) => Err(trouble),
    }
}

/// Takes `out` items out of an array, from an index on. The heap is no heavier then, so that this is never refused.
pub fn remove_items(
    alloc: Global,
    heap: &mut Heap,
    of: Serial,
    at: usize,
    out: usize,
) -> Result<(), Trouble>
    requires array { is_array (cell_at heap.old.state.cells of.0) ≡ true }
    requires items { at + out ≤ length (items_of (cell_at heap.old.state.cells of.0)) }
    ensures given { HasGiven result heap.old.state heap.new.state (Ok (tt, with_splice heap.old.state of.0 at out [])) }
    ensures keeps { Keeps heap.old.state.cells heap.new.state.cells }
    ensures kept { RetainsAsMuch heap.old.state heap.new.state }
{
    heap.is_sound();
    match heap.splice(of, at, out, Vec::new(alloc)) {
        Ok(()) => Ok(()),
        Err(trouble) => Err(trouble),
    }
}

/// Gives a dictionary an entry.
pub fn set_entry(heap: &mut Heap, of: Serial, key: Key, to: Value) -> Result<(), Trouble>
    requires dict { is_dict (cell_at heap.old.state.cells of.0) ≡ true }
    requires key { knows_key heap.old.state.cells key ≡ true }
    requires to { knows heap.old.state.cells to ≡ true }
    ensures given { HasGiven result heap.old.state heap.new.state (weighed (with_entry_at heap.old.state of.0 key to) tt) }
    ensures keeps { Keeps heap.old.state.cells heap.new.state.cells }
    ensures kept { RetainsAsMuch heap.old.state heap.new.state }
{
    match heap.set_entry(of, key, to) {
        Ok(()) => Ok(()),
        Err(trouble) => Err(trouble),
    }
}

/// Makes an array.
pub fn new_array(
    heap: &mut Heap,
    items: Vec<Value>,
    of: Option<ElementTag>,
) -> Result<Value, Trouble>
    requires { KnowsAll heap.old.state.cells items.items }
    ensures given { HasGiven result heap.old.state heap.new.state (new_array heap.old.state items.items of) }
    ensures keeps { Keeps heap.old.state.cells heap.new.state.cells }
    ensures kept { RetainsAsMuch heap.old.state heap.new.state }
    ensures known { IfOk result (λ v. knows heap.new.state.cells v ≡ true) }
{
    match heap.new_cell(Cell::Array(Values::of(items), of)) {
        Ok(serial) => Ok(Value::Array(serial)),
        Err(trouble) => Err(trouble),
    }
}

/// Makes a dictionary.
pub fn new_dict(heap: &mut Heap, entries: Entries) -> Result<Value, Trouble>
    requires { KnowsEntries heap.old.state.cells entries }
    ensures given { HasGiven result heap.old.state heap.new.state (new_dict heap.old.state entries) }
    ensures keeps { Keeps heap.old.state.cells heap.new.state.cells }
    ensures kept { RetainsAsMuch heap.old.state heap.new.state }
    ensures known { IfOk result (λ v. knows heap.new.state.cells v ≡ true) }
{
    match heap.new_cell(Cell::Dict(entries)) {
        Ok(serial) => Ok(Value::Dict(serial)),
        Err(trouble) => Err(trouble),
    }
}
