ghost use Rattle.std.specs.Prelude.{◌≡◌, ◌<◌, ◌^◌, ◌+◌, ◌++◌, ◌≤◌, ◌↔◌, ℕ, length, take, drop, true, [], All, Err, IfOk, OnErr, slice_set, slice_range, IfErr, ◌⊎◌};
ghost use Rattle.variant_values.specs.Places.{place_of, in_values, item_weight, weight, room_left};
ghost use Rattle.variant_values.specs.Heaps.{cell_at, is_array, items_of, items_put, spliced, KnowsAll};
ghost use Rattle.ref_objects.specs.Slots.{cells_of, count_at, lives, IsKept, IsPut, IsNow, IsRecounted, none_more};

use crate::allocate::LIMIT;
use crate::counts::{lower_values, raise_values};
use crate::slots::{Slot, put_cell, take_cell};
use std::alloc::Global;
use variant_values::cells::{Cell, Values};
use variant_values::faults::{RunFault, Trouble};
use variant_values::values::Value;
use variant_values::weights::{items_room, items_weight};

/// The items of an array.
fn items_at(slots: &[Slot], x: usize) -> &[Value]
    requires within { x < length slots.now }
    requires array { is_array (cell_at (cells_of slots.now) x) ≡ true }
    ensures { result.now ≡ items_of (cell_at (cells_of slots.now) x) }
{
    match &slots[x].cell {
        Some(Cell::Array(values, _)) => values.as_slice(),
        _ => unreachable!(),
    }
}

/// What is left of the heap's room once the values stand in the place of `out` items.
fn splice_room(
    slots: &[Slot],
    x: usize,
    at: usize,
    out: usize,
    put: &[Value],
    total: u64,
) -> Option<u64>
    requires kept { IsKept slots.now total }
    requires within { x < length slots.now }
    requires array { is_array (cell_at (cells_of slots.now) x) ≡ true }
    requires items { at + out ≤ length (items_of (cell_at (cells_of slots.now) x)) }
    ensures { result ≡ room_left 67108864 (weight (slice_set (cells_of slots.now) x (items_put (spliced (items_of (cell_at (cells_of slots.now) x)) at out put.now) (cell_at (cells_of slots.now) x)))) }
{
    let items = items_at(slots, x);
    let light = items_weight(&items[at..at + out]);
    items_room(put, LIMIT - (total - light))
}

/// Takes the items out of an array, which stays.
fn take_items(slots: &mut Vec<Slot>, x: usize, alloc: Global) -> Values
    requires within { x < length slots.old.items }
    requires array { is_array (cell_at (cells_of slots.old.items) x) ≡ true }
    ensures items { result ≡ items_of (cell_at (cells_of slots.old.items) x) }
    ensures put { IsPut slots.old.items slots.new.items x (items_put [] (cell_at (cells_of slots.old.items) x)) }
{
    match take_cell(slots, x) {
        Some(Cell::Array(values, of)) => {
            put_cell(slots, x, Cell::Array(Values::new(alloc), of));
            values
        }
        _ => unreachable!(),
    }
}

/// Gives an array other items.
fn put_items(slots: &mut Vec<Slot>, x: usize, values: Values)
    requires within { x < length slots.old.items }
    requires array { is_array (cell_at (cells_of slots.old.items) x) ≡ true }
    ensures { IsPut slots.old.items slots.new.items x (items_put values (cell_at (cells_of slots.old.items) x)) }
{
    match take_cell(slots, x) {
        Some(Cell::Array(_, of)) => put_cell(slots, x, Cell::Array(values, of)),
        _ => unreachable!(),
    }
}

/// Counts the places of values that were put in, and takes out those that come after them.
fn trade(slots: &mut Vec<Slot>, values: &mut Values, at: usize, count: usize, out: usize)
    requires items { at + count + out ≤ length values.old }
    requires within { All (λ v. place_of v < length slots.old.items) values.old }
    requires room { (y : ℕ) → count_at slots.old.items y + in_values y (slice_range values.old at (at + count)) < 2 ^ 128 }
    requires held { (y : ℕ) → lives slots.old.items y ≡ true → in_values y (slice_range values.old (at + count) (at + count + out)) ≤ count_at slots.old.items y }
    ensures counts { IsRecounted slots.old.items slots.new.items (λ y. in_values y (slice_range values.old at (at + count))) none_more (λ y. in_values y (slice_range values.old (at + count) (at + count + out))) }
    ensures values { values.new ≡ take (at + count) values.old ++ drop (at + count + out) values.old }
{
    raise_values(slots, &values.as_slice()[at..at + count]);
    lower_values(slots, &values.as_slice()[at + count..at + count + out]);
    values.take_out(at + count, out);
}

/// Puts values into an array in the place of as many items. The other items stay where they are.
fn replace_items(
    slots: &mut Vec<Slot>,
    x: usize,
    at: usize,
    put: Vec<Value>,
    total: u64,
    alloc: Global,
)
    requires kept { IsKept slots.old.items total }
    requires within { x < length slots.old.items }
    requires array { is_array (cell_at (cells_of slots.old.items) x) ≡ true }
    requires items { at + length put.items ≤ length (items_of (cell_at (cells_of slots.old.items) x)) }
    requires put { KnowsAll (cells_of slots.old.items) put.items }
    requires light { weight (slice_set (cells_of slots.old.items) x (items_put (spliced (items_of (cell_at (cells_of slots.old.items) x)) at (length put.items) put.items) (cell_at (cells_of slots.old.items) x))) ≤ 67108864 }
    ensures { IsNow slots.old.items slots.new.items (weight (slice_set (cells_of slots.old.items) x (items_put (spliced (items_of (cell_at (cells_of slots.old.items) x)) at (length put.items) put.items) (cell_at (cells_of slots.old.items) x)))) (slice_set (cells_of slots.old.items) x (items_put (spliced (items_of (cell_at (cells_of slots.old.items) x)) at (length put.items) put.items) (cell_at (cells_of slots.old.items) x))) }
{
    let mut values = take_items(slots, x, alloc);
    raise_values(slots, put.as_slice());
    let before = values.exchange(at, put);
    lower_values(slots, before.as_slice());
    put_items(slots, x, values);
}

/// Puts values into an array in the place of `out` items, and answers the weight then.
pub fn store_splice(
    slots: &mut Vec<Slot>,
    x: usize,
    at: usize,
    out: usize,
    put: Vec<Value>,
    total: u64,
    alloc: Global,
) -> Result<u64, Trouble>
    requires kept { IsKept slots.old.items total }
    requires within { x < length slots.old.items }
    requires array { is_array (cell_at (cells_of slots.old.items) x) ≡ true }
    requires items { at + out ≤ length (items_of (cell_at (cells_of slots.old.items) x)) }
    requires put { KnowsAll (cells_of slots.old.items) put.items }
    ensures full { (result ≡ Err (Trouble.Fault RunFault.HeapFull)) ↔ (67108864 < weight (slice_set (cells_of slots.old.items) x (items_put (spliced (items_of (cell_at (cells_of slots.old.items) x)) at out put.items) (cell_at (cells_of slots.old.items) x)))) }
    ensures ok { IfOk result (λ after. IsNow slots.old.items slots.new.items after (slice_set (cells_of slots.old.items) x (items_put (spliced (items_of (cell_at (cells_of slots.old.items) x)) at out put.items) (cell_at (cells_of slots.old.items) x)))) }
    ensures err { OnErr result (IsNow slots.old.items slots.new.items total (cells_of slots.old.items)) }
    ensures only { IfErr result (λ e. (e ≡ Trouble.Fault RunFault.HeapFull) ⊎ (e ≡ Trouble.NoMemory)) }
{
    let Some(room) = splice_room(slots.as_slice(), x, at, out, put.as_slice(), total) else {
        return Err(Trouble::Fault(RunFault::HeapFull));
    };
    let count = put.len();
    if count == out {
        replace_items(slots, x, at, put, total, alloc);
        return Ok(LIMIT - room);
    }
    let mut values = take_items(slots, x, alloc);
    match values.put_in(at, put) {
        Ok(()) => {
            trade(slots, &mut values, at, count, out);
            put_items(slots, x, values);
            Ok(LIMIT - room)
        }
        Err(_) => {
            put_items(slots, x, values);
            Err(Trouble::NoMemory)
        }
    }
}
