// What a deep copy adds to a heap: weight, and cells.
ghost use Rattle.std.specs.Prelude.{◌≡◌, ◌+◌, ◌^◌, true, length, nat_le};
ghost use Rattle.variant_values.specs.Heaps.{knows, KnowsAll, KnowsEntries};
ghost use Rattle.variant_values.specs.Copies.{copied};
ghost use Rattle.variant_values.specs.Places.{room_left, weight};
ghost use Rattle.variant_values.specs.ValueTexts.{most_levels};
ghost use Rattle.deep_copies.specs.CopyWeights.{cell_cost, copy_cost, entry_cost, item_cost, takes_copy, total};

use call_support::views::{entries, items};
use call_support::walks::MOST_LEVELS;
use ref_objects::heap::Heap;
use variant_values::entries::Entries;
use variant_values::values::{Key, Value};
use variant_values::weights::{entry_weight, item_weight};

/// What is counted of the cells that a copy makes.
#[derive(Clone, Copy)]
enum Measure {
    /// What they weigh.
    Weight,
    /// How many they are.
    Cells,
}

/// What a container costs beside its items or entries.
fn cell_cost(measure: Measure) -> u128
    ensures { result ≡ cell_cost measure }
{
    match measure {
        Measure::Weight => 16,
        Measure::Cells => 1,
    }
}

fn item_cost(measure: Measure, v: &Value) -> u128
    ensures { result ≡ item_cost measure v.now }
{
    match measure {
        Measure::Weight => item_weight(v) as u128,
        Measure::Cells => 0,
    }
}

fn entry_cost(measure: Measure, key: &Key, v: &Value) -> u128
    ensures { result ≡ entry_cost measure (key.now, v.now) }
{
    match measure {
        Measure::Weight => entry_weight(key, v),
        Measure::Cells => 0,
    }
}

/// What is left of a room, where it has so much.
fn less(room: u64, cost: u128) -> Option<u64>
    ensures { result ≡ room_left room cost }
{
    if cost > room as u128 {
        return None;
    }
    Some(room - cost as u64)
}

/// What is left of a room after a copy with so many levels.
#[cycle(rooms)]
fn room_after(heap: &Heap, v: &Value, levels: u32, measure: Measure, room: u64) -> Option<u64>
    requires { knows heap.now.state.cells v.now ≡ true }
    ensures { result ≡ room_left room (copy_cost measure levels heap.now.state.cells v.now) }
{
    if levels == 0 {
        return Some(room);
    }
    match v {
        Value::Array(s) => {
            let left = less(room, cell_cost(measure))?;
            room_after_items(heap, items(heap, *s), levels - 1, measure, left)
        }
        Value::Dict(s) => {
            let left = less(room, cell_cost(measure))?;
            room_after_entries(heap, entries(heap, *s), levels - 1, measure, left)
        }
        _ => Some(room),
    }
}

#[cycle(rooms)]
fn room_after_item(heap: &Heap, v: &Value, levels: u32, measure: Measure, room: u64) -> Option<u64>
    requires { knows heap.now.state.cells v.now ≡ true }
    ensures { result ≡ room_left room (item_cost measure v.now + copy_cost measure levels heap.now.state.cells v.now) }
{
    let left = less(room, item_cost(measure, v))?;
    room_after(heap, v, levels, measure, left)
}

#[cycle(rooms)]
fn room_after_entry(
    heap: &Heap,
    key: &Key,
    v: &Value,
    levels: u32,
    measure: Measure,
    room: u64,
) -> Option<u64>
    requires { knows heap.now.state.cells v.now ≡ true }
    ensures { result ≡ room_left room (entry_cost measure (key.now, v.now) + copy_cost measure levels heap.now.state.cells v.now) }
{
    let left = less(room, entry_cost(measure, key, v))?;
    room_after(heap, v, levels, measure, left)
}

#[cycle(rooms)]
fn room_after_items(
    heap: &Heap,
    items: &[Value],
    levels: u32,
    measure: Measure,
    room: u64,
) -> Option<u64>
    requires { KnowsAll heap.now.state.cells items.now }
    ensures { result ≡ room_left room (total (λ v. item_cost measure v + copy_cost measure levels heap.now.state.cells v) items.now) }
{
    let mut left = room;
    let mut rest = items;
    while let [v, after @ ..] = rest {
        left = room_after_item(heap, v, levels, measure, left)?;
        rest = after;
    }
    Some(left)
}

#[cycle(rooms)]
fn room_after_entries(
    heap: &Heap,
    entries: &Entries,
    levels: u32,
    measure: Measure,
    room: u64,
) -> Option<u64>
    requires { KnowsEntries heap.now.state.cells entries.now }
    ensures { result ≡ room_left room (total (λ e. entry_cost measure e + copy_cost measure levels heap.now.state.cells e.1) entries.now) }
{
    let mut left = room;
    for i in 0..entries.len() {
        let (key, v) = entries.entry_at(i);
        left = room_after_entry(heap, key, v, levels, measure, left)?;
    }
    Some(left)
}

/// Whether the heap has room for what a deep copy weighs.
fn has_room(heap: &Heap, v: &Value) -> bool
    requires { knows heap.now.state.cells v.now ≡ true }
    ensures { result ≡ nat_le (weight (copied most_levels heap.now.state v.now).1.cells) 67108864 }
{
    heap.is_sound();
    room_after(heap, v, MOST_LEVELS, Measure::Weight, heap.room()).is_some()
}

/// Whether there is a serial for each cell that a deep copy makes.
fn has_serials(heap: &Heap, v: &Value) -> bool
    requires { knows heap.now.state.cells v.now ≡ true }
    ensures { result ≡ nat_le (length (copied most_levels heap.now.state v.now).1.cells) (2 ^ 64) }
{
    heap.is_sound();
    room_after(heap, v, MOST_LEVELS, Measure::Cells, heap.serials_left()).is_some()
}

/// Whether the heap takes a deep copy: its weight, and a serial for each of its cells.
pub fn takes_copy(heap: &Heap, v: &Value) -> bool
    requires { knows heap.now.state.cells v.now ≡ true }
    ensures { result ≡ takes_copy heap.now.state v.now }
{
    has_room(heap, v) && has_serials(heap, v)
}
