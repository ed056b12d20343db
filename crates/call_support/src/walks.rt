// The cells that a walk opens, and the items that it comes to.
ghost use Rattle.std.specs.Prelude.{◌≡◌, true, Some};
ghost use Rattle.variant_values.specs.Heaps.{knows, KnowsAll, KnowsEntries};
ghost use Rattle.variant_values.specs.ValueTexts.{items_in, count_items, with_count, is_within, most_levels};
ghost use Rattle.call_support.specs.Walks.{left_after};

use crate::views::{entries, items};
use ref_objects::heap::Heap;
use variant_values::entries::Entries;
use variant_values::operators;
use variant_values::values::Value;

/// The levels of containers that a walk may open.
pub const MOST_LEVELS: u32 = 64;

/// The items that a walk may come to, as many as a container may have.
pub const MOST_ITEMS: u64 = operators::MOST_ITEMS as u64;

/// What is left of a room for items after a walk, or `None` where the walk passes a limit.
#[cycle(counts)]
fn room_after(heap: &Heap, v: &Value, levels: u32, room: u64) -> Option<u64>
    requires { knows heap.now.state.cells v.now ≡ true }
    ensures { result ≡ left_after room (items_in levels heap.now.state.cells v.now) }
{
    match v {
        Value::Array(_) if levels == 0 => None,
        Value::Dict(_) if levels == 0 => None,
        Value::Array(s) => room_after_items(heap, items(heap, *s), levels - 1, room),
        Value::Dict(s) => room_after_entries(heap, entries(heap, *s), levels - 1, room),
        _ => Some(room),
    }
}

#[cycle(counts)]
fn room_after_item(heap: &Heap, v: &Value, levels: u32, room: u64) -> Option<u64>
    requires { knows heap.now.state.cells v.now ≡ true }
    ensures { result ≡ left_after room (with_count (Some 1) (items_in levels heap.now.state.cells v.now)) }
{
    if room == 0 {
        return None;
    }
    room_after(heap, v, levels, room - 1)
}

#[cycle(counts)]
fn room_after_items(heap: &Heap, items: &[Value], levels: u32, room: u64) -> Option<u64>
    requires { KnowsAll heap.now.state.cells items.now }
    ensures { result ≡ left_after room (count_items (items_in levels heap.now.state.cells) items.now) }
{
    let mut left = room;
    let mut rest = items;
    while let [v, after @ ..] = rest {
        left = room_after_item(heap, v, levels, left)?;
        rest = after;
    }
    Some(left)
}

#[cycle(counts)]
fn room_after_entries(heap: &Heap, entries: &Entries, levels: u32, room: u64) -> Option<u64>
    requires { KnowsEntries heap.now.state.cells entries.now }
    ensures { result ≡ left_after room (count_items (λ e. items_in levels heap.now.state.cells e.1) entries.now) }
{
    let mut left = room;
    for i in 0..entries.len() {
        let (_, v) = entries.entry_at(i);
        left = room_after_item(heap, v, levels, left)?;
    }
    Some(left)
}

/// Whether a walk of a value stays within the limits of levels and items.
pub fn is_within(heap: &Heap, v: &Value) -> bool
    requires { knows heap.now.state.cells v.now ≡ true }
    ensures { result ≡ is_within (items_in most_levels heap.now.state.cells v.now) }
{
    room_after(heap, v, MOST_LEVELS, MOST_ITEMS).is_some()
}
