// What a caller sees of one cell.
ghost use Rattle.std.specs.Prelude.{◌≡◌, ◌≤◌, true, length, option_copied, IfSome};
ghost use Rattle.variant_values.specs.Heaps.{cell_at, entries_of, is_array, is_dict, is_living, items_of, knows, knows_object, KnowsAll, KnowsEntries};
ghost use Rattle.std.specs.Map.{lookup};
ghost use Rattle.variant_values.specs.ElementTypes.{element_of};
ghost use Rattle.variant_values.specs.Keys.{same_key, HasKeysOnce};

use ref_objects::heap::Heap;
use variant_values::cells::Cell;
use variant_values::classes::ElementTag;
use variant_values::entries::Entries;
use variant_values::values::{Key, Serial, Value};

/// The items of an array.
pub fn items(heap: &Heap, of: Serial) -> &[Value]
    requires { is_array (cell_at heap.now.state.cells of.0) ≡ true }
    ensures value { result.now ≡ items_of (cell_at heap.now.state.cells of.0) }
    ensures known { KnowsAll heap.now.state.cells result.now }
{
    heap.is_sound();
    match heap.cell(of) {
        Some(Cell::Array(values, _)) => values.as_slice(),
        _ => unreachable!(),
    }
}

/// The entries of a dictionary.
pub fn entries(heap: &Heap, of: Serial) -> &Entries
    requires { is_dict (cell_at heap.now.state.cells of.0) ≡ true }
    ensures value { result.now ≡ entries_of (cell_at heap.now.state.cells of.0) }
    ensures known { KnowsEntries heap.now.state.cells result.now }
    ensures few { length result.now ≤ 67108864 }
    ensures once { HasKeysOnce result.now }
{
    heap.is_sound();
    let found = entries_of(heap, of);
    found.keys_once();
    found
}

fn entries_of(heap: &Heap, of: Serial) -> &Entries
    requires { is_dict (cell_at heap.now.state.cells of.0) ≡ true }
    ensures value { result.now ≡ entries_of (cell_at heap.now.state.cells of.0) }
    ensures known { KnowsEntries heap.now.state.cells result.now }
{
    heap.is_sound();
    match heap.cell(of) {
        Some(Cell::Dict(entries)) => entries,
        _ => unreachable!(),
    }
}

/// The element type of an array, where it has one.
pub fn element(heap: &Heap, of: Serial) -> Option<ElementTag>
    requires { is_array (cell_at heap.now.state.cells of.0) ≡ true }
    ensures { result ≡ element_of (cell_at heap.now.state.cells of.0) }
{
    heap.is_sound();
    match heap.cell(of) {
        Some(Cell::Array(_, element)) => *element,
        _ => unreachable!(),
    }
}

/// The value of a key in a dictionary.
pub fn value_at<'a>(heap: &'a Heap, of: Serial, key: &Key) -> Option<&'a Value>
    requires { is_dict (cell_at heap.now.state.cells of.0) ≡ true }
    ensures value { option_copied result ≡ lookup (same_key key.now) (entries_of (cell_at heap.now.state.cells of.0)) }
    ensures known { IfSome result (λ v. knows heap.now.state.cells v.now ≡ true) }
{
    match entries(heap, of).get(key) {
        Some(v) => Some(v),
        None => None,
    }
}

/// Whether an object lives.
pub fn lives(heap: &Heap, of: Serial) -> bool
    requires { knows_object heap.now.state.cells of ≡ true }
    ensures { result ≡ is_living heap.now.state.cells of.0 }
{
    heap.cell(of).is_some()
}
