//! Tests at run time of what the heap's calls require, for the tests.
ghost use Rattle.std.specs.Prelude.{◌≡◌, ◌<◌, ◌≤◌, ◌^◌, length, true, false, is_some, slice_index_or};
ghost use Rattle.variant_values.specs.Places.{place_of, key_place, one_at, in_value, in_values, in_entries, in_slot, in_cells, is_counted};
ghost use Rattle.variant_values.specs.Heaps.{cell_at, is_living, held_at, is_given, is_array, is_dict, is_object, is_no_container, knows, knows_key, knows_object, KnowsAll, field_in, items_of};
ghost use Rattle.variant_values.specs.Trees.{IsUnder, is_node, parent_of};
ghost use Rattle.ref_objects.specs.Slots.{cells_of, held_of};

use crate::counts::{count, key_place, place_of};
use crate::fields::field_at;
use crate::heap::Heap;
use crate::objects::parent_at;
use crate::slots::{Slot, lives};
use variant_values::cells::Cell;
use variant_values::entries::Entries;
use variant_values::values::{Key, Serial, Value};
use variant_values::weights::is_counted;

fn is_array(slots: &[Slot], s: Serial) -> bool
    ensures { result ≡ is_array (cell_at (cells_of slots.now) s.0) }
{
    if s.0 as usize >= slots.len() {
        return false;
    }
    match &slots[s.0 as usize].cell {
        Some(Cell::Array(_, _)) => true,
        _ => false,
    }
}

fn is_dict(slots: &[Slot], s: Serial) -> bool
    ensures { result ≡ is_dict (cell_at (cells_of slots.now) s.0) }
{
    if s.0 as usize >= slots.len() {
        return false;
    }
    match &slots[s.0 as usize].cell {
        Some(Cell::Dict(_)) => true,
        _ => false,
    }
}

fn is_object(slots: &[Slot], s: Serial) -> bool
    ensures { result ≡ is_object (cell_at (cells_of slots.now) s.0) }
{
    if s.0 as usize >= slots.len() {
        return false;
    }
    match &slots[s.0 as usize].cell {
        Some(Cell::Object(_)) => true,
        _ => false,
    }
}

fn is_node(slots: &[Slot], s: Serial) -> bool
    ensures { result ≡ is_node (cell_at (cells_of slots.now) s.0) }
{
    if s.0 as usize >= slots.len() {
        return false;
    }
    match &slots[s.0 as usize].cell {
        Some(Cell::Object(o)) => o.node.is_some(),
        _ => false,
    }
}

fn is_single(slots: &[Slot], s: Serial) -> bool
    ensures { result ≡ is_no_container (cell_at (cells_of slots.now) s.0) }
{
    if s.0 as usize >= slots.len() {
        return true;
    }
    match &slots[s.0 as usize].cell {
        Some(Cell::Array(_, _)) => false,
        Some(Cell::Dict(_)) => false,
        _ => true,
    }
}

fn is_uncounted(slots: &[Slot], s: Serial) -> bool
    ensures { result ≡ true → is_counted (cell_at (cells_of slots.now) s.0) ≡ false }
{
    if s.0 as usize >= slots.len() {
        return true;
    }
    match &slots[s.0 as usize].cell {
        Some(cell) => !is_counted(cell),
        None => true,
    }
}

fn knows_object(slots: &[Slot], s: Serial) -> bool
    ensures { result ≡ knows_object (cells_of slots.now) s }
{
    0 < s.0 && ((s.0 as usize) < slots.len() && is_single(slots, s))
}

fn knows(slots: &[Slot], v: &Value) -> bool
    ensures { result ≡ knows (cells_of slots.now) v.now }
{
    match v {
        Value::Null => true,
        Value::Bool(_) => true,
        Value::Int(_) => true,
        Value::Str(_) => true,
        Value::Array(s) => is_array(slots, *s),
        Value::Dict(s) => is_dict(slots, *s),
        Value::Object(s) => knows_object(slots, *s),
        Value::Callable(s, _) => knows_object(slots, *s),
        Value::Signal(s, _) => knows_object(slots, *s),
        Value::Class(_) => true,
        Value::Scene(_, _) => true,
        Value::Weak(s) => knows_object(slots, *s),
    }
}

fn knows_key(slots: &[Slot], k: &Key) -> bool
    ensures { result ≡ knows_key (cells_of slots.now) k.now }
{
    match k {
        Key::Bool(_) => true,
        Key::Int(_) => true,
        Key::Str(_) => true,
        Key::Object(s) => knows_object(slots, *s),
    }
}

fn knows_all(slots: &[Slot], values: &[Value]) -> bool
    ensures { result ≡ true → KnowsAll (cells_of slots.now) values.now }
{
    for v in values {
        if !knows(slots, v) {
            return false;
        }
    }
    true
}

fn items_len(slots: &[Slot], s: Serial) -> usize
    ensures { result ≡ length (items_of (cell_at (cells_of slots.now) s.0)) }
{
    if s.0 as usize >= slots.len() {
        return 0;
    }
    match &slots[s.0 as usize].cell {
        Some(Cell::Array(values, _)) => values.len(),
        _ => 0,
    }
}

fn one(place: u64, x: u64) -> u128
    ensures value { result ≡ one_at x place }
    ensures small { result ≤ 1 }
{
    if place == x { 1 } else { 0 }
}

fn places_in_values(values: &[Value], x: u64) -> u128
    ensures value { result ≡ in_values x values.now }
    ensures small { result < 2 ^ 64 }
{
    let mut n = 0;
    for v in values {
        n += one(place_of(v), x);
    }
    n
}

fn places_in_entries(entries: &Entries, x: u64) -> u128
    ensures value { result ≡ in_entries x entries.now }
    ensures small { result < 2 ^ 65 }
{
    let mut n = 0;
    for i in 0..entries.len() {
        let (key, value) = entries.entry_at(i);
        n += one(key_place(key), x) + one(place_of(value), x);
    }
    n
}

fn places_in_cell(slots: &[Slot], i: usize, x: u64) -> u128
    requires { i < length slots.now }
    ensures value { result ≡ in_slot x (cell_at (cells_of slots.now) i) }
    ensures small { result < 2 ^ 65 }
{
    match &slots[i].cell {
        Some(Cell::Array(values, _)) => places_in_values(values.as_slice(), x),
        Some(Cell::Dict(entries)) => places_in_entries(entries, x),
        Some(Cell::Object(o)) => places_in_values(o.fields.as_slice(), x),
        None => 0,
    }
}

/// How many places in cells hold the cell x.
fn places(slots: &[Slot], x: u64) -> u128
    ensures { result ≡ in_cells x (cells_of slots.now) }
{
    let mut n = 0;
    for i in 0..slots.len() {
        n += places_in_cell(slots, i, x);
    }
    n
}

fn few(slots: &[Slot], x: u64) -> bool
    ensures { result ≡ true → slice_index_or (held_of slots.now) x 0 < 2 ^ 100 }
{
    count(slots, x) < 1_000_000
}

fn held(slots: &[Slot], x: u64) -> bool
    ensures { result ≡ true → 0 < slice_index_or (held_of slots.now) x 0 }
{
    places(slots, x) < count(slots, x)
}

/// Whether a node is not in the subtree of another, as far as so many parents tell.
fn is_apart(slots: &[Slot], top: u64, x: u64, fuel: u32) -> bool
    ensures { result ≡ true → IsUnder (cells_of slots.now) top x → ⊥ }
{
    if x == top {
        return false;
    }
    if fuel == 0 || x as usize >= slots.len() {
        return false;
    }
    match parent_at(slots, x as usize) {
        Some(parent) => is_apart(slots, top, parent.0, fuel - 1),
        None => true,
    }
}

impl Heap {
    pub fn knows(&self, v: &Value) -> bool
        ensures { result ≡ knows self.now.state.cells v.now }
    {
        knows(self.slots.as_slice(), v)
    }

    pub fn knows_key(&self, k: &Key) -> bool
        ensures { result ≡ knows_key self.now.state.cells k.now }
    {
        knows_key(self.slots.as_slice(), k)
    }

    pub fn knows_all(&self, values: &[Value]) -> bool
        ensures { result ≡ true → KnowsAll self.now.state.cells values.now }
    {
        knows_all(self.slots.as_slice(), values)
    }

    pub fn knows_object(&self, s: Serial) -> bool
        ensures { result ≡ knows_object self.now.state.cells s }
    {
        knows_object(self.slots.as_slice(), s)
    }

    pub fn is_given(&self, s: Serial) -> bool
        ensures { result ≡ is_given self.now.state.cells s }
    {
        0 < s.0 && (s.0 as usize) < self.slots.len()
    }

    pub fn is_array(&self, s: Serial) -> bool
        ensures { result ≡ is_array (cell_at self.now.state.cells s.0) }
    {
        is_array(self.slots.as_slice(), s)
    }

    pub fn is_dict(&self, s: Serial) -> bool
        ensures { result ≡ is_dict (cell_at self.now.state.cells s.0) }
    {
        is_dict(self.slots.as_slice(), s)
    }

    pub fn is_object(&self, s: Serial) -> bool
        ensures { result ≡ is_object (cell_at self.now.state.cells s.0) }
    {
        is_object(self.slots.as_slice(), s)
    }

    pub fn is_node(&self, s: Serial) -> bool
        ensures { result ≡ is_node (cell_at self.now.state.cells s.0) }
    {
        is_node(self.slots.as_slice(), s)
    }

    pub fn is_uncounted(&self, s: Serial) -> bool
        ensures { result ≡ true → is_counted (cell_at self.now.state.cells s.0) ≡ false }
    {
        is_uncounted(self.slots.as_slice(), s)
    }

    pub fn items_len(&self, s: Serial) -> usize
        ensures { result ≡ length (items_of (cell_at self.now.state.cells s.0)) }
    {
        items_len(self.slots.as_slice(), s)
    }

    /// Whether a caller holds fewer values of a cell than it may.
    pub fn is_few(&self, v: &Value) -> bool
        ensures { result ≡ true → held_at self.now.state (place_of v.now) < 2 ^ 100 }
    {
        few(self.slots.as_slice(), place_of(v))
    }

    /// Whether a caller holds a value of a cell.
    pub fn is_held(&self, v: &Value) -> bool
        ensures { result ≡ true → 0 < held_at self.now.state (place_of v.now) }
    {
        held(self.slots.as_slice(), place_of(v))
    }

    /// Whether a node is not in the subtree of another.
    pub fn is_apart(&self, top: Serial, s: Serial) -> bool
        ensures { result ≡ true → IsUnder self.now.state.cells top.0 s.0 → ⊥ }
    {
        is_apart(self.slots.as_slice(), top.0, s.0, 100)
    }

    /// Whether an object has the field, where it lives.
    pub fn has_field(&self, s: Serial, index: u32) -> bool
        ensures { result ≡ true → is_living self.now.state.cells s.0 ≡ true → is_some (field_in (cell_at self.now.state.cells s.0) index) ≡ true }
    {
        if !lives(self.slots.as_slice(), s.0) {
            return true;
        }
        field_at(self.slots.as_slice(), s.0 as usize, index as usize).is_some()
    }

    pub fn parent(&self, s: Serial) -> Option<Serial>
        ensures { result ≡ parent_of (cell_at self.now.state.cells s.0) }
    {
        if s.0 as usize >= self.slots.len() {
            return None;
        }
        parent_at(self.slots.as_slice(), s.0 as usize)
    }

    /// The number of a node's children.
    pub fn children(&self, s: Serial) -> usize {
        if s.0 as usize >= self.slots.len() {
            return 0;
        }
        match &self.slots[s.0 as usize].cell {
            Some(Cell::Object(o)) => match &o.node {
                Some(node) => node.children.as_slice().len(),
                None => 0,
            },
            _ => 0,
        }
    }
}
