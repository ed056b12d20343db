ghost use Rattle.std.specs.Prelude.{◌≡◌, ◌+◌, ◌<◌, ◌≤◌, ◌^◌, length, ℕ, true, All};
ghost use Rattle.variant_values.specs.Places.{place_of, key_place, one_at, in_entries, in_values, in_cell};
ghost use Rattle.ref_objects.specs.Slots.{count_at, IsCellWithin, lives, IsRaised, IsLowered};

use crate::slots::Slot;
use variant_values::cells::Cell;
use variant_values::entries::Entries;
use variant_values::values::{Key, Value};

/// The serial of the cell that a value holds, or 0.
pub fn place_of(v: &Value) -> u64
    ensures { result ≡ place_of v.now }
{
    match v {
        Value::Null => 0,
        Value::Bool(_) => 0,
        Value::Int(_) => 0,
        Value::Str(_) => 0,
        Value::Array(s) => s.0,
        Value::Dict(s) => s.0,
        Value::Object(s) => s.0,
        Value::Callable(_, _) => 0,
        Value::Signal(_, _) => 0,
        Value::Class(_) => 0,
        Value::Scene(_, _) => 0,
        Value::Weak(_) => 0,
    }
}

/// The serial of the cell that a key holds, or 0.
pub fn key_place(k: &Key) -> u64
    ensures { result ≡ key_place k.now }
{
    match k {
        Key::Bool(_) => 0,
        Key::Int(_) => 0,
        Key::Str(_) => 0,
        Key::Object(s) => s.0,
    }
}

/// The count of a cell, 0 where it has gone.
pub fn count(slots: &[Slot], x: u64) -> u128
    ensures { result ≡ count_at slots.now x }
{
    if x as usize >= slots.len() {
        return 0;
    }
    slots[x as usize].count
}

/// One place more holds the cell x.
pub fn raise(slots: &mut Vec<Slot>, x: usize)
    requires within { x < length slots.old.items }
    requires room { count_at slots.old.items x + 1 < 2 ^ 128 }
    ensures { IsRaised slots.old.items slots.new.items (λ y. one_at y x) }
{
    let slot = &mut slots[x];
    if slot.cell.is_some() {
        slot.count += 1;
    }
}

/// One place less holds the cell x.
pub fn lower(slots: &mut Vec<Slot>, x: usize)
    requires within { x < length slots.old.items }
    requires held { lives slots.old.items x ≡ true → 1 ≤ count_at slots.old.items x }
    ensures { IsLowered slots.old.items slots.new.items (λ y. one_at y x) }
{
    let slot = &mut slots[x];
    if slot.cell.is_some() {
        slot.count -= 1;
    }
}

pub fn raise_values(slots: &mut Vec<Slot>, values: &[Value])
    requires within { All (λ v. place_of v < length slots.old.items) values.now }
    requires room { (y : ℕ) → count_at slots.old.items y + in_values y values.now < 2 ^ 128 }
    ensures { IsRaised slots.old.items slots.new.items (λ y. in_values y values.now) }
{
    for v in values {
        raise(slots, place_of(v) as usize);
    }
}

pub fn lower_values(slots: &mut Vec<Slot>, values: &[Value])
    requires within { All (λ v. place_of v < length slots.old.items) values.now }
    requires held { (y : ℕ) → lives slots.old.items y ≡ true → in_values y values.now ≤ count_at slots.old.items y }
    ensures { IsLowered slots.old.items slots.new.items (λ y. in_values y values.now) }
{
    for v in values {
        lower(slots, place_of(v) as usize);
    }
}

pub fn raise_entries(slots: &mut Vec<Slot>, entries: &Entries)
    requires within { All (λ e. (key_place e.0 < length slots.old.items) × (place_of e.1 < length slots.old.items)) entries.now }
    requires room { (y : ℕ) → count_at slots.old.items y + in_entries y entries.now < 2 ^ 128 }
    ensures { IsRaised slots.old.items slots.new.items (λ y. in_entries y entries.now) }
{
    for i in 0..entries.len() {
        let (key, value) = entries.entry_at(i);
        raise(slots, key_place(key) as usize);
        raise(slots, place_of(value) as usize);
    }
}

pub fn lower_entries(slots: &mut Vec<Slot>, entries: &Entries)
    requires within { All (λ e. (key_place e.0 < length slots.old.items) × (place_of e.1 < length slots.old.items)) entries.now }
    requires held { (y : ℕ) → lives slots.old.items y ≡ true → in_entries y entries.now ≤ count_at slots.old.items y }
    ensures { IsLowered slots.old.items slots.new.items (λ y. in_entries y entries.now) }
{
    for i in 0..entries.len() {
        let (key, value) = entries.entry_at(i);
        lower(slots, key_place(key) as usize);
        lower(slots, place_of(value) as usize);
    }
}

/// The places of a cell hold what they hold.
pub fn raise_cell(slots: &mut Vec<Slot>, cell: &Cell)
    requires within { IsCellWithin (length slots.old.items) cell.now }
    requires room { (y : ℕ) → count_at slots.old.items y + in_cell y cell.now < 2 ^ 128 }
    ensures { IsRaised slots.old.items slots.new.items (λ y. in_cell y cell.now) }
{
    match cell {
        Cell::Array(values, _) => raise_values(slots, values.as_slice()),
        Cell::Dict(entries) => raise_entries(slots, entries),
        Cell::Object(o) => raise_values(slots, o.fields.as_slice()),
    }
}

/// The places of a cell are no more.
pub fn lower_cell(slots: &mut Vec<Slot>, cell: &Cell)
    requires within { IsCellWithin (length slots.old.items) cell.now }
    requires held { (y : ℕ) → lives slots.old.items y ≡ true → in_cell y cell.now ≤ count_at slots.old.items y }
    ensures { IsLowered slots.old.items slots.new.items (λ y. in_cell y cell.now) }
{
    match cell {
        Cell::Array(values, _) => lower_values(slots, values.as_slice()),
        Cell::Dict(entries) => lower_entries(slots, entries),
        Cell::Object(o) => lower_values(slots, o.fields.as_slice()),
    }
}
