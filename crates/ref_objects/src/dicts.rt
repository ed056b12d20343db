ghost use Rattle.std.specs.Prelude.{◌≡◌, ◌<◌, ◌^◌, ◌+◌, ◌≤◌, ◌↔◌, ℕ, length, true, Some, is_some, Err, IfOk, IfErr, OnOk, OnErr, IfSome, IfNone, slice_set, ◌⊎◌};
ghost use Rattle.std.specs.Map.{lookup};
ghost use Rattle.variant_values.specs.Keys.{same_key, with_entry, without_entry};
ghost use Rattle.variant_values.specs.Places.{place_of, key_place, weight};
ghost use Rattle.variant_values.specs.Heaps.{cell_at, is_dict, entries_of, entries_put, knows, knows_key};
ghost use Rattle.ref_objects.specs.Slots.{cells_of, count_at, lives, IsKept, IsPut, IsNow, IsRecounted, value_less, key_more, value_at};

use crate::allocate::LIMIT;
use crate::counts::{key_place, lower, place_of, raise};
use crate::slots::{Slot, put_cell, take_cell};
use variant_values::cells::Cell;
use variant_values::entries::Entries;
use variant_values::faults::{RunFault, Trouble};
use variant_values::values::{Key, Value};
use variant_values::weights::{entry_weight, text_weight};

/// The entries of a dictionary.
fn entries_at(slots: &[Slot], x: usize) -> &Entries
    requires within { x < length slots.now }
    requires dict { is_dict (cell_at (cells_of slots.now) x) ≡ true }
    ensures { result.now ≡ entries_of (cell_at (cells_of slots.now) x) }
{
    match &slots[x].cell {
        Some(Cell::Dict(entries)) => entries,
        _ => unreachable!(),
    }
}

/// What all cells weigh once the dictionary has that entry.
fn weight_with(slots: &[Slot], x: usize, key: &Key, to: &Value, total: u64) -> u128
    requires kept { IsKept slots.now total }
    requires within { x < length slots.now }
    requires dict { is_dict (cell_at (cells_of slots.now) x) ≡ true }
    ensures { result ≡ weight (slice_set (cells_of slots.now) x (entries_put (with_entry (entries_of (cell_at (cells_of slots.now) x)) key.now to.now) (cell_at (cells_of slots.now) x))) }
{
    match entries_at(slots, x).get(key) {
        Some(before) => total as u128 - text_weight(before) as u128 + text_weight(to) as u128,
        None => total as u128 + entry_weight(key, to),
    }
}

/// Puts an entry into a dictionary, and hands out the value before.
fn put_entry(slots: &mut Vec<Slot>, x: usize, key: Key, to: Value) -> Result<Option<Value>, Trouble>
    requires within { x < length slots.old.items }
    requires dict { is_dict (cell_at (cells_of slots.old.items) x) ≡ true }
    ensures before { IfOk result (λ before. before ≡ lookup (same_key key) (entries_of (cell_at (cells_of slots.old.items) x))) }
    ensures ok { OnOk result (IsPut slots.old.items slots.new.items x (entries_put (with_entry (entries_of (cell_at (cells_of slots.old.items) x)) key to) (cell_at (cells_of slots.old.items) x))) }
    ensures err { OnErr result (slots.new.items ≡ slots.old.items) }
    ensures memory { IfErr result (λ e. e ≡ Trouble.NoMemory) }
{
    match take_cell(slots, x) {
        Some(Cell::Dict(mut entries)) => match entries.insert(key, to) {
            Ok(before) => {
                put_cell(slots, x, Cell::Dict(entries));
                Ok(before)
            }
            Err(_) => {
                put_cell(slots, x, Cell::Dict(entries));
                Err(Trouble::NoMemory)
            }
        },
        _ => unreachable!(),
    }
}

/// Counts the places of an entry that was put in, where a dictionary had that value before.
fn recount(slots: &mut Vec<Slot>, key: usize, value: usize, before: Option<Value>)
    requires key { key < length slots.old.items }
    requires value { value < length slots.old.items }
    requires room { (y : ℕ) → count_at slots.old.items y + 2 < 2 ^ 128 }
    requires before { IfSome before (λ v. (place_of v < length slots.old.items) × (lives slots.old.items (place_of v) ≡ true → 1 ≤ count_at slots.old.items (place_of v))) }
    ensures { IsRecounted slots.old.items slots.new.items (key_more key before) (value_at value) (value_less before) }
{
    raise(slots, value);
    match before {
        Some(old) => lower(slots, place_of(&old) as usize),
        None => raise(slots, key),
    }
}

/// Puts an entry into a dictionary, and answers the weight then.
pub fn store_entry(
    slots: &mut Vec<Slot>,
    x: usize,
    key: Key,
    to: Value,
    total: u64,
) -> Result<u64, Trouble>
    requires kept { IsKept slots.old.items total }
    requires within { x < length slots.old.items }
    requires dict { is_dict (cell_at (cells_of slots.old.items) x) ≡ true }
    requires key { knows_key (cells_of slots.old.items) key ≡ true }
    requires to { knows (cells_of slots.old.items) to ≡ true }
    ensures full { (result ≡ Err (Trouble.Fault RunFault.HeapFull)) ↔ (67108864 < weight (slice_set (cells_of slots.old.items) x (entries_put (with_entry (entries_of (cell_at (cells_of slots.old.items) x)) key to) (cell_at (cells_of slots.old.items) x)))) }
    ensures ok { IfOk result (λ after. IsNow slots.old.items slots.new.items after (slice_set (cells_of slots.old.items) x (entries_put (with_entry (entries_of (cell_at (cells_of slots.old.items) x)) key to) (cell_at (cells_of slots.old.items) x)))) }
    ensures err { OnErr result (slots.new.items ≡ slots.old.items) }
    ensures only { IfErr result (λ e. (e ≡ Trouble.Fault RunFault.HeapFull) ⊎ (e ≡ Trouble.NoMemory)) }
{
    let after = weight_with(slots.as_slice(), x, &key, &to, total);
    if after > LIMIT as u128 {
        return Err(Trouble::Fault(RunFault::HeapFull));
    }
    let key_at = key_place(&key) as usize;
    let value_at = place_of(&to) as usize;
    let before = put_entry(slots, x, key, to)?;
    recount(slots, key_at, value_at, before);
    Ok(after as u64)
}

/// Takes a key out of a dictionary, and hands out its value.
fn take_entry(slots: &mut Vec<Slot>, x: usize, key: &Key) -> Option<Value>
    requires within { x < length slots.old.items }
    requires dict { is_dict (cell_at (cells_of slots.old.items) x) ≡ true }
    ensures before { result ≡ lookup (same_key key.now) (entries_of (cell_at (cells_of slots.old.items) x)) }
    ensures put { IsPut slots.old.items slots.new.items x (entries_put (without_entry (entries_of (cell_at (cells_of slots.old.items) x)) key.now) (cell_at (cells_of slots.old.items) x)) }
{
    match take_cell(slots, x) {
        Some(Cell::Dict(mut entries)) => {
            let before = entries.remove(key);
            put_cell(slots, x, Cell::Dict(entries));
            before
        }
        _ => unreachable!(),
    }
}

/// Takes a key out of a dictionary, and answers the weight then, where it was there.
pub fn drop_entry(slots: &mut Vec<Slot>, x: usize, key: &Key, total: u64) -> Option<u64>
    requires kept { IsKept slots.old.items total }
    requires within { x < length slots.old.items }
    requires dict { is_dict (cell_at (cells_of slots.old.items) x) ≡ true }
    requires key { knows_key (cells_of slots.old.items) key.now ≡ true }
    ensures found { is_some result ≡ is_some (lookup (same_key key.now) (entries_of (cell_at (cells_of slots.old.items) x))) }
    ensures some { IfSome result (λ after. IsNow slots.old.items slots.new.items after (slice_set (cells_of slots.old.items) x (entries_put (without_entry (entries_of (cell_at (cells_of slots.old.items) x)) key.now) (cell_at (cells_of slots.old.items) x)))) }
    ensures none { IfNone result (IsNow slots.old.items slots.new.items total (slice_set (cells_of slots.old.items) x (entries_put (without_entry (entries_of (cell_at (cells_of slots.old.items) x)) key.now) (cell_at (cells_of slots.old.items) x)))) }
{
    match take_entry(slots, x, key) {
        Some(before) => {
            lower(slots, key_place(key) as usize);
            lower(slots, place_of(&before) as usize);
            Some(total - entry_weight(key, &before) as u64)
        }
        None => None,
    }
}
