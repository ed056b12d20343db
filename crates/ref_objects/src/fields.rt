ghost use Rattle.std.specs.Prelude.{◌≡◌, ◌<◌, length, Some, None, is_some, true, false, option_copied, ◌≤◌, ◌↔◌, Err, IfOk, OnErr, slice_set, IfErr, ◌⊎◌};
ghost use Rattle.variant_values.specs.Heaps.{knows, cell_at, field_in, field_put};
ghost use Rattle.std.specs.Option.{option_map};
ghost use Rattle.variant_values.specs.Places.{item_weight, weight};
ghost use Rattle.ref_objects.specs.Slots.{cells_of, lives, IsKept, IsPut, IsNow};

use crate::allocate::LIMIT;
use crate::counts::{lower, place_of, raise};
use crate::slots::{Slot, put_cell, take_cell};
use variant_values::cells::Cell;
use variant_values::faults::{RunFault, Trouble};
use variant_values::values::Value;
use variant_values::weights::item_weight;

/// The field of an object, where it lives.
pub fn field_at(slots: &[Slot], x: usize, index: usize) -> Option<&Value>
    requires { x < length slots.now }
    ensures { option_copied result ≡ field_in (cell_at (cells_of slots.now) x) index }
{
    match &slots[x].cell {
        Some(Cell::Object(o)) => o.fields.as_slice().get(index),
        _ => None,
    }
}

/// The weight of a field of an object, where it lives.
pub fn field_weight(slots: &[Slot], x: usize, index: usize) -> Option<u64>
    requires within { x < length slots.now }
    requires light { weight (cells_of slots.now) ≤ 67108864 }
    ensures { result ≡ option_map item_weight (field_in (cell_at (cells_of slots.now) x) index) }
{
    match field_at(slots, x, index) {
        Some(v) => Some(item_weight(v)),
        None => None,
    }
}

/// Puts a value into a field, and hands out the one before.
pub fn swap_field(slots: &mut Vec<Slot>, x: usize, index: usize, to: Value) -> Value
    requires within { x < length slots.old.items }
    requires field { is_some (field_in (cell_at (cells_of slots.old.items) x) index) ≡ true }
    ensures before { field_in (cell_at (cells_of slots.old.items) x) index ≡ Some result }
    ensures put { IsPut slots.old.items slots.new.items x (field_put index to (cell_at (cells_of slots.old.items) x)) }
{
    match take_cell(slots, x) {
        Some(Cell::Object(mut o)) => {
            let before = o.fields.replace(index, to);
            put_cell(slots, x, Cell::Object(o));
            before
        }
        _ => unreachable!(),
    }
}

/// Puts a value into a field of an object that lives, and answers the weight then.
pub fn store_field(
    slots: &mut Vec<Slot>,
    x: usize,
    index: usize,
    to: Value,
    total: u64,
) -> Result<u64, Trouble>
    requires kept { IsKept slots.old.items total }
    requires within { x < length slots.old.items }
    requires field { lives slots.old.items x ≡ true → is_some (field_in (cell_at (cells_of slots.old.items) x) index) ≡ true }
    requires to { knows (cells_of slots.old.items) to ≡ true }
    ensures gone { (result ≡ Err (Trouble.Fault RunFault.FreedAccess)) ↔ (lives slots.old.items x ≡ false) }
    ensures full { (result ≡ Err (Trouble.Fault RunFault.HeapFull)) ↔ ((lives slots.old.items x ≡ true) × (67108864 < weight (slice_set (cells_of slots.old.items) x (field_put index to (cell_at (cells_of slots.old.items) x))))) }
    ensures ok { IfOk result (λ after. IsNow slots.old.items slots.new.items after (slice_set (cells_of slots.old.items) x (field_put index to (cell_at (cells_of slots.old.items) x)))) }
    ensures err { OnErr result (slots.new.items ≡ slots.old.items) }
    ensures only { IfErr result (λ e. (e ≡ Trouble.Fault RunFault.FreedAccess) ⊎ (e ≡ Trouble.Fault RunFault.HeapFull)) }
{
    let Some(light) = field_weight(slots.as_slice(), x, index) else {
        return Err(Trouble::Fault(RunFault::FreedAccess));
    };
    let after = total - light + item_weight(&to);
    if after > LIMIT {
        return Err(Trouble::Fault(RunFault::HeapFull));
    }
    raise(slots, place_of(&to) as usize);
    let before = swap_field(slots, x, index, to);
    lower(slots, place_of(&before) as usize);
    Ok(after)
}
