ghost use Rattle.std.specs.Prelude.{◌≡◌, ◌+◌, ◌<◌, ◌≤◌, List, ℕ, length, true, false, None, slice_set};
ghost use Rattle.ref_objects.specs.declared.slots.Slot.{Slot};
ghost use Rattle.ref_objects.specs.Slots.{is_zero, IsTaken, IsEmptying, IsPassing, slot_at, cells_of, held_of, IsKept};

use crate::counts::lower_cell;
use crate::slots::{Slot, take_cell};
use variant_values::weights::{cell_weight, is_counted};

/// Whether a living counted cell is held by nothing.
pub fn is_zero(slot: &Slot) -> bool
    ensures { result ≡ is_zero slot.now }
{
    match &slot.cell {
        None => false,
        Some(cell) => is_counted(cell) && slot.count == 0,
    }
}

/// Takes a cell away that nothing holds, and answers what is left of the weight.
pub fn take_away(slots: &mut Vec<Slot>, x: usize, total: u64) -> u64
    requires kept { IsKept slots.old.items total }
    requires zero { is_zero (slot_at slots.old.items x) ≡ true }
    ensures kept { IsKept slots.new.items result }
    ensures cells { cells_of slots.new.items ≡ slice_set (cells_of slots.old.items) x None }
    ensures held { held_of slots.new.items ≡ held_of slots.old.items }
    ensures less { result < total }
{
    match take_cell(slots, x) {
        None => total,
        Some(cell) => {
            lower_cell(slots, &cell);
            total - cell_weight(&cell)
        }
    }
}

/// Takes the cell away where nothing holds it, and answers what is left of the weight.
pub fn take_if_zero(slots: &mut Vec<Slot>, x: usize, total: u64) -> u64
    requires kept { IsKept slots.old.items total }
    requires within { x < length slots.old.items }
    ensures { (first : List Slot) (most : ℕ) → IsPassing first slots.old.items most total x → IsPassing first slots.new.items most result (x + 1) }
{
    if is_zero(&slots[x]) {
        take_away(slots, x, total)
    } else {
        total
    }
}

/// Takes away each cell in turn that nothing holds then, and answers what is left of the weight.
pub fn take_pass(slots: &mut Vec<Slot>, total: u64) -> u64
    requires { IsKept slots.old.items total }
    ensures taken { (first : List Slot) → IsEmptying first slots.old.items total → IsEmptying first slots.new.items result }
    ensures kept { IsKept slots.new.items result }
    ensures less { result ≤ total }
    ensures none { result ≡ total → (x : ℕ) → is_zero (slot_at slots.new.items x) ≡ false }
{
    let mut left = total;
    for x in 0..slots.len() {
        left = take_if_zero(slots, x, left);
    }
    left
}

/// Takes away what nothing holds, until there is none, and answers what is left of the weight.
pub fn take_zeros(slots: &mut Vec<Slot>, total: u64) -> u64
    requires { IsKept slots.old.items total }
    ensures kept { IsKept slots.new.items result }
    ensures held { held_of slots.new.items ≡ held_of slots.old.items }
    ensures taken { IsTaken slots.old.items slots.new.items }
    ensures less { result ≤ total }
{
    let mut before = total;
    let mut left = take_pass(slots, total);
    while left < before {
        before = left;
        left = take_pass(slots, left);
    }
    left
}
