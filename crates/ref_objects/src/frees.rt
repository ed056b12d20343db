ghost use Rattle.std.specs.Prelude.{◌≡◌, ◌+◌, ◌<◌, ◌≤◌, List, ℕ, length, true, false, slice_set};
ghost use Rattle.ref_objects.specs.declared.slots.Slot.{Slot};
ghost use Rattle.variant_values.specs.Heaps.{cell_at, is_object};
ghost use Rattle.variant_values.specs.Trees.{IsRooted, without_child};
ghost use Rattle.ref_objects.specs.Slots.{gone, cells_of, IsKept, IsNow, IsLost, IsFreeing, IsFreePass, IsPruned, is_orphan};

use crate::counts::lower_cell;
use crate::links::cut_all;
use crate::objects::{drop_child, parent_at};
use crate::slots::{Slot, lives};
use variant_values::cells::Cell;
use variant_values::weights::cell_weight;

/// Takes the cell out of its slot, and what counts for it.
fn clear_slot(slots: &mut Vec<Slot>, x: usize) -> Option<Cell>
    requires { x < length slots.old.items }
    ensures cell { result ≡ cell_at (cells_of slots.old.items) x }
    ensures slots { slots.new.items ≡ slice_set slots.old.items x gone }
{
    let slot = &mut slots[x];
    slot.count = 0;
    slot.cell.take()
}

/// Takes an object away, whatever holds it, and answers what is left of the weight.
fn take_object(slots: &mut Vec<Slot>, x: usize, total: u64) -> u64
    requires kept { IsKept slots.old.items total }
    requires within { x < length slots.old.items }
    requires object { is_object (cell_at (cells_of slots.old.items) x) ≡ true }
    ensures lost { IsLost slots.old.items slots.new.items x }
    ensures kept { IsKept slots.new.items result }
    ensures less { result < total }
{
    match clear_slot(slots, x) {
        None => total,
        Some(cell) => {
            lower_cell(slots, &cell);
            total - cell_weight(&cell)
        }
    }
}

/// Whether a cell is a node whose parent has gone.
fn is_orphan(slots: &[Slot], x: usize) -> bool
    requires { x < length slots.now }
    ensures { result ≡ is_orphan (cells_of slots.now) x }
{
    match parent_at(slots, x) {
        Some(parent) => !lives(slots, parent.0),
        None => false,
    }
}

/// Takes a node away where its parent has gone, and answers what is left of the weight.
fn take_if_orphan(slots: &mut Vec<Slot>, x: usize, total: u64) -> u64
    requires kept { IsKept slots.old.items total }
    requires within { x < length slots.old.items }
    ensures { (first : List Slot) (most : ℕ) → IsFreePass first slots.old.items most total x → IsFreePass first slots.new.items most result (x + 1) }
{
    if is_orphan(slots.as_slice(), x) {
        take_object(slots, x, total)
    } else {
        total
    }
}

/// Takes away each node in turn whose parent has gone then, and answers what is left of the weight.
fn orphan_pass(slots: &mut Vec<Slot>, total: u64) -> u64
    requires { IsKept slots.old.items total }
    ensures freed { (first : List Slot) (top : ℕ) → IsFreeing first slots.old.items total top → IsFreeing first slots.new.items result top }
    ensures kept { IsKept slots.new.items result }
    ensures less { result ≤ total }
    ensures none { result ≡ total → (x : ℕ) → is_orphan (cells_of slots.new.items) x ≡ false }
{
    let mut left = total;
    for x in 0..slots.len() {
        left = take_if_orphan(slots, x, left);
    }
    left
}

/// Takes away what is below an object that has gone, and answers what is left of the weight.
fn take_orphans(slots: &mut Vec<Slot>, total: u64) -> u64
    requires { IsKept slots.old.items total }
    ensures freed { (first : List Slot) (top : ℕ) → IsFreeing first slots.old.items total top → IsFreeing first slots.new.items result top }
    ensures kept { IsKept slots.new.items result }
    ensures none { (x : ℕ) → is_orphan (cells_of slots.new.items) x ≡ false }
{
    let mut before = total;
    let mut left = orphan_pass(slots, total);
    while left < before {
        before = left;
        left = orphan_pass(slots, left);
    }
    left
}

/// A node is no child of its parent any more.
fn detach(slots: &mut Vec<Slot>, x: usize, total: u64)
    requires kept { IsKept slots.old.items total }
    requires rooted { IsRooted (cells_of slots.old.items) }
    requires within { x < length slots.old.items }
    ensures { IsNow slots.old.items slots.new.items total (without_child (cells_of slots.old.items) x) }
{
    match parent_at(slots.as_slice(), x) {
        Some(parent) => drop_child(slots, parent.0 as usize, x as u64),
        None => (),
    }
}

/// Takes an object and its subtree away, and answers what is left of the weight.
pub fn free_tree(slots: &mut Vec<Slot>, x: usize, total: u64) -> u64
    requires kept { IsKept slots.old.items total }
    requires rooted { IsRooted (cells_of slots.old.items) }
    requires within { x < length slots.old.items }
    requires object { is_object (cell_at (cells_of slots.old.items) x) ≡ true }
    ensures kept { IsKept slots.new.items result }
    ensures pruned { IsPruned slots.old.items slots.new.items x }
{
    detach(slots, x, total);
    let left = take_object(slots, x, total);
    let left = take_orphans(slots, left);
    cut_all(slots, left);
    left
}
