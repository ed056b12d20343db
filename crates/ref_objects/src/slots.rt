ghost use Rattle.std.specs.Prelude.{◌≡◌, ◌<◌, length, None, Some, slice_set, ◌++◌, ◌∷◌, [], OnOk, OnErr, IfErr};
ghost use Rattle.variant_values.specs.Heaps.{cell_at};
ghost use Rattle.ref_objects.specs.Slots.{cells_of, gone, lives, slot_at};

use variant_values::cells::Cell;
use variant_values::faults::Trouble;

/// A cell, where it lives, and how many places hold it.
#[derive(Drop)]
pub struct Slot {
    pub(crate) cell: Option<Cell>,
    pub(crate) count: u128,
}

/// Whether there is a cell.
pub fn lives(slots: &[Slot], x: u64) -> bool
    ensures { result ≡ lives slots.now x }
{
    (x as usize) < slots.len() && slots[x as usize].cell.is_some()
}

/// One slot more, with no cell.
pub fn add_slot(slots: &mut Vec<Slot>) -> Result<(), Trouble>
    ensures ok { OnOk result (slots.new.items ≡ slots.old.items ++ gone ∷ []) }
    ensures err { OnErr result (slots.new.items ≡ slots.old.items) }
    ensures memory { IfErr result (λ e. e ≡ Trouble.NoMemory) }
{
    let pushed = slots.push(Slot {
        cell: None,
        count: 0,
    });
    match pushed {
        Ok(()) => Ok(()),
        Err(_) => Err(Trouble::NoMemory),
    }
}

/// Takes the cell out of its slot.
pub fn take_cell(slots: &mut Vec<Slot>, x: usize) -> Option<Cell>
    requires { x < length slots.old.items }
    ensures cell { result ≡ cell_at (cells_of slots.old.items) x }
    ensures slots { slots.new.items ≡ slice_set slots.old.items x (record (slot_at slots.old.items x) { cell = None }) }
{
    slots[x].cell.take()
}

/// Puts a cell into its slot.
pub fn put_cell(slots: &mut Vec<Slot>, x: usize, cell: Cell)
    requires { x < length slots.old.items }
    ensures { slots.new.items ≡ slice_set slots.old.items x (record (slot_at slots.old.items x) { cell = Some cell }) }
{
    let slot = &mut slots[x];
    slot.cell = Some(cell);
}
