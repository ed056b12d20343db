ghost use Rattle.std.specs.Prelude.{◌≡◌, ◌<◌, ◌+◌, ◌↔◌, Err, IfOk, OnErr, IfErr, ◌⊎◌};
ghost use Rattle.variant_values.specs.Heaps.{KnowsCell};
ghost use Rattle.variant_values.specs.Places.{cell_weight, weight};
ghost use Rattle.ref_objects.specs.Slots.{cells_of, IsKept, IsGrown};

use crate::counts::raise_cell;
use crate::slots::{Slot, add_slot, put_cell};
use variant_values::cells::Cell;
use variant_values::faults::{RunFault, Trouble};
use variant_values::weights::cell_room;

/// What all cells may weigh.
pub const LIMIT: u64 = 67_108_864;

/// The greatest serial that may be given.
pub const MOST_SERIALS: u64 = 18_446_744_073_709_551_615;

/// Gives a cell the next serial, and answers the weight then.
pub fn add_cell(slots: &mut Vec<Slot>, cell: Cell, total: u64) -> Result<u64, Trouble>
    requires kept { IsKept slots.old.items total }
    requires known { KnowsCell (cells_of slots.old.items) cell }
    ensures full { (result ≡ Err (Trouble.Fault RunFault.HeapFull)) ↔ (67108864 < weight (cells_of slots.old.items) + cell_weight cell) }
    ensures ok { IfOk result (λ after. IsGrown slots.old.items slots.new.items after cell) }
    ensures err { OnErr result (slots.new.items ≡ slots.old.items) }
    ensures only { IfErr result (λ e. (e ≡ Trouble.Fault RunFault.HeapFull) ⊎ (e ≡ Trouble.NoMemory)) }
{
    let Some(room) = cell_room(&cell, LIMIT - total) else {
        return Err(Trouble::Fault(RunFault::HeapFull));
    };
    let x = slots.len();
    add_slot(slots)?;
    raise_cell(slots, &cell);
    put_cell(slots, x, cell);
    Ok(LIMIT - room)
}
