//! The lock, and what a thread enters it with.
ghost use Rattle.std.specs.Prelude.{◌≡◌};

use crate::told::Told;
use crate::view::{LockSeat, LockTable};

mod ends;
mod entry;
mod passes;
mod turn;

pub use turn::Turn;

/// A lock round a value. Whoever enters has the value to itself.
#[derive(Drop)]
pub struct TurnLock<T: Told> {
    table: LockTable<T>,
    ghost sized: { (table.shared.table_id.words ≡ 2) × (table.shared.table_id.slots ≡ 1) },
}

/// What a thread enters a lock with. It has no bytes.
#[derive(Drop)]
pub struct Pass<T: Told> {
    seat: LockSeat<T>,
}

/// Another pass holds the turn.
#[derive(Clone, Copy, Debug, Drop, PartialEq, Eq)]
pub struct Held;

/// A pass still holds the turn, and the value with it.
#[derive(Clone, Copy, Debug, Drop, PartialEq, Eq)]
pub struct TurnOut;
