//! How a lock begins and ends.
ghost use Rattle.std.specs.Prelude.{◌≡◌, IfOk, Some};
ghost use mathlib.Core.List.{IsPrefix};
ghost use Rattle.turn_lock.specs.Passes.{IsClosed, IsPassOf, HasNoTurns, project_of, first_log, seen_by, left_by, splits_of};

use super::{Pass, TurnLock, TurnOut};
use crate::told::Told;
use atomic_table::Table;
use std::alloc::{AllocError, Global};
use std::snapshot::Snapshot;

impl<T: Told> TurnLock<T> {
    /// A lock round the value, and the first pass of it. Without memory the value is dropped.
    pub fn new(alloc: Global, value: T) -> Result<(TurnLock<T>, Pass<T>), AllocError>
    where
        T: Drop,
        ensures pass { IfOk result (λ r. IsPassOf T.project r.0 r.1) }
        ensures project { IfOk result (λ r. project_of T.project r.0 ≡ T.project value) }
        ensures first { IfOk result (λ r. first_log T.log r.0 ≡ T.log value) }
        ensures seen { IfOk result (λ r. seen_by r.1 ≡ T.log value) }
        ensures left { IfOk result (λ r. left_by r.1 ≡ Some (T.state value)) }
        ensures turns { IfOk result (λ r. HasNoTurns r.1) }
        ensures splits { IfOk result (λ r. splits_of r.1 ≡ 0) }
    {
        let length = value.log_len();
        let about = Snapshot::of(&value);
        let mut slots = Vec::new(alloc);
        slots.push(Some(value)).map_err(|_| AllocError)?;
        let (table, seat) = Table::new(alloc, &[0, length], slots, &about).map_err(|_| AllocError)?;
        Ok((TurnLock { table }, Pass { seat }))
    }

    /// Gives the value back. Its log begins with the one that the lock began with. A turn that was leaked keeps the value.
    pub fn close(self) -> Result<T, TurnOut>
    where
        T: Drop,
        ensures closed { IsClosed T.project T.log self result }
        ensures project { IfOk result (λ x. T.project x ≡ project_of T.project self) }
        ensures began { IfOk result (λ x. IsPrefix (first_log T.log self) (T.log x)) }
    {
        let TurnLock { table } = self;
        let mut closed = table.close();
        let turn = closed.word(0);
        let slot = closed.take(0);
        closed.free();
        if turn == 0 {
            Ok(slot.unwrap())
        } else {
            Err(TurnOut)
        }
    }
}
