//! The value, while a pass holds the turn.
ghost use Rattle.std.specs.Prelude.{◌≡◌, [], Some};
ghost use Rattle.std.specs.Borrow.{sem, Lends};
ghost use mathlib.Core.List.{IsPrefix};
ghost use Rattle.turn_lock.specs.Passes.{IsPassOf, HasTurn, KeepsTurns, seen_by, left_by, lost_by, splits_of};
ghost use Rattle.turn_lock.specs.contracts.lock.turn.Turn.{the_row as turn_row};
ghost use Rattle.turn_lock.specs.Lending.{with_value};
ghost use mir.Syntax.{named};

use super::{Pass, TurnLock};
use crate::told::Told;
use crate::view::{Raise, Release};
use std::snapshot::Snapshot;

/// The value, while a pass holds the turn. It must be spent by `leave`.
pub struct Turn<'a, T: Told> {
    pub(super) pass: &'a mut Pass<T>,
    pub(super) lock: &'a TurnLock<T>,
    // What the value was at entry, for contracts alone.
    pub(super) at_entry: Snapshot<T>,
    pub(super) value: T,
}

impl<'a, T: Told> Turn<'a, T> {
    pub(super) fn new(pass: &'a mut Pass<T>, lock: &'a TurnLock<T>, value: T) -> Turn<'a, T>
        ensures same_reference { result.pass.ghost_name ≡ pass.entry.ghost_name }
        ensures lock { result.lock.now ≡ lock.now }
        ensures pass { result.pass.now ≡ pass.old }
        ensures value { (result.value ≡ value) × (result.at_entry.value ≡ value) }
    {
        let at_entry = Snapshot::of(&value);
        Turn {
            pass,
            lock,
            at_entry,
            value,
        }
    }

    /// The value, to be read and changed.
    pub fn value(&mut self) -> &mut T
        ensures* writes_back { sem 𝓛 (Lends
            (turn_row (record { mir = named 1; lft = [] })
            T.row T.Project.row T.Entry.row T.State.row T.Told)
            T.row self.entry result (with_value self.old)) }
        ensures value { result.now ≡ self.old.value }
    {
        &mut self.value
    }

    /// Ends the turn. The log may only have grown.
    pub fn leave(self)
        requires turn { HasTurn T.project T.log self.lock.now self.pass.now self.at_entry.value }
        requires project { T.project self.value ≡ T.project self.at_entry.value }
        requires log { IsPrefix (T.log self.at_entry.value) (T.log self.value) }
        ensures pass { IsPassOf T.project self.entry.lock.now self.exit.0.now }
        ensures seen { seen_by self.exit.0.now ≡ T.log self.entry.value }
        ensures left { left_by self.exit.0.now ≡ Some (T.state self.entry.value) }
        ensures turns { KeepsTurns self.entry.pass.now self.exit.0.now }
        ensures splits { splits_of self.exit.0.now ≡ splits_of self.entry.pass.now }
        ensures lost { lost_by self.exit.0.now ≡ lost_by self.entry.pass.now }
    {
        let Turn {
            pass,
            lock,
            at_entry: _,
            value,
        } = self;
        let shared = &lock.table.shared;
        let length = value.log_len();
        let empty = shared.exchange(&mut pass.seat, 0, Some(value));
        let None = empty else { unreachable!() };
        shared.store::<Raise<T>>(&mut pass.seat, 1, length);
        shared.store::<Release<T>>(&mut pass.seat, 0, 0);
        shared.wake_one(0);
    }
}
