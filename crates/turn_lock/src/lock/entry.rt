//! How a pass takes the turn.
ghost use Rattle.std.specs.Prelude.{◌≡◌, IfOk, OnErr, MatchBool};
ghost use Rattle.std.specs.Borrow.{sem, RestsIfErr};
ghost use mathlib.Core.List.{IsPrefix};
ghost use Rattle.turn_lock.specs.Rule.{Wins, Loses};
ghost use Rattle.turn_lock.specs.Passes.{IsPassOf, LosesTake, KeepsHistory, HasFound, HasEntered, HasTurn, seen_by, lost_by};
ghost use Rattle.turn_lock.specs.declared.view.Hold.TheVariants.{Free};
ghost use Rattle.turn_lock.specs.contracts.lock.Pass.{the_row};

use super::{Held, Pass, Turn, TurnLock};
use crate::told::Told;
use crate::view::{LockSeat, LockShared, Take};
use std::sync::Wait;

// Whether the take is won.
fn take<T: Told>(shared: &LockShared<T>, seat: &mut LockSeat<T>) -> bool
    requires table { (seat.old.table_id ≡ shared.now.table_id)
        × (shared.now.table_id.words ≡ 2) × (shared.now.table_id.slots ≡ 1) }
    requires free { seat.old.me.0.hold ≡ Free }
    ensures same { (seat.new.table_id ≡ seat.old.table_id) × (seat.new.id ≡ seat.old.id) }
    ensures turn { MatchBool result
        (Wins T.project T.log T.state seat.old.me seat.new.me) (Loses seat.old.me seat.new.me) }
{
    shared.compare_exchange::<Take<T>>(seat, 0, 0, 1) == 0
}

impl<T: Told> TurnLock<T> {
    fn take_value(&self, pass: &mut Pass<T>) -> Result<T, Held>
        requires { IsPassOf T.project self.now pass.old }
        ensures ok { IfOk result (λ x. HasTurn T.project T.log self.now pass.new x
            × IsPrefix (seen_by pass.old) (T.log x)
            × KeepsHistory pass.old pass.new × (lost_by pass.new ≡ lost_by pass.old)
            × HasFound T.log T.state pass.old pass.new x) }
        ensures held { OnErr result (LosesTake T.project self.now pass.old pass.new) }
    {
        let shared = &self.table.shared;
        if !take(shared, &mut pass.seat) {
            return Err(Held);
        }
        Ok(shared.exchange(&mut pass.seat, 0, None).unwrap())
    }

    fn wait_value<R: Wait>(&self, rt: &R, pass: &mut Pass<T>) -> T
        requires { IsPassOf T.project self.now pass.old }
        ensures { HasTurn T.project T.log self.now pass.new result
            × IsPrefix (seen_by pass.old) (T.log result) × KeepsHistory pass.old pass.new
            × HasFound T.log T.state pass.old pass.new result }
    {
        for _ in rt.forever() {
            if let Ok(value) = self.take_value(pass) {
                return value;
            }
            self.table.shared.park(rt, 0, 1);
        }
        unreachable!()
    }

    /// Enters the lock by one take, which is lost where another pass holds the turn.
    /// Rattle's own proof of a caller reads `held` only of a first parameter, so such a caller takes `Pass::try_enter`.
    pub fn try_enter<'a>(&'a self, pass: &'a mut Pass<T>) -> Result<Turn<'a, T>, Held>
        requires { IsPassOf T.project self.now pass.old }
        ensures* held { sem 𝓛 (RestsIfErr
            (the_row T.row T.Project.row T.Entry.row T.State.row) pass.entry
            (λ t. t.pass.ghost_name) result (LosesTake T.project self.now pass.old)) }
        ensures same_reference { IfOk result (λ t. t.pass.ghost_name ≡ pass.entry.ghost_name) }
        ensures entered { IfOk result (λ t. HasEntered T.project T.log T.state self.now pass.old t) }
        ensures unlost { IfOk result (λ t. lost_by t.pass.now ≡ lost_by pass.old) }
    {
        pass.try_enter(self)
    }

    /// Waits for the turn.
    pub fn enter<'a, R: Wait>(&'a self, rt: &R, pass: &'a mut Pass<T>) -> Turn<'a, T>
        requires { IsPassOf T.project self.now pass.old }
        ensures same_reference { result.pass.ghost_name ≡ pass.entry.ghost_name }
        ensures entered { HasEntered T.project T.log T.state self.now pass.old result }
    {
        let value = self.wait_value(rt, pass);
        Turn::new(pass, self, value)
    }
}

impl<T: Told> Pass<T> {
    /// `TurnLock::try_enter`, with the pass first.
    pub fn try_enter<'a>(&'a mut self, lock: &'a TurnLock<T>) -> Result<Turn<'a, T>, Held>
        requires { IsPassOf T.project lock.now self.old }
        ensures* held { sem 𝓛 (RestsIfErr
            (the_row T.row T.Project.row T.Entry.row T.State.row) self.entry
            (λ t. t.pass.ghost_name) result (LosesTake T.project lock.now self.old)) }
        ensures same_reference { IfOk result (λ t. t.pass.ghost_name ≡ self.entry.ghost_name) }
        ensures entered { IfOk result (λ t. HasEntered T.project T.log T.state lock.now self.old t) }
        ensures unlost { IfOk result (λ t. lost_by t.pass.now ≡ lost_by self.old) }
    {
        let value = lock.take_value(self)?;
        Ok(Turn::new(self, lock, value))
    }
}
