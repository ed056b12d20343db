//! Passes for further threads.
ghost use Rattle.std.specs.Prelude.{◌≡◌, ◌+◌};
ghost use mathlib.Core.List.{IsPrefix};
ghost use Rattle.turn_lock.specs.Rule.{longer};
ghost use Rattle.turn_lock.specs.Passes.{IsPassOf, KeepsTurns, HasNoTurns, seen_by, left_by, lost_by, splits_of};

use super::{Pass, TurnLock};
use crate::told::Told;
use crate::view::{CompareLogs, JoinPass, SplitPass};

impl<T: Told> TurnLock<T> {
    /// A pass for another thread, which has seen as much and has left the same state. It took no turn yet.
    pub fn split_pass(&self, pass: &mut Pass<T>) -> Pass<T>
        requires { IsPassOf T.project self.now pass.old }
        ensures pass { IsPassOf T.project self.now pass.new }
        ensures splits { splits_of pass.new ≡ splits_of pass.old + 1 }
        ensures same { (seen_by pass.new ≡ seen_by pass.old)
            × (left_by pass.new ≡ left_by pass.old) × (lost_by pass.new ≡ lost_by pass.old)
            × KeepsTurns pass.old pass.new }

        ensures new_pass { IsPassOf T.project self.now result }
        ensures seen { seen_by result ≡ seen_by pass.old }
        ensures left { left_by result ≡ left_by pass.old }
        ensures unsplit { splits_of result ≡ 0 }
        ensures unlost { lost_by result ≡ 0 }
        ensures turns { HasNoTurns result }
    {
        let seat = self.table.shared.split_seat::<SplitPass>(&mut pass.seat);
        Pass { seat }
    }

    /// The pass has then seen the longer of both logs.
    pub fn join_pass(&self, pass: &mut Pass<T>, other: Pass<T>)
        requires pass { IsPassOf T.project self.now pass.old }
        requires other { IsPassOf T.project self.now other }
        ensures pass { IsPassOf T.project self.now pass.new }

        ensures seen { seen_by pass.new ≡ longer (seen_by pass.old) (seen_by other) }
        ensures begun_by_this { IsPrefix (seen_by pass.old) (seen_by pass.new) }
        ensures begun_by_other { IsPrefix (seen_by other) (seen_by pass.new) }

        ensures same { (left_by pass.new ≡ left_by pass.old)
            × (splits_of pass.new ≡ splits_of pass.old) × (lost_by pass.new ≡ lost_by pass.old)
            × KeepsTurns pass.old pass.new }
    {
        let Pass { seat } = other;
        let shared = &self.table.shared;
        shared.join_seat::<JoinPass>(&mut pass.seat, seat);
        shared.load::<CompareLogs>(&mut pass.seat, 0);
    }
}
