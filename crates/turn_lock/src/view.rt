//! The table of a lock: its rule, and each kind of step.
//!
//! Word 0 is the turn, 1 while a pass holds it. Word 1 is the length of the log. Slot 0 keeps the value.
//! The two moves of the value out of its slot and in again change no view: they are the table's own `exchange`.
use crate::told::Told;
use atomic_table::{Join, Play, Seat, Shared, Split, Table, TableRule};
use std::alloc::Global;
use std::collections::LinkedList;
use std::marker::PhantomData;
use std::snapshot::Snapshot;

/// Whether a pass holds the turn: not, or it took a value with this log, or it has also raised the length of the log.
pub enum Hold<E> {
    Free,
    Taken(LinkedList<E>),
    Raised(LinkedList<E>),
}

/// What a pass knows of its last turn: what the turn found, the log that the pass has seen, and the state that it left.
pub struct LastTurn<E, S> {
    pub found_log: Option<LinkedList<E>>,
    pub found_state: Option<S>,
    pub seen: LinkedList<E>,
    pub left: Option<S>,
}

/// What a pass knows. Contracts alone speak of it: no such value is made.
pub struct View<P, E, S> {
    /// The lock's project, unless another pass took this one in.
    pub project: Option<P>,
    /// The log that it has seen.
    pub seen: LinkedList<E>,
    /// The shorter log of the last join.
    pub shorter_seen: LinkedList<E>,
    pub hold: Hold<E>,
    /// The state that its last turn left.
    pub left: Option<S>,
    /// The log and the state that its last turn found.
    pub found_log: Option<LinkedList<E>>,
    pub found_state: Option<S>,
    /// The turns that it took.
    pub turns: u64,
    /// What it knew before each of them.
    pub earlier: LinkedList<LastTurn<E, S>>,
    /// Its takes that found the turn held.
    pub lost: u64,
    pub splits: u64,
}

/// The rule of the table. Its key is the lock's first value, which has the project.
pub struct LockRule<T> {
    of: PhantomData<T>,
}

impl<T: Told> TableRule<Option<T>, View<T::Project, T::Entry, T::State>, Snapshot<T>>
    for LockRule<T> {
    ghost use Rattle.turn_lock.specs.Rule.{MeetsRule, first_view};

    ghost holds = { λ key. MeetsRule T.project T.log key.value };

    ghost first = { λ key. first_view (T.project key.value) (T.log key.value) (T.state key.value) };
}

/// Word 0 from 0 to 1, or found at 1: a take that is won, or lost.
pub struct Take<T> {
    of: PhantomData<T>,
}

impl<T: Told> Play<Option<T>, View<T::Project, T::Entry, T::State>> for Take<T> {
    ghost use Rattle.turn_lock.specs.Rule.{Takes};

    ghost then = { Takes T.project T.log T.state };
}

/// Word 1 becomes the length of the log in the slot.
pub struct Raise<T> {
    of: PhantomData<T>,
}

impl<T: Told> Play<Option<T>, View<T::Project, T::Entry, T::State>> for Raise<T> {
    ghost use Rattle.turn_lock.specs.Rule.{Raises};

    ghost then = { Raises T.log };
}

/// Word 0 from 1 to 0, and the value goes home.
pub struct Release<T> {
    of: PhantomData<T>,
}

impl<T: Told> Play<Option<T>, View<T::Project, T::Entry, T::State>> for Release<T> {
    ghost use Rattle.turn_lock.specs.Rule.{Releases};

    ghost then = { Releases T.state };
}

/// The new pass has seen as much.
pub struct SplitPass;

impl<P, E, S> Split<View<P, E, S>> for SplitPass {
    ghost use Rattle.turn_lock.specs.Rule.{after_split, split_off};

    ghost left = { after_split };

    ghost right = { split_off };
}

/// The pass keeps the longer log, and the other is spent.
pub struct JoinPass;

impl<P, E, S> Join<View<P, E, S>> for JoinPass {
    ghost use Rattle.turn_lock.specs.Rule.{after_join, spent_view};

    ghost both = { after_join };

    ghost spent = { spent_view };
}

/// Word 0 loaded, and nothing changes: the shorter log of a join begins the longer one.
pub struct CompareLogs;

impl<T, P, E, S> Play<Option<T>, View<P, E, S>> for CompareLogs {
    ghost use Rattle.turn_lock.specs.Rule.{Compares};

    ghost then = { Compares };
}

pub type LockTable<T> = Table<
    Option<T>,
    View<<T as Told>::Project, <T as Told>::Entry, <T as Told>::State>,
    Snapshot<T>,
    LockRule<T>,
    Global,
>;

pub type LockShared<T> = Shared<
    Option<T>,
    View<<T as Told>::Project, <T as Told>::Entry, <T as Told>::State>,
    Snapshot<T>,
    LockRule<T>,
>;

pub type LockSeat<T> = Seat<
    Option<T>,
    View<<T as Told>::Project, <T as Told>::Entry, <T as Told>::State>,
>;
