ghost use Rattle.std.specs.Prelude.{◌≡◌, ◌++◌, ◌∷◌, [], OnOk, OnErr};
ghost use mathlib.Core.List.{IsPrefix};
ghost use Rattle.turn_lock.specs.Passes.{IsPassOf, HasTurn};
ghost use Rattle.turn_lock.specs.declared.tests.Journal.{Journal};

use crate::{Held, Pass, Told, Turn, TurnLock, TurnOut};
use std::alloc::{AllocError, Global};
use std::process::Abort;
use std::sync::Wait;
use std::test::Fail;
use std::thread::{Threads, join};

const ROUNDS: u64 = 2000;
// A thread tries this often at most.
const TRIES: u64 = 200_000_000;

#[derive(Clone, Copy, Debug, Drop, PartialEq, Eq)]
struct Line {
    writer: u64,
    number: u64,
}

#[derive(Drop)]
struct Journal {
    owner: u64,
    lines: Vec<Line>,
    written: u64,
}

impl Told for Journal {
    type Project = u64;

    type Entry = Line;

    type State = u64;

    ghost project = { λ j. j.owner };

    ghost log = { λ j. j.lines.items };

    ghost state = { λ j. j.written };

    fn log_len(&self) -> u64 {
        self.lines.len() as u64
    }
}

impl Journal {
    fn new(alloc: Global, owner: u64) -> Journal {
        Journal {
            owner,
            lines: Vec::new(alloc),
            written: 0,
        }
    }

    fn add(&mut self, line: Line) -> Result<(), AllocError>
        ensures owner { self.new.owner ≡ self.old.owner }
        ensures ok { OnOk result (self.new.lines.items ≡ self.old.lines.items ++ line ∷ []) }
        ensures err { OnErr result (self.new.lines.items ≡ self.old.lines.items) }
    {
        self.lines.push(line)?;
        self.written = self.written.saturating_add(1);
        Ok(())
    }

    // The numbers of one writer's lines stand in order from 0, and there are so many.
    fn count_in_order<R: Abort>(&self, rt: &R, writer: u64) -> u64 {
        let mut count = 0u64;
        for line in self.lines.iter() {
            if line.writer == writer {
                assert_eq!(rt; line.number, count);
                count = count.saturating_add(1);
            }
        }
        count
    }
}

// What a writer finds in a turn: the length of the log, and its own last line at its place.
#[derive(Clone, Copy, Debug, Drop, PartialEq, Eq)]
struct Found {
    length: usize,
    own: Option<Line>,
    is_added: bool,
}

fn look_and_add(journal: &mut Journal, place: usize, line: Line) -> Found
    ensures owner { journal.new.owner ≡ journal.old.owner }
    ensures log { IsPrefix journal.old.lines.items journal.new.lines.items }
{
    let length = journal.lines.len();
    let own = journal.lines.get(place).copied();
    let is_added = journal.add(line).is_ok();
    Found {
        length,
        own,
        is_added,
    }
}

fn try_turn(
    lock: &TurnLock<Journal>,
    pass: &mut Pass<Journal>,
    place: usize,
    line: Line,
) -> Result<Found, Held>
    requires { IsPassOf (λ (j : Journal). j.owner) lock.now pass.old }
    ensures { IsPassOf (λ (j : Journal). j.owner) lock.now pass.new }
{
    let mut turn = pass.try_enter(lock)?;
    let found = look_and_add(turn.value(), place, line);
    turn.leave();
    Ok(found)
}

// Writes its lines. Each turn finds no shorter log than the one before, and its own last line at its place.
fn write_lines<R: Abort>(
    rt: &R,
    lock: &TurnLock<Journal>,
    mut pass: Pass<Journal>,
    writer: u64,
) -> (Pass<Journal>, u64)
    requires { IsPassOf (λ (j : Journal). j.owner) lock.now pass }
    ensures { IsPassOf (λ (j : Journal). j.owner) lock.now result.0 }
{
    let mut written = 0u64;
    let mut length = 0usize;
    let mut place = 0usize;
    let mut last = None;
    for _ in 0..TRIES {
        if written == ROUNDS {
            break;
        }
        let line = Line {
            writer,
            number: written,
        };
        if let Ok(found) = try_turn(lock, &mut pass, place, line) {
            assert!(rt; length <= found.length, "the log went back");
            assert!(rt; last.is_none() || found.own == last, "a line is lost");
            assert!(rt; found.is_added, "no memory");
            written = written.saturating_add(1);
            length = found.length.saturating_add(1);
            place = found.length;
            last = Some(line);
        }
    }
    (pass, written)
}

fn write_by_two<R: Threads + Wait + Abort + Sync>(
    rt: &R,
    lock: &TurnLock<Journal>,
    mut one: Pass<Journal>,
) -> (Pass<Journal>, u64, u64)
    requires { IsPassOf (λ (j : Journal). j.owner) lock.now one }
    ensures { IsPassOf (λ (j : Journal). j.owner) lock.now result.0 }
{
    let two = lock.split_pass(&mut one);
    let ((mut one, by_one), (two, by_two)) = join(
        rt,
        || -> (Pass<Journal>, u64)
            requires { IsPassOf (λ (j : Journal). j.owner) lock.now one }
            ensures { IsPassOf (λ (j : Journal). j.owner) lock.entry.now result.0 }
        { write_lines(rt, lock, one, 1) },
        || -> (Pass<Journal>, u64)
            requires { IsPassOf (λ (j : Journal). j.owner) lock.now two }
            ensures { IsPassOf (λ (j : Journal). j.owner) lock.entry.now result.0 }
        { write_lines(rt, lock, two, 2) },
    );
    lock.join_pass(&mut one, two);
    (one, by_one, by_two)
}

#[test]
fn two_threads_lose_no_line(rt: HostRuntime) -> Result<(), Fail> {
    let (lock, pass) = TurnLock::new(rt.alloc(), Journal::new(rt.alloc(), 7))?;
    let (_, by_one, by_two) = write_by_two(&rt, &lock, pass);
    assert_eq!(rt; (by_one, by_two), (ROUNDS, ROUNDS));
    let journal = lock.close().ok().ok_or("the turn is out")?;
    assert_eq!(rt; journal.owner, 7);
    assert_eq!(rt; journal.lines.len() as u64, ROUNDS + ROUNDS);
    assert_eq!(rt; journal.count_in_order(&rt, 1), ROUNDS);
    assert_eq!(rt; journal.count_in_order(&rt, 2), ROUNDS);
    Ok(())
}

fn write_waiting<R: Wait + Abort>(
    rt: &R,
    lock: &TurnLock<Journal>,
    mut pass: Pass<Journal>,
    writer: u64,
) -> Pass<Journal>
    requires { IsPassOf (λ (j : Journal). j.owner) lock.now pass }
    ensures { IsPassOf (λ (j : Journal). j.owner) lock.now result }
{
    for number in 0..ROUNDS {
        let mut turn = lock.enter(rt, &mut pass);
        let line = Line { writer, number };
        let is_added = turn.value().add(line).is_ok();
        turn.leave();
        assert!(rt; is_added, "no memory");
    }
    pass
}

// The pass, which was joined with the writers', finds all that they wrote.
fn count_lines<R: Wait + Abort>(
    rt: &R,
    lock: &TurnLock<Journal>,
    pass: &mut Pass<Journal>,
    writer: u64,
) -> u64
    requires { IsPassOf (λ (j : Journal). j.owner) lock.now pass.old }
    ensures { IsPassOf (λ (j : Journal). j.owner) lock.now pass.new }
{
    let mut turn = lock.enter(rt, pass);
    let count = turn.value().count_in_order(rt, writer);
    turn.leave();
    count
}

fn write_two<R: Threads + Wait + Abort + Sync>(
    rt: &R,
    lock: &TurnLock<Journal>,
    mut one: Pass<Journal>,
    writers: (u64, u64),
) -> Pass<Journal>
    requires { IsPassOf (λ (j : Journal). j.owner) lock.now one }
    ensures { IsPassOf (λ (j : Journal). j.owner) lock.now result }
{
    let two = lock.split_pass(&mut one);
    let (mut one, two) = join(
        rt,
        || -> Pass<Journal>
            requires { IsPassOf (λ (j : Journal). j.owner) lock.now one }
            ensures { IsPassOf (λ (j : Journal). j.owner) lock.entry.now result }
        { write_waiting(rt, lock, one, writers.0) },
        || -> Pass<Journal>
            requires { IsPassOf (λ (j : Journal). j.owner) lock.now two }
            ensures { IsPassOf (λ (j : Journal). j.owner) lock.entry.now result }
        { write_waiting(rt, lock, two, writers.1) },
    );
    lock.join_pass(&mut one, two);
    let counts = (
        count_lines(rt, lock, &mut one, writers.0),
        count_lines(rt, lock, &mut one, writers.1),
    );
    assert_eq!(rt; counts, (ROUNDS, ROUNDS));
    one
}

fn write_four<R: Threads + Wait + Abort + Sync>(
    rt: &R,
    lock: &TurnLock<Journal>,
    mut one: Pass<Journal>,
) -> Pass<Journal>
    requires { IsPassOf (λ (j : Journal). j.owner) lock.now one }
    ensures { IsPassOf (λ (j : Journal). j.owner) lock.now result }
{
    let two = lock.split_pass(&mut one);
    let (mut one, two) = join(
        rt,
        || -> Pass<Journal>
            requires { IsPassOf (λ (j : Journal). j.owner) lock.now one }
            ensures { IsPassOf (λ (j : Journal). j.owner) lock.entry.now result }
        { write_two(rt, lock, one, (1, 2)) },
        || -> Pass<Journal>
            requires { IsPassOf (λ (j : Journal). j.owner) lock.now two }
            ensures { IsPassOf (λ (j : Journal). j.owner) lock.entry.now result }
        { write_two(rt, lock, two, (3, 4)) },
    );
    lock.join_pass(&mut one, two);
    one
}

#[test]
fn passes_split_and_join_across_threads(rt: HostRuntime) -> Result<(), Fail> {
    let (lock, pass) = TurnLock::new(rt.alloc(), Journal::new(rt.alloc(), 7))?;
    let _ = write_four(&rt, &lock, pass);
    let journal = lock.close().ok().ok_or("the turn is out")?;
    assert_eq!(rt; journal.lines.len() as u64, ROUNDS * 4);
    for writer in 1..5 {
        assert_eq!(rt; journal.count_in_order(&rt, writer), ROUNDS);
    }
    Ok(())
}

fn is_held(lock: &TurnLock<Journal>, mut pass: Pass<Journal>) -> bool
    requires { IsPassOf (λ (j : Journal). j.owner) lock.now pass }
{
    match lock.try_enter(&mut pass) {
        Ok(turn) => {
            turn.leave();
            false
        }
        Err(Held) => true,
    }
}

// A `Turn` is not `Drop`, so that it can be leaked in such a type alone.
struct Leavable<'a> {
    turn: Turn<'a, Journal>,
    ghost is_of_lock: { HasTurn (λ (j : Journal). j.owner) (λ (j : Journal). j.lines.items)
        turn.lock.now turn.pass.now turn.at_entry.value },
    ghost is_unchanged: { turn.value ≡ turn.at_entry.value },
}

impl Drop for Leavable<'_> {
    fn drop(self) {
        let Leavable { turn } = self;
        turn.leave();
    }
}

#[test]
fn a_turn_is_held_by_one_pass(rt: HostRuntime) -> Result<(), Fail> {
    let (lock, mut one) = TurnLock::new(rt.alloc(), Journal::new(rt.alloc(), 7))?;
    let mut two = lock.split_pass(&mut one);
    let three = lock.split_pass(&mut two);
    let four = lock.split_pass(&mut two);
    let mut turn = lock.enter(&rt, &mut one);
    let is_added = turn
        .value()
        .add(Line {
            writer: 1,
            number: 0,
        })
        .is_ok();
    let is_out = is_held(&lock, three);
    turn.leave();
    assert!(rt; is_added && is_out);
    assert!(rt; !is_held(&lock, four));
    assert_eq!(rt; count_lines(&rt, &lock, &mut two, 1), 1);
    let turn = lock.enter(&rt, &mut one);
    std::mem::forget(Leavable { turn });
    assert_eq!(rt; lock.close().err(), Some(TurnOut));
    Ok(())
}
