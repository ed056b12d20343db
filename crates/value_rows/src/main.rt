//! Prints what calls on values give, so that tables of calls are data: `value_rows FILE..`.
//!
//! Each line of a file is printed, and below it what it gives, or the fault that refuses it. A line is an expression of
//! GDScript, or such a value put into a name (`x = [1]`) or an item (`x[0] = 2`). It is computed by the public calls of
//! values: operators, methods of strings, arrays and dictionaries, indexes, and
//!
//! - `not x`: the truth of `x`, denied; `str(x)`; `p % x` of a string `p`; `typed(x, "T")`: the items of `x` in an
//!   array of that element type;
//! - `Lamp.new()` and `x.free()`: objects of the classes in `classes.rt`; `weakref(x)`, `Callable(x, "f")`,
//!   `Signal(x, "f")`, `load("p")`, and a class by its name;
//! - `nested(n, x)` and `nested_dicts(n, x)`: `x` in so many arrays or dictionaries; `numbered(n)`: a dictionary of the keys
//!   from 0 on; `overlong(n, s)`: so many `a` and `s`, of any length;
//! - `id(x)`: the serial of a container or an object; `cells()`, `objects()` and `room()`: how many serials were given, how
//!   many objects live, and what more the heap may weigh.
//!
//! An empty line begins a new heap without names. One that begins with `#` is printed alone.
//!
//! Behind what a method of a container or a write gives stands `then` and the container. Values are printed as they are
//! written, an array of more than 12 items with its first three and the number, a container below the fourth level as
//! `[..]` or `{..}`, and a long string as its number of bytes. An object is `<CLASS#SERIAL>`, and one that has gone
//! `<freed#SERIAL>`.
#![tactic(auto)]

mod classes;
mod conditions;
mod evaluation;
mod methods;
mod refusal;
mod show;
mod steps;
mod world;

use crate::steps::run_step;
use crate::world::World;
use case_files::{Stop, print_answer, print_line, read_text};
use std::env;
use std::process::ExitCode;
use std::rt::{Env, Files};

/// Prints a line, and below it what it gives.
fn run_line<R: Print + AllocGlobal>(rt: &R, world: &mut World, line: &str) -> Result<(), Stop> {
    print_line(rt, line)?;
    if line.is_empty() || line.starts_with('#') {
        return Ok(());
    }
    let answer = run_step(rt.alloc(), world, line)?;
    if answer.is_empty() {
        return Ok(());
    }
    print_answer(rt, answer.as_str())
}

fn run_file<R: Print + Files + AllocGlobal>(rt: &R, name: &str) -> Result<(), Stop> {
    let text = read_text(rt, name)?;
    let mut world = World::new(rt.alloc())?;
    for line in text.lines() {
        if line.is_empty() {
            world = World::new(rt.alloc())?;
        }
        run_line(rt, &mut world, line)?;
    }
    Ok(())
}

/// Prints the files that the words name.
fn run<R: Env + Files + Print + AllocGlobal>(rt: &R) -> Result<(), Stop> {
    for name in env::args(rt)?.skip(1) {
        run_file(rt, name.as_str())?;
    }
    Ok(())
}

fn main(rt: HostRuntime) -> ExitCode {
    match run(&rt) {
        Ok(()) => ExitCode::SUCCESS,
        Err(stop) => ExitCode::from(stop.number()),
    }
}
