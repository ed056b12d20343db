// The lines of a file of cases.
ghost use Rattle.gd_syntax.specs.TokenReading.{IsEnded};

use crate::evaluation::value_of;
use crate::refusal::{BAD_CASE, Refusal};
use crate::show::push_shown;
use crate::world::World;
use case_files::Stop;
use gd_exprs::expression;
use gd_syntax::{Expr, Kind, Mark, SolveError, Token};
use gd_tokens::tokens;
use std::alloc::{AllocError, Global};
use std::fmt::Write;
use variant_values::values::Value;

/// The greatest length of a line, in bytes.
const MAX_BYTES: usize = 1_048_576;

fn refused(error: SolveError) -> Refusal {
    match error {
        SolveError::Fault(_) => BAD_CASE,
        SolveError::NoMemory => Refusal::Ended(Stop::NoMemory),
    }
}

fn is_mark(token: Option<&Token>, mark: Mark) -> bool {
    match token {
        Some(
            Token {
                kind: Kind::Mark(other),
                ..
            },
        ) => *other == mark,
        _ => false,
    }
}

/// An expression from a token on, and the place behind it.
fn expression_at(alloc: Global, tokens: &[Token], at: usize) -> Result<(Expr, usize), Refusal>
    requires { IsEnded tokens.now }
{
    if at >= tokens.len() {
        return Err(BAD_CASE);
    }
    expression(alloc, tokens, at, 0).map_err(|error| refused(error))
}

/// Gives a name or an item a value. An item gives null.
fn put(
    alloc: Global,
    world: &mut World,
    to: &Expr,
    value: &Expr,
) -> Result<Option<Value>, Refusal> {
    match to {
        Expr::Name(_, name) => {
            let value = value_of(alloc, world, value)?;
            world.name(name.as_str(), value)?;
            Ok(None)
        }
        Expr::Index(_, of, index) => {
            let of = value_of(alloc, world, of.get())?;
            let index = value_of(alloc, world, index.get())?;
            let value = value_of(alloc, world, value)?;
            world.put(&of, &index, value)?;
            Ok(Some(Value::Null))
        }
        _ => Err(BAD_CASE),
    }
}

/// Does a line whose first expression is read, up to a place. Gives nothing where a name gets a value.
fn done(
    alloc: Global,
    world: &mut World,
    tokens: &[Token],
    tree: &Expr,
    at: usize,
) -> Result<Option<Value>, Refusal>
    requires { IsEnded tokens.now }
{
    if is_mark(tokens.get(at), Mark::Newline) {
        return Ok(Some(value_of(alloc, world, tree)?));
    }
    if !is_mark(tokens.get(at), Mark::Assign) {
        return Err(BAD_CASE);
    }
    match expression_at(alloc, tokens, at.saturating_add(1)) {
        Ok((value, end)) => {
            if is_mark(tokens.get(end), Mark::Newline) {
                put(alloc, world, tree, &value)
            } else {
                Err(BAD_CASE)
            }
        }
        Err(refusal) => Err(refusal),
    }
}

/// Whether what a call or a write changed is printed.
fn has_receiver(tree: &Expr, is_put: bool) -> bool {
    match tree {
        Expr::Call(_, callee, _) => matches!(callee.get(), Expr::Member(_, _, _)),
        Expr::Index(_, _, _) => is_put,
        _ => false,
    }
}

fn push_receiver(alloc: Global, out: &mut String, world: &World) -> Result<(), AllocError> {
    if let Value::Array(_) | Value::Dict(_) = &world.receiver {
        out.push_str(", then ")?;
        push_shown(alloc, out, world, &world.receiver)?;
    }
    Ok(())
}

/// A value or a fault as it is printed.
fn push_given(
    alloc: Global,
    out: &mut String,
    world: &World,
    given: Result<Option<Value>, Refusal>,
) -> Result<(), Stop> {
    match given {
        Ok(Some(value)) => push_shown(alloc, out, world, &value)?,
        Ok(None) => {}
        Err(Refusal::Fault(fault)) => write!(out, "{fault:?}")?,
        Err(Refusal::Ended(stop)) => return Err(stop),
    }
    Ok(())
}

fn shown(
    alloc: Global,
    world: &mut World,
    tokens: &[Token],
    tree: &Expr,
    at: usize,
) -> Result<String, Stop>
    requires { IsEnded tokens.now }
{
    let mut out = String::new(alloc);
    world.receiver = Value::Null;
    let given = done(alloc, world, tokens, tree, at);
    push_given(alloc, &mut out, world, given)?;
    if has_receiver(tree, is_mark(tokens.get(at), Mark::Assign)) {
        push_receiver(alloc, &mut out, world)?;
    }
    Ok(out)
}

fn run_tokens(alloc: Global, world: &mut World, tokens: &[Token]) -> Result<String, Stop>
    requires { IsEnded tokens.now }
{
    match expression_at(alloc, tokens, 0) {
        Ok((tree, at)) => shown(alloc, world, tokens, &tree, at),
        Err(Refusal::Ended(stop)) => Err(stop),
        Err(Refusal::Fault(_)) => Err(Stop::BadCase),
    }
}

/// What a line gives, as it is printed. Nothing where a name gets a value.
pub fn run_step(alloc: Global, world: &mut World, line: &str) -> Result<String, Stop> {
    if line.len() > MAX_BYTES {
        return Err(Stop::BadCase);
    }
    match tokens(alloc, line.as_bytes()) {
        Ok(list) => run_tokens(alloc, world, list.as_slice()),
        Err(SolveError::Fault(_)) => Err(Stop::BadCase),
        Err(SolveError::NoMemory) => Err(Stop::NoMemory),
    }
}
