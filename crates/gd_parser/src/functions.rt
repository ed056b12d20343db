// Parameters, signals and functions.
ghost use Rattle.std.specs.Prelude.{◌≡◌, ◌≢◌, ◌+◌, ◌-◌, ◌<◌, ◌≤◌, ◌||◌, [], length, None, Some, IfOk};
ghost use Rattle.std.specs.List.{list_any};
ghost use Rattle.gd_syntax.specs.Reading.{Read, Answers, Look, Loop};
ghost use Rattle.gd_syntax.specs.TokenReading.{IsEnded, mark_at};
ghost use Rattle.gd_syntax.specs.DeclarationGrammar as declaration;
ghost use Rattle.gd_syntax.specs.MemberGrammar as spec;
ghost use Rattle.gd_parser.specs.Parameters.{what};

use crate::blocks::block;
use crate::declarations::{declared, new_name, optional_type};
use gd_exprs::reader::{due, fault_at, kind_at, place_at, refuse, sees, skip};
use gd_exprs::result_type;
use gd_syntax::{
    Annotation, Declared, FaultKind, Func, Identifier, Kind, Mark, Param, Place, Signal,
    SolveError, Sought, Token, TypeName,
};
use std::alloc::Global;
use tree_lists::Items;

/// How many parameters a signal or a function has at most.
const MAX_PARAMS: usize = 64;

/// How many blocks are open at one place at most.
const MAX_BLOCKS: usize = 128;

/// Whose parameters are read. Those of a signal have no default.
#[derive(Clone, Copy, Debug, PartialEq, Eq)]
pub enum ParamOwner {
    Signal,
    Func,
}

/// So many, and the one that begins there, are not too many.
pub fn below(tokens: &[Token], at: usize, n: usize, most: usize) -> Result<(), SolveError>
    requires { at < length tokens.now }
    ensures reads { Answers (λ _. Read tt at) result (declaration.below tokens.now n most at) }
    ensures few { IfOk result (λ _. n < most) }
{
    if n < most {
        Ok(())
    } else {
        Err(fault_at(tokens, at, FaultKind::TooMany))
    }
}

fn has_value(what: &Declared) -> bool
    ensures { result ≡ spec.has_value what.now }
{
    match what {
        Declared::Typed(_, value) => value.is_some(),
        Declared::Inferred(_) => true,
    }
}

/// A default is due where a parameter before has one.
fn defaulted(
    tokens: &[Token],
    at: usize,
    is_due: bool,
    what: Declared,
) -> Result<(Declared, usize), SolveError>
    requires within { at < length tokens.now }
    requires ended { IsEnded tokens.now }
    ensures reads { Answers (λ found. Read found.0 found.1) result (spec.defaulted tokens.now is_due what at) }
    ensures within { IfOk result (λ found. found.1 < length tokens.now) }
    ensures same { IfOk result (λ found. found.1 ≡ at) }
{
    if is_due && !has_value(&what) {
        return Err(refuse(tokens, at, Sought::Other));
    }
    Ok((what, at))
}

/// What a parameter of a signal is declared to be.
fn signal_param(
    alloc: Global,
    tokens: &[Token],
    at: usize,
    before: &Items<Param>,
) -> Result<(Declared, usize), SolveError>
    requires within { at < length tokens.now }
    requires ended { IsEnded tokens.now }
    ensures reads { Answers (λ found. Read found.0 found.1) result (spec.signal_param tokens.now before.now at) }
    ensures within { IfOk result (λ found. found.1 < length tokens.now) }
    ensures after { IfOk result (λ found. at ≤ found.1) }
{
    let (kind, next) = optional_type(alloc, tokens, at, Sought::Other)?;
    Ok((Declared::Typed(kind, None), next))
}

/// What a parameter of a function is declared to be, and whether one before has a default.
fn func_param(
    alloc: Global,
    tokens: &[Token],
    at: usize,
    before: &Items<Param>,
    is_due: bool,
) -> Result<(Declared, usize), SolveError>
    requires within { at < length tokens.now }
    requires ended { IsEnded tokens.now }
    requires is_due { is_due ≡ list_any (λ p. spec.has_value p.declared) before.now }
    ensures reads { Answers (λ found. Read found.0 found.1) result (spec.func_param tokens.now before.now at) }
    ensures within { IfOk result (λ found. found.1 < length tokens.now) }
    ensures after { IfOk result (λ found. at ≤ found.1) }
{
    let (what, next) = declared(alloc, tokens, at, Sought::Other)?;
    defaulted(tokens, next, is_due, what)
}

fn param_type(
    alloc: Global,
    tokens: &[Token],
    at: usize,
    owner: ParamOwner,
    before: &Items<Param>,
    is_due: bool,
) -> Result<(Declared, usize), SolveError>
    requires within { at < length tokens.now }
    requires ended { IsEnded tokens.now }
    requires is_due { is_due ≡ list_any (λ p. spec.has_value p.declared) before.now }
    ensures reads { Answers (λ found. Read found.0 found.1) result (what tokens.now owner before.now at) }
    ensures within { IfOk result (λ found. found.1 < length tokens.now) }
    ensures after { IfOk result (λ found. at ≤ found.1) }
{
    match owner {
        ParamOwner::Signal => signal_param(alloc, tokens, at, before),
        ParamOwner::Func => func_param(alloc, tokens, at, before, is_due),
    }
}

/// A further parameter, behind those before it.
fn param(
    alloc: Global,
    tokens: &[Token],
    at: usize,
    owner: ParamOwner,
    before: &Items<Param>,
    is_due: bool,
) -> Result<(Param, usize), SolveError>
    requires within { at < length tokens.now }
    requires ended { IsEnded tokens.now }
    requires is_due { is_due ≡ list_any (λ p. spec.has_value p.declared) before.now }
    ensures reads { Answers (λ found. Read found.0 found.1) result (spec.param tokens.now (what tokens.now owner) before.now at) }
    ensures within { IfOk result (λ found. found.1 < length tokens.now) }
    ensures after { IfOk result (λ found. at < found.1) }
{
    match kind_at(tokens, at) {
        Kind::Name(name) => {
            below(tokens, at, before.len(), MAX_PARAMS)?;
            let place = place_at(tokens, at);
            let name = name.clone()?;
            let (what, next) = param_type(alloc, tokens, skip(tokens, at), owner, before, is_due)?;
            Ok((
                Param {
                    name: Identifier { place, name },
                    declared: what,
                },
                next,
            ))
        }
        _ => Err(refuse(tokens, at, Sought::Parameter)),
    }
}

/// Whether the parameter has a default, or one before has.
fn has_default(before: bool, item: &Param) -> bool
    ensures { result ≡ (before || spec.has_value item.now.declared) }
{
    before || has_value(&item.declared)
}

/// Parameters up to the bracket that closes them.
fn params_before(
    alloc: Global,
    tokens: &[Token],
    start: usize,
    owner: ParamOwner,
) -> Result<(Items<Param>, usize), SolveError>
    requires within { start < length tokens.now }
    requires ended { IsEnded tokens.now }
    ensures reads { Answers (λ found. Read found.0 found.1) result (Loop (λ sofar. Look (mark_at tokens.now) (spec.params_by tokens.now (what tokens.now owner) sofar)) [] start) }
    ensures within { IfOk result (λ found. found.1 < length tokens.now) }
    ensures after { IfOk result (λ found. start ≤ found.1) }
{
    let mut all = Items::new(alloc);
    let mut is_due = false;
    let mut at = start;
    'params: while !sees(tokens, at, Mark::RParen) {
        let (item, next) = param(alloc, tokens, at, owner, &all, is_due)?;
        is_due = has_default(is_due, &item);
        all.push(item)?;
        at = next;
        let goes_on = sees(tokens, at, Mark::Comma);
        if !goes_on {
            return Ok((all, at));
        }
        at = skip(tokens, at);
    }
    Ok((all, at))
}

/// Parameters from behind the bracket that opens them, and the bracket that closes them.
fn params(
    alloc: Global,
    tokens: &[Token],
    at: usize,
    owner: ParamOwner,
) -> Result<(Items<Param>, usize), SolveError>
    requires within { at < length tokens.now }
    requires ended { IsEnded tokens.now }
    ensures reads { Answers (λ found. Read found.0 found.1) result (spec.params tokens.now (what tokens.now owner) at) }
    ensures within { IfOk result (λ found. found.1 < length tokens.now) }
    ensures after { IfOk result (λ found. at < found.1) }
{
    let (all, close) = params_before(alloc, tokens, at, owner)?;
    let next = due(tokens, close, Sought::Other, Mark::RParen)?;
    Ok((all, next))
}

/// The parameters of a signal, which may be missing with their brackets.
fn signal_params(
    alloc: Global,
    tokens: &[Token],
    at: usize,
) -> Result<(Items<Param>, usize), SolveError>
    requires within { at < length tokens.now }
    requires ended { IsEnded tokens.now }
    ensures reads { Answers (λ found. Read found.0 found.1) result (Look (mark_at tokens.now) (spec.signal_by tokens.now) at) }
    ensures within { IfOk result (λ found. found.1 < length tokens.now) }
    ensures after { IfOk result (λ found. at ≤ found.1) }
{
    if !sees(tokens, at, Mark::LParen) {
        return Ok((Items::new(alloc), at));
    }
    params(alloc, tokens, skip(tokens, at), ParamOwner::Signal)
}

/// A signal from its keyword on.
pub fn signal(
    alloc: Global,
    tokens: &[Token],
    at: usize,
    place: Place,
) -> Result<(Signal, usize), SolveError>
    requires within { at < length tokens.now }
    requires ended { IsEnded tokens.now }
    requires begins { mark_at tokens.now at ≡ Some Mark.Signal }
    ensures reads { Answers (λ found. Read found.0 found.1) result (spec.signal tokens.now place at) }
    ensures within { IfOk result (λ found. found.1 < length tokens.now) }
    ensures after { IfOk result (λ found. at < found.1) }
{
    let (name, next) = new_name(tokens, skip(tokens, at))?;
    let (all, end) = signal_params(alloc, tokens, next)?;
    Ok((
        Signal {
            place,
            name,
            params: all,
        },
        end,
    ))
}

/// `->` and a type, which may be missing.
fn optional_result(
    alloc: Global,
    tokens: &[Token],
    at: usize,
) -> Result<(Option<TypeName>, usize), SolveError>
    requires within { at < length tokens.now }
    requires ended { IsEnded tokens.now }
    ensures reads { Answers (λ found. Read found.0 found.1) result (Look (mark_at tokens.now) (spec.result_by tokens.now) at) }
    ensures within { IfOk result (λ found. found.1 < length tokens.now) }
    ensures after { IfOk result (λ found. at ≤ found.1) }
{
    if !sees(tokens, at, Mark::Arrow) {
        return Ok((None, at));
    }
    let (kind, next) = result_type(alloc, tokens, skip(tokens, at))?;
    Ok((Some(kind), next))
}

/// A function from behind `func`. `place` is that of its first annotation, or of its first keyword.
pub fn func(
    alloc: Global,
    tokens: &[Token],
    at: usize,
    place: Place,
    annotations: Items<Annotation>,
    is_static: bool,
) -> Result<(Func, usize), SolveError>
    requires within { at < length tokens.now }
    requires ended { IsEnded tokens.now }
    ensures reads { Answers (λ found. Read found.0 found.1) result (spec.func tokens.now place annotations is_static at) }
    ensures within { IfOk result (λ found. found.1 < length tokens.now) }
    ensures after { IfOk result (λ found. at < found.1) }
{
    let (name, open) = new_name(tokens, at)?;
    let first = due(tokens, open, Sought::Other, Mark::LParen)?;
    let (all, arrow) = params(alloc, tokens, first, ParamOwner::Func)?;
    let (kind, colon) = optional_result(alloc, tokens, arrow)?;
    let start = due(tokens, colon, Sought::Other, Mark::Colon)?;
    let (body, end) = block(alloc, tokens, start, MAX_BLOCKS)?;
    Ok((
        Func {
            place,
            annotations,
            is_static,
            name,
            params: all,
            result: kind,
            body,
        },
        end,
    ))
}
