// Types, as they are written.
ghost use Rattle.std.specs.Prelude.{◌≡◌, ◌≢◌, ◌+◌, ◌<◌, ◌≤◌, [], ◌∷◌, length, Some, IfOk};
ghost use Rattle.gd_syntax.specs.Reading.{Outcome, Read, Answers, Gives, Loop};
ghost use Rattle.gd_syntax.specs.TokenReading.{IsEnded, mark_at};
ghost use Rattle.gd_syntax.specs.TypeGrammar as spec;
ghost use Rattle.gd_syntax.specs.declared.tree.type_name.TypeName.{TypeName};

use crate::reader::{fault_at, mark_at, one_name, place_at, plain_name, sees, skip};
use gd_syntax::{FaultKind, Form, Mark, Name, SolveError, Sought, Token, TypeName};
use std::alloc::Global;
use tree_lists::Items;

/// The names after the first, each behind a dot.
fn dotted(
    tokens: &[Token],
    start: usize,
    first: Items<Name>,
) -> Result<(Items<Name>, usize), SolveError>
    requires within { start < length tokens.now }
    requires ended { IsEnded tokens.now }
    ensures reads { Answers (λ found. Read found.0 found.1) result (Loop (spec.dotted tokens.now) first start) }
    ensures within { IfOk result (λ found. found.1 < length tokens.now) }
    ensures after { IfOk result (λ found. start ≤ found.1) }
{
    let mut names = first;
    let mut at = start;
    'names: while sees(tokens, at, Mark::Dot) {
        let (name, next) = plain_name(tokens, skip(tokens, at), Sought::Other)?;
        names.push(name)?;
        at = next;
    }
    Ok((names, at))
}

/// What a bracket after the type of these names would make of it.
fn element_form(names: &Items<Name>) -> Option<Form>
    ensures { result ≡ spec.element_form names.now }
{
    match names.as_slice() {
        [name] => {
            if name.is_word("Array") {
                Some(Form::TypedArray)
            } else if name.is_word("Dictionary") {
                Some(Form::TypedDictionary)
            } else {
                None
            }
        }
        _ => None,
    }
}

fn bracket_form(names: &Items<Name>, mark: Option<Mark>) -> Option<Form>
    ensures { result ≡ spec.bracket_form names.now mark }
{
    match mark {
        Some(Mark::LBracket) => element_form(names),
        _ => None,
    }
}

fn read_type(
    alloc: Global,
    tokens: &[Token],
    at: usize,
    sought: Sought,
) -> Result<(TypeName, usize), SolveError>
    requires within { at < length tokens.now }
    requires ended { IsEnded tokens.now }
    ensures reads { Answers (λ found. Read found.0 found.1) result (spec.type_name tokens.now sought at) }
    ensures within { IfOk result (λ found. found.1 < length tokens.now) }
    ensures after { IfOk result (λ found. at < found.1) }
{
    let place = place_at(tokens, at);
    let (name, next) = plain_name(tokens, at, sought)?;
    let first = one_name(alloc, name)?;
    let (names, end) = dotted(tokens, next, first)?;
    match bracket_form(&names, mark_at(tokens, end)) {
        Some(form) => Err(fault_at(tokens, end, FaultKind::Unsupported(form))),
        None => Ok((TypeName::Named(place, names, None), end)),
    }
}

/// A type from `at`, and the place after it.
pub fn type_name(
    alloc: Global,
    tokens: &[Token],
    at: usize,
    sought: Sought,
) -> Result<(TypeName, usize), SolveError>
    requires within { at < length tokens.now }
    requires ended { IsEnded tokens.now }
    ensures reads { Answers (λ found. Read found.0 found.1) result (spec.type_name tokens.now sought at) }
    ensures only { (o : Outcome TypeName) → spec.type_name tokens.now sought at o → Gives (λ found. Read found.0 found.1) result o }
    ensures within { IfOk result (λ found. found.1 < length tokens.now) }
    ensures after { IfOk result (λ found. at < found.1) }
{
    read_type(alloc, tokens, at, sought)
}

fn read_result(alloc: Global, tokens: &[Token], at: usize) -> Result<(TypeName, usize), SolveError>
    requires within { at < length tokens.now }
    requires ended { IsEnded tokens.now }
    ensures reads { Answers (λ found. Read found.0 found.1) result (spec.result_type tokens.now at) }
    ensures within { IfOk result (λ found. found.1 < length tokens.now) }
    ensures after { IfOk result (λ found. at < found.1) }
{
    if !sees(tokens, at, Mark::Void) {
        return read_type(alloc, tokens, at, Sought::Other);
    }
    let place = place_at(tokens, at);
    Ok((TypeName::Void(place), skip(tokens, at)))
}

/// The type of a result from `at`, which may be `void`, and the place after it.
pub fn result_type(
    alloc: Global,
    tokens: &[Token],
    at: usize,
) -> Result<(TypeName, usize), SolveError>
    requires within { at < length tokens.now }
    requires ended { IsEnded tokens.now }
    ensures reads { Answers (λ found. Read found.0 found.1) result (spec.result_type tokens.now at) }
    ensures only { (o : Outcome TypeName) → spec.result_type tokens.now at o → Gives (λ found. Read found.0 found.1) result o }
    ensures within { IfOk result (λ found. found.1 < length tokens.now) }
    ensures after { IfOk result (λ found. at < found.1) }
{
    read_result(alloc, tokens, at)
}
