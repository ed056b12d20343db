// Single tokens. A list of tokens ends in the file's end.
ghost use Rattle.std.specs.Prelude.{◌≡◌, ◌≢◌, ◌+◌, ◌<◌, ◌≤◌, true, false, max, length, Some, None, [], ◌∷◌, IfOk};
ghost use Rattle.gd_syntax.specs.Reading.{Read, Answers};
ghost use Rattle.gd_syntax.specs.TokenReading as spec;
ghost use Rattle.gd_syntax.specs.TokenReading.{IsEnded};

use gd_syntax::{
    FaultKind, Form, Identifier, Kind, Literal, LoadFault, Mark, Name, PathText, Place, SolveError,
    Sought, Text, Token, refusal,
};
use std::alloc::{AllocError, Global};
use tree_lists::Items;

pub fn place_at(tokens: &[Token], at: usize) -> Place
    requires { at < length tokens.now }
    ensures { result ≡ spec.place_at tokens.now at }
{
    tokens[at].place
}

pub fn kind_at(tokens: &[Token], at: usize) -> &Kind
    requires { at < length tokens.now }
    ensures { result.now ≡ spec.kind_at tokens.now at }
{
    &tokens[at].kind
}

/// The keyword, sign or layout token there.
pub fn mark_at(tokens: &[Token], at: usize) -> Option<Mark>
    requires { at < length tokens.now }
    ensures { result ≡ spec.mark_at tokens.now at }
{
    match kind_at(tokens, at) {
        Kind::Mark(mark) => Some(*mark),
        _ => None,
    }
}

/// The token after it, where the file's end is followed by itself.
pub fn next_kind(tokens: &[Token], at: usize) -> &Kind
    requires within { at < length tokens.now }
    requires ended { IsEnded tokens.now }
    ensures { result.now ≡ spec.kind_at tokens.now (at + 1) }
{
    let next = at + 1;
    if next < tokens.len() {
        kind_at(tokens, next)
    } else {
        kind_at(tokens, at)
    }
}

/// The larger of the two.
pub fn larger(a: usize, b: usize) -> usize
    ensures { result ≡ max a b }
{
    if a < b { b } else { a }
}

/// Whether this very token stands there.
pub fn sees(tokens: &[Token], at: usize, wanted: Mark) -> bool
    requires { at < length tokens.now }
    ensures yes { result ≡ true → spec.mark_at tokens.now at ≡ Some wanted }
    ensures no { result ≡ false → spec.mark_at tokens.now at ≢ Some wanted }
{
    match mark_at(tokens, at) {
        Some(mark) => mark == wanted,
        None => false,
    }
}

/// Past a token that is not the file's end.
pub fn skip(tokens: &[Token], at: usize) -> usize
    requires within { at < length tokens.now }
    requires ended { IsEnded tokens.now }
    requires goes_on { spec.mark_at tokens.now at ≢ Some Mark.End }
    ensures next { result ≡ at + 1 }
    ensures within { result < length tokens.now }
{
    at + 1
}

/// The fault of this kind at the token.
pub fn fault_at(tokens: &[Token], at: usize, kind: FaultKind) -> SolveError
    requires { at < length tokens.now }
    ensures { result ≡ SolveError.Fault (spec.fault_at tokens.now kind at) }
{
    SolveError::Fault(LoadFault {
        kind,
        place: place_at(tokens, at),
    })
}

/// A part is due that the token cannot begin.
pub fn refuse(tokens: &[Token], at: usize, sought: Sought) -> SolveError
    requires within { at < length tokens.now }
    requires ended { IsEnded tokens.now }
    ensures { result ≡ SolveError.Fault (spec.refusal_at tokens.now sought at) }
{
    let kind = refusal(sought, kind_at(tokens, at), next_kind(tokens, at));
    fault_at(tokens, at, kind)
}

/// A form of `levels` levels begins or goes on at the token.
pub fn fits(tokens: &[Token], at: usize, room: usize, levels: usize) -> Result<(), SolveError>
    requires { at < length tokens.now }
    ensures reads { Answers (λ _. Read tt at) result (spec.fits tokens.now room levels at) }
    ensures fits { IfOk result (λ _. levels ≤ room) }
{
    if levels <= room {
        Ok(())
    } else {
        Err(fault_at(tokens, at, FaultKind::NestTooDeep))
    }
}

/// A form that has `more` levels above a part of `levels` levels goes on at the token.
pub fn fits_over(
    tokens: &[Token],
    at: usize,
    room: usize,
    levels: usize,
    more: usize,
) -> Result<(), SolveError>
    requires { at < length tokens.now }
    ensures reads { Answers (λ _. Read tt at) result (spec.fits tokens.now room (levels + more) at) }
    ensures fits { IfOk result (λ _. levels + more ≤ room) }
{
    if more <= room && levels <= room - more {
        Ok(())
    } else {
        Err(fault_at(tokens, at, FaultKind::NestTooDeep))
    }
}

/// This very token is due, which is not the file's end.
pub fn due(tokens: &[Token], at: usize, sought: Sought, wanted: Mark) -> Result<usize, SolveError>
    requires within { at < length tokens.now }
    requires ended { IsEnded tokens.now }
    requires goes_on { wanted ≢ Mark.End }
    ensures reads { Answers (λ next. Read tt next) result (spec.Due tokens.now sought wanted at) }
    ensures within { IfOk result (λ next. next < length tokens.now) }
    ensures next { IfOk result (λ next. next ≡ at + 1) }
{
    if sees(tokens, at, wanted) {
        Ok(skip(tokens, at))
    } else {
        Err(refuse(tokens, at, sought))
    }
}

/// Any name is due, as it may be declared or stand after a dot.
pub fn any_name(tokens: &[Token], at: usize, sought: Sought) -> Result<(Name, usize), SolveError>
    requires within { at < length tokens.now }
    requires ended { IsEnded tokens.now }
    ensures reads { Answers (λ found. Read found.0 found.1) result (spec.OneOf tokens.now spec.any_name sought at) }
    ensures within { IfOk result (λ found. found.1 < length tokens.now) }
    ensures next { IfOk result (λ found. found.1 ≡ at + 1) }
{
    match kind_at(tokens, at) {
        Kind::Name(name) => {
            let name = name.clone()?;
            Ok((name, skip(tokens, at)))
        }
        _ => Err(refuse(tokens, at, sought)),
    }
}

/// A name outside dots is due.
pub fn plain_name(tokens: &[Token], at: usize, sought: Sought) -> Result<(Name, usize), SolveError>
    requires within { at < length tokens.now }
    requires ended { IsEnded tokens.now }
    ensures reads { Answers (λ found. Read found.0 found.1) result (spec.OneOf tokens.now spec.plain_name sought at) }
    ensures within { IfOk result (λ found. found.1 < length tokens.now) }
    ensures next { IfOk result (λ found. found.1 ≡ at + 1) }
{
    match kind_at(tokens, at) {
        Kind::Name(name) => {
            if !name.is_plain() {
                return Err(refuse(tokens, at, sought));
            }
            let name = name.clone()?;
            Ok((name, skip(tokens, at)))
        }
        _ => Err(refuse(tokens, at, sought)),
    }
}

/// A list of one name.
pub fn one_name(alloc: Global, name: Name) -> Result<Items<Name>, AllocError>
    ensures { IfOk result (λ names. names ≡ name ∷ []) }
{
    let mut names = Items::new(alloc);
    names.push(name)?;
    Ok(names)
}

/// A name outside dots is due, and its place is kept.
pub fn identifier(tokens: &[Token], at: usize) -> Result<(Identifier, usize), SolveError>
    requires within { at < length tokens.now }
    requires ended { IsEnded tokens.now }
    ensures reads { Answers (λ found. Read found.0 found.1) result (spec.identifier tokens.now at) }
    ensures within { IfOk result (λ found. found.1 < length tokens.now) }
    ensures next { IfOk result (λ found. found.1 ≡ at + 1) }
{
    let place = place_at(tokens, at);
    let (name, next) = plain_name(tokens, at, Sought::Other)?;
    Ok((Identifier { place, name }, next))
}

fn marked_literal(mark: Mark) -> Option<Literal>
    ensures { result ≡ spec.literal_of (Kind.Mark mark) }
{
    match mark {
        Mark::Null => Some(Literal::Null),
        Mark::Yes => Some(Literal::Bool(true)),
        Mark::No => Some(Literal::Bool(false)),
        _ => None,
    }
}

/// The value that is written as this one token.
pub fn literal(kind: &Kind) -> Result<Option<Literal>, AllocError>
    ensures { IfOk result (λ value. value ≡ spec.literal_of kind.now) }
{
    match kind {
        Kind::Int(value) => Ok(Some(Literal::Int(*value))),
        Kind::Text(text) => Ok(Some(Literal::Text(text.clone()?))),
        Kind::Mark(mark) => Ok(marked_literal(*mark)),
        Kind::Name(_) => Ok(None),
    }
}

fn is_uid(text: &Text) -> bool
    ensures { result ≡ spec.is_uid text.now }
{
    text.as_str().starts_with("uid://")
}

/// The path of `preload` or `load` is due, which is no `uid://` text.
pub fn path_text(
    tokens: &[Token],
    at: usize,
    sought: Sought,
) -> Result<(PathText, usize), SolveError>
    requires within { at < length tokens.now }
    requires ended { IsEnded tokens.now }
    ensures reads { Answers (λ found. Read found.0 found.1) result (spec.path_text tokens.now sought at) }
    ensures within { IfOk result (λ found. found.1 < length tokens.now) }
    ensures next { IfOk result (λ found. found.1 ≡ at + 1) }
{
    match kind_at(tokens, at) {
        Kind::Text(text) => {
            if is_uid(text) {
                return Err(fault_at(tokens, at, FaultKind::Unsupported(Form::UidPath)));
            }
            let place = place_at(tokens, at);
            let text = text.clone()?;
            Ok((PathText { place, text }, skip(tokens, at)))
        }
        _ => Err(refuse(tokens, at, sought)),
    }
}
