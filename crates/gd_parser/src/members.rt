// Bases, enums, and the members that hold no class.
ghost use Rattle.std.specs.Prelude.{◌≡◌, ◌≢◌, ◌+◌, ◌-◌, ◌<◌, ◌≤◌, [], length, None, Some, IfOk};
ghost use Rattle.std.specs.List.{list_any};
ghost use Rattle.gd_syntax.specs.Reading.{Read, Answers, Look, Loop};
ghost use Rattle.gd_syntax.specs.TokenReading.{IsEnded, OneOf, Item, mark_at, place_at};
ghost use Rattle.gd_syntax.specs.MemberGrammar as spec;

use crate::declarations::{const_, is_field_word, new_name, optional_value, var};
use crate::functions::{func, signal};
use gd_exprs::reader::{any_name, due, kind_at, place_at, refuse, sees, skip};
use gd_syntax::{
    Annotation, Base, BaseRoot, Enum, EnumItem, Identifier, Kind, Mark, Member, Name, Place,
    SolveError, Sought, Token,
};
use std::alloc::Global;
use tree_lists::Items;

/// The text or the name that begins a base is due.
fn root(tokens: &[Token], at: usize) -> Result<(BaseRoot, usize), SolveError>
    requires within { at < length tokens.now }
    requires ended { IsEnded tokens.now }
    ensures reads { Answers (λ found. Read found.0 found.1) result (OneOf tokens.now spec.root_of Sought.Other at) }
    ensures within { IfOk result (λ found. found.1 < length tokens.now) }
    ensures next { IfOk result (λ found. found.1 ≡ at + 1) }
{
    match kind_at(tokens, at) {
        Kind::Text(text) => {
            let path = text.clone()?;
            Ok((BaseRoot::Path(path), skip(tokens, at)))
        }
        Kind::Name(name) => {
            let name = name.clone()?;
            Ok((BaseRoot::Name(name), skip(tokens, at)))
        }
        _ => Err(refuse(tokens, at, Sought::Other)),
    }
}

/// The names of inner classes behind the root of a base, each behind a dot.
fn base_names(
    alloc: Global,
    tokens: &[Token],
    start: usize,
) -> Result<(Items<Name>, usize), SolveError>
    requires within { start < length tokens.now }
    requires ended { IsEnded tokens.now }
    ensures reads { Answers (λ found. Read found.0 found.1) result (Loop (λ sofar. Look (mark_at tokens.now) (spec.base_by tokens.now sofar)) [] start) }
    ensures within { IfOk result (λ found. found.1 < length tokens.now) }
    ensures after { IfOk result (λ found. start ≤ found.1) }
{
    let mut names = Items::new(alloc);
    let mut at = start;
    'names: while sees(tokens, at, Mark::Dot) {
        let (name, next) = any_name(tokens, skip(tokens, at), Sought::Other)?;
        names.push(name)?;
        at = next;
    }
    Ok((names, at))
}

/// What a class extends, behind `extends`.
pub fn base(alloc: Global, tokens: &[Token], at: usize) -> Result<(Base, usize), SolveError>
    requires within { at < length tokens.now }
    requires ended { IsEnded tokens.now }
    ensures reads { Answers (λ found. Read found.0 found.1) result (spec.base tokens.now at) }
    ensures within { IfOk result (λ found. found.1 < length tokens.now) }
    ensures after { IfOk result (λ found. at < found.1) }
{
    let place = place_at(tokens, at);
    let (first, next) = root(tokens, at)?;
    let (names, end) = base_names(alloc, tokens, next)?;
    Ok((
        Base {
            place,
            root: first,
            names,
        },
        end,
    ))
}

/// `extends` and its base, which may be missing.
pub fn optional_base(
    alloc: Global,
    tokens: &[Token],
    at: usize,
) -> Result<(Option<Base>, usize), SolveError>
    requires within { at < length tokens.now }
    requires ended { IsEnded tokens.now }
    ensures reads { Answers (λ found. Read found.0 found.1) result (Look (mark_at tokens.now) (spec.extends_by tokens.now) at) }
    ensures within { IfOk result (λ found. found.1 < length tokens.now) }
    ensures after { IfOk result (λ found. at ≤ found.1) }
{
    if !sees(tokens, at, Mark::Extends) {
        return Ok((None, at));
    }
    let (tree, next) = base(alloc, tokens, skip(tokens, at))?;
    Ok((Some(tree), next))
}

/// A name and its value, which may be missing.
fn enum_item(alloc: Global, tokens: &[Token], at: usize) -> Result<(EnumItem, usize), SolveError>
    requires within { at < length tokens.now }
    requires ended { IsEnded tokens.now }
    ensures reads { Answers (λ found. Read found.0 found.1) result (spec.item tokens.now at) }
    ensures within { IfOk result (λ found. found.1 < length tokens.now) }
    ensures after { IfOk result (λ found. at < found.1) }
{
    let (name, next) = new_name(tokens, at)?;
    let (value, end) = optional_value(alloc, tokens, next)?;
    Ok((EnumItem { name, value }, end))
}

fn enum_items(
    alloc: Global,
    tokens: &[Token],
    start: usize,
) -> Result<(Items<EnumItem>, usize), SolveError>
    requires within { start < length tokens.now }
    requires ended { IsEnded tokens.now }
    ensures reads { Answers (λ found. Read found.0 found.1) result (Loop (Item tokens.now (spec.item tokens.now) Mark.RBrace) [] start) }
    ensures within { IfOk result (λ found. found.1 < length tokens.now) }
    ensures after { IfOk result (λ found. start ≤ found.1) }
{
    let mut items = Items::new(alloc);
    let mut at = start;
    'items: while !sees(tokens, at, Mark::RBrace) {
        let (item, next) = enum_item(alloc, tokens, at)?;
        items.push(item)?;
        at = next;
        let goes_on = sees(tokens, at, Mark::Comma);
        if !goes_on {
            return Ok((items, at));
        }
        at = skip(tokens, at);
    }
    Ok((items, at))
}

/// The name of an enum, which may be missing.
fn enum_name(tokens: &[Token], at: usize) -> Result<(Option<Identifier>, usize), SolveError>
    requires within { at < length tokens.now }
    requires ended { IsEnded tokens.now }
    ensures reads { Answers (λ found. Read found.0 found.1) result (spec.enum_name tokens.now at) }
    ensures within { IfOk result (λ found. found.1 < length tokens.now) }
    ensures after { IfOk result (λ found. at ≤ found.1) }
{
    match kind_at(tokens, at) {
        Kind::Name(name) => {
            let place = place_at(tokens, at);
            let name = name.clone()?;
            Ok((Some(Identifier { place, name }), skip(tokens, at)))
        }
        _ => Ok((None, at)),
    }
}

/// An enum from its keyword on.
fn enum_tree(
    alloc: Global,
    tokens: &[Token],
    at: usize,
    place: Place,
) -> Result<(Enum, usize), SolveError>
    requires within { at < length tokens.now }
    requires ended { IsEnded tokens.now }
    requires begins { mark_at tokens.now at ≡ Some Mark.Enum }
    ensures reads { Answers (λ found. Read found.0 found.1) result (spec.enum tokens.now place at) }
    ensures within { IfOk result (λ found. found.1 < length tokens.now) }
    ensures after { IfOk result (λ found. at < found.1) }
{
    let (name, open) = enum_name(tokens, skip(tokens, at))?;
    let first = due(tokens, open, Sought::Other, Mark::LBrace)?;
    let (items, close) = enum_items(alloc, tokens, first)?;
    let end = due(tokens, close, Sought::Other, Mark::RBrace)?;
    Ok((Enum { place, name, items }, end))
}

/// Whether an annotation of a variable is among them.
pub fn has_field_annotation(annotations: &Items<Annotation>) -> bool
    ensures { result ≡ list_any spec.is_field_annotation annotations.now }
{
    annotations
        .as_slice()
        .iter()
        .any(|a| is_field_word(&a.name))
}

fn var_line(
    alloc: Global,
    tokens: &[Token],
    at: usize,
    place: Place,
    before: Items<Annotation>,
) -> Result<(Member, usize), SolveError>
    requires within { at < length tokens.now }
    requires ended { IsEnded tokens.now }
    requires begins { mark_at tokens.now at ≡ Some Mark.Var }
    ensures reads { Answers (λ found. Read found.0 found.1) result (spec.annotated tokens.now place before at) }
    ensures within { IfOk result (λ found. found.1 < length tokens.now) }
    ensures after { IfOk result (λ found. at < found.1) }
{
    let (tree, end) = var(alloc, tokens, at, place, before)?;
    let next = due(tokens, end, Sought::Other, Mark::Newline)?;
    Ok((Member::Var(tree), next))
}

fn plain_func(
    alloc: Global,
    tokens: &[Token],
    at: usize,
    place: Place,
    before: Items<Annotation>,
) -> Result<(Member, usize), SolveError>
    requires within { at < length tokens.now }
    requires ended { IsEnded tokens.now }
    requires begins { mark_at tokens.now at ≡ Some Mark.Func }
    ensures reads { Answers (λ found. Read found.0 found.1) result (spec.annotated tokens.now place before at) }
    ensures within { IfOk result (λ found. found.1 < length tokens.now) }
    ensures after { IfOk result (λ found. at < found.1) }
{
    if has_field_annotation(&before) {
        return Err(refuse(tokens, at, Sought::Other));
    }
    let (tree, next) = func(alloc, tokens, skip(tokens, at), place, before, false)?;
    Ok((Member::Func(tree), next))
}

fn static_func(
    alloc: Global,
    tokens: &[Token],
    at: usize,
    place: Place,
    before: Items<Annotation>,
) -> Result<(Member, usize), SolveError>
    requires within { at < length tokens.now }
    requires ended { IsEnded tokens.now }
    requires begins { mark_at tokens.now at ≡ Some Mark.Static }
    ensures reads { Answers (λ found. Read found.0 found.1) result (spec.annotated tokens.now place before at) }
    ensures within { IfOk result (λ found. found.1 < length tokens.now) }
    ensures after { IfOk result (λ found. at < found.1) }
{
    if has_field_annotation(&before) {
        return Err(refuse(tokens, at, Sought::Other));
    }
    let name = due(tokens, skip(tokens, at), Sought::StaticFunc, Mark::Func)?;
    let (tree, next) = func(alloc, tokens, name, place, before, true)?;
    Ok((Member::Func(tree), next))
}

/// The variable or function behind its annotations. `place` is that of the first token of all.
pub fn annotated(
    alloc: Global,
    tokens: &[Token],
    at: usize,
    place: Place,
    before: Items<Annotation>,
) -> Result<(Member, usize), SolveError>
    requires within { at < length tokens.now }
    requires ended { IsEnded tokens.now }
    ensures reads { Answers (λ found. Read found.0 found.1) result (spec.annotated tokens.now place before at) }
    ensures within { IfOk result (λ found. found.1 < length tokens.now) }
    ensures after { IfOk result (λ found. at < found.1) }
{
    if sees(tokens, at, Mark::Var) {
        return var_line(alloc, tokens, at, place, before);
    }
    if sees(tokens, at, Mark::Func) {
        return plain_func(alloc, tokens, at, place, before);
    }
    if sees(tokens, at, Mark::Static) {
        return static_func(alloc, tokens, at, place, before);
    }
    Err(refuse(tokens, at, Sought::Other))
}

/// `pass` as a member.
pub fn pass_line(tokens: &[Token], at: usize) -> Result<(Member, usize), SolveError>
    requires within { at < length tokens.now }
    requires ended { IsEnded tokens.now }
    requires begins { mark_at tokens.now at ≡ Some Mark.Pass }
    ensures reads { Answers (λ found. Read found.0 found.1) result (spec.pass tokens.now (place_at tokens.now at) at) }
    ensures within { IfOk result (λ found. found.1 < length tokens.now) }
    ensures after { IfOk result (λ found. at < found.1) }
{
    let place = place_at(tokens, at);
    let next = due(tokens, skip(tokens, at), Sought::Other, Mark::Newline)?;
    Ok((Member::Pass(place), next))
}

/// A constant as a member.
pub fn const_line(alloc: Global, tokens: &[Token], at: usize) -> Result<(Member, usize), SolveError>
    requires within { at < length tokens.now }
    requires ended { IsEnded tokens.now }
    requires begins { mark_at tokens.now at ≡ Some Mark.Const }
    ensures reads { Answers (λ found. Read found.0 found.1) result (spec.const_line tokens.now (place_at tokens.now at) at) }
    ensures within { IfOk result (λ found. found.1 < length tokens.now) }
    ensures after { IfOk result (λ found. at < found.1) }
{
    let place = place_at(tokens, at);
    let (tree, end) = const_(alloc, tokens, at, place)?;
    let next = due(tokens, end, Sought::Other, Mark::Newline)?;
    Ok((Member::Const(tree), next))
}

/// An enum as a member.
pub fn enum_line(alloc: Global, tokens: &[Token], at: usize) -> Result<(Member, usize), SolveError>
    requires within { at < length tokens.now }
    requires ended { IsEnded tokens.now }
    requires begins { mark_at tokens.now at ≡ Some Mark.Enum }
    ensures reads { Answers (λ found. Read found.0 found.1) result (spec.enum_line tokens.now (place_at tokens.now at) at) }
    ensures within { IfOk result (λ found. found.1 < length tokens.now) }
    ensures after { IfOk result (λ found. at < found.1) }
{
    let place = place_at(tokens, at);
    let (tree, end) = enum_tree(alloc, tokens, at, place)?;
    let next = due(tokens, end, Sought::Other, Mark::Newline)?;
    Ok((Member::Enum(tree), next))
}

/// A signal as a member.
pub fn signal_line(
    alloc: Global,
    tokens: &[Token],
    at: usize,
) -> Result<(Member, usize), SolveError>
    requires within { at < length tokens.now }
    requires ended { IsEnded tokens.now }
    requires begins { mark_at tokens.now at ≡ Some Mark.Signal }
    ensures reads { Answers (λ found. Read found.0 found.1) result (spec.signal_line tokens.now (place_at tokens.now at) at) }
    ensures within { IfOk result (λ found. found.1 < length tokens.now) }
    ensures after { IfOk result (λ found. at < found.1) }
{
    let place = place_at(tokens, at);
    let (tree, end) = signal(alloc, tokens, at, place)?;
    let next = due(tokens, end, Sought::Other, Mark::Newline)?;
    Ok((Member::Signal(tree), next))
}
