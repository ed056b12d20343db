// Annotations, variables and constants, which classes and blocks share.
ghost use Rattle.std.specs.Prelude.{◌≡◌, ◌≢◌, ◌+◌, ◌-◌, ◌<◌, ◌≤◌, [], ◌∷◌, length, Some, IfOk};
ghost use Rattle.gd_syntax.specs.Reading.{Read, Answers, Look, Loop};
ghost use Rattle.gd_syntax.specs.TokenReading.{IsEnded, OneOf, Item, list, mark_at, place_at};
ghost use Rattle.gd_syntax.specs.DeclarationGrammar as spec;
ghost use Rattle.gd_parser.specs.Annotations.{may};

use gd_exprs::reader::{any_name, due, kind_at, place_at, refuse, sees, skip};
use gd_exprs::{expression, type_name};
use gd_syntax::{
    Annotation, Const, Declared, Expr, Identifier, Kind, Mark, Name, Place, SolveError, Sought,
    Token, TypeName, Var,
};
use std::alloc::Global;
use tree_lists::Items;

/// What annotations stand before.
#[derive(Clone, Copy, Debug, PartialEq, Eq)]
pub enum Owner {
    Statement,
    Member,
    /// A head or the first member of a file.
    File {
        /// whether an annotation of a variable stands before this one
        behind_field: bool,
        /// whether one of a file does
        behind_head: bool,
    },
}

/// Whether an annotation of this name belongs to the file.
pub fn is_head_word(name: &Name) -> bool
    ensures { result ≡ spec.is_head_word name.now }
{
    name.is_word("tool") || name.is_word("icon")
}

/// Whether an annotation of this name belongs to a variable of a class.
pub fn is_field_word(name: &Name) -> bool
    ensures { result ≡ spec.is_field_word name.now }
{
    name.is_word("export") || name.is_word("onready")
}

fn is_ignore_word(name: &Name) -> bool
    ensures { result ≡ spec.is_ignore_word name.now }
{
    name.is_word("warning_ignore")
}

fn may_be(owner: Owner, name: &Name) -> bool
    ensures { result ≡ may owner name.now }
{
    match owner {
        Owner::Statement => is_ignore_word(name),
        Owner::Member => is_field_word(name) || is_ignore_word(name),
        Owner::File {
            behind_field,
            behind_head,
        } => {
            is_ignore_word(name)
                || is_head_word(name) && !behind_field
                || is_field_word(name) && !behind_head
        }
    }
}

/// An expression that is part of no form.
pub fn expr(alloc: Global, tokens: &[Token], at: usize) -> Result<(Expr, usize), SolveError>
    requires within { at < length tokens.now }
    requires ended { IsEnded tokens.now }
    ensures reads { Answers (λ found. Read found.0 found.1) result (spec.expr tokens.now at) }
    ensures within { IfOk result (λ found. found.1 < length tokens.now) }
    ensures after { IfOk result (λ found. at < found.1) }
{
    expression(alloc, tokens, at, 0)
}

/// A name that is declared, which may be any.
pub fn new_name(tokens: &[Token], at: usize) -> Result<(Identifier, usize), SolveError>
    requires within { at < length tokens.now }
    requires ended { IsEnded tokens.now }
    ensures reads { Answers (λ found. Read found.0 found.1) result (spec.new_name tokens.now at) }
    ensures within { IfOk result (λ found. found.1 < length tokens.now) }
    ensures next { IfOk result (λ found. found.1 ≡ at + 1) }
{
    let place = place_at(tokens, at);
    let (name, next) = any_name(tokens, at, Sought::Other)?;
    Ok((Identifier { place, name }, next))
}

/// `: Type`, which may be missing.
pub fn optional_type(
    alloc: Global,
    tokens: &[Token],
    at: usize,
    sought: Sought,
) -> Result<(Option<TypeName>, usize), SolveError>
    requires within { at < length tokens.now }
    requires ended { IsEnded tokens.now }
    ensures reads { Answers (λ found. Read found.0 found.1) result (Look (mark_at tokens.now) (spec.type_by tokens.now sought) at) }
    ensures within { IfOk result (λ found. found.1 < length tokens.now) }
    ensures after { IfOk result (λ found. at ≤ found.1) }
{
    if !sees(tokens, at, Mark::Colon) {
        return Ok((None, at));
    }
    let (kind, next) = type_name(alloc, tokens, skip(tokens, at), sought)?;
    Ok((Some(kind), next))
}

/// `= value`, which may be missing.
pub fn optional_value(
    alloc: Global,
    tokens: &[Token],
    at: usize,
) -> Result<(Option<Expr>, usize), SolveError>
    requires within { at < length tokens.now }
    requires ended { IsEnded tokens.now }
    ensures reads { Answers (λ found. Read found.0 found.1) result (Look (mark_at tokens.now) (spec.value_by tokens.now) at) }
    ensures within { IfOk result (λ found. found.1 < length tokens.now) }
    ensures after { IfOk result (λ found. at ≤ found.1) }
{
    if !sees(tokens, at, Mark::Assign) {
        return Ok((None, at));
    }
    let (value, next) = expr(alloc, tokens, skip(tokens, at))?;
    Ok((Some(value), next))
}

/// `: Type = value`, where each part may be missing.
fn typed(
    alloc: Global,
    tokens: &[Token],
    at: usize,
    sought: Sought,
) -> Result<(Declared, usize), SolveError>
    requires within { at < length tokens.now }
    requires ended { IsEnded tokens.now }
    requires typed { mark_at tokens.now at ≢ Some Mark.ColonAssign }
    ensures reads { Answers (λ found. Read found.0 found.1) result (spec.declared tokens.now sought at) }
    ensures within { IfOk result (λ found. found.1 < length tokens.now) }
    ensures after { IfOk result (λ found. at ≤ found.1) }
{
    let (kind, middle) = optional_type(alloc, tokens, at, sought)?;
    let (value, next) = optional_value(alloc, tokens, middle)?;
    Ok((Declared::Typed(kind, value), next))
}

/// What a variable or a parameter is declared to be, behind its name.
pub fn declared(
    alloc: Global,
    tokens: &[Token],
    at: usize,
    sought: Sought,
) -> Result<(Declared, usize), SolveError>
    requires within { at < length tokens.now }
    requires ended { IsEnded tokens.now }
    ensures reads { Answers (λ found. Read found.0 found.1) result (spec.declared tokens.now sought at) }
    ensures within { IfOk result (λ found. found.1 < length tokens.now) }
    ensures after { IfOk result (λ found. at ≤ found.1) }
{
    if !sees(tokens, at, Mark::ColonAssign) {
        return typed(alloc, tokens, at, sought);
    }
    let (value, next) = expr(alloc, tokens, skip(tokens, at))?;
    Ok((Declared::Inferred(value), next))
}

/// The name of an annotation is due.
fn annotation_name(tokens: &[Token], at: usize, owner: Owner) -> Result<(Name, usize), SolveError>
    requires within { at < length tokens.now }
    requires ended { IsEnded tokens.now }
    ensures reads { Answers (λ found. Read found.0 found.1) result (OneOf tokens.now (spec.annotation_word (may owner)) Sought.AnnotationName at) }
    ensures within { IfOk result (λ found. found.1 < length tokens.now) }
    ensures next { IfOk result (λ found. found.1 ≡ at + 1) }
{
    match kind_at(tokens, at) {
        Kind::Name(name) => {
            if !may_be(owner, name) {
                return Err(refuse(tokens, at, Sought::AnnotationName));
            }
            let name = name.clone()?;
            Ok((name, skip(tokens, at)))
        }
        _ => Err(refuse(tokens, at, Sought::AnnotationName)),
    }
}

/// Expressions up to a closing bracket.
fn args_before(
    alloc: Global,
    tokens: &[Token],
    start: usize,
) -> Result<(Items<Expr>, usize), SolveError>
    requires within { start < length tokens.now }
    requires ended { IsEnded tokens.now }
    ensures reads { Answers (λ found. Read found.0 found.1) result (Loop (Item tokens.now (spec.expr tokens.now) Mark.RParen) [] start) }
    ensures within { IfOk result (λ found. found.1 < length tokens.now) }
    ensures after { IfOk result (λ found. start ≤ found.1) }
{
    let mut items = Items::new(alloc);
    let mut at = start;
    'items: while !sees(tokens, at, Mark::RParen) {
        let (item, next) = expr(alloc, tokens, at)?;
        items.push(item)?;
        at = next;
        let goes_on = sees(tokens, at, Mark::Comma);
        if !goes_on {
            return Ok((items, at));
        }
        at = skip(tokens, at);
    }
    Ok((items, at))
}

/// The arguments of an annotation, which may be missing.
fn optional_args(
    alloc: Global,
    tokens: &[Token],
    at: usize,
) -> Result<(Items<Expr>, usize), SolveError>
    requires within { at < length tokens.now }
    requires ended { IsEnded tokens.now }
    ensures reads { Answers (λ found. Read found.0 found.1) result (Look (mark_at tokens.now) (spec.args_by tokens.now) at) }
    ensures within { IfOk result (λ found. found.1 < length tokens.now) }
    ensures after { IfOk result (λ found. at ≤ found.1) }
{
    if !sees(tokens, at, Mark::LParen) {
        return Ok((Items::new(alloc), at));
    }
    let (items, end) = args_before(alloc, tokens, skip(tokens, at))?;
    let next = due(tokens, end, Sought::Other, Mark::RParen)?;
    Ok((items, next))
}

/// Past a line's end, which may be missing.
fn line_end(tokens: &[Token], at: usize) -> usize
    requires within { at < length tokens.now }
    requires ended { IsEnded tokens.now }
    ensures reads { Look (mark_at tokens.now) (spec.line_end_by tokens.now) at (Read tt result) }
    ensures within { result < length tokens.now }
    ensures after { at ≤ result }
{
    if sees(tokens, at, Mark::Newline) {
        skip(tokens, at)
    } else {
        at
    }
}

/// An annotation from its `@` on, with the line's end that may follow.
pub fn annot(
    alloc: Global,
    tokens: &[Token],
    at: usize,
    owner: Owner,
) -> Result<(Annotation, usize), SolveError>
    requires within { at < length tokens.now }
    requires ended { IsEnded tokens.now }
    requires begins { mark_at tokens.now at ≡ Some Mark.At }
    ensures reads { Answers (λ found. Read found.0 found.1) result (spec.annot tokens.now (may owner) at) }
    ensures within { IfOk result (λ found. found.1 < length tokens.now) }
    ensures after { IfOk result (λ found. at < found.1) }
{
    let place = place_at(tokens, at);
    let (name, next) = annotation_name(tokens, skip(tokens, at), owner)?;
    let (args, end) = optional_args(alloc, tokens, next)?;
    let next = line_end(tokens, end);
    Ok((Annotation { place, name, args }, next))
}

/// The annotations before a member or a statement.
pub fn annots(
    alloc: Global,
    tokens: &[Token],
    start: usize,
    owner: Owner,
) -> Result<(Items<Annotation>, usize), SolveError>
    requires within { start < length tokens.now }
    requires ended { IsEnded tokens.now }
    ensures reads { Answers (λ found. Read found.0 found.1) result (spec.annots tokens.now (may owner) start) }
    ensures within { IfOk result (λ found. found.1 < length tokens.now) }
    ensures after { IfOk result (λ found. start ≤ found.1) }
{
    let mut all = Items::new(alloc);
    let mut at = start;
    'annotations: while sees(tokens, at, Mark::At) {
        let (annotation, next) = annot(alloc, tokens, at, owner)?;
        all.push(annotation)?;
        at = next;
    }
    Ok((all, at))
}

/// The variable is read, where no `:` follows, which would begin a property.
fn var_end(tokens: &[Token], at: usize, tree: Var) -> Result<(Var, usize), SolveError>
    requires within { at < length tokens.now }
    requires ended { IsEnded tokens.now }
    ensures reads { Answers (λ found. Read found.0 found.1) result (Look (mark_at tokens.now) (spec.var_end_by tokens.now tree) at) }
    ensures within { IfOk result (λ found. found.1 < length tokens.now) }
    ensures after { IfOk result (λ found. at ≤ found.1) }
{
    if sees(tokens, at, Mark::Colon) {
        return Err(refuse(tokens, at, Sought::VarEnd));
    }
    Ok((tree, at))
}

/// A variable from `var` on, behind its annotations. `place` is that of the first token of all.
pub fn var(
    alloc: Global,
    tokens: &[Token],
    at: usize,
    place: Place,
    annotations: Items<Annotation>,
) -> Result<(Var, usize), SolveError>
    requires within { at < length tokens.now }
    requires ended { IsEnded tokens.now }
    requires begins { mark_at tokens.now at ≡ Some Mark.Var }
    ensures reads { Answers (λ found. Read found.0 found.1) result (spec.var tokens.now place annotations at) }
    ensures within { IfOk result (λ found. found.1 < length tokens.now) }
    ensures after { IfOk result (λ found. at < found.1) }
{
    let (name, next) = new_name(tokens, skip(tokens, at))?;
    let (what, end) = declared(alloc, tokens, next, Sought::VarType)?;
    let tree = Var {
        place,
        annotations,
        name,
        declared: what,
    };
    var_end(tokens, end, tree)
}

/// `=` or `:=` is due, of which the tree of a constant tells nothing.
fn const_sign(tokens: &[Token], at: usize) -> Result<usize, SolveError>
    requires within { at < length tokens.now }
    requires ended { IsEnded tokens.now }
    ensures reads { Answers (λ next. Read tt next) result (OneOf tokens.now spec.const_sign Sought.Other at) }
    ensures within { IfOk result (λ next. next < length tokens.now) }
    ensures next { IfOk result (λ next. next ≡ at + 1) }
{
    if sees(tokens, at, Mark::Assign) {
        return Ok(skip(tokens, at));
    }
    if sees(tokens, at, Mark::ColonAssign) {
        return Ok(skip(tokens, at));
    }
    Err(refuse(tokens, at, Sought::Other))
}

/// A constant from `const` on.
pub fn const_(
    alloc: Global,
    tokens: &[Token],
    at: usize,
    place: Place,
) -> Result<(Const, usize), SolveError>
    requires within { at < length tokens.now }
    requires ended { IsEnded tokens.now }
    requires begins { mark_at tokens.now at ≡ Some Mark.Const }
    ensures reads { Answers (λ found. Read found.0 found.1) result (spec.const tokens.now place at) }
    ensures within { IfOk result (λ found. found.1 < length tokens.now) }
    ensures after { IfOk result (λ found. at < found.1) }
{
    let (name, next) = new_name(tokens, skip(tokens, at))?;
    let (kind, sign) = optional_type(alloc, tokens, next, Sought::Other)?;
    let value_at = const_sign(tokens, sign)?;
    let (value, end) = expr(alloc, tokens, value_at)?;
    Ok((
        Const {
            place,
            name,
            type_name: kind,
            value,
        },
        end,
    ))
}
