// What the text of a case is read as.
ghost use Rattle.std.specs.Prelude.{◌≤◌, length};
ghost use Rattle.gd_syntax.specs.TokenReading.{IsEnded};

use crate::cases::{Case, Detail, Kind};
use crate::fronts::front_kinds;
use crate::members::put_script;
use crate::part::{Part, put};
use crate::places::{fault_text, place_text, push_place};
use crate::show::text_of;
use case_files::{Stop, bytes_of, push_quoted};
use gd_exprs::{MAX_LEVELS, expression, result_type, type_name};
use gd_header::{header, header_end};
use gd_parser::parse;
use gd_syntax::{
    Expr, Kind as TokenKind, Mark, Place, Script, SolveError, Sought, Token, TypeName,
};
use gd_tokens::tokens;
use std::alloc::{AllocError, Global};
use std::fmt::Write;

/// The greatest length of a file, in bytes.
pub const MAX_BYTES: usize = 1_048_576;

pub fn error_text(alloc: Global, error: SolveError) -> Result<String, Stop> {
    match error {
        SolveError::Fault(fault) => Ok(fault_text(alloc, fault)?),
        SolveError::NoMemory => Err(Stop::NoMemory),
    }
}

fn number_text(alloc: Global, number: usize) -> Result<String, Stop> {
    Ok(format!(in alloc; "{number}")?)
}

fn mark_word(mark: Mark) -> &'static str {
    match mark {
        Mark::Newline => "NL",
        Mark::Indent => "INDENT",
        Mark::Dedent => "DEDENT",
        Mark::End => "END",
        _ => mark.as_str(),
    }
}

fn push_token(out: &mut String, token: &Token) -> Result<(), AllocError> {
    match &token.kind {
        TokenKind::Mark(mark) => out.push_str(mark_word(*mark)),
        TokenKind::Name(name) => out.push_str(name.as_str()),
        TokenKind::Int(value) => write!(out, "{value}"),
        TokenKind::Text(text) => push_quoted(out, text.as_str()),
    }
}

/// Tokens with a blank between them, each behind its place where places are asked for.
fn tokens_text(alloc: Global, list: &[Token], with_places: bool) -> Result<String, AllocError> {
    let mut out = String::new(alloc);
    for token in list {
        if !out.is_empty() {
            out.push(' ')?;
        }
        if with_places {
            push_place(&mut out, token.place)?;
            out.push(' ')?;
        }
        push_token(&mut out, token)?;
    }
    Ok(out)
}

/// The global name behind its place.
fn name_text(alloc: Global, found: Option<(&str, Place)>) -> Result<String, AllocError> {
    let mut out = String::new(alloc);
    match found {
        Some((name, place)) => {
            push_place(&mut out, place)?;
            out.push(' ')?;
            out.push_str(name)?;
        }
        None => out.push_str("none")?,
    }
    Ok(out)
}

/// Behind ` | ` the place where a reading ended, where it did not end its line.
fn push_stop(out: &mut String, tokens: &[Token], at: usize) -> Result<(), AllocError> {
    match tokens.get(at) {
        Some(
            Token {
                kind: TokenKind::Mark(Mark::Newline),
                ..
            },
        )
        | None => Ok(()),
        Some(token) => {
            out.push_str(" | ")?;
            push_place(out, token.place)
        }
    }
}

/// The number of items of an array, a call or a dictionary.
fn size_of_tree(tree: &Expr) -> usize {
    match tree {
        Expr::Array(_, items) => items.len(),
        Expr::Call(_, _, items) => items.len(),
        Expr::Dict(_, items) => items.len(),
        _ => 0,
    }
}

fn shown_expression(alloc: Global, tree: &Expr, detail: Detail) -> Result<String, Stop> {
    if matches!(detail, Detail::Size) {
        return number_text(alloc, size_of_tree(tree));
    }
    let mut parts = Vec::new(alloc);
    put(&mut parts, &[Part::Expr(tree)])?;
    Ok(text_of(alloc, &mut parts, matches!(detail, Detail::Places))?)
}

fn expression_text(alloc: Global, tokens: &[Token], detail: Detail) -> Result<String, Stop>
    requires { IsEnded tokens.now }
{
    let depth = match detail {
        Detail::Number(depth) if depth <= MAX_LEVELS => depth,
        _ => 0,
    };
    match expression(alloc, tokens, 0, depth) {
        Ok((tree, at)) => {
            let mut out = shown_expression(alloc, &tree, detail)?;
            push_stop(&mut out, tokens, at)?;
            Ok(out)
        }
        Err(error) => error_text(alloc, error),
    }
}

fn type_text(
    alloc: Global,
    tokens: &[Token],
    found: Result<(TypeName, usize), SolveError>,
    with_places: bool,
) -> Result<String, Stop> {
    match found {
        Ok((tree, at)) => {
            let mut parts = Vec::new(alloc);
            put(&mut parts, &[Part::Type(&tree)])?;
            let mut out = text_of(alloc, &mut parts, with_places)?;
            push_stop(&mut out, tokens, at)?;
            Ok(out)
        }
        Err(error) => error_text(alloc, error),
    }
}

fn shown_script(alloc: Global, script: &Script, detail: Detail) -> Result<String, Stop> {
    if matches!(detail, Detail::Size) {
        return number_text(alloc, script.members.len());
    }
    let mut parts = Vec::new(alloc);
    put_script(&mut parts, script)?;
    Ok(text_of(alloc, &mut parts, matches!(detail, Detail::Places))?)
}

fn script_text(
    alloc: Global,
    tokens: &[Token],
    header_end: Place,
    detail: Detail,
) -> Result<String, Stop>
    requires { IsEnded tokens.now }
{
    match parse(alloc, tokens, header_end) {
        Ok(script) => shown_script(alloc, &script, detail),
        Err(error) => error_text(alloc, error),
    }
}

/// Where the header ends: before the line that the case names, or where the text says.
fn end_of_header(text: &[u8], detail: Detail) -> Place
    requires { length text.now ≤ 1048576 }
{
    match detail {
        Detail::Number(line) => Place { line, column: 1 },
        _ => header_end(text),
    }
}

fn shown_tokens(
    alloc: Global,
    tokens: &[Token],
    header_end: Place,
    case: Case<'_>,
) -> Result<String, Stop>
    requires { IsEnded tokens.now }
{
    let with_places = matches!(case.detail, Detail::Places);
    match case.kind {
        Kind::Tokens => Ok(tokens_text(alloc, tokens, with_places)?),
        Kind::Expression => expression_text(alloc, tokens, case.detail),
        Kind::Type => {
            let found = type_name(alloc, tokens, 0, Sought::Other);
            type_text(alloc, tokens, found, with_places)
        }
        Kind::Result => type_text(alloc, tokens, result_type(alloc, tokens, 0), with_places),
        Kind::Script | Kind::Body | Kind::Pattern => {
            script_text(alloc, tokens, header_end, case.detail)
        }
        Kind::Name | Kind::Header | Kind::Fronts => Err(Stop::BadCase),
    }
}

fn read_tokens(alloc: Global, text: &[u8], case: Case<'_>) -> Result<String, Stop>
    requires { length text.now ≤ 1048576 }
{
    match tokens(alloc, text) {
        Ok(list) => {
            let end = end_of_header(text, case.detail);
            shown_tokens(alloc, list.as_slice(), end, case)
        }
        Err(error) => error_text(alloc, error),
    }
}

fn read_text(alloc: Global, text: &[u8], case: Case<'_>) -> Result<String, Stop> {
    if text.len() > MAX_BYTES {
        return Err(Stop::BadCase);
    }
    match case.kind {
        Kind::Name => Ok(name_text(alloc, header(text))?),
        Kind::Header => Ok(place_text(alloc, header_end(text))?),
        Kind::Fronts => front_kinds(alloc, text),
        _ => read_tokens(alloc, text, case),
    }
}

/// What stands before and behind the text of a case.
fn frame(kind: Kind) -> (&'static str, &'static str) {
    match kind {
        Kind::Body => ("func f()", ""),
        Kind::Pattern => ("func f():\n\tmatch a:\n\t\t", ": pass\n"),
        _ => ("", ""),
    }
}

/// What a case gives.
pub fn answer(alloc: Global, case: Case<'_>) -> Result<String, Stop> {
    let (first, last) = frame(case.kind);
    let text = bytes_of(alloc, first, case.text, last)?;
    read_text(alloc, text.as_slice(), case)
}
