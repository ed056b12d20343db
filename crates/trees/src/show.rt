// From the parts of a tree to its text.

use crate::expressions::{put_expr, put_type_name};
use crate::members::put_member;
use crate::part::{Part, Parts};
use crate::patterns::put_pattern;
use crate::places::push_place;
use crate::statements::{put_simple, put_stmt};
use case_files::push_quoted;
use gd_syntax::{Literal, Name, Place};
use std::alloc::{AllocError, Global};
use std::fmt::Write;

fn push_place_before(out: &mut String, place: Place) -> Result<(), AllocError> {
    push_place(out, place)?;
    out.push(' ')
}

fn push_names(out: &mut String, names: &[Name], sign: &str) -> Result<(), AllocError> {
    let mut before = "";
    for name in names {
        out.push_str(before)?;
        out.push_str(name.as_str())?;
        before = sign;
    }
    Ok(())
}

fn push_literal(out: &mut String, value: &Literal) -> Result<(), AllocError> {
    match value {
        Literal::Null => out.push_str("null"),
        Literal::Bool(value) => write!(out, "{value}"),
        Literal::Int(value) => write!(out, "{value}"),
        Literal::Text(text) => push_quoted(out, text.as_str()),
    }
}

/// Writes a part, or lists the parts that it gives.
fn push_part<'a>(
    out: &mut String,
    inner: &mut Parts<'a>,
    part: Part<'a>,
    with_places: bool,
) -> Result<(), AllocError> {
    match part {
        Part::Word(word) => out.push_str(word),
        Part::Quoted(text) => push_quoted(out, text),
        Part::Value(value) => push_literal(out, value),
        Part::Place(place) => push_place_before(out, place),
        Part::Detail(place) if with_places => push_place_before(out, place),
        Part::Detail(_) => Ok(()),
        Part::Names(names, sign) => push_names(out, names, sign),
        Part::Type(tree) => put_type_name(inner, tree),
        Part::Expr(tree) => put_expr(inner, tree),
        Part::Pattern(tree) => put_pattern(inner, tree),
        Part::Simple(tree) => put_simple(inner, tree),
        Part::Stmt(tree) => put_stmt(inner, tree),
        Part::Member(tree) => put_member(inner, tree),
    }
}

/// Moves parts to the front of those that are left, whose first one stands at the end.
fn move_parts<'a>(rest: &mut Parts<'a>, parts: &mut Parts<'a>) -> Result<(), AllocError> {
    for _ in 0..parts.len() {
        if let Some(part) = parts.pop() {
            rest.push(part)?;
        }
    }
    Ok(())
}

/// The text of parts. A tree may be as deep as it likes: no call goes down it.
pub fn text_of(
    alloc: Global,
    parts: &mut Parts<'_>,
    with_places: bool,
) -> Result<String, AllocError> {
    let mut out = String::new(alloc);
    let mut rest = Vec::new(alloc);
    move_parts(&mut rest, parts)?;
    for _ in 0..u64::MAX {
        let Some(part) = rest.pop() else {
            break;
        };
        push_part(&mut out, parts, part, with_places)?;
        move_parts(&mut rest, parts)?;
    }
    Ok(out)
}
