// The parts of what is printed, in their order.

use gd_syntax::{Expr, Identifier, Literal, Member, Name, Pattern, Place, Simple, Stmt, TypeName};
use std::alloc::AllocError;

/// A part of what is printed. A tree is printed as the parts that it gives.
#[derive(Clone, Copy)]
pub enum Part<'a> {
    Word(&'a str),
    Quoted(&'a str),
    Value(&'a Literal),
    /// a place that is always printed
    Place(Place),
    /// a place that is printed where each place is asked for
    Detail(Place),
    /// names with a sign between them
    Names(&'a [Name], &'a str),
    Type(&'a TypeName),
    Expr(&'a Expr),
    Pattern(&'a Pattern),
    Simple(&'a Simple),
    Stmt(&'a Stmt),
    Member(&'a Member),
}

pub type Parts<'a> = Vec<Part<'a>>;

pub fn put<'a>(out: &mut Parts<'a>, parts: &[Part<'a>]) -> Result<(), AllocError> {
    out.extend_from_slice(parts)
}

/// A name with its place.
pub fn put_identifier<'a>(out: &mut Parts<'a>, name: &'a Identifier) -> Result<(), AllocError> {
    put(
        out,
        &[Part::Detail(name.place), Part::Word(name.name.as_str())],
    )
}

/// A word before a part that may be missing.
pub fn put_value<'a>(
    out: &mut Parts<'a>,
    before: &'a str,
    value: &'a Option<Expr>,
) -> Result<(), AllocError> {
    match value {
        Some(value) => put(out, &[Part::Word(before), Part::Expr(value)]),
        None => Ok(()),
    }
}

/// A word before a type that may be missing.
pub fn put_type<'a>(
    out: &mut Parts<'a>,
    before: &'a str,
    kind: &'a Option<TypeName>,
) -> Result<(), AllocError> {
    match kind {
        Some(kind) => put(out, &[Part::Word(before), Part::Type(kind)]),
        None => Ok(()),
    }
}
