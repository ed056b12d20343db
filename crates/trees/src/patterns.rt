// Patterns. A path of names begins with `@`.

use crate::part::{Part, Parts, put, put_identifier};
use gd_syntax::{Name, Pattern, PatternEntry, Place};
use std::alloc::AllocError;

/// Patterns with a comma between them.
pub fn put_patterns<'a>(out: &mut Parts<'a>, items: &'a [Pattern]) -> Result<(), AllocError> {
    let mut before = "";
    for item in items {
        put(out, &[Part::Word(before), Part::Pattern(item)])?;
        before = ", ";
    }
    Ok(())
}

fn put_entry<'a>(out: &mut Parts<'a>, entry: &'a PatternEntry) -> Result<(), AllocError> {
    put(out, &[Part::Detail(entry.place), Part::Value(&entry.key)])?;
    match &entry.value {
        Some(value) => put(out, &[Part::Word(": "), Part::Pattern(value.get())]),
        None => Ok(()),
    }
}

fn put_entries<'a>(out: &mut Parts<'a>, items: &'a [PatternEntry]) -> Result<(), AllocError> {
    let mut before = "";
    for item in items {
        put(out, &[Part::Word(before)])?;
        put_entry(out, item)?;
        before = ", ";
    }
    Ok(())
}

/// `..` where more may follow, and the closing bracket.
fn put_end<'a>(
    out: &mut Parts<'a>,
    is_empty: bool,
    is_open: bool,
    closing: &'a str,
) -> Result<(), AllocError> {
    let more = match (is_open, is_empty) {
        (false, _) => "",
        (true, true) => "..",
        (true, false) => ", ..",
    };
    put(out, &[Part::Word(more), Part::Word(closing)])
}

fn put_path<'a>(out: &mut Parts<'a>, place: Place, names: &'a [Name]) -> Result<(), AllocError> {
    put(
        out,
        &[
            Part::Detail(place),
            Part::Word("@"),
            Part::Names(names, "."),
        ],
    )
}

pub fn put_pattern<'a>(out: &mut Parts<'a>, tree: &'a Pattern) -> Result<(), AllocError> {
    match tree {
        Pattern::Wildcard(place) => put(out, &[Part::Detail(*place), Part::Word("_")]),
        Pattern::Bind(place, name) => {
            put(out, &[Part::Detail(*place), Part::Word("var ")])?;
            put_identifier(out, name)
        }
        Pattern::Literal(place, is_negative, value) => {
            let sign = if *is_negative { "-" } else { "" };
            put(
                out,
                &[Part::Detail(*place), Part::Word(sign), Part::Value(value)],
            )
        }
        Pattern::Path(place, names) => put_path(out, *place, names.as_slice()),
        Pattern::Array(place, items, is_open) => {
            put(out, &[Part::Detail(*place), Part::Word("[")])?;
            put_patterns(out, items.as_slice())?;
            put_end(out, items.is_empty(), *is_open, "]")
        }
        Pattern::Dict(place, items, is_open) => {
            put(out, &[Part::Detail(*place), Part::Word("{")])?;
            put_entries(out, items.as_slice())?;
            put_end(out, items.is_empty(), *is_open, "}")
        }
    }
}
