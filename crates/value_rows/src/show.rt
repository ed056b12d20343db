// Values as they are printed.

use crate::classes::element_name;
use crate::conditions::is_given;
use crate::world::World;
use std::alloc::{AllocError, Global};
use std::fmt::Write;
use variant_values::cells::Cell;
use variant_values::classes::ElementTag;
use variant_values::entries::Entries;
use variant_values::values::{Key, Serial, Value};

/// How many levels of containers are printed.
const MOST_LEVELS: u32 = 4;

/// How many items of a container are printed, and how many where it has more.
const MOST_ITEMS: usize = 12;

const FIRST_ITEMS: usize = 3;

/// How long a string that is printed is.
const LONGEST_STRING: usize = 99;

/// A part of what is printed. A container is printed as the parts that it gives, with so many levels of containers in it.
#[derive(Clone, Copy)]
enum Part<'a> {
    Word(&'static str),
    Key(&'a Key),
    Value(&'a Value, u32),
    /// a container's number of items
    Count(usize),
    Element(ElementTag),
}

type Parts<'a> = Vec<Part<'a>>;

fn put<'a>(parts: &mut Parts<'a>, part: Part<'a>) -> Result<(), AllocError> {
    parts.push(part)?;
    Ok(())
}

fn push_character(out: &mut String, c: char) -> Result<(), AllocError> {
    match c {
        '\n' => out.push_str("\\n"),
        '\t' => out.push_str("\\t"),
        '\r' => out.push_str("\\r"),
        '\\' => out.push_str("\\\\"),
        '"' => out.push_str("\\\""),
        '\0'..='\x1f' | '\x7f'..='\u{a0}' => write!(out, "\\u{:04x}", u32::from(c)),
        _ => out.push(c),
    }
}

fn push_text(out: &mut String, text: &str) -> Result<(), AllocError> {
    if text.len() > LONGEST_STRING {
        return write!(out, "<{} bytes>", text.len());
    }
    out.push('"')?;
    for c in text.chars() {
        push_character(out, c)?;
    }
    out.push('"')
}

fn push_object(out: &mut String, world: &World, of: Serial) -> Result<(), AllocError> {
    if !is_given(&world.heap, of) {
        return out.push_str("<unknown>");
    }
    let class = match world.heap.cell(of) {
        Some(Cell::Object(o)) => match o.lineage.as_slice() {
            [class, ..] => world.classes.text(*class),
            [] => "",
        },
        _ => "freed",
    };
    write!(out, "<{}#{}>", class, of.0)
}

fn push_named(
    out: &mut String,
    world: &World,
    kind: &str,
    of: Serial,
    name: &str,
) -> Result<(), AllocError> {
    out.push_str(kind)?;
    push_object(out, world, of)?;
    out.push_str(", ")?;
    push_text(out, name)?;
    out.push(')')
}

fn put_items<'a>(
    parts: &mut Parts<'a>,
    items: &'a [Value],
    element: Option<ElementTag>,
    levels: u32,
) -> Result<(), AllocError> {
    if levels == 0 {
        return put(parts, Part::Word("[..]"));
    }
    put(
        parts,
        Part::Word(if element.is_some() { "typed([" } else { "[" }),
    )?;
    let shown = if items.len() > MOST_ITEMS {
        FIRST_ITEMS
    } else {
        items.len()
    };
    for (i, v) in items.iter().take(shown).enumerate() {
        if i > 0 {
            put(parts, Part::Word(", "))?;
        }
        put(parts, Part::Value(v, levels - 1))?;
    }
    if shown < items.len() {
        put(parts, Part::Count(items.len()))?;
    }
    put(parts, Part::Word("]"))?;
    match element {
        Some(element) => put(parts, Part::Element(element)),
        None => Ok(()),
    }
}

fn put_entries<'a>(
    parts: &mut Parts<'a>,
    entries: &'a Entries,
    levels: u32,
) -> Result<(), AllocError> {
    if levels == 0 {
        return put(parts, Part::Word("{..}"));
    }
    put(parts, Part::Word("{"))?;
    let shown = if entries.len() > MOST_ITEMS {
        FIRST_ITEMS
    } else {
        entries.len()
    };
    for i in 0..shown {
        let (key, v) = entries.entry_at(i);
        if i > 0 {
            put(parts, Part::Word(", "))?;
        }
        put(parts, Part::Key(key))?;
        put(parts, Part::Word(": "))?;
        put(parts, Part::Value(v, levels - 1))?;
    }
    if shown < entries.len() {
        put(parts, Part::Count(entries.len()))?;
    }
    put(parts, Part::Word("}"))
}

fn put_container<'a>(
    parts: &mut Parts<'a>,
    world: &'a World,
    of: Serial,
    levels: u32,
) -> Result<(), AllocError> {
    if !is_given(&world.heap, of) {
        return put(parts, Part::Word("<unknown>"));
    }
    match world.heap.cell(of) {
        Some(Cell::Array(items, element)) => put_items(parts, items.as_slice(), *element, levels),
        Some(Cell::Dict(entries)) => put_entries(parts, entries, levels),
        _ => put(parts, Part::Word("<unknown>")),
    }
}

/// Writes a value, or lists the parts that it gives.
fn push_value<'a>(
    out: &mut String,
    parts: &mut Parts<'a>,
    world: &'a World,
    v: &'a Value,
    levels: u32,
) -> Result<(), AllocError> {
    match v {
        Value::Null => out.push_str("null"),
        Value::Bool(b) => write!(out, "{b}"),
        Value::Int(n) => write!(out, "{n}"),
        Value::Str(text) => push_text(out, text.as_str()),
        Value::Array(s) | Value::Dict(s) => put_container(parts, world, *s, levels),
        Value::Object(s) => push_object(out, world, *s),
        Value::Callable(s, f) => push_named(out, world, "Callable(", *s, f.as_str()),
        Value::Signal(s, f) => push_named(out, world, "Signal(", *s, f.as_str()),
        Value::Class(class) => out.push_str(world.classes.text(*class)),
        Value::Scene(_, path) => {
            out.push_str("load(")?;
            push_text(out, path.as_str())?;
            out.push(')')
        }
        Value::Weak(s) => {
            out.push_str("weakref(")?;
            push_object(out, world, *s)?;
            out.push(')')
        }
    }
}

fn push_key(out: &mut String, world: &World, key: &Key) -> Result<(), AllocError> {
    match key {
        Key::Bool(b) => write!(out, "{b}"),
        Key::Int(n) => write!(out, "{n}"),
        Key::Str(text) => push_text(out, text.as_str()),
        Key::Object(s) => push_object(out, world, *s),
    }
}

fn push_part<'a>(
    out: &mut String,
    parts: &mut Parts<'a>,
    world: &'a World,
    part: Part<'a>,
) -> Result<(), AllocError> {
    match part {
        Part::Word(word) => out.push_str(word),
        Part::Key(key) => push_key(out, world, key),
        Part::Value(v, levels) => push_value(out, parts, world, v, levels),
        Part::Count(count) => write!(out, ", .. {count} items"),
        Part::Element(element) => {
            write!(out, ", \"{}\")", element_name(&world.classes, element))
        }
    }
}

/// Writes a value. A value may be as deep as it likes: no call goes down it.
pub fn push_shown(
    alloc: Global,
    out: &mut String,
    world: &World,
    v: &Value,
) -> Result<(), AllocError> {
    let mut rest = Vec::new(alloc);
    let mut parts = Vec::new(alloc);
    rest.push(Part::Value(v, MOST_LEVELS))?;
    for _ in 0..u64::MAX {
        let Some(part) = rest.pop() else {
            break;
        };
        push_part(out, &mut parts, world, part)?;
        for _ in 0..parts.len() {
            if let Some(part) = parts.pop() {
                rest.push(part)?;
            }
        }
    }
    Ok(())
}
