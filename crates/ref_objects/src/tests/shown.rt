//! What a heap holds, as a text that two moments are compared by.

use crate::heap::Heap;
use std::alloc::{AllocError, Global};
use variant_values::cells::{Cell, ObjectCell};
use variant_values::classes::{ClassTag, ElementTag};
use variant_values::values::{Key, Value};

// Long texts are told by their lengths.
fn push_value(out: &mut String, v: &Value) -> Result<(), AllocError> {
    match v {
        Value::Null => out.push_str("null "),
        Value::Bool(b) => write!(out, "{b} "),
        Value::Int(n) => write!(out, "{n} "),
        Value::Str(s) => write!(out, "text{} ", s.len()),
        Value::Array(s) => write!(out, "array{} ", s.0),
        Value::Dict(s) => write!(out, "dict{} ", s.0),
        Value::Object(s) => write!(out, "object{} ", s.0),
        Value::Weak(s) => write!(out, "weak{} ", s.0),
        Value::Callable(s, name) => write!(out, "callable{}.{} ", s.0, name.as_str()),
        Value::Signal(s, name) => write!(out, "signal{}.{} ", s.0, name.as_str()),
        Value::Class(_) => out.push_str("class "),
        Value::Scene(file, path) => write!(out, "scene{}.{} ", file, path.as_str()),
    }
}

fn push_key(out: &mut String, key: &Key) -> Result<(), AllocError> {
    match key {
        Key::Bool(b) => write!(out, "{b}: "),
        Key::Int(n) => write!(out, "{n}: "),
        Key::Str(s) => write!(out, "text{}: ", s.len()),
        Key::Object(s) => write!(out, "object{}: ", s.0),
    }
}

fn push_values(out: &mut String, values: &[Value]) -> Result<(), AllocError> {
    for v in values {
        push_value(out, v)?;
    }
    Ok(())
}

fn push_class(out: &mut String, tag: &ClassTag) -> Result<(), AllocError> {
    match tag {
        ClassTag::Object => out.push_str("Object "),
        ClassTag::RefCounted => out.push_str("RefCounted "),
        ClassTag::Node => out.push_str("Node "),
        ClassTag::Script(class) => write!(out, "script{}.{} ", class.file, class.index),
    }
}

fn push_element(out: &mut String, tag: &ElementTag) -> Result<(), AllocError> {
    out.push_str("of ")?;
    match tag {
        ElementTag::Bool => out.push_str("bool "),
        ElementTag::Int => out.push_str("int "),
        ElementTag::Str => out.push_str("text "),
        ElementTag::Array => out.push_str("array "),
        ElementTag::Dict => out.push_str("dict "),
        ElementTag::Callable => out.push_str("callable "),
        ElementTag::Signal => out.push_str("signal "),
        ElementTag::Scene => out.push_str("scene "),
        ElementTag::Weak => out.push_str("weak "),
        ElementTag::Class(class) => push_class(out, class),
    }
}

fn push_array(
    out: &mut String,
    items: &[Value],
    of: &Option<ElementTag>,
) -> Result<(), AllocError> {
    if let Some(tag) = of {
        push_element(out, tag)?;
    }
    push_values(out, items)
}

fn push_object(out: &mut String, object: &ObjectCell) -> Result<(), AllocError> {
    for tag in object.lineage.as_slice() {
        push_class(out, tag)?;
    }
    push_values(out, object.fields.as_slice())?;
    for row in &object.connections.rows {
        write!(
            out,
            "{}>{}.{} ",
            row.signal.as_str(),
            row.target.0,
            row.method.as_str()
        )?;
    }
    if let Some(node) = &object.node {
        write!(out, "node {} ", node.name.as_str())?;
        if let Some(parent) = node.parent {
            write!(out, "in{} ", parent.0)?;
        }
        for child in node.children.as_slice() {
            write!(out, "over{} ", child.0)?;
        }
    }
    Ok(())
}

fn push_cell(out: &mut String, cell: &Cell) -> Result<(), AllocError> {
    match cell {
        Cell::Array(items, of) => push_array(out, items.as_slice(), of),
        Cell::Dict(entries) => {
            for n in 0..entries.len() {
                let (key, value) = entries.entry_at(n);
                push_key(out, key)?;
                push_value(out, value)?;
            }
            Ok(())
        }
        Cell::Object(object) => push_object(out, object),
    }
}

/// Every cell with its count, the queue, and the room that is left.
pub fn shown(alloc: Global, heap: &Heap) -> Result<String, AllocError> {
    let mut out = String::new(alloc);
    for slot in &heap.slots {
        match &slot.cell {
            None => out.push_str("gone")?,
            Some(cell) => {
                write!(out, "{} ", slot.count)?;
                push_cell(&mut out, cell)?;
            }
        }
        out.push('\n')?;
    }
    for node in heap.queued() {
        write!(out, "queued{} ", node.0)?;
    }
    write!(out, "room{}", heap.room())?;
    Ok(out)
}
