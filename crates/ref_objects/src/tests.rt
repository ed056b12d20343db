//! What stays and what goes, worked out by hand, and each call once with ample memory.
ghost use Rattle.std.specs.Prelude.{◌≡◌, ◌∷◌, [], IfOk};

mod shown;

use crate::heap::Heap;
use shown::shown;
use std::process::Abort;
use std::test::Fail;
use variant_values::cells::{Cell, Connections, NodePart, ObjectCell, Serials, Values};
use variant_values::classes::{ClassTag, Lineage};
use variant_values::entries::Entries;
use variant_values::faults::{RunFault, Trouble};
use variant_values::texts::Str;
use variant_values::values::{Key, Serial, Value};

fn lineage(rt: &impl AllocGlobal, tag: ClassTag) -> Result<Lineage, Fail>
    ensures { IfOk result (λ it. it ≡ tag ∷ []) }
{
    let mut tags = Vec::new(rt.alloc());
    tags.push(tag)?;
    Ok(Lineage::new(rt.alloc(), tags)?)
}

fn add_array(rt: &impl AllocGlobal, heap: &mut Heap) -> Result<Serial, Fail> {
    let cell = Cell::Array(Values::new(rt.alloc()), None);
    Ok(heap.new_cell(cell)?)
}

fn add_dict(rt: &impl AllocGlobal, heap: &mut Heap) -> Result<Serial, Fail> {
    let cell = Cell::Dict(Entries::new(rt.alloc()));
    Ok(heap.new_cell(cell)?)
}

// A counted object with one field.
fn add_counted(
    rt: &(impl Abort + AllocGlobal),
    heap: &mut Heap,
    field: Value,
) -> Result<Serial, Fail> {
    let lineage = lineage(rt, ClassTag::RefCounted)?;
    let mut fields = Vec::new(rt.alloc());
    fields.push(field)?;
    assert!(rt; heap.knows_all(fields.as_slice()));
    let cell = Cell::Object(ObjectCell {
        lineage,
        fields: Values::of(fields),
        connections: Connections::new(rt.alloc()),
        node: None,
    });
    Ok(heap.new_cell(cell)?)
}

// An object with one field that is not counted.
fn add_uncounted(
    rt: &(impl Abort + AllocGlobal),
    heap: &mut Heap,
    field: Value,
) -> Result<Serial, Fail> {
    let lineage = lineage(rt, ClassTag::Object)?;
    let mut fields = Vec::new(rt.alloc());
    fields.push(field)?;
    assert!(rt; heap.knows_all(fields.as_slice()));
    let cell = Cell::Object(ObjectCell {
        lineage,
        fields: Values::of(fields),
        connections: Connections::new(rt.alloc()),
        node: None,
    });
    Ok(heap.new_cell(cell)?)
}

fn add_node(rt: &impl AllocGlobal, heap: &mut Heap) -> Result<Serial, Fail> {
    let lineage = lineage(rt, ClassTag::Node)?;
    let name = Str::new(rt.alloc(), "")?;
    let cell = Cell::Object(ObjectCell {
        lineage,
        fields: Values::new(rt.alloc()),
        connections: Connections::new(rt.alloc()),
        node: Some(NodePart {
            name,
            parent: None,
            children: Serials::new(rt.alloc()),
        }),
    });
    Ok(heap.new_cell(cell)?)
}

fn hold(rt: &impl Abort, heap: &mut Heap, v: &Value) {
    assert!(rt; heap.knows(v));
    assert!(rt; heap.is_few(v));
    heap.retain(v);
}

fn let_go(rt: &impl Abort, heap: &mut Heap, v: &Value) {
    assert!(rt; heap.knows(v));
    assert!(rt; heap.is_held(v));
    heap.release(v);
}

fn put_field(rt: &impl Abort, heap: &mut Heap, of: Serial, to: Value) -> Result<(), Trouble> {
    assert!(rt; heap.knows_object(of));
    assert!(rt; heap.has_field(of, 0));
    assert!(rt; heap.knows(&to));
    heap.set_field(of, 0, to)
}

fn push(
    rt: &(impl Abort + AllocGlobal),
    heap: &mut Heap,
    of: Serial,
    v: Value,
) -> Result<Result<(), Trouble>, Fail> {
    let mut put = Vec::new(rt.alloc());
    put.push(v)?;
    assert!(rt; heap.is_array(of));
    assert!(rt; heap.knows_all(put.as_slice()));
    let at = heap.items_len(of);
    Ok(heap.splice(of, at, 0, put))
}

fn lives(rt: &impl Abort, heap: &Heap, of: Serial) -> bool {
    assert!(rt; heap.is_given(of));
    heap.cell(of).is_some()
}

fn is_named(rt: &impl Abort, heap: &Heap, of: Serial, name: &str) -> bool {
    assert!(rt; heap.is_given(of));
    match heap.cell(of) {
        Some(Cell::Object(object)) => match &object.node {
            Some(node) => node.name.as_str() == name,
            None => false,
        },
        _ => false,
    }
}

fn connect(
    rt: &(impl Abort + AllocGlobal),
    heap: &mut Heap,
    from: Serial,
    to: Serial,
) -> Result<(), Fail> {
    let signal = Str::new(rt.alloc(), "s")?;
    let method = Str::new(rt.alloc(), "m")?;
    assert!(rt; heap.is_object(from));
    assert!(rt; heap.is_object(to));
    assert!(rt; !heap.has_connection(from, &signal, to, &method));
    heap.add_connection(from, &signal, to, &method)?;
    Ok(())
}

fn adopt(rt: &impl Abort, heap: &mut Heap, parent: Serial, child: Serial) -> Result<(), Fail> {
    assert!(rt; heap.is_node(parent));
    assert!(rt; heap.is_node(child));
    assert!(rt; heap.parent(child).is_none());
    assert!(rt; heap.is_apart(child, parent));
    heap.add_child(parent, child)?;
    Ok(())
}

fn queue(rt: &impl Abort, heap: &mut Heap, of: Serial) -> Result<(), Fail> {
    assert!(rt; heap.is_node(of));
    heap.queue_node(of)?;
    Ok(())
}

#[test]
fn an_array_that_holds_itself_stays(rt: HostRuntime) -> Result<(), Fail> {
    let mut heap = Heap::new(rt.alloc())?;
    let s = add_array(&rt, &mut heap)?;
    assert_eq!(rt; s.0, 1);
    hold(&rt, &mut heap, &Value::Array(s));
    push(&rt, &mut heap, s, Value::Array(s))??;
    assert_eq!(rt; heap.count_of(s), 2);
    let_go(&rt, &mut heap, &Value::Array(s));
    assert_eq!(rt; heap.count_of(s), 1);
    heap.sweep();
    assert!(rt; lives(&rt, &heap, s));
    Ok(())
}

#[test]
fn objects_that_hold_each_other_stay(rt: HostRuntime) -> Result<(), Fail> {
    let mut heap = Heap::new(rt.alloc())?;
    let a = add_counted(&rt, &mut heap, Value::Null)?;
    let b = add_counted(&rt, &mut heap, Value::Object(a))?;
    put_field(&rt, &mut heap, a, Value::Object(b))?;
    heap.sweep();
    assert_eq!(rt; heap.live_count(), 2);
    put_field(&rt, &mut heap, a, Value::Null)?;
    heap.sweep();
    assert_eq!(rt; heap.live_count(), 0);
    Ok(())
}

#[test]
fn a_chain_goes_when_its_head_is_let_go(rt: HostRuntime) -> Result<(), Fail> {
    let mut heap = Heap::new(rt.alloc())?;
    let mut head = Value::Null;
    for _ in 0..1000 {
        head = Value::Object(add_counted(&rt, &mut heap, head)?);
    }
    hold(&rt, &mut heap, &head);
    heap.sweep();
    assert_eq!(rt; heap.live_count(), 1000);
    let_go(&rt, &mut heap, &head);
    assert_eq!(rt; heap.live_count(), 1000);
    heap.sweep();
    assert_eq!(rt; heap.live_count(), 0);
    Ok(())
}

#[test]
fn a_subtree_goes_at_once(rt: HostRuntime) -> Result<(), Fail> {
    let mut heap = Heap::new(rt.alloc())?;
    let below = add_node(&rt, &mut heap)?;
    let top = add_node(&rt, &mut heap)?;
    let root = add_node(&rt, &mut heap)?;
    let other = add_node(&rt, &mut heap)?;
    adopt(&rt, &mut heap, top, below)?;
    adopt(&rt, &mut heap, root, top)?;
    adopt(&rt, &mut heap, root, other)?;
    connect(&rt, &mut heap, other, below)?;
    connect(&rt, &mut heap, other, root)?;
    connect(&rt, &mut heap, below, other)?;
    hold(&rt, &mut heap, &Value::Object(below));
    free(&rt, &mut heap, top)?;
    assert_eq!(rt; heap.live_count(), 2);
    assert!(rt; !lives(&rt, &heap, below) && !lives(&rt, &heap, top));
    let signal = Str::new(rt.alloc(), "s")?;
    assert!(rt; heap.is_object(other));
    let targets = heap.connections(other, &signal)?;
    assert_eq!(rt; targets.len(), 1);
    assert_eq!(rt; targets[0].0, root);
    assert_eq!(rt; heap.children(root), 1);
    refuses_what_has_gone(&rt, &mut heap, top)?;
    Ok(())
}

fn free(rt: &impl Abort, heap: &mut Heap, of: Serial) -> Result<(), RunFault> {
    assert!(rt; heap.knows_object(of));
    assert!(rt; heap.is_uncounted(of));
    heap.free_node(of)
}

const FULL: Trouble = Trouble::Fault(RunFault::HeapFull);

/// Puts so many copies of a text into an array.
fn push_copies(
    rt: &(impl Abort + AllocGlobal),
    heap: &mut Heap,
    of: Serial,
    text: &Str,
    n: u32,
) -> Result<(), Fail> {
    for _ in 0..n {
        push(rt, heap, of, Value::Str(text.clone()?))??;
    }
    Ok(())
}

/// Values that want room and hold a cell, whose count is not to rise where they are refused.
fn cell_and_text(rt: &impl AllocGlobal, cell: Serial, text: &Str) -> Result<Vec<Value>, Fail> {
    let mut values = Vec::new(rt.alloc());
    values.push(Value::Array(cell))?;
    values.push(Value::Str(text.clone()?))?;
    Ok(values)
}

/// In the place of one text, an array has no room for two.
fn refuses_items(
    rt: &(impl Abort + AllocGlobal),
    heap: &mut Heap,
    of: Serial,
    text: &Str,
) -> Result<(), Fail> {
    let before = shown(rt.alloc(), heap)?;
    let mut put = cell_and_text(rt, of, text)?;
    put.push(Value::Str(text.clone()?))?;
    assert!(rt; heap.is_array(of));
    assert!(rt; 0 < heap.items_len(of));
    assert!(rt; heap.knows_all(put.as_slice()));
    assert_eq!(rt; heap.splice(of, 0, 1, put), Err(FULL));
    assert_eq!(rt; shown(rt.alloc(), heap)?, before);
    Ok(())
}

fn refuses_field(
    rt: &(impl Abort + AllocGlobal),
    heap: &mut Heap,
    of: Serial,
    text: &Str,
) -> Result<(), Fail> {
    let before = shown(rt.alloc(), heap)?;
    assert_eq!(rt;
        put_field(rt, heap, of, Value::Str(text.clone()?)),
        Err(FULL)
    );
    assert_eq!(rt; shown(rt.alloc(), heap)?, before);
    Ok(())
}

fn refuses_entry(
    rt: &(impl Abort + AllocGlobal),
    heap: &mut Heap,
    of: Serial,
    key: Key,
    text: &Str,
) -> Result<(), Fail> {
    let before = shown(rt.alloc(), heap)?;
    let value = Value::Str(text.clone()?);
    assert_eq!(rt; put_entry(rt, heap, of, key, value), Err(FULL));
    assert_eq!(rt; shown(rt.alloc(), heap)?, before);
    Ok(())
}

fn refuses_cell(
    rt: &(impl Abort + AllocGlobal),
    heap: &mut Heap,
    held: Serial,
    text: &Str,
) -> Result<(), Fail> {
    let before = shown(rt.alloc(), heap)?;
    let items = cell_and_text(rt, held, text)?;
    assert!(rt; heap.knows_all(items.as_slice()));
    let cell = Cell::Array(Values::of(items), None);
    assert_eq!(rt; heap.new_cell(cell), Err(FULL));
    assert_eq!(rt; shown(rt.alloc(), heap)?, before);
    Ok(())
}

#[test]
fn a_full_heap_takes_no_more(rt: HostRuntime) -> Result<(), Fail> {
    let mut heap = Heap::new(rt.alloc())?;
    let s = add_array(&rt, &mut heap)?;
    let o = add_counted(&rt, &mut heap, Value::Array(s))?;
    let d = add_dict(&rt, &mut heap)?;
    put_entry(&rt, &mut heap, d, Key::Int(7), Value::Array(s))?;
    let n = add_node(&rt, &mut heap)?;
    queue(&rt, &mut heap, n)?;
    // 63 texts of 1,048,576 bytes leave room for less than one more.
    let text = Str::new(rt.alloc(), "é".repeat(rt.alloc(), 524_288)?.as_str())?;
    push_copies(&rt, &mut heap, s, &text, 63)?;
    refuses_items(&rt, &mut heap, s, &text)?;
    refuses_field(&rt, &mut heap, o, &text)?;
    refuses_entry(&rt, &mut heap, d, Key::Object(o), &text)?;
    refuses_entry(&rt, &mut heap, d, Key::Int(7), &text)?;
    refuses_cell(&rt, &mut heap, s, &text)?;
    // What weighs less than the room that is left is still taken.
    push(&rt, &mut heap, s, Value::Int(5))??;
    assert_eq!(rt; heap.items_len(s), 64);
    Ok(())
}

fn read_field(
    rt: &(impl Abort + AllocGlobal),
    heap: &Heap,
    of: Serial,
) -> Result<Result<i64, RunFault>, Fail> {
    assert!(rt; heap.knows_object(of));
    assert!(rt; heap.has_field(of, 0));
    match heap.field(of, 0) {
        Ok(Value::Int(n)) => Ok(Ok(*n)),
        Ok(_) => Err(Fail::from("no number")),
        Err(fault) => Ok(Err(fault)),
    }
}

fn refuses_what_has_gone(
    rt: &(impl Abort + AllocGlobal),
    heap: &mut Heap,
    of: Serial,
) -> Result<(), Fail> {
    let before = shown(rt.alloc(), heap)?;
    let gone = Err(Trouble::Fault(RunFault::FreedAccess));
    assert_eq!(rt; put_field(rt, heap, of, Value::Int(1)), gone);
    assert_eq!(rt; shown(rt.alloc(), heap)?, before);
    assert_eq!(rt; read_field(rt, heap, of)?, Err(RunFault::FreedAccess));
    assert_eq!(rt; free(rt, heap, of), Err(RunFault::FreedAccess));
    assert_eq!(rt; shown(rt.alloc(), heap)?, before);
    Ok(())
}

fn removes_nothing(
    rt: &(impl Abort + AllocGlobal),
    heap: &mut Heap,
    dict: Serial,
    node: Serial,
) -> Result<(), Fail> {
    let before = shown(rt.alloc(), heap)?;
    assert!(rt; heap.is_dict(dict));
    assert!(rt; !heap.remove_entry(dict, &Key::Int(1)));
    assert_eq!(rt; shown(rt.alloc(), heap)?, before);
    let signal = Str::new(rt.alloc(), "s")?;
    let method = Str::new(rt.alloc(), "other")?;
    assert!(rt; heap.is_object(node));
    assert!(rt; !heap.remove_connection(node, &signal, node, &method));
    assert_eq!(rt; shown(rt.alloc(), heap)?, before);
    Ok(())
}

#[test]
fn what_has_gone_refuses_and_changes_nothing(rt: HostRuntime) -> Result<(), Fail> {
    let mut heap = Heap::new(rt.alloc())?;
    let o = add_uncounted(&rt, &mut heap, Value::Int(40))?;
    assert_eq!(rt; read_field(&rt, &heap, o)?, Ok(40));
    put_field(&rt, &mut heap, o, Value::Int(41))?;
    assert_eq!(rt; read_field(&rt, &heap, o)?, Ok(41));
    let n = add_node(&rt, &mut heap)?;
    let d = add_dict(&rt, &mut heap)?;
    put_entry(&rt, &mut heap, d, Key::Object(o), Value::Object(o))?;
    connect(&rt, &mut heap, n, n)?;
    queue(&rt, &mut heap, n)?;
    hold(&rt, &mut heap, &Value::Object(n));
    hold(&rt, &mut heap, &Value::Dict(d));
    free(&rt, &mut heap, o)?;
    assert_eq!(rt;
        shown(rt.alloc(), &heap)?.as_str(),
        "gone\ngone\n1 Node s>2.m node  \n1 object1: object1 \nqueued2 room67108828"
    );
    refuses_what_has_gone(&rt, &mut heap, o)?;
    removes_nothing(&rt, &mut heap, d, n)?;
    Ok(())
}

fn put_entry(
    rt: &impl Abort,
    heap: &mut Heap,
    of: Serial,
    key: Key,
    to: Value,
) -> Result<(), Trouble> {
    assert!(rt; heap.is_dict(of));
    assert!(rt; heap.knows_key(&key));
    assert!(rt; heap.knows(&to));
    heap.set_entry(of, key, to)
}

#[test]
fn a_present_key_keeps_its_place(rt: HostRuntime) -> Result<(), Fail> {
    let mut heap = Heap::new(rt.alloc())?;
    let d = add_dict(&rt, &mut heap)?;
    for (key, to) in [(1, 1), (2, 2), (1, 3)] {
        put_entry(&rt, &mut heap, d, Key::Int(key), Value::Int(to))?;
    }
    assert!(rt; heap.is_given(d));
    let Some(Cell::Dict(entries)) = heap.cell(d) else {
        return Err(Fail::from(RunFault::NoKey));
    };
    assert_eq!(rt; entries.len(), 2);
    let first = entries.entry_at(0);
    assert!(rt; matches!(first, (Key::Int(1), Value::Int(3))));
    assert!(rt; heap.is_dict(d));
    assert!(rt; heap.remove_entry(d, &Key::Int(2)));
    assert!(rt; heap.is_dict(d));
    assert!(rt; !heap.remove_entry(d, &Key::Int(2)));
    Ok(())
}

#[test]
fn names_queue_and_weak_references(rt: HostRuntime) -> Result<(), Fail> {
    let mut heap = Heap::new(rt.alloc())?;
    let n = add_node(&rt, &mut heap)?;
    assert!(rt; heap.is_node(n));
    heap.set_name(n, Str::new(rt.alloc(), "lamp")?);
    assert!(rt; is_named(&rt, &heap, n, "lamp"));
    queue(&rt, &mut heap, n)?;
    assert_eq!(rt; heap.queued(), [n].as_slice());
    assert!(rt; heap.knows_object(n));
    assert!(rt; matches!(heap.weak_get(n), Value::Object(_)));
    free(&rt, &mut heap, n)?;
    assert!(rt; heap.knows_object(n));
    assert!(rt; matches!(heap.weak_get(n), Value::Null));
    assert_eq!(rt; heap.queued(), [n].as_slice());
    assert_eq!(rt; heap.serials_left(), 18_446_744_073_709_551_614);
    Ok(())
}

#[test]
fn connections_stand_in_order(rt: HostRuntime) -> Result<(), Fail> {
    let mut heap = Heap::new(rt.alloc())?;
    let a = add_node(&rt, &mut heap)?;
    let b = add_node(&rt, &mut heap)?;
    connect(&rt, &mut heap, a, b)?;
    connect(&rt, &mut heap, a, a)?;
    let signal = Str::new(rt.alloc(), "s")?;
    let method = Str::new(rt.alloc(), "m")?;
    assert!(rt; heap.is_object(a));
    let targets = heap.connections(a, &signal)?;
    assert_eq!(rt; targets.len(), 2);
    assert_eq!(rt; targets[0].0, b);
    assert_eq!(rt; targets[1].0, a);
    assert!(rt; heap.has_connection(a, &signal, b, &method));
    assert!(rt; heap.remove_connection(a, &signal, b, &method));
    assert!(rt; heap.is_object(a));
    assert!(rt; !heap.has_connection(a, &signal, b, &method));
    assert!(rt; heap.has_connection(a, &signal, a, &method));
    Ok(())
}
