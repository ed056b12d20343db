ghost use Rattle.std.specs.Prelude.{◌≡◌, ◌<◌, ◌≤◌, ◌^◌, length, true, cond, Some, ◌++◌, ◌∷◌, [], filter, not, IfOk, IfErr, OnOk, OnErr};
ghost use Rattle.std.specs.List.{list_any};
ghost use Rattle.variant_values.specs.Heaps.{cell_at, is_object, objects_in};
ghost use Rattle.variant_values.specs.Links.{connections_of, connections_put, connections_in, is_connection};
ghost use Rattle.variant_values.specs.Trees.{node_put, parent_of, named, placed, adopted, bereft};
ghost use Rattle.ref_objects.specs.Slots.{cells_of, IsPut};

use crate::slots::{Slot, put_cell, take_cell};
use std::alloc::AllocError;
use variant_values::cells::{Cell, Connection, Connections};
use variant_values::faults::Trouble;
use variant_values::texts::Str;
use variant_values::values::Serial;

/// 1 where the cell is an object that lives.
fn object_at(slots: &[Slot], x: usize) -> u64
    requires { x < length slots.now }
    ensures { result ≡ cond (is_object (cell_at (cells_of slots.now) x)) 1 0 }
{
    match &slots[x].cell {
        Some(Cell::Object(_)) => 1,
        _ => 0,
    }
}

/// The number of objects.
pub fn count_objects(slots: &[Slot]) -> u64
    ensures { result ≡ objects_in (cells_of slots.now) }
{
    let mut count = 0;
    for x in 0..slots.len() {
        count += object_at(slots, x);
    }
    count
}

/// The number of an object's connections.
pub fn links_len(slots: &[Slot], x: usize) -> u64
    requires { x < length slots.now }
    ensures { result ≡ length (connections_of (cell_at (cells_of slots.now) x)) }
{
    match &slots[x].cell {
        Some(Cell::Object(o)) => o.connections.as_slice().len() as u64,
        _ => 0,
    }
}

/// The most connections that may stand in all cells.
pub const MOST_LINKS: u64 = 4_294_967_295;

/// The number of connections.
fn count_links(slots: &[Slot]) -> u64
    requires { connections_in (cells_of slots.now) < 2 ^ 32 }
    ensures { result ≡ connections_in (cells_of slots.now) }
{
    let mut count = 0;
    for x in 0..slots.len() {
        count += links_len(slots, x);
    }
    count
}

/// A bound of the number of connections, from one that is known. Counts them only where that is the most that may be.
pub fn links_bound(slots: &[Slot], links: u64) -> u64
    requires bound { connections_in (cells_of slots.now) ≤ links }
    requires few { links < 2 ^ 32 }
    ensures bound { connections_in (cells_of slots.now) ≤ result }
    ensures few { result < 2 ^ 32 }
    ensures exact { result ≡ 4294967295 → connections_in (cells_of slots.now) ≡ 4294967295 }
{
    if links < MOST_LINKS {
        links
    } else {
        count_links(slots)
    }
}

/// The connections of an object.
pub fn links_at(slots: &[Slot], x: usize) -> &Connections
    requires within { x < length slots.now }
    requires object { is_object (cell_at (cells_of slots.now) x) ≡ true }
    ensures { result.now ≡ connections_of (cell_at (cells_of slots.now) x) }
{
    match &slots[x].cell {
        Some(Cell::Object(o)) => &o.connections,
        _ => unreachable!(),
    }
}

fn copied_link(signal: &Str, to: Serial, method: &Str) -> Result<Connection, AllocError>
    ensures { IfOk result (λ row. row ≡ record { signal = signal.now; target = to; method = method.now }) }
{
    let signal = signal.clone()?;
    let method = method.clone()?;
    Ok(Connection {
        signal,
        target: to,
        method,
    })
}

/// A connection that shares these texts.
pub fn new_link(signal: &Str, to: Serial, method: &Str) -> Result<Connection, Trouble>
    ensures ok { IfOk result (λ row. row ≡ record { signal = signal.now; target = to; method = method.now }) }
    ensures memory { IfErr result (λ e. e ≡ Trouble.NoMemory) }
{
    match copied_link(signal, to, method) {
        Ok(row) => Ok(row),
        Err(_) => Err(Trouble::NoMemory),
    }
}

/// An object gets a connection more, its last.
pub fn add_link(slots: &mut Vec<Slot>, x: usize, row: Connection) -> Result<(), Trouble>
    requires within { x < length slots.old.items }
    requires object { is_object (cell_at (cells_of slots.old.items) x) ≡ true }
    ensures ok { OnOk result (IsPut slots.old.items slots.new.items x (connections_put (connections_of (cell_at (cells_of slots.old.items) x) ++ row ∷ []) (cell_at (cells_of slots.old.items) x))) }
    ensures err { OnErr result (slots.new.items ≡ slots.old.items) }
    ensures memory { IfErr result (λ e. e ≡ Trouble.NoMemory) }
{
    match take_cell(slots, x) {
        Some(Cell::Object(mut o)) => match o.connections.push(row) {
            Ok(()) => {
                put_cell(slots, x, Cell::Object(o));
                Ok(())
            }
            Err(_) => {
                put_cell(slots, x, Cell::Object(o));
                Err(Trouble::NoMemory)
            }
        },
        _ => unreachable!(),
    }
}

/// An object loses a connection.
pub fn drop_link(slots: &mut Vec<Slot>, x: usize, signal: &Str, to: Serial, method: &Str)
    requires within { x < length slots.old.items }
    requires object { is_object (cell_at (cells_of slots.old.items) x) ≡ true }
    ensures { IsPut slots.old.items slots.new.items x (connections_put (filter (λ c. not (is_connection signal.now to method.now c)) (connections_of (cell_at (cells_of slots.old.items) x))) (cell_at (cells_of slots.old.items) x)) }
{
    match take_cell(slots, x) {
        Some(Cell::Object(mut o)) => {
            o.connections.remove(signal, to, method);
            put_cell(slots, x, Cell::Object(o));
        }
        _ => unreachable!(),
    }
}

/// A node gets a name.
pub fn name_node(slots: &mut Vec<Slot>, x: usize, name: Str)
    requires within { x < length slots.old.items }
    requires object { is_object (cell_at (cells_of slots.old.items) x) ≡ true }
    ensures { IsPut slots.old.items slots.new.items x (node_put (named name) (cell_at (cells_of slots.old.items) x)) }
{
    match take_cell(slots, x) {
        Some(Cell::Object(mut o)) => {
            o.set_name(name);
            put_cell(slots, x, Cell::Object(o));
        }
        _ => unreachable!(),
    }
}

/// A node gets a parent.
pub fn place_node(slots: &mut Vec<Slot>, x: usize, parent: Serial)
    requires within { x < length slots.old.items }
    requires object { is_object (cell_at (cells_of slots.old.items) x) ≡ true }
    ensures { IsPut slots.old.items slots.new.items x (node_put (placed parent) (cell_at (cells_of slots.old.items) x)) }
{
    match take_cell(slots, x) {
        Some(Cell::Object(mut o)) => {
            o.set_parent(parent);
            put_cell(slots, x, Cell::Object(o));
        }
        _ => unreachable!(),
    }
}

/// A node gets a child more, its last.
pub fn adopt_node(slots: &mut Vec<Slot>, x: usize, child: Serial) -> Result<(), AllocError>
    requires within { x < length slots.old.items }
    requires object { is_object (cell_at (cells_of slots.old.items) x) ≡ true }
    ensures ok { OnOk result (IsPut slots.old.items slots.new.items x (node_put (adopted child) (cell_at (cells_of slots.old.items) x))) }
    ensures err { OnErr result (slots.new.items ≡ slots.old.items) }
{
    match take_cell(slots, x) {
        Some(Cell::Object(mut o)) => match o.add_child(child) {
            Ok(()) => {
                put_cell(slots, x, Cell::Object(o));
                Ok(())
            }
            Err(e) => {
                put_cell(slots, x, Cell::Object(o));
                Err(e)
            }
        },
        _ => unreachable!(),
    }
}

/// A node loses a child.
pub fn drop_child(slots: &mut Vec<Slot>, x: usize, child: u64)
    requires within { x < length slots.old.items }
    requires object { is_object (cell_at (cells_of slots.old.items) x) ≡ true }
    ensures { IsPut slots.old.items slots.new.items x (node_put (bereft child) (cell_at (cells_of slots.old.items) x)) }
{
    match take_cell(slots, x) {
        Some(Cell::Object(mut o)) => {
            o.remove_child(child);
            put_cell(slots, x, Cell::Object(o));
        }
        _ => unreachable!(),
    }
}

/// The parent of a node, where it lives.
pub fn parent_at(slots: &[Slot], x: usize) -> Option<Serial>
    requires { x < length slots.now }
    ensures { result ≡ parent_of (cell_at (cells_of slots.now) x) }
{
    match &slots[x].cell {
        Some(Cell::Object(o)) => o.parent(),
        _ => None,
    }
}
