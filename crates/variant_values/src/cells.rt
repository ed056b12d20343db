ghost use Rattle.std.specs.Prelude.{◌≡◌, ◌<◌, ◌≤◌, ◌+◌, take, drop, ◌++◌, ◌∷◌, length, [], slice_get, slice_set, OnOk, OnErr, Some};

use crate::classes::{ElementTag, Lineage};
use crate::entries::Entries;
use crate::texts::Str;
use crate::values::{Serial, Value};
use std::alloc::{AllocError, Global};
use std::marker::Model;
use std::mem;

/// Values in order. Contracts see the list.
#[derive(Drop)]
pub struct Values {
    pub items: Vec<Value>,
}

impl Model for Values {
    ghost use Rattle.std.specs.Prelude.{List};
    ghost use Rattle.variant_values.specs.declared.values.Value.{Value as AValue};

    ghost Value = { List AValue };

    ghost view = { λ v. v.items.items };
}

/// A method of an object, which a signal of another calls.
#[derive(Drop)]
pub struct Connection {
    pub signal: Str,
    pub target: Serial,
    pub method: Str,
}

/// Connections in order. Contracts see the list.
#[derive(Drop)]
pub struct Connections {
    pub rows: Vec<Connection>,
}

impl Model for Connections {
    ghost use Rattle.std.specs.Prelude.{List};
    ghost use Rattle.variant_values.specs.declared.cells.Connection.{Connection};

    ghost Value = { List Connection };

    ghost view = { λ c. c.rows.items };
}

/// Serials in order. Contracts see the list.
#[derive(Drop)]
pub struct Serials {
    pub items: Vec<Serial>,
}

impl Model for Serials {
    ghost use Rattle.std.specs.Prelude.{List};
    ghost use Rattle.variant_values.specs.declared.values.Serial.{Serial};

    ghost Value = { List Serial };

    ghost view = { λ s. s.items.items };
}

/// What a node has beside other objects.
#[derive(Drop)]
pub struct NodePart {
    pub name: Str,
    pub parent: Option<Serial>,
    pub children: Serials,
}

#[derive(Drop)]
pub struct ObjectCell {
    pub lineage: Lineage,
    pub fields: Values,
    /// Those of the object's own signals.
    pub connections: Connections,
    pub node: Option<NodePart>,
}

/// A cell of the heap. An array may have an element type.
#[derive(Drop)]
pub enum Cell {
    Array(Values, Option<ElementTag>),
    Dict(Entries),
    Object(ObjectCell),
}

impl Values {
    pub fn of(items: Vec<Value>) -> Values
        ensures { result ≡ items.items }
    {
        Values { items }
    }

    pub fn new(alloc: Global) -> Values
        ensures { result ≡ [] }
    {
        Values {
            items: Vec::new(alloc),
        }
    }

    pub fn len(&self) -> usize
        ensures { result ≡ length self.now }
    {
        self.items.len()
    }

    pub fn as_slice(&self) -> &[Value]
        ensures { result.now ≡ self.now }
    {
        self.items.as_slice()
    }

    /// Puts a value in the place of another, and hands that out.
    pub fn replace(&mut self, index: usize, to: Value) -> Value
        requires { index < length self.old }
        ensures old { slice_get self.old index ≡ Some result }
        ensures new { self.new ≡ slice_set self.old index to }
    {
        mem::replace(&mut self.items[index], to)
    }

    pub fn push(&mut self, v: Value) -> Result<(), AllocError>
        ensures ok { OnOk result (self.new ≡ self.old ++ v ∷ []) }
        ensures err { OnErr result (self.new ≡ self.old) }
    {
        self.items.push(v)?;
        Ok(())
    }
}

impl Values {
    /// Puts values in before the one at an index, or last.
    pub fn put_in(&mut self, at: usize, mut put: Vec<Value>) -> Result<(), AllocError>
        requires { at ≤ length self.old }
        ensures ok { OnOk result (self.new ≡ take at self.old ++ put.items ++ drop at self.old) }
        ensures err { OnErr result (self.new ≡ self.old) }
    {
        let count = put.len();
        self.items.append(&mut put)?;
        self.items.as_mut_slice()[at..].rotate_right(count);
        Ok(())
    }

    /// Puts values in the place of as many from an index on, and hands those out.
    pub fn exchange(&mut self, at: usize, mut put: Vec<Value>) -> Vec<Value>
        requires { at + length put.items ≤ length self.old }
        ensures out { result.items ≡ take (length put.items) (drop at self.old) }
        ensures new { self.new ≡ take at self.old ++ put.items ++ drop (at + length put.items) self.old }
    {
        let after = self.items.len() - at - put.len();
        let end = self.items.len() - after;
        self.items.as_mut_slice()[at..end].swap_with_slice(put.as_mut_slice());
        put
    }

    /// Takes out so many values from an index on.
    pub fn take_out(&mut self, at: usize, out: usize)
        requires { at + out ≤ length self.old }
        ensures { self.new ≡ take at self.old ++ drop (at + out) self.old }
    {
        let left = self.items.len() - out;
        self.items.as_mut_slice()[at..].rotate_left(out);
        self.items.truncate(left);
    }
}

impl Serials {
    pub fn new(alloc: Global) -> Serials
        ensures { result ≡ [] }
    {
        Serials {
            items: Vec::new(alloc),
        }
    }

    pub fn as_slice(&self) -> &[Serial]
        ensures { result.now ≡ self.now }
    {
        self.items.as_slice()
    }
}
