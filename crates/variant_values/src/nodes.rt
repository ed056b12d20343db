ghost use Rattle.std.specs.Prelude.{◌≡◌, ◌++◌, ◌∷◌, [], filter, not, nat_eq, OnOk, OnErr};
ghost use Rattle.std.specs.Option.{option_map};
ghost use Rattle.variant_values.specs.Trees.{named, placed, adopted, bereft, parent_in};

use crate::cells::{ObjectCell, Serials};
use crate::texts::Str;
use crate::values::Serial;
use std::alloc::AllocError;

impl ObjectCell {
    /// The parent of a node.
    pub fn parent(&self) -> Option<Serial>
        ensures { result ≡ parent_in self.now.node }
    {
        match &self.node {
            Some(node) => node.parent,
            None => None,
        }
    }

    pub fn set_name(&mut self, name: Str)
        ensures { self.new ≡ record self.old { node = option_map (named name) self.old.node } }
    {
        if let Some(node) = &mut self.node {
            node.name = name;
        }
    }

    pub fn set_parent(&mut self, parent: Serial)
        ensures { self.new ≡ record self.old { node = option_map (placed parent) self.old.node } }
    {
        if let Some(node) = &mut self.node {
            node.parent = Some(parent);
        }
    }

    /// A node gets a child more, its last.
    pub fn add_child(&mut self, child: Serial) -> Result<(), AllocError>
        ensures ok { OnOk result (self.new ≡ record self.old { node = option_map (adopted child) self.old.node }) }
        ensures err { OnErr result (self.new ≡ self.old) }
    {
        match &mut self.node {
            Some(node) => node.children.push(child),
            None => Ok(()),
        }
    }

    /// A node loses a child.
    pub fn remove_child(&mut self, child: u64)
        ensures { self.new ≡ record self.old { node = option_map (bereft child) self.old.node } }
    {
        if let Some(node) = &mut self.node {
            node.children.remove(child);
        }
    }
}

impl Serials {
    pub fn push(&mut self, serial: Serial) -> Result<(), AllocError>
        ensures ok { OnOk result (self.new ≡ self.old ++ serial ∷ []) }
        ensures err { OnErr result (self.new ≡ self.old) }
    {
        self.items.push(serial)?;
        Ok(())
    }

    /// Takes a serial out.
    pub fn remove(&mut self, serial: u64)
        ensures { self.new ≡ filter (λ s. not (nat_eq s.0 serial)) self.old }
    {
        let mut at = 0;
        while at < self.items.len() {
            if self.items[at].0 == serial {
                self.items.remove(at);
            } else {
                at += 1;
            }
        }
    }
}
