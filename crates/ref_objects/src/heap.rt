ghost use Rattle.std.specs.Prelude.{◌≡◌, ◌+◌, ◌<◌, ◌≤◌, ◌^◌, length, true, false, is_some, Err, OnOk, OnErr, IfOk, IfErr, Some, None, option_copied, if◌then◌else◌, ◌↔◌, ◌⊎◌};
ghost use Rattle.variant_values.specs.declared.values.Value.{Value as AValue};
ghost use Rattle.variant_values.specs.Places.{is_counted, place_of, weight, cell_weight};
ghost use Rattle.variant_values.specs.Heaps.{is_given, is_array, items_of, with_splice, KnowsAll, is_dict, knows_key, with_entry_at, without_entry_at, entries_of, unlinked, is_object, objects_in, empty_heap, with_new, IsFresh, KnowsCell, knows, knows_object, cell_at, field_in, with_field, is_living, held_at, refs, serials_left, retained, released};
ghost use Rattle.std.specs.List.{list_any};
ghost use Rattle.std.specs.Map.{lookup};
ghost use Rattle.std.specs.Option.{option_map};
ghost use Rattle.variant_values.specs.Keys.{same_key};
ghost use Rattle.variant_values.specs.Sweeps.{IsSwept, swept};
ghost use Rattle.variant_values.specs.Sound.{IsSound};
ghost use Rattle.variant_values.specs.Links.{connections_of, connections_in, is_connection, targets_of, connected, disconnected};
ghost use Rattle.variant_values.specs.Trees.{IsUnder, IsFreed, freed, is_node, parent_of, with_child, with_name, with_queued};

use crate::allocate::{LIMIT, MOST_SERIALS, add_cell};
use crate::arrays::store_splice;
use crate::counts::{count, lower, place_of, raise};
use crate::dicts::{drop_entry, store_entry};
use crate::fields::{field_at, store_field};
use crate::frees::free_tree;
use crate::links::cut_all;
use crate::objects::{
    MOST_LINKS, add_link, adopt_node, count_objects, drop_link, links_at, links_bound, name_node,
    new_link, place_node,
};
use crate::slots::{Slot, lives};
use crate::sweeps::take_zeros;
use std::alloc::{AllocError, Global};
use std::marker::Model;
use variant_values::cells::Cell;
use variant_values::faults::{RunFault, Trouble};
use variant_values::texts::Str;
use variant_values::values::{Key, Serial, Value};

/// The heap. Contracts see its cells by serial, how many values of each a caller retains, and the nodes to be freed.
#[derive(Drop)]
pub struct Heap {
    pub(crate) slots: Vec<Slot>,
    /// What the cells weigh.
    total: u64,
    /// No less than the number of connections.
    links: u64,
    queued: Vec<Serial>,
    alloc: Global,
}

impl Model for Heap {
    ghost use Rattle.ref_objects.specs.Views.{HeapView, seen_of};
    ghost use Rattle.ref_objects.specs.Slots.{IsWhole};

    ghost Value = { HeapView };

    ghost view = { λ h. seen_of h.slots.items h.queued.items };

    ghost invariant = { λ h. IsWhole h.slots.items h.queued.items h.total h.links };
}

impl Heap {
    /// No cells.
    pub fn new(alloc: Global) -> Result<Heap, AllocError>
        ensures { IfOk result (λ h. h.state ≡ empty_heap) }
    {
        let mut slots = Vec::new(alloc);
        slots.push(Slot {
            cell: None,
            count: 0,
        })?;
        Ok(Heap {
            slots,
            total: 0,
            links: 0,
            queued: Vec::new(alloc),
            alloc,
        })
    }

    /// A caller retains one value more.
    pub fn retain(&mut self, v: &Value)
        requires known { knows self.old.state.cells v.now ≡ true }
        requires few { held_at self.old.state (place_of v.now) < 2 ^ 100 }
        ensures after { self.new.state ≡ retained self.old.state v.now }
    {
        raise(&mut self.slots, place_of(v) as usize);
    }

    /// A caller retains one value less. The cell stays, even where nothing holds it any more.
    pub fn release(&mut self, v: &Value)
        requires known { knows self.old.state.cells v.now ≡ true }
        requires held { is_living self.old.state.cells (place_of v.now) ≡ true → 0 < held_at self.old.state (place_of v.now) }
        ensures after { self.new.state ≡ released self.old.state v.now }
    {
        lower(&mut self.slots, place_of(v) as usize);
    }

    /// Takes away the least set of counted cells that nothing outside it holds, and the connections to what has gone.
    pub fn sweep(&mut self)
        ensures least { IsSwept self.old.state self.new.state }
        ensures swept { self.new.state ≡ swept self.old.state }
    {
        self.total = take_zeros(&mut self.slots, self.total);
        cut_all(&mut self.slots, self.total);
    }

    /// Puts a value into a field of an object.
    pub fn set_field(&mut self, of: Serial, index: u32, to: Value) -> Result<(), Trouble>
        requires of { knows_object self.old.state.cells of ≡ true }
        requires field { is_living self.old.state.cells of.0 ≡ true → is_some (field_in (cell_at self.old.state.cells of.0) index) ≡ true }
        requires to { knows self.old.state.cells to ≡ true }
        ensures gone { (result ≡ Err (Trouble.Fault RunFault.FreedAccess)) ↔ (is_living self.old.state.cells of.0 ≡ false) }
        ensures full { (result ≡ Err (Trouble.Fault RunFault.HeapFull)) ↔ ((is_living self.old.state.cells of.0 ≡ true) × (67108864 < weight (with_field self.old.state of.0 index to).cells)) }
        ensures ok { OnOk result (self.new.state ≡ with_field self.old.state of.0 index to) }
        ensures err { OnErr result (self.new.state ≡ self.old.state) }
        ensures only { IfErr result (λ e. (e ≡ Trouble.Fault RunFault.FreedAccess) ⊎ (e ≡ Trouble.Fault RunFault.HeapFull)) }
    {
        self.total = store_field(
            &mut self.slots,
            of.0 as usize,
            index as usize,
            to,
            self.total,
        )?;
        Ok(())
    }

    /// Null where it has gone.
    pub fn weak_get(&self, of: Serial) -> Value
        requires { knows_object self.now.state.cells of ≡ true }
        ensures { result ≡ (if is_living self.now.state.cells of.0 then Value.Object of else Value.Null) }
    {
        if lives(self.slots.as_slice(), of.0) {
            Value::Object(of)
        } else {
            Value::Null
        }
    }

    /// The cell, where it lives. Its connections are told by `connections` and `has_connection`.
    pub fn cell(&self, of: Serial) -> Option<&Cell>
        requires { is_given self.now.state.cells of ≡ true }
        ensures { option_map unlinked (option_copied result) ≡ option_map unlinked (cell_at self.now.state.cells of.0) }
    {
        self.slots[of.0 as usize].cell.as_ref()
    }

    /// Gives a cell the next serial. No caller holds it yet.
    pub fn new_cell(&mut self, cell: Cell) -> Result<Serial, Trouble>
        requires known { KnowsCell self.old.state.cells cell }
        requires fresh { IsFresh cell }
        ensures full { (result ≡ Err (Trouble.Fault RunFault.HeapFull)) ↔ ((67108864 < weight self.old.state.cells + cell_weight cell) ⊎ (length self.old.state.cells ≡ 2 ^ 64)) }
        ensures serial { IfOk result (λ s. s.0 ≡ length self.old.state.cells) }
        ensures ok { OnOk result (self.new.state ≡ with_new self.old.state cell) }
        ensures err { OnErr result (self.new.state ≡ self.old.state) }
        ensures only { IfErr result (λ e. (e ≡ Trouble.Fault RunFault.HeapFull) ⊎ (e ≡ Trouble.NoMemory)) }
    {
        let serial = Serial(self.slots.len() as u64);
        self.total = add_cell(&mut self.slots, cell, self.total)?;
        Ok(serial)
    }

    /// How much more the cells may weigh.
    pub fn room(&self) -> u64
        ensures room { result + weight self.now.state.cells ≡ 67108864 }
    {
        LIMIT - self.total
    }

    /// How many serials are left to give.
    pub fn serials_left(&self) -> u64
        ensures left { result + length self.now.state.cells ≡ 2 ^ 64 }
        ensures number { result ≡ serials_left self.now.state }
    {
        MOST_SERIALS - (self.slots.len() as u64 - 1)
    }

    /// A cell's count. Where the cell lives it is the number of its references: those in cells, and those that a caller retains.
    pub fn count_of(&self, of: Serial) -> u128
        ensures living { is_living self.now.state.cells of.0 ≡ true → result ≡ refs self.now.state of.0 }
        ensures gone { is_living self.now.state.cells of.0 ≡ false → result ≡ 0 }
    {
        count(self.slots.as_slice(), of.0)
    }

    /// What is true of every heap.
    pub fn is_sound(&self)
        ensures { IsSound self.now.state }
    {
        let _count = self.slots.len();
    }

    /// A field of an object.
    pub fn field(&self, of: Serial, index: u32) -> Result<&Value, RunFault>
        requires of { knows_object self.now.state.cells of ≡ true }
        requires field { is_living self.now.state.cells of.0 ≡ true → is_some (field_in (cell_at self.now.state.cells of.0) index) ≡ true }
        ensures value { IfOk result (λ v. field_in (cell_at self.now.state.cells of.0) index ≡ Some v.now) }
        ensures gone { IfErr result (λ e. (e ≡ RunFault.FreedAccess) × (is_living self.now.state.cells of.0 ≡ false)) }
    {
        match field_at(self.slots.as_slice(), of.0 as usize, index as usize) {
            Some(v) => Ok(v),
            None => Err(RunFault::FreedAccess),
        }
    }

    /// The number of objects, without arrays and dictionaries.
    pub fn live_count(&self) -> u64
        ensures { result ≡ objects_in self.now.state.cells }
    {
        count_objects(self.slots.as_slice())
    }

    /// The targets of a signal and their methods, in order of connection.
    pub fn connections(&self, from: Serial, signal: &Str) -> Result<Vec<(Serial, Str)>, AllocError>
        requires { is_object (cell_at self.now.state.cells from.0) ≡ true }
        ensures { IfOk result (λ found. found.items ≡ targets_of signal.now (connections_of (cell_at self.now.state.cells from.0))) }
    {
        links_at(self.slots.as_slice(), from.0 as usize).targets(self.alloc, signal)
    }

    /// Whether the signal has that connection.
    pub fn has_connection(&self, from: Serial, signal: &Str, to: Serial, method: &Str) -> bool
        requires { is_object (cell_at self.now.state.cells from.0) ≡ true }
        ensures { result ≡ list_any (is_connection signal.now to method.now) (connections_of (cell_at self.now.state.cells from.0)) }
    {
        links_at(self.slots.as_slice(), from.0 as usize).has(signal, to, method)
    }

    /// A signal gets a connection more, the object's last.
    pub fn add_connection(
        &mut self,
        from: Serial,
        signal: &Str,
        to: Serial,
        method: &Str,
    ) -> Result<(), Trouble>
        requires from { is_object (cell_at self.old.state.cells from.0) ≡ true }
        requires to { is_object (cell_at self.old.state.cells to.0) ≡ true }
        requires fresh { list_any (is_connection signal.now to method.now) (connections_of (cell_at self.old.state.cells from.0)) ≡ false }
        ensures full { (result ≡ Err (Trouble.Fault RunFault.HeapFull)) ↔ (connections_in self.old.state.cells ≡ 4294967295) }
        ensures ok { OnOk result (self.new.state ≡ connected self.old.state from.0 (record { signal = signal.now; target = to; method = method.now })) }
        ensures err { OnErr result (self.new.state ≡ self.old.state) }
        ensures only { IfErr result (λ e. (e ≡ Trouble.Fault RunFault.HeapFull) ⊎ (e ≡ Trouble.NoMemory)) }
    {
        let links = links_bound(self.slots.as_slice(), self.links);
        if links == MOST_LINKS {
            return Err(Trouble::Fault(RunFault::HeapFull));
        }
        let row = new_link(signal, to, method)?;
        self.links = links + 1;
        add_link(&mut self.slots, from.0 as usize, row)
    }

    /// Drops a connection of a signal, and answers whether it was there.
    pub fn remove_connection(
        &mut self,
        from: Serial,
        signal: &Str,
        to: Serial,
        method: &Str,
    ) -> bool
        requires { is_object (cell_at self.old.state.cells from.0) ≡ true }
        ensures found { result ≡ list_any (is_connection signal.now to method.now) (connections_of (cell_at self.old.state.cells from.0)) }
        ensures after { self.new.state ≡ disconnected self.old.state from.0 signal.now to method.now }
    {
        let found = self.has_connection(from, signal, to, method);
        drop_link(&mut self.slots, from.0 as usize, signal, to, method);
        found
    }

    /// Names a node.
    pub fn set_name(&mut self, of: Serial, name: Str)
        requires { is_node (cell_at self.old.state.cells of.0) ≡ true }
        ensures { self.new.state ≡ with_name self.old.state of.0 name }
    {
        name_node(&mut self.slots, of.0 as usize, name);
    }

    /// A node becomes the last child of another.
    pub fn add_child(&mut self, parent: Serial, child: Serial) -> Result<(), AllocError>
        requires parent { is_node (cell_at self.old.state.cells parent.0) ≡ true }
        requires child { is_node (cell_at self.old.state.cells child.0) ≡ true }
        requires orphan { parent_of (cell_at self.old.state.cells child.0) ≡ None }
        requires above { IsUnder self.old.state.cells child.0 parent.0 → ⊥ }
        ensures ok { OnOk result (self.new.state ≡ with_child self.old.state parent child) }
        ensures err { OnErr result (self.new.state ≡ self.old.state) }
    {
        adopt_node(&mut self.slots, parent.0 as usize, child)?;
        place_node(&mut self.slots, child.0 as usize, parent);
        Ok(())
    }

    /// Asks for a node to be freed at the run's end.
    pub fn queue_node(&mut self, of: Serial) -> Result<(), AllocError>
        requires { is_node (cell_at self.old.state.cells of.0) ≡ true }
        ensures ok { OnOk result (self.new.state ≡ with_queued self.old.state of) }
        ensures err { OnErr result (self.new.state ≡ self.old.state) }
    {
        self.queued.push(of)?;
        Ok(())
    }

    /// The nodes to be freed, in order of asking.
    pub fn queued(&self) -> &[Serial]
        ensures { result.now ≡ self.now.state.queued }
    {
        self.queued.as_slice()
    }

    /// Gives a dictionary an entry. A new key goes last, and a present one keeps its place.
    pub fn set_entry(&mut self, of: Serial, key: Key, to: Value) -> Result<(), Trouble>
        requires dict { is_dict (cell_at self.old.state.cells of.0) ≡ true }
        requires key { knows_key self.old.state.cells key ≡ true }
        requires to { knows self.old.state.cells to ≡ true }
        ensures full { (result ≡ Err (Trouble.Fault RunFault.HeapFull)) ↔ (67108864 < weight (with_entry_at self.old.state of.0 key to).cells) }
        ensures ok { OnOk result (self.new.state ≡ with_entry_at self.old.state of.0 key to) }
        ensures err { OnErr result (self.new.state ≡ self.old.state) }
        ensures only { IfErr result (λ e. (e ≡ Trouble.Fault RunFault.HeapFull) ⊎ (e ≡ Trouble.NoMemory)) }
    {
        self.total = store_entry(&mut self.slots, of.0 as usize, key, to, self.total)?;
        Ok(())
    }

    /// Takes a key out of a dictionary, and answers whether it was there.
    pub fn remove_entry(&mut self, of: Serial, key: &Key) -> bool
        requires dict { is_dict (cell_at self.old.state.cells of.0) ≡ true }
        requires key { knows_key self.old.state.cells key.now ≡ true }
        ensures found { result ≡ is_some (lookup (same_key key.now) (entries_of (cell_at self.old.state.cells of.0))) }
        ensures after { self.new.state ≡ without_entry_at self.old.state of.0 key.now }
    {
        match drop_entry(&mut self.slots, of.0 as usize, key, self.total) {
            Some(left) => {
                self.total = left;
                true
            }
            None => false,
        }
    }

    /// Puts values into an array in the place of `out` items from an index on.
    pub fn splice(
        &mut self,
        of: Serial,
        at: usize,
        out: usize,
        put: Vec<Value>,
    ) -> Result<(), Trouble>
        requires array { is_array (cell_at self.old.state.cells of.0) ≡ true }
        requires items { at + out ≤ length (items_of (cell_at self.old.state.cells of.0)) }
        requires put { KnowsAll self.old.state.cells put.items }
        ensures full { (result ≡ Err (Trouble.Fault RunFault.HeapFull)) ↔ (67108864 < weight (with_splice self.old.state of.0 at out put.items).cells) }
        ensures ok { OnOk result (self.new.state ≡ with_splice self.old.state of.0 at out put.items) }
        ensures err { OnErr result (self.new.state ≡ self.old.state) }
        ensures only { IfErr result (λ e. (e ≡ Trouble.Fault RunFault.HeapFull) ⊎ (e ≡ Trouble.NoMemory)) }
    {
        self.total = store_splice(
            &mut self.slots,
            of.0 as usize,
            at,
            out,
            put,
            self.total,
            self.alloc,
        )?;
        Ok(())
    }

    /// Takes an object away at once, with a node's whole subtree and the connections from and to them. What was known stays
    /// known: what names an object that went names one that has gone.
    pub fn free_node(&mut self, of: Serial) -> Result<(), RunFault>
        requires of { knows_object self.old.state.cells of ≡ true }
        requires uncounted { is_counted (cell_at self.old.state.cells of.0) ≡ false }
        ensures ok { OnOk result (IsFreed self.old.state self.new.state of.0) }
        ensures freed { OnOk result (self.new.state ≡ freed self.old.state of.0) }
        ensures keeps { (v : AValue) → knows self.old.state.cells v ≡ true → knows self.new.state.cells v ≡ true }
        ensures gone { IfErr result (λ e. (e ≡ RunFault.FreedAccess) × (is_living self.old.state.cells of.0 ≡ false)) }
        ensures lives { OnOk result (is_living self.old.state.cells of.0 ≡ true) }
        ensures err { OnErr result (self.new.state ≡ self.old.state) }
    {
        if !lives(self.slots.as_slice(), of.0) {
            return Err(RunFault::FreedAccess);
        }
        self.total = free_tree(&mut self.slots, of.0 as usize, self.total);
        Ok(())
    }
}
