ghost use Rattle.std.specs.Prelude.{◌≡◌, ◌<◌, ◌^◌, length, [], slice_get, OnOk, OnErr, IfOk, Some, option_copied};
ghost use Rattle.std.specs.List.{sum_by};
ghost use Rattle.std.specs.Map.{lookup};
ghost use Rattle.variant_values.specs.Places.{entry_weight, room_left};
ghost use Rattle.variant_values.specs.Keys.{same_key, with_entry, without_entry, HasKeysOnce};

use crate::values::{Key, Value};
use crate::weights::entry_weight;
use indexmap::IndexMap;
use std::alloc::{AllocError, Global};
use std::marker::Model;

/// The entries of a dictionary in order, each key once. Contracts see the list of pairs.
#[derive(Drop)]
pub struct Entries {
    map: IndexMap<Key, Value>,
}

impl Model for Entries {
    ghost use Rattle.std.specs.Prelude.{List};
    ghost use Rattle.variant_values.specs.declared.values.Key.{Key};
    ghost use Rattle.variant_values.specs.declared.values.Value.{Value as AValue};

    ghost Value = { List (Key × AValue) };

    ghost view = { λ d. d.map.entries };
}

impl Entries {
    pub fn new(alloc: Global) -> Entries
        ensures { result ≡ [] }
    {
        Entries {
            map: IndexMap::new(alloc),
        }
    }

    pub fn len(&self) -> usize
        ensures { result ≡ length self.now }
    {
        self.map.len()
    }

    /// The value of a key.
    pub fn get(&self, key: &Key) -> Option<&Value>
        ensures { option_copied result ≡ lookup (same_key key.now) self.now }
    {
        self.map.get(key)
    }

    /// The entry at an index.
    pub fn entry_at(&self, index: usize) -> (&Key, &Value)
        requires { index < length self.now }
        ensures { slice_get self.now index ≡ Some (result.0.now, result.1.now) }
    {
        match self.map.get_index(index) {
            Some(entry) => entry,
            None => unreachable!(),
        }
    }

    /// A new key goes last, and a present one keeps its place. Hands out the value before.
    pub fn insert(&mut self, key: Key, to: Value) -> Result<Option<Value>, AllocError>
        ensures before { IfOk result (λ before. before ≡ lookup (same_key key) self.old) }
        ensures ok { OnOk result (self.new ≡ with_entry self.old key to) }
        ensures err { OnErr result (self.new ≡ self.old) }
    {
        Ok(self.map.insert(key, to)?)
    }

    /// Takes a key out, and hands out its value. The later entries keep their order.
    pub fn remove(&mut self, key: &Key) -> Option<Value>
        ensures value { result ≡ lookup (same_key key.now) self.old }
        ensures new { self.new ≡ without_entry self.old key.now }
    {
        self.map.shift_remove(key)
    }

    /// No key stands twice.
    pub fn keys_once(&self)
        ensures { HasKeysOnce self.now }
    {
        let _len = self.map.len();
    }

    /// What is left of so much room, where the entries have it.
    pub fn room_left(&self, room: u64) -> Option<u64>
        ensures { result ≡ room_left room (sum_by entry_weight self.now) }
    {
        let mut left = room;
        for i in 0..self.len() {
            let (key, value) = self.entry_at(i);
            let weight = entry_weight(key, value);
            if weight > left as u128 {
                return None;
            }
            left -= weight as u64;
        }
        Some(left)
    }

    /// What the entries weigh.
    pub fn weight(&self) -> u64
        requires { sum_by entry_weight self.now < 2 ^ 63 }
        ensures { result ≡ sum_by entry_weight self.now }
    {
        let mut total = 0;
        for i in 0..self.len() {
            let (key, value) = self.entry_at(i);
            total += entry_weight(key, value) as u64;
        }
        total
    }
}
