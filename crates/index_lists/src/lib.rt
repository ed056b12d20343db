//! Lists of nodes that are named by index. Linking and unlinking a node take constant time and no memory.
#![tactic(auto)]

ghost use Rattle.std.specs.Prelude.{◌≡◌, ℕ, ◌<◌, ◌≤◌, ◌↔◌, List, ◌++◌, ◌∷◌, slice_get, IsTrue, IfSome, IfOk, OnOk, OnErr};
ghost use Rattle.index_lists.specs.Lists.{AreSound, IsLinked, list_of, empty_lists, grown, linked_last, unlinked, moved};
ghost use Rattle.index_lists.specs.Chains.{lists_from};

mod chains;
#[cfg(test)]
mod plain;
#[cfg(test)]
mod tests;
mod thread_safety;

use chains::Chains;
use std::alloc::{AllocError, Global};
use std::marker::Model;

/// Which of a node's two places, and of a head's two lists.
#[derive(Clone, Copy, Debug, PartialEq, Eq)]
pub enum Side {
    First,
    Second,
}

/// Nodes and heads that are named by index. On each side a head has a list of nodes, and a node is
/// in one list at most.
#[derive(Drop)]
pub struct Rows {
    first: Chains,
    second: Chains,
    moves: u64,
    ghost sound: { AreSound (lists_from first second moves) },
}

impl Model for Rows {
    ghost use Rattle.std.specs.Prelude.{◌≡◌};
    ghost use Rattle.index_lists.specs.Lists.{SoundLists, sound_lists_code};
    ghost use Rattle.index_lists.specs.Chains.{lists_from};

    ghost Value = { SoundLists };

    ghost coded = { sound_lists_code };

    ghost view = { λ a. record { lists = lists_from a.first a.second a.moves; sound = a.sound } };

    ghost invariant = { λ a. a.second.nodes ≡ a.first.nodes };
}

impl Rows {
    /// So many nodes and heads, with every list empty.
    pub fn new(alloc: Global, nodes: u32, heads: u32) -> Result<Rows, AllocError>
        ensures { IfOk result (λ rows. rows.lists ≡ empty_lists nodes heads) }
    {
        let mut rows = Rows::empty(alloc);
        rows.grow(nodes, heads)?;
        Ok(rows)
    }

    fn empty(alloc: Global) -> Rows
        ensures { result.lists ≡ empty_lists 0 0 }
    {
        Rows {
            first: Chains::new(alloc),
            second: Chains::new(alloc),
            moves: 0,
        }
    }

    /// Adds nodes and heads, up to so many in all.
    pub fn grow(&mut self, nodes: u32, heads: u32) -> Result<(), AllocError>
        requires nodes_stay { self.old.lists.nodes ≤ nodes }
        requires heads_stay { self.old.lists.heads ≤ heads }
        ensures ok { OnOk result (self.new.lists ≡ grown self.old.lists nodes heads) }
        ensures err { OnErr result (self.new.lists ≡ self.old.lists) }
    {
        self.first.reserve(nodes, heads)?;
        self.second.reserve(nodes, heads)?;
        self.first.widen(nodes, heads);
        self.second.widen(nodes, heads);
        Ok(())
    }

    /// Puts a node at the end of the head's list.
    pub fn link_last(&mut self, side: Side, head: u32, node: u32)
        requires head_in { head < self.old.lists.heads }
        requires node_in { node < self.old.lists.nodes }
        requires free { ¬ IsLinked self.old.lists side node }
        ensures lists { self.new.lists ≡ linked_last self.old.lists side head node }
        ensures linked { IsLinked self.new.lists side node }
        ensures nodes { self.new.lists.nodes ≡ self.old.lists.nodes }
        ensures heads { self.new.lists.heads ≡ self.old.lists.heads }
        ensures moves { self.new.lists.moves ≡ moved self.old.lists.moves }
    {
        self.moves = self.moves.saturating_add(1);
        match side {
            Side::First => self.first.link_last(head, node),
            Side::Second => self.second.link_last(head, node),
        }
    }

    /// Takes a node out of its list.
    pub fn unlink(&mut self, side: Side, node: u32)
        requires { IsLinked self.old.lists side node }
        ensures lists { self.new.lists ≡ unlinked self.old.lists side node }
        ensures free { ¬ IsLinked self.new.lists side node }
        ensures nodes { self.new.lists.nodes ≡ self.old.lists.nodes }
        ensures heads { self.new.lists.heads ≡ self.old.lists.heads }
        ensures moves { self.new.lists.moves ≡ moved self.old.lists.moves }
    {
        self.moves = self.moves.saturating_add(1);
        match side {
            Side::First => self.first.unlink(node),
            Side::Second => self.second.unlink(node),
        }
    }

    /// The first node of the head's list.
    pub fn first(&self, side: Side, head: u32) -> Option<u32>
        requires { head < self.now.lists.heads }
        ensures value { result ≡ slice_get (list_of self.now.lists side head) 0 }
        ensures linked { IfSome result (IsLinked self.now.lists side) }
        ensures in_range { IfSome result (λ node. node < self.now.lists.nodes) }
    {
        match side {
            Side::First => self.first.first(head),
            Side::Second => self.second.first(head),
        }
    }

    /// The node after this one in its list.
    pub fn next(&self, side: Side, node: u32) -> Option<u32>
        requires { IsLinked self.now.lists side node }
        ensures value { (head : ℕ) (front rest : List ℕ)
            → list_of self.now.lists side head ≡ front ++ node ∷ rest → result ≡ slice_get rest 0 }
        ensures linked { IfSome result (IsLinked self.now.lists side) }
        ensures in_range { IfSome result (λ node. node < self.now.lists.nodes) }
    {
        match side {
            Side::First => self.first.next(node),
            Side::Second => self.second.next(node),
        }
    }

    /// Whether the node is in a list.
    pub fn linked(&self, side: Side, node: u32) -> bool
        requires { node < self.now.lists.nodes }
        ensures { IsTrue result ↔ IsLinked self.now.lists side node }
    {
        match side {
            Side::First => self.first.linked(node),
            Side::Second => self.second.linked(node),
        }
    }

    /// How often a node was linked or unlinked, up to `u64::MAX`.
    pub fn moves(&self) -> u64
        ensures { result ≡ self.now.lists.moves }
    {
        self.moves
    }

    pub fn nodes(&self) -> u32
        ensures { result ≡ self.now.lists.nodes }
    {
        self.first.nodes()
    }

    pub fn heads(&self) -> u32
        ensures { result ≡ self.now.lists.heads }
    {
        self.first.heads()
    }
}
