//! The lists of one side, linked by index.
ghost use Rattle.std.specs.Prelude.{◌≡◌, ℕ, ◌<◌, ◌≤◌, ◌↔◌, ◌++◌, [], ◌∷◌, length, map, slice_get, slice_set, slice_index_or, vec_len, IsTrue, OnOk, IfOk, Contains};
ghost use Rattle.std.specs.Option.{ForSome};
ghost use Rattle.index_lists.specs.Lists.{list_at, without, padded, IsApart};
ghost use Rattle.index_lists.specs.Chains.{after, before, owner, Joins, no_table};

use std::alloc::{AllocError, Global};
use std::marker::Model;

/// A node's list and its neighbours there. A node in no list has none.
#[derive(Clone, Copy)]
struct Link {
    head: Option<u32>,
    previous: Option<u32>,
    next: Option<u32>,
}

/// The ends of a head's list. An empty list has none.
#[derive(Clone, Copy)]
struct Ends {
    first: Option<u32>,
    last: Option<u32>,
}

const NO_LINK: Link = Link {
    head: None,
    previous: None,
    next: None,
};

const NO_ENDS: Ends = Ends {
    first: None,
    last: None,
};

/// A list of nodes for each head. A node is in one of them at most.
#[derive(Drop)]
pub struct Chains {
    nodes: u32,
    heads: u32,
    // Both may be longer than the counts, with nothing linked there.
    links: Vec<Link>,
    ends: Vec<Ends>,
}

impl Model for Chains {
    ghost use Rattle.std.specs.Prelude.{length};
    ghost use Rattle.index_lists.specs.Chains.{Table, table_code, lists_between, AreLinked};

    ghost Value = { Table };

    ghost coded = { table_code };

    ghost view = { λ a. record {
      nodes = a.nodes;
      lists = lists_between a.links.items a.ends.items a.heads;
      node_room = length a.links.items;
      head_room = length a.ends.items;
    } };

    ghost invariant = { λ a.
        AreLinked a.links.items a.ends.items a.nodes a.heads (lists_between a.links.items a.ends.items a.heads) };
}

// Lets `right` follow `left` in the list of `head`. `None` is that end of the list.
fn join(
    links: &mut Vec<Link>,
    ends: &mut Vec<Ends>,
    head: u32,
    left: Option<u32>,
    right: Option<u32>,
)
    requires head_in { head < vec_len ends.old }
    requires left_in { ForSome left (λ node. node < vec_len links.old) }
    requires right_in { ForSome right (λ node. node < vec_len links.old) }
    ensures joins { Joins (after links.old.items ends.old.items) (before links.old.items ends.old.items)
        (after links.new.items ends.new.items) (before links.new.items ends.new.items) head left right }
    ensures owners { (node : ℕ) → owner links.new.items node ≡ owner links.old.items node }
    ensures links_len { vec_len links.new ≡ vec_len links.old }
    ensures ends_len { vec_len ends.new ≡ vec_len ends.old }
{
    match left {
        Some(node) => links[node as usize].next = right,
        None => ends[head as usize].first = right,
    }
    match right {
        Some(node) => links[node as usize].previous = left,
        None => ends[head as usize].last = left,
    }
}

// Lengthens `items` to `count` at least.
fn lengthen<T: Copy>(items: &mut Vec<T>, count: u32, filler: T) -> Result<(), AllocError>
    ensures ok { OnOk result (count ≤ vec_len items.new) }
    ensures longer { vec_len items.old ≤ vec_len items.new }
    ensures same { (i : ℕ) → slice_index_or items.new.items i filler ≡ slice_index_or items.old.items i filler }
{
    while items.len() < count as usize {
        items.push(filler)?;
    }
    Ok(())
}

impl Chains {
    pub fn new(alloc: Global) -> Self
        ensures { result ≡ no_table }
    {
        Chains {
            nodes: 0,
            heads: 0,
            links: Vec::new(alloc),
            ends: Vec::new(alloc),
        }
    }

    pub fn nodes(&self) -> u32
        ensures { result ≡ self.now.nodes }
    {
        self.nodes
    }

    pub fn heads(&self) -> u32
        ensures { result ≡ length self.now.lists }
    {
        self.heads
    }

    /// Takes the memory for so many nodes and heads.
    pub fn reserve(&mut self, nodes: u32, heads: u32) -> Result<(), AllocError>
        ensures node_room { OnOk result (nodes ≤ self.new.node_room) }
        ensures head_room { OnOk result (heads ≤ self.new.head_room) }
        ensures nodes { self.new.nodes ≡ self.old.nodes }
        ensures lists { self.new.lists ≡ self.old.lists }
    {
        lengthen(&mut self.links, nodes, NO_LINK)?;
        lengthen(&mut self.ends, heads, NO_ENDS)?;
        Ok(())
    }

    /// Adds nodes and heads, in the room that is reserved.
    pub fn widen(&mut self, nodes: u32, heads: u32)
        requires node_room { nodes ≤ self.old.node_room }
        requires head_room { heads ≤ self.old.head_room }
        requires more_nodes { self.old.nodes ≤ nodes }
        requires more_heads { length self.old.lists ≤ heads }
        ensures nodes { self.new.nodes ≡ nodes }
        ensures lists { self.new.lists ≡ padded self.old.lists heads }
        ensures apart { IsApart self.new.nodes (list_at self.new.lists) }
    {
        self.nodes = nodes;
        self.heads = heads;
    }

    pub fn link_last(&mut self, head: u32, node: u32)
        requires head_in { head < length self.old.lists }
        requires node_in { node < self.old.nodes }
        requires free { (other : ℕ) → ¬ Contains (list_at self.old.lists other) node }
        ensures nodes { self.new.nodes ≡ self.old.nodes }
        ensures lists { self.new.lists ≡ slice_set self.old.lists head (list_at self.old.lists head ++ node ∷ []) }
        ensures apart { IsApart self.new.nodes (list_at self.new.lists) }
    {
        let last = self.ends[head as usize].last;
        self.links[node as usize].head = Some(head);
        join(&mut self.links, &mut self.ends, head, last, Some(node));
        join(&mut self.links, &mut self.ends, head, Some(node), None);
    }

    pub fn unlink(&mut self, node: u32)
        requires { (head : ℕ) × Contains (list_at self.old.lists head) node }
        ensures nodes { self.new.nodes ≡ self.old.nodes }
        ensures lists { self.new.lists ≡ map (without node) self.old.lists }
        ensures apart { IsApart self.new.nodes (list_at self.new.lists) }
    {
        let link = self.links[node as usize];
        let head = link.head.unwrap();
        self.links[node as usize] = NO_LINK;
        join(
            &mut self.links,
            &mut self.ends,
            head,
            link.previous,
            link.next,
        );
    }

    pub fn first(&self, head: u32) -> Option<u32>
        requires { head < length self.now.lists }
        ensures { result ≡ slice_get (list_at self.now.lists head) 0 }
    {
        self.ends[head as usize].first
    }

    pub fn next(&self, node: u32) -> Option<u32>
        requires { (head : ℕ) × Contains (list_at self.now.lists head) node }
        ensures { (head : ℕ) (front rest : _) → list_at self.now.lists head ≡ front ++ node ∷ rest → result ≡ slice_get rest 0 }
    {
        self.links[node as usize].next
    }

    pub fn linked(&self, node: u32) -> bool
        requires { node < self.now.nodes }
        ensures { IsTrue result ↔ ((head : ℕ) × Contains (list_at self.now.lists head) node) }
    {
        self.links[node as usize].head.is_some()
    }
}
