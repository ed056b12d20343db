//! The same calls over lists of lists, with no links.
ghost use Rattle.std.specs.Prelude.{◌≡◌, ◌+◌, ◌<◌, ◌≤◌, ◌++◌, [], ◌∷◌, map, slice_set, vec_len, IfOk, OnOk};
ghost use Rattle.index_lists.specs.Lists.{list_at, list_of, without, padded, empty_lists, grown, linked_last, unlinked};

use super::Side;
use std::alloc::{AllocError, Global};
use std::marker::Model;

#[derive(Drop)]
pub struct PlainRows {
    nodes: u32,
    heads: u32,
    first: Vec<Vec<u32>>,
    second: Vec<Vec<u32>>,
    moves: u64,
}

impl Model for PlainRows {
    ghost use Rattle.std.specs.Prelude.{◌≡◌, map, length};
    ghost use Rattle.index_lists.specs.Lists.{Lists, lists_code};

    ghost Value = { Lists };

    ghost coded = { lists_code };

    ghost view = { λ a. record {
      nodes = a.nodes;
      heads = a.heads;
      first = map (λ list. list.items) a.first.items;
      second = map (λ list. list.items) a.second.items;
      moves = a.moves;
    } };

    ghost invariant = { λ a. (length a.first.items ≡ a.heads) × (length a.second.items ≡ a.heads) };
}

fn push(lists: &mut Vec<Vec<u32>>, head: u32, node: u32) -> Result<(), AllocError>
    requires { head < vec_len lists.old }
    ensures ok { OnOk result (map (λ list. list.items) lists.new.items
        ≡ slice_set (map (λ list. list.items) lists.old.items) head (list_at (map (λ list. list.items) lists.old.items) head ++ node ∷ [])) }
    ensures len { vec_len lists.new ≡ vec_len lists.old }
{
    let list = &mut lists[head as usize];
    list.push(node)?;
    Ok(())
}

fn leave_out(nodes: &mut Vec<u32>, node: u32)
    ensures { nodes.new.items ≡ without node nodes.old.items }
{
    let mut at = 0;
    while at < nodes.len() {
        if nodes[at] == node {
            nodes.remove(at);
        } else {
            at += 1;
        }
    }
}

fn remove(lists: &mut Vec<Vec<u32>>, node: u32)
    ensures lists { map (λ list. list.items) lists.new.items ≡ map (without node) (map (λ list. list.items) lists.old.items) }
    ensures len { vec_len lists.new ≡ vec_len lists.old }
{
    for list in lists.iter_mut() {
        leave_out(list, node);
    }
}

fn lengthen(alloc: Global, lists: &mut Vec<Vec<u32>>, heads: u32) -> Result<(), AllocError>
    requires { vec_len lists.old ≤ heads }
    ensures ok { OnOk result (map (λ list. list.items) lists.new.items ≡ padded (map (λ list. list.items) lists.old.items) heads) }
    ensures len { OnOk result (vec_len lists.new ≡ heads) }
{
    while lists.len() < heads as usize {
        lists.push(Vec::new(alloc))?;
    }
    Ok(())
}

impl PlainRows {
    pub fn new(alloc: Global, nodes: u32, heads: u32) -> Result<PlainRows, AllocError>
        ensures { IfOk result (λ rows. rows ≡ empty_lists nodes heads) }
    {
        let mut first = Vec::new(alloc);
        let mut second = Vec::new(alloc);
        lengthen(alloc, &mut first, heads)?;
        lengthen(alloc, &mut second, heads)?;
        Ok(PlainRows {
            nodes,
            heads,
            first,
            second,
            moves: 0,
        })
    }

    pub fn grown(self, alloc: Global, nodes: u32, heads: u32) -> Result<PlainRows, AllocError>
        requires { self.heads ≤ heads }
        ensures { IfOk result (λ rows. rows ≡ grown self nodes heads) }
    {
        let PlainRows {
            mut first,
            mut second,
            moves,
            ..
        } = self;
        lengthen(alloc, &mut first, heads)?;
        lengthen(alloc, &mut second, heads)?;
        Ok(PlainRows {
            nodes,
            heads,
            first,
            second,
            moves,
        })
    }

    pub fn heads(&self) -> u32
        ensures { result ≡ self.now.heads }
    {
        self.heads
    }

    pub fn moves(&self) -> u64
        ensures { result ≡ self.now.moves }
    {
        self.moves
    }

    pub fn link_last(&mut self, side: Side, head: u32, node: u32) -> Result<(), AllocError>
        requires { head < self.old.heads }
        ensures { OnOk result (self.new ≡ linked_last self.old side head node) }
    {
        match side {
            Side::First => push(&mut self.first, head, node)?,
            Side::Second => push(&mut self.second, head, node)?,
        }
        self.moves = self.moves.saturating_add(1);
        Ok(())
    }

    pub fn unlink(&mut self, side: Side, node: u32)
        ensures { self.new ≡ unlinked self.old side node }
    {
        self.moves = self.moves.saturating_add(1);
        match side {
            Side::First => remove(&mut self.first, node),
            Side::Second => remove(&mut self.second, node),
        }
    }

    pub fn nodes_of(&self, side: Side, head: u32) -> &[u32]
        requires { head < self.now.heads }
        ensures { result.now ≡ list_of self.now side head }
    {
        match side {
            Side::First => self.first[head as usize].as_slice(),
            Side::Second => self.second[head as usize].as_slice(),
        }
    }
}
