//! Rows of nodes, each a ring that is linked by index both ways.
ghost use Rattle.std.specs.Prelude.{◌≡◌, ℕ, ◌+◌, ◌<◌, ◌≤◌, List, length, IfOk, slice_set};
ghost use Rattle.std.specs.List.{range_with_len};
ghost use Rattle.row_links.specs.Lists.{all_in, moved, spliced, front, node_count};
ghost use Rattle.row_links.specs.Rings.{rings, AreLinked};

use racer_base::Memory;
use std::alloc::Global;
use std::marker::Model;

/// Rows of nodes. The ring of a row goes through a node of its own, whose number stands behind those of all others, so
/// that no row is empty and no node is the first or the last.
#[derive(Drop)]
pub(crate) struct Links {
    nodes: usize,
    next: Vec<usize>,
    before: Vec<usize>,
}

impl Model for Links {
    ghost Value = { List (List ℕ) };

    ghost view = { λ links. rings links.nodes links.next.items };

    ghost invariant = { λ links. AreLinked links.nodes links.next.items links.before.items };
}

/// Links a with b, and b with a.
fn link(next: &mut Vec<usize>, before: &mut Vec<usize>, a: usize, b: usize)
    requires next { a < length next.old.items }
    requires before { b < length before.old.items }
    ensures next { next.new.items ≡ slice_set next.old.items a b }
    ensures before { before.new.items ≡ slice_set before.old.items b a }
{
    next[a] = b;
    before[b] = a;
}

/// Each number at its own place: so many nodes, each in a ring of its own.
pub(crate) fn each_alone(alloc: Global, nodes: usize) -> Result<Vec<usize>, Memory>
    ensures { IfOk result (λ column. column.items ≡ range_with_len 0 nodes) }
{
    let mut column = Vec::with_capacity(alloc, nodes)?;
    for node in 0..nodes {
        column.push_reserved(node);
    }
    Ok(column)
}

impl Links {
    /// So many rows, with so many nodes in order in one of them.
    pub(crate) fn new(alloc: Global, row: usize, nodes: usize, rows: usize) -> Result<Links, Memory>
        requires { row < rows }
        ensures { IfOk result (λ links. links ≡ all_in row nodes rows) }
    {
        let Some(both) = nodes.checked_add(rows) else {
            return Err(Memory);
        };
        let mut next = each_alone(alloc, both)?;
        let mut before = each_alone(alloc, both)?;
        let ring = nodes + row;
        for node in 0..nodes {
            let last = before[ring];
            link(&mut next, &mut before, last, node);
            link(&mut next, &mut before, node, ring);
        }
        Ok(Links {
            nodes,
            next,
            before,
        })
    }

    /// The first node of a row.
    pub(crate) fn first(&self, row: usize) -> Option<usize>
        requires { row < length self.now }
        ensures { result ≡ front row self.now }
    {
        let first = self.next[self.nodes + row];
        if first < self.nodes {
            Some(first)
        } else {
            None
        }
    }

    /// Takes a node out of its row, and puts it last in another, or in the same.
    pub(crate) fn move_last(&mut self, node: usize, row: usize)
        requires node { node < node_count self.old }
        requires row { row < length self.old }
        ensures { self.new ≡ moved node row self.old }
    {
        let (before, next) = (self.before[node], self.next[node]);
        link(&mut self.next, &mut self.before, before, next);
        let ring = self.nodes + row;
        let last = self.before[ring];
        link(&mut self.next, &mut self.before, last, node);
        link(&mut self.next, &mut self.before, node, ring);
    }

    /// Puts all nodes of a row behind those of another.
    pub(crate) fn append(&mut self, from: usize, to: usize)
        requires from { from < length self.old }
        requires to { to < length self.old }
        requires other { from ≡ to → ⊥ }
        ensures { self.new ≡ spliced from to self.old }
    {
        let (ring, target) = (self.nodes + from, self.nodes + to);
        let (first, last) = (self.next[ring], self.before[ring]);
        if first == ring {
            return;
        }
        let end = self.before[target];
        link(&mut self.next, &mut self.before, end, first);
        link(&mut self.next, &mut self.before, last, target);
        link(&mut self.next, &mut self.before, ring, ring);
    }
}
