//! Lists of nodes, with cells that name a list.
ghost use Rattle.std.specs.Prelude.{◌≡◌, ℕ, ◌+◌, ◌<◌, ◌≤◌, List, length, IfOk, None, slice_set, slice_index, replicate};
ghost use Rattle.row_links.specs.Lists.{all_in, moved, spliced, front, front_taken, node_count};
ghost use Rattle.row_links.specs.Lists.{HasEachOnce, IsInList};
ghost use Rattle.row_links.specs.Cells.{AreTold, AreOpened, IsUnnamed, IsKept};

use crate::links::{Links, each_alone};
use racer_base::Memory;
use std::alloc::Global;
use std::marker::Model;

/// Lists of nodes: each node stands in exactly one list. A node names a cell, and the cell names the list, so that all
/// nodes of a list come to another one by as many steps as the list has cells.
#[derive(Drop)]
pub struct Rows {
    nodes: Links,
    /// The cells of each list, and in one row more those that are free.
    cells: Links,
    free: u32,
    cell_of: Vec<usize>,
    list_of: Vec<u32>,
    /// How many nodes name each cell.
    uses: Vec<usize>,
    /// The cell of each list that takes new nodes.
    open_cells: Vec<usize>,
}

impl Model for Rows {
    ghost Value = { List (List ℕ) };

    ghost view = { λ rows. rows.nodes };

    ghost invariant = { λ rows. IsKept rows.nodes rows.cells rows.free rows.cell_of.items rows.list_of.items
        rows.uses.items rows.open_cells.items };
}

/// Puts a cell last among those of a list, which it names.
fn turn(cells: &mut Links, list_of: &mut Vec<u32>, cell: usize, list: u32)
    requires cell { cell < node_count cells.old }
    requires column { cell < length list_of.old.items }
    requires list { list < length cells.old }
    ensures cells { cells.new ≡ moved cell list cells.old }
    ensures list_of { list_of.new.items ≡ slice_set list_of.old.items cell list }
{
    cells.move_last(cell, list as usize);
    list_of[cell] = list;
}

/// Opens the cell of each list's number, where all cells are free.
fn open_each(cells: &mut Links, list_of: &mut Vec<u32>, lists: u32, count: usize)
    requires room { lists ≤ count }
    requires cells { cells.old ≡ all_in lists count (lists + 1) }
    requires list_of { list_of.old.items ≡ replicate count lists }
    ensures { AreOpened lists count lists cells.new list_of.new.items }
{
    for list in 0..lists {
        turn(cells, list_of, list as usize, list);
    }
}

/// Puts all cells of a list behind those of another, which they name.
fn turn_all(cells: &mut Links, list_of: &mut Vec<u32>, from: u32, to: u32)
    requires from { from < length cells.old }
    requires to { to < length cells.old }
    requires other { from ≡ to → ⊥ }
    requires each { HasEachOnce cells.old }
    requires room { length list_of.old.items ≡ node_count cells.old }
    requires told { AreTold cells.old list_of.old.items }
    ensures cells { cells.new ≡ spliced from to cells.old }
    ensures room { length list_of.new.items ≡ length list_of.old.items }
    ensures told { AreTold cells.new list_of.new.items }
{
    while let Some(cell) = cells.first(from as usize) {
        turn(cells, list_of, cell, to);
    }
}

/// A cell that no node names: this one, or the first of those that are free.
fn unnamed(cells: &Links, uses: &[usize], open_cell: usize, free: u32) -> usize
    requires open_cell { open_cell < length uses.now }
    requires free { free < length cells.now }
    requires left { 0 < slice_index uses.now open_cell → front free cells.now ≡ None → ⊥ }
    ensures { IsUnnamed cells.now uses.now open_cell free result }
{
    if uses[open_cell] == 0 {
        return open_cell;
    }
    let Some(cell) = cells.first(free as usize) else {
        unreachable!()
    };
    cell
}

impl Rows {
    /// So many lists, of which the first has so many nodes in order.
    pub fn new(alloc: Global, nodes: u32, lists: u32) -> Result<Rows, Memory>
        requires { 1 ≤ lists }
        ensures { IfOk result (λ rows. rows ≡ all_in 0 nodes lists) }
    {
        let count = nodes as usize + lists as usize;
        let mut cells = Links::new(alloc, lists as usize, count, lists as usize + 1)?;
        let mut list_of = vec![in alloc; lists; count]?;
        open_each(&mut cells, &mut list_of, lists, count);
        let mut uses = vec![in alloc; 0; count]?;
        uses[0] = nodes as usize;
        Ok(Rows {
            nodes: Links::new(alloc, 0, nodes as usize, lists as usize)?,
            cells,
            free: lists,
            cell_of: vec![in alloc; 0; nodes as usize]?,
            list_of,
            uses,
            open_cells: each_alone(alloc, lists as usize)?,
        })
    }

    /// The list that has the node.
    pub fn list_of(&self, node: u32) -> u32
        requires { node < node_count self.now }
        ensures { IsInList self.now node result }
    {
        self.list_of[self.cell_of[node as usize]]
    }

    /// The first node of a list, if there is one.
    pub fn front(&self, list: u32) -> Option<u32>
        requires { list < length self.now }
        ensures { result ≡ front list self.now }
    {
        let first = self.nodes.first(list as usize)?;
        Some(first as u32)
    }

    /// Takes the node out of its list, and puts it last in this one.
    pub fn move_to(&mut self, node: u32, list: u32)
        requires node { node < node_count self.old }
        requires list { list < length self.old }
        ensures { self.new ≡ moved node list self.old }
    {
        let node = node as usize;
        self.nodes.move_last(node, list as usize);
        let (old, new) = (self.cell_of[node], self.open_cells[list as usize]);
        self.cell_of[node] = new;
        self.uses[old] -= 1;
        self.uses[new] += 1;
        let open_cell = self.open_cells[self.list_of[old] as usize];
        if self.uses[old] == 0 && open_cell != old {
            turn(&mut self.cells, &mut self.list_of, old, self.free);
        }
    }

    /// Puts the first node of a list last in another, if there is one.
    pub fn take_front(&mut self, from: u32, to: u32) -> Option<u32>
        requires from { from < length self.old }
        requires to { to < length self.old }
        ensures front { result ≡ front from self.old }
        ensures lists { self.new ≡ front_taken from to self.old }
    {
        let first = self.nodes.first(from as usize)? as u32;
        self.move_to(first, to);
        Some(first)
    }

    /// Puts all nodes of a list behind those of another.
    pub fn splice(&mut self, from: u32, to: u32)
        requires from { from < length self.old }
        requires to { to < length self.old }
        requires other { from ≡ to → ⊥ }
        ensures { self.new ≡ spliced from to self.old }
    {
        let open_cell = self.open_cells[from as usize];
        let fresh = unnamed(&self.cells, self.uses.as_slice(), open_cell, self.free);
        self.nodes.append(from as usize, to as usize);
        turn_all(&mut self.cells, &mut self.list_of, from, to);
        turn(&mut self.cells, &mut self.list_of, fresh, from);
        self.open_cells[from as usize] = fresh;
    }
}
