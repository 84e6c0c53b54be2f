//! The value behind the lock.
ghost use Rattle.std.specs.Prelude.{◌≡◌, ◌+◌, ◌*◌, ◌<◌, ◌++◌, [], ◌∷◌, length, All, IfNone, IfOk, IfSome, IsTrue, Some};
ghost use Rattle.std.specs.Prelude.{◌↔◌, option_map, slice_get};
ghost use Rattle.std.specs.Arc.{arc_value};
ghost use Rattle.std.specs.List.{list_all};
ghost use Rattle.core_code.specs.Chains.{row_of};
ghost use Rattle.core_code.specs.Counting.{times, weigh};
ghost use Rattle.core_code.specs.Program.{core};
ghost use Rattle.core_code.specs.CalleeRows.{rows_of, rows_in, AreRowsOf};
ghost use Rattle.summary_store.specs.declared.machine.Event.TheVariants.{Park};
ghost use Rattle.summary_store.specs.declared.machine.Hand.TheVariants.{Free};
ghost use Rattle.summary_store.specs.Machine.{IsDone};
ghost use Rattle.summary_store.specs.Setups.{setup_of, state_after};
ghost use Rattle.summary_store.specs.Kept.{pieces_of, IsPieceOf, IsRight, has_piece};
ghost use Rattle.summary_store.specs.Passes.{Agrees, WantsNext, IsRowDone, held_in, pass_view};

use crate::moves::{held, put_aside, rouse};
use crate::starting::{count, edge_count, first_lists, idle_methods, no_pieces};
use crate::{Event, Hand, Pass, StoreRun};
use core_code::{CallRows, Piece, Program};
use racer_base::{Memory, MethodId};
use row_links::Rows;
use std::alloc::Global;
use std::marker::Model;
use std::sync::Arc;
use std::sync::ledger::Book;

/// The value behind the lock. Contracts see it as its history, and its table of pieces, each at its method's number.
#[derive(Drop)]
pub struct Locked<P: Piece, L: StoreRun> {
    pub(crate) history: Vec<Event>,
    pub(crate) lists: Rows,
    /// Which workers have left.
    pub(crate) left: Vec<bool>,
    pub(crate) workers: u32,
    pub(crate) table: Vec<Option<Arc<P>>>,
    rows: Arc<CallRows>,
    pub(crate) book: Book<L>,
}

impl<P: Piece, L: StoreRun> Model for Locked<P, L> {
    ghost use Rattle.std.specs.Prelude.{List, Option, ◌≡◌, vec_capacity};
    ghost use Rattle.std.specs.Arc.{arc_value};
    ghost use Rattle.core_code.specs.Program.{core};
    ghost use Rattle.core_code.specs.CalleeRows.{AreRowsOf};
    ghost use Rattle.summary_store.specs.declared.machine.Event.{Event};
    ghost use Rattle.summary_store.specs.Setups.{setup_of};
    ghost use Rattle.summary_store.specs.Kept.{Kept, HasRoom, IsPieceOf, pieces_of};

    ghost Value = { List Event × List (Option P) };

    ghost view = { λ v. (v.history.items, pieces_of arc_value v.table.items) };

    ghost invariant = { λ v.
        Kept (IsPieceOf P.names (P.is_right L.program)) (setup_of (core L.program) L.parts) v.history.items
        v.lists v.left.items (pieces_of arc_value v.table.items) v.book.total
        × HasRoom (setup_of (core L.program) L.parts) (vec_capacity v.history)
        × AreRowsOf (core L.program) (arc_value v.rows)
        × (v.workers ≡ L.parts) };
}

/// Whether a method has a piece.
fn is_there<P>(table: &[Option<Arc<P>>], m: MethodId) -> bool
    ensures { result ≡ has_piece (slice_get (pieces_of arc_value table.now) m.0) }
{
    let place = m.0 as usize;
    place < table.len() && table[place].is_some()
}

/// Whether each of these methods has a piece.
fn all_there<P>(table: &[Option<Arc<P>>], row: &[MethodId]) -> bool
    ensures { result ≡ list_all (λ c. has_piece (slice_get (pieces_of arc_value table.now) c.0)) row.now }
{
    for callee in row {
        if !is_there(table, *callee) {
            return false;
        }
    }
    true
}

/// Room for all events, if it fits.
fn room_for(rows: &CallRows, methods: &[MethodId], workers: u32) -> Option<usize>
    requires { All (λ m. m.0 < length (rows_in rows.now)) methods.now }
    ensures { IfSome result (λ n.
        n ≡ 2 * (length methods.now + weigh (λ m. length (row_of (rows_in rows.now) m)) methods.now) + workers) }
{
    let edges = edge_count(rows, methods)?;
    methods
        .len()
        .checked_add(edges)?
        .checked_mul(2)?
        .checked_add(workers as usize)
}

/// A copy of the piece in a method's place, if there is one.
fn look<P: Drop>(table: &[Option<Arc<P>>], m: MethodId) -> Result<Option<Arc<P>>, Memory>
    requires { m.0 < length table.now }
    ensures { IfOk result (λ o. slice_get (pieces_of arc_value table.now) m.0 ≡ Some (option_map arc_value o)) }
{
    match &table[m.0 as usize] {
        Some(piece) => Ok(Some(piece.clone()?)),
        None => Ok(None),
    }
}

impl<P: Piece, L: StoreRun> Locked<P, L> {
    /// All analysed methods are idle, and there is room for all events and moves.
    pub(crate) fn start(
        alloc: Global,
        program: &Program,
        rows: Arc<CallRows>,
        workers: u32,
        book: Book<L>,
    ) -> Result<Locked<P, L>, Memory>
        requires program { program.now ≡ L.program }
        requires rows { AreRowsOf (core L.program) (arc_value rows) }
        requires workers { (0 < workers) × (workers ≡ L.parts) }
        requires book { book.total ≡ 0 }
        ensures { IfOk result (λ v. v.0 ≡ []) }
    {
        let idle = idle_methods(alloc, program)?;
        let Some(room) = room_for(&rows, idle.as_slice(), workers) else {
            return Err(Memory);
        };
        let history = Vec::with_capacity(alloc, room)?;
        let lists = first_lists(alloc, program, workers)?;
        let left = vec![in alloc; false; workers as usize]?;
        let table = no_pieces(alloc, count(program))?;
        Ok(Locked {
            history,
            lists,
            left,
            workers,
            table,
            rows,
            book,
        })
    }

    /// What the pass's worker holds here.
    fn hand_of(&self, pass: &Pass<L>) -> Hand
        ensures { slice_get (state_after L.program L.parts self.now.0).hands pass.now.number ≡ Some result }
    {
        if self.left[pass.number as usize] {
            return Hand::Gone;
        }
        match held(&self.lists, pass.number) {
            Some(m) => Hand::Holds(m),
            None => Hand::Free,
        }
    }

    /// Whether the pass agrees with this value.
    pub(crate) fn agrees(&self, pass: &Pass<L>) -> bool
        ensures { IsTrue result ↔ Agrees (state_after L.program L.parts self.now.0) pass.now }
    {
        self.hand_of(pass).is(pass.hand())
    }

    /// Whether all of the row of the method that the pass holds is done.
    pub(crate) fn is_row_done(&self, pass: &Pass<L>) -> bool
        requires { Agrees (state_after L.program L.parts self.now.0) pass.now }
        ensures { IsTrue result ↔
            IsRowDone (rows_of (core L.program)) (state_after L.program L.parts self.now.0) pass.now.hand }
    {
        let Hand::Holds(m) = pass.hand() else {
            return false;
        };
        all_there(self.table.as_slice(), self.rows.row(m))
    }

    /// What the type keeps: the history is legal, and the table is right.
    pub fn law(&self)
        ensures { IsRight P.names (P.is_right L.program) (setup_of (core L.program) L.parts) self.now.0 self.now.1 }
    {
        // Reading a field opens the model, whose invariant this tells.
        let _history = &self.history;
    }

    /// Lets the pass agree with this value. The pass has found nothing then.
    pub fn meet(&self, pass: &mut Pass<L>)
        ensures agrees { Agrees (state_after L.program L.parts self.now.0) pass.new }
        ensures number { pass.new.number ≡ pass.old.number }
        ensures found { pass.new.found ≡ 0 }
        ensures made { pass.new.made ≡ pass.old.made }
    {
        let hand = self.hand_of(pass);
        pass.hold(hand);
    }

    /// A copy of the piece of the callee that the pass wants, if it is done.
    pub(crate) fn wanted(&self, pass: &Pass<L>, callee: MethodId) -> Result<Option<Arc<P>>, Memory>
        requires agrees { Agrees (state_after L.program L.parts self.now.0) pass.now }
        requires next { WantsNext (rows_of (core L.program)) pass.now.hand pass.now.found callee }
        ensures some { IfOk result (λ o. IfSome o (λ piece.
            IsPieceOf P.names (P.is_right L.program) callee.0 (arc_value piece)
            × IsDone (state_after L.program L.parts self.now.0) callee)) }
        ensures none { IfOk result (λ o.
            IfNone o (times callee.0 (state_after L.program L.parts self.now.0).done ≡ 0)) }
    {
        look(self.table.as_slice(), callee)
    }

    /// Parks the method that the pass holds until the callee is done.
    pub(crate) fn park(&mut self, pass: &mut Pass<L>, callee: MethodId)
        requires agrees { Agrees (state_after L.program L.parts self.old.0) pass.old }
        requires next { WantsNext (rows_of (core L.program)) pass.old.hand pass.old.found callee }
        requires waits { times callee.0 (state_after L.program L.parts self.old.0).done ≡ 0 }
        ensures history { self.new.0 ≡ self.old.0 ++ Park pass.old.number (held_in pass.old.hand) callee ∷ [] }
        ensures table { self.new.1 ≡ self.old.1 }
        ensures pass { pass.new ≡ pass_view pass.old.number Free 0 (pass.old.made + 1) }
    {
        let number = pass.number();
        let Hand::Holds(m) = pass.hand() else {
            unreachable!();
        };
        let Locked {
            history,
            lists,
            workers,
            book,
            ..
        } = self;
        rouse(lists, callee);
        put_aside(lists, *workers, m, callee);
        history.push_reserved(Event::Park(number, m, callee));
        pass.note(book, Hand::Free);
    }
}
