//! The store that threads share.
ghost use Rattle.std.specs.Prelude.{◌≡◌, ◌+◌, ◌<◌, length, IfSome, IfNone, IfOk, sum_by};
ghost use Rattle.std.specs.Arc.{arc_value};
ghost use Rattle.core_code.specs.Counting.{IsIn, analysed_methods};
ghost use Rattle.core_code.specs.Program.{core};
ghost use Rattle.core_code.specs.CalleeRows.{rows_of, AreRowsOf};
ghost use Rattle.summary_store.specs.declared.machine.Hand.TheVariants.{Free, Holds, Gone};
ghost use Rattle.summary_store.specs.Demands.{IfFound, IfParked, IfMemory};
ghost use Rattle.summary_store.specs.Kept.{pieces_of, IsPieceOf, IsRight};
ghost use Rattle.summary_store.specs.Passes.{WantsNext, MayHand, pass_view, first_passes};
ghost use Rattle.summary_store.specs.Setups.{setup_of};

use crate::cells::Cells;
use crate::laws::{demand_at, publish_at, take_at};
use crate::starting::count;
use crate::{Closed, Demand, Hand, Locked, Pass, StoreRun};
use core_code::{CallRows, Piece, Program};
use racer_base::{Memory, MethodId};
use std::alloc::Global;
use std::sync::ledger::{Book, Share};
use std::sync::{Arc, Mutex, Wait};

/// The store that threads share. Its calls wait for the lock alone.
#[derive(Drop)]
pub struct Store<P: Piece, L: StoreRun> {
    cells: Cells<P, L>,
    locked: Mutex<Locked<P, L>>,
}

impl<P: Piece, L: StoreRun> Store<P, L> {
    /// A store in which all analysed methods are idle, and a pass for each worker, numbered from 0. Room for all
    /// events and moves is taken here.
    pub fn start(
        alloc: Global,
        program: &Program,
        rows: Arc<CallRows>,
        workers: u32,
        book: Book<L>,
        share: Share<L>,
    ) -> Result<(Store<P, L>, Vec<Pass<L>>), Memory>
        requires program { program.now ≡ L.program }
        requires rows { AreRowsOf (core L.program) (arc_value rows) }
        requires workers { (0 < workers) × (workers ≡ L.parts) }
        requires book { book.total ≡ 0 }
        requires share { share.parts ≡ L.parts }
        ensures { IfOk result (λ r. r.1.items ≡ first_passes workers) }
    {
        let mut book = book;
        let mut share = share;
        book.audit(&mut share);
        let cells = Cells::empty(alloc, count(program))?;
        let locked = Locked::start(alloc, program, rows, workers, book)?;
        let passes = Pass::deal(alloc, share, workers)?;
        let store = Store {
            cells,
            locked: Mutex::new(locked),
        };
        Ok((store, passes))
    }

    /// Takes a method for this pass, or lets it leave where nothing is ready or idle: `take_at` under the lock.
    pub fn take<R: Wait>(&self, rt: &R, pass: &mut Pass<L>) -> Option<MethodId>
        requires free { pass.old.hand ≡ Free }
        ensures holds { IfSome result (λ m. pass.new ≡ pass_view pass.old.number (Holds m) 0 (pass.old.made + 1)) }
        ensures analysed { IfSome result (λ m. IsIn m (analysed_methods (core L.program))) }
        ensures gone { IfNone result (pass.new ≡ pass_view pass.old.number Gone 0 (pass.old.made + 1)) }
    {
        for _ in rt.forever() {
            let mut guard = self.locked.lock(rt);
            let value = &mut *guard;
            if value.agrees(pass) {
                return take_at(value, pass);
            }
        }
        unreachable!()
    }

    /// Lends a callee's piece out of its cell, without the lock and without a copy. None is answered where the cell has
    /// none, or one more would be too many to count.
    pub fn find(&self, pass: &mut Pass<L>, callee: MethodId) -> Option<&Arc<P>>
        requires next { WantsNext (rows_of (core L.program)) pass.old.hand pass.old.found callee }
        ensures found { IfSome result (λ piece.
            IsPieceOf P.names (P.is_right L.program) callee.0 (arc_value piece.now)) }
        ensures found_pass { IfSome result (λ piece.
            pass.new ≡ pass_view pass.old.number pass.old.hand (pass.old.found + 1) pass.old.made) }
        ensures none { IfNone result (pass.new ≡ pass.old) }
    {
        let piece = self.cells.piece_of(callee)?;
        let next = pass.found().checked_add(1)?;
        pass.find(next);
        Some(piece)
    }

    /// Gives a copy of a callee's piece from its cell, without the lock. Where the cell has none: `demand_at` under the
    /// lock, which gives a copy too, or parks the method that this pass holds until the callee is done. Memory is
    /// answered where the piece can't be copied, or one more would be too many to count.
    pub fn demand<R: Wait>(&self, rt: &R, pass: &mut Pass<L>, callee: MethodId) -> Demand<P>
        requires next { WantsNext (rows_of (core L.program)) pass.old.hand pass.old.found callee }
        ensures found { IfFound result (λ piece. IsPieceOf P.names (P.is_right L.program) callee.0 piece) }
        ensures found_pass { IfFound result (λ piece.
            pass.new ≡ pass_view pass.old.number pass.old.hand (pass.old.found + 1) pass.old.made) }
        ensures parked { IfParked result (pass.new ≡ pass_view pass.old.number Free 0 (pass.old.made + 1)) }
        ensures memory { IfMemory result (pass.new ≡ pass.old) }
    {
        let Some(kept) = self.cells.piece_of(callee) else {
            return self.demand_locked(rt, pass, callee);
        };
        let Ok(piece) = kept.clone() else {
            return Demand::Memory;
        };
        let Some(found) = pass.found().checked_add(1) else {
            return Demand::Memory;
        };
        pass.find(found);
        Demand::Found(piece)
    }

    /// `demand_at` under the lock.
    fn demand_locked<R: Wait>(&self, rt: &R, pass: &mut Pass<L>, callee: MethodId) -> Demand<P>
        requires next { WantsNext (rows_of (core L.program)) pass.old.hand pass.old.found callee }
        ensures found { IfFound result (λ piece. IsPieceOf P.names (P.is_right L.program) callee.0 piece) }
        ensures found_pass { IfFound result (λ piece.
            pass.new ≡ pass_view pass.old.number pass.old.hand (pass.old.found + 1) pass.old.made) }
        ensures parked { IfParked result (pass.new ≡ pass_view pass.old.number Free 0 (pass.old.made + 1)) }
        ensures memory { IfMemory result (pass.new ≡ pass.old) }
    {
        for _ in rt.forever() {
            let mut guard = self.locked.lock(rt);
            let value = &mut *guard;
            if value.agrees(pass) {
                return demand_at(value, pass, callee);
            }
        }
        unreachable!()
    }

    /// Publishes the piece of the method that this pass holds, all of whose row it has found: `publish_at` under the
    /// lock. Behind the lock the method's cell gets a copy, where there is memory for one.
    pub fn publish<R: Wait>(&self, rt: &R, pass: &mut Pass<L>, piece: Arc<P>)
        requires piece { MayHand (IsPieceOf P.names (P.is_right L.program)) (rows_of (core L.program))
            pass.old.hand pass.old.found (arc_value piece) }
        ensures { pass.new ≡ pass_view pass.old.number Free 0 (pass.old.made + 1) }
    {
        let Hand::Holds(m) = pass.hand() else {
            unreachable!();
        };
        let copy: Result<_, _> = piece.clone();
        self.publish_locked(rt, pass, piece);
        if let Ok(copy) = copy {
            self.cells.keep(m, copy);
        }
    }

    /// `publish_at` under the lock.
    fn publish_locked<R: Wait>(&self, rt: &R, pass: &mut Pass<L>, piece: Arc<P>)
        requires piece { MayHand (IsPieceOf P.names (P.is_right L.program)) (rows_of (core L.program))
            pass.old.hand pass.old.found (arc_value piece) }
        ensures { pass.new ≡ pass_view pass.old.number Free 0 (pass.old.made + 1) }
    {
        for _ in rt.forever() {
            let mut guard = self.locked.lock(rt);
            let value = &mut *guard;
            if value.agrees(pass) && value.is_row_done(pass) {
                publish_at(value, pass, piece);
                return;
            }
        }
        unreachable!()
    }

    /// The value that the lock kept.
    pub fn into_locked(self) -> Locked<P, L> {
        let Store { locked, .. } = self;
        locked.into_inner()
    }

    /// The history, and the table with a piece exactly for the methods that are done. The history has as many events as
    /// the passes made.
    pub fn close(self, passes: Vec<Pass<L>>) -> Closed<P>
        requires { length passes.items ≡ L.parts }
        ensures right { IsRight P.names (P.is_right L.program) (setup_of (core L.program) L.parts)
            result.history.items (pieces_of arc_value result.table.items) }
        ensures made { length result.history.items ≡ sum_by (λ p. p.made) passes.items }
    {
        self.into_locked().close(passes)
    }
}
