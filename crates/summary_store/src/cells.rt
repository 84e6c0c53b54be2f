//! Pieces that are read without the lock.
ghost use Rattle.std.specs.Prelude.{◌≡◌, IfSome};
ghost use Rattle.std.specs.Arc.{arc_value};
ghost use Rattle.summary_store.specs.Kept.{IsPieceOf};

use crate::StoreRun;
use core_code::Piece;
use once_cell::race::OnceBox;
use racer_base::{Memory, MethodId};
use std::alloc::Global;
use std::marker::{Model, PhantomData};
use std::sync::Arc;

/// A piece that is right for the run's program.
#[derive(Drop)]
struct RightPiece<P: Piece, L: StoreRun> {
    piece: Arc<P>,
    run: PhantomData<L>,
}

impl<P: Piece, L: StoreRun> Model for RightPiece<P, L> {
    ghost use Rattle.std.specs.Arc.{arc_value};

    ghost Value = { P };

    ghost view = { λ r. arc_value r.piece };

    ghost invariant = { λ r. P.is_right L.program (arc_value r.piece) };
}

impl<P: Piece, L: StoreRun> RightPiece<P, L> {
    /// The piece, if it is the callee's.
    fn piece_of(&self, callee: MethodId) -> Option<&Arc<P>>
        ensures { IfSome result (λ piece.
            IsPieceOf P.names (P.is_right L.program) callee.0 (arc_value piece.now)) }
    {
        if self.piece.method().0 != callee.0 {
            return None;
        }
        Some(&self.piece)
    }
}

/// A cell for each method, which is empty until the method's piece is published.
#[derive(Drop)]
pub(crate) struct Cells<P: Piece, L: StoreRun> {
    alloc: Global,
    cells: Vec<OnceBox<RightPiece<P, L>>>,
}

impl<P: Piece, L: StoreRun> Cells<P, L> {
    /// As many empty cells.
    pub(crate) fn empty(alloc: Global, places: usize) -> Result<Cells<P, L>, Memory> {
        let mut cells = Vec::with_capacity(alloc, places)?;
        for _i in 0..places {
            cells.push_reserved(OnceBox::new(alloc));
        }
        Ok(Cells { alloc, cells })
    }

    /// The callee's piece, if its cell holds one.
    pub(crate) fn piece_of(&self, callee: MethodId) -> Option<&Arc<P>>
        ensures { IfSome result (λ piece.
            IsPieceOf P.names (P.is_right L.program) callee.0 (arc_value piece.now)) }
    {
        let kept = self.cells.get(callee.0 as usize)?.get()?;
        kept.piece_of(callee)
    }

    /// Sets the cell of a method, where there is memory and it is empty.
    pub(crate) fn keep(&self, m: MethodId, piece: Arc<P>)
        requires { P.is_right L.program (arc_value piece) }
    {
        let right = RightPiece {
            piece,
            run: PhantomData,
        };
        if let (Some(cell), Ok(right)) = (
            self.cells.get(m.0 as usize),
            Box::new(self.alloc, right),
        ) {
            let _there = cell.set(right);
        }
    }
}
