//! What is left of a run.
ghost use Rattle.std.specs.Prelude.{◌≡◌, ◌<◌, length, sum_by};
ghost use Rattle.std.specs.Arc.{arc_value};
ghost use Rattle.core_code.specs.Program.{core};
ghost use Rattle.summary_store.specs.Setups.{setup_of};
ghost use Rattle.summary_store.specs.Kept.{pieces_of, IsRight};

use crate::{Event, Locked, Pass, StoreRun};
use core_code::Piece;
use std::sync::Arc;
use std::sync::ledger::Book;

/// The history, and the pieces of the methods that are done, each at its number.
#[derive(Drop)]
pub struct Closed<P> {
    pub history: Vec<Event>,
    pub table: Vec<Option<Arc<P>>>,
}

impl<P: Piece, L: StoreRun> Locked<P, L> {
    /// This value's history and table. The history has as many events as the passes made.
    pub fn close(self, passes: Vec<Pass<L>>) -> Closed<P>
        requires { length passes.items ≡ L.parts }
        ensures history { result.history.items ≡ self.0 }
        ensures table { pieces_of arc_value result.table.items ≡ self.1 }
        ensures right { IsRight P.names (P.is_right L.program) (setup_of (core L.program) L.parts) self.0 self.1 }
        ensures made { length self.0 ≡ sum_by (λ p. p.made) passes.items }
    {
        let Locked {
            history,
            table,
            mut book,
            ..
        } = self;
        audit(&mut book, passes);
        Closed { history, table }
    }
}

/// The book's total is what the passes made, where they have all its parts.
fn audit<L: StoreRun>(book: &mut Book<L>, mut passes: Vec<Pass<L>>)
    requires all { length passes.items ≡ L.parts }
    requires some { 0 < length passes.items }
    ensures { book.old.total ≡ sum_by (λ p. p.made) passes.items }
{
    let Some(last) = passes.pop() else {
        unreachable!();
    };
    let Pass { share, .. } = last;
    let mut all = share;
    while let Some(pass) = passes.pop() {
        let Pass { share, .. } = pass;
        all.merge(share);
    }
    book.audit(&mut all);
}
