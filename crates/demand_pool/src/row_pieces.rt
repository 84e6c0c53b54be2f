//! The pieces that are found of a row.
ghost use Rattle.std.specs.Prelude.{◌≡◌, ◌+◌, map, IfNone, IfOk, IfSome, OnErr};
ghost use Rattle.std.specs.Arc.{arc_value};
ghost use Rattle.core_code.specs.Program.{core};
ghost use Rattle.core_code.specs.CalleeRows.{rows_of};
ghost use Rattle.summary_store.specs.declared.machine.Hand.TheVariants.{Free};
ghost use Rattle.summary_store.specs.Passes.{WantsNext, pass_view};
ghost use Rattle.demand_pool.specs.RowPieces.{IsPieceFor, shared_in};

use racer_base::{Memory, MethodId};
use std::alloc::Global;
use std::sync::{Arc, Wait};
use summary_store::{Demand, Pass, Store, StoreRun};
use transfer::Finished;

/// A piece that was found: where it stands in its cell, or a copy.
#[derive(Drop)]
pub(crate) enum FoundPiece<'s> {
    InCell(&'s Arc<Finished>),
    Copied(Arc<Finished>),
}

impl<'s> FoundPiece<'s> {
    /// A copy.
    fn copied(&self) -> Result<Arc<Finished>, Memory>
        ensures { IfOk result (λ piece. arc_value piece ≡ arc_value (shared_in self.now)) }
    {
        match self {
            FoundPiece::InCell(piece) => Ok((*piece).clone()?),
            FoundPiece::Copied(piece) => Ok(piece.clone()?),
        }
    }
}

/// The piece of the callee that is next in the row of the method that the pass holds; or none, and the method is
/// parked. A piece that stands in its cell is not copied: all workers share its counter, and rows are begun anew.
pub(crate) fn next_piece<'s, L: StoreRun, R: Wait>(
    rt: &R,
    store: &'s Store<Finished, L>,
    pass: &mut Pass<L>,
    callee: MethodId,
) -> Result<Option<FoundPiece<'s>>, Memory>
    requires next { WantsNext (rows_of (core L.program)) pass.old.hand pass.old.found callee }
    ensures found { IfOk result (λ o. IfSome o (λ found. IsPieceFor L.program callee (arc_value (shared_in found)))) }
    ensures found_pass { IfOk result (λ o. IfSome o (λ found.
        pass.new ≡ pass_view pass.old.number pass.old.hand (pass.old.found + 1) pass.old.made)) }
    ensures parked { IfOk result (λ o.
        IfNone o (pass.new ≡ pass_view pass.old.number Free 0 (pass.old.made + 1))) }
    ensures memory { OnErr result (pass.new ≡ pass.old) }
{
    if let Some(piece) = store.find(pass, callee) {
        return Ok(Some(FoundPiece::InCell(piece)));
    }
    match store.demand(rt, pass, callee) {
        Demand::Found(piece) => Ok(Some(FoundPiece::Copied(piece))),
        Demand::Parked => Ok(None),
        Demand::Memory => Err(Memory),
    }
}

/// A copy of each of these pieces.
pub(crate) fn copies_of(
    alloc: Global,
    found: &[FoundPiece<'_>],
) -> Result<Vec<Arc<Finished>>, Memory>
    ensures { IfOk result (λ copies. map arc_value copies.items ≡ map arc_value (map shared_in found.now)) }
{
    let mut copies = Vec::with_capacity(alloc, found.len())?;
    for one in found {
        copies.push(one.copied()?)?;
    }
    Ok(copies)
}
