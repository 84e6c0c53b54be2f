//! The laws of the demand machine, and its events on the value behind the lock.
ghost use Rattle.std.specs.Prelude.{◌≡◌, ℕ, ◌+◌, ◌*◌, ◌<◌, ◌≤◌, ◌++◌, [], ◌∷◌, List, length, None, Some, IfNone};
ghost use Rattle.std.specs.Prelude.{IfSome};
ghost use Rattle.std.specs.Prelude.{slice_set};
ghost use Rattle.std.specs.Arc.{arc_value};
ghost use Rattle.racer_base.specs.declared.ids.MethodId.{MethodId as Id};
ghost use Rattle.core_code.specs.Counting.{IsIn, analysed_methods, times};
ghost use Rattle.core_code.specs.Program.{core};
ghost use Rattle.core_code.specs.CalleeRows.{rows_of};
ghost use Rattle.summary_store.specs.declared.machine.Event.{Event as Step};
ghost use Rattle.summary_store.specs.declared.machine.Event.TheVariants.{Take, Park, Publish, Leave};
ghost use Rattle.summary_store.specs.declared.machine.Hand.TheVariants.{Free, Holds, Gone};
ghost use Rattle.summary_store.specs.Demands.{IfFound, IfParked, IfMemory};
ghost use Rattle.summary_store.specs.Kept.{IsPieceOf};
ghost use Rattle.summary_store.specs.Laws.{IsSetup, takes, parks, publishes, leaves, edges};
ghost use Rattle.summary_store.specs.Machine.{Setup, Legal, replay, next_of, NoneHeld, AllDone, AllGone};
ghost use Rattle.summary_store.specs.Machine.{IsComplete, IsDone};
ghost use Rattle.summary_store.specs.Examples.{two_callers, two_wait};
ghost use Rattle.summary_store.specs.Passes.{Agrees, WantsNext, MayPublish, held_in, pass_view};
ghost use Rattle.summary_store.specs.Setups.{state_after};

use crate::moves::{next_method, wake};
use crate::{Demand, Event, Hand, Locked, Pass, StoreRun};
use core_code::Piece;
use racer_base::MethodId;
use std::sync::Arc;

/// What every legal history keeps, of any number of workers from 1 on, and any methods, each listed once, whose callees
/// are among them and whose rows have ranks.
pub fn every_legal_history()
    ensures published_once { (u : Setup) (history : List Step) → IsSetup u → Legal u history →
        (m : Id) → publishes m history ≤ 1 }
    ensures parked_once { (u : Setup) (history : List Step) → IsSetup u → Legal u history →
        (m c : Id) → parks m c history ≤ 1 }
    ensures takes_bounded { (u : Setup) (history : List Step) → IsSetup u → Legal u history →
        takes history ≤ length u.methods + edges u }
    ensures all_done { (u : Setup) (history : List Step) → IsSetup u → Legal u history →
        next_of (replay u history) ≡ None → NoneHeld (replay u history) → AllDone u (replay u history) }
    ensures left_once { (u : Setup) (history : List Step) → IsSetup u → Legal u history →
        (w : ℕ) → leaves w history ≤ 1 }
    ensures complete { (u : Setup) (history : List Step) → IsSetup u → Legal u history →
        AllGone u (replay u history) → IsComplete u history }
    ensures events_bounded { (u : Setup) (history : List Step) → IsSetup u → Legal u history →
        length history ≤ 2 * (length u.methods + edges u) + u.workers }
{}

/// Two methods park on a third, the one that stands behind first, and are ready in that order once the third is done.
pub fn woken_in_order()
    ensures legal { Legal two_callers two_wait }
    ensures ready { (replay two_callers two_wait).ready ≡ record { 0 = 1 } ∷ record { 0 = 0 } ∷ [] }
{}

/// Takes a method for this pass: the front of the ready list, else the first idle method. Where nothing is ready or
/// idle, the pass leaves.
pub fn take_at<P: Piece, L: StoreRun>(
    value: &mut Locked<P, L>,
    pass: &mut Pass<L>,
) -> Option<MethodId>
    requires agrees { Agrees (state_after L.program L.parts value.old.0) pass.old }
    requires free { pass.old.hand ≡ Free }
    ensures next { result ≡ next_of (state_after L.program L.parts value.old.0) }
    ensures taken { IfSome result (λ m. value.new.0 ≡ value.old.0 ++ Take pass.old.number m ∷ []) }
    ensures holds { IfSome result (λ m. pass.new ≡ pass_view pass.old.number (Holds m) 0 (pass.old.made + 1)) }
    ensures analysed { IfSome result (λ m. IsIn m (analysed_methods (core L.program))) }
    ensures left { IfNone result (value.new.0 ≡ value.old.0 ++ Leave pass.old.number ∷ []) }
    ensures gone { IfNone result (pass.new ≡ pass_view pass.old.number Gone 0 (pass.old.made + 1)) }
    ensures table { value.new.1 ≡ value.old.1 }
{
    let Locked {
        history,
        lists,
        left,
        book,
        ..
    } = value;
    let number = pass.number();
    let Some(m) = next_method(lists, number) else {
        history.push_reserved(Event::Leave(number));
        left[number as usize] = true;
        pass.note(book, Hand::Gone);
        return None;
    };
    history.push_reserved(Event::Take(number, m));
    pass.note(book, Hand::Holds(m));
    Some(m)
}

/// Gives the piece of the callee that is next in the row of the method that this pass holds; or parks the method
/// until the callee is done. Memory is answered where the piece can't be copied, or one more would be too many to
/// count; value and pass are as before then.
pub fn demand_at<P: Piece, L: StoreRun>(
    value: &mut Locked<P, L>,
    pass: &mut Pass<L>,
    callee: MethodId,
) -> Demand<P>
    requires agrees { Agrees (state_after L.program L.parts value.old.0) pass.old }
    requires next { WantsNext (rows_of (core L.program)) pass.old.hand pass.old.found callee }
    ensures found { IfFound result (λ piece. IsPieceOf P.names (P.is_right L.program) callee.0 piece) }
    ensures found_done { IfFound result (λ piece. IsDone (state_after L.program L.parts value.old.0) callee) }
    ensures found_value { IfFound result (λ piece. value.new ≡ value.old) }
    ensures found_pass { IfFound result (λ piece.
        pass.new ≡ pass_view pass.old.number pass.old.hand (pass.old.found + 1) pass.old.made) }
    ensures parked { IfParked result (times callee.0 (state_after L.program L.parts value.old.0).done ≡ 0) }
    ensures parked_history { IfParked result (
        value.new.0 ≡ value.old.0 ++ Park pass.old.number (held_in pass.old.hand) callee ∷ []) }
    ensures parked_table { IfParked result (value.new.1 ≡ value.old.1) }
    ensures parked_pass { IfParked result (pass.new ≡ pass_view pass.old.number Free 0 (pass.old.made + 1)) }
    ensures memory_value { IfMemory result (value.new ≡ value.old) }
    ensures memory_pass { IfMemory result (pass.new ≡ pass.old) }
{
    let Ok(wanted) = value.wanted(pass, callee) else {
        return Demand::Memory;
    };
    let Some(piece) = wanted else {
        value.park(pass, callee);
        return Demand::Parked;
    };
    let Some(found) = pass.found().checked_add(1) else {
        return Demand::Memory;
    };
    pass.find(found);
    Demand::Found(piece)
}

/// Publishes the piece of the method that this pass holds. The methods that are parked on it are ready then, in order.
pub fn publish_at<P: Piece, L: StoreRun>(
    value: &mut Locked<P, L>,
    pass: &mut Pass<L>,
    piece: Arc<P>,
)
    requires agrees { Agrees (state_after L.program L.parts value.old.0) pass.old }
    requires piece { MayPublish (IsPieceOf P.names (P.is_right L.program)) (rows_of (core L.program))
        (state_after L.program L.parts value.old.0) pass.old.hand (arc_value piece) }
    ensures history { value.new.0 ≡ value.old.0 ++ Publish pass.old.number (held_in pass.old.hand) ∷ [] }
    ensures table { value.new.1 ≡ slice_set value.old.1 (held_in pass.old.hand).0 (Some (arc_value piece)) }
    ensures pass { pass.new ≡ pass_view pass.old.number Free 0 (pass.old.made + 1) }
{
    let number = pass.number();
    let Hand::Holds(m) = pass.hand() else {
        unreachable!();
    };
    let Locked {
        history,
        lists,
        workers,
        table,
        book,
        ..
    } = value;
    wake(lists, *workers, m);
    table[m.0 as usize] = Some(piece);
    history.push_reserved(Event::Publish(number, m));
    pass.note(book, Hand::Free);
}
