//! Outcomes that are kept: those of an older program, for a newer one.
ghost use Rattle.std.specs.Prelude.{◌≡◌, IfErr, IfOk, IsTrue, None, Some};
ghost use Rattle.std.specs.Arc.{arc_value};
ghost use Rattle.core_code.specs.Program.{core};
ghost use Rattle.transfer_ties.specs.Again.{is_as_before};
ghost use Rattle.transfer_ties.specs.Partners.{AreApart, AreTies, renumbered};

use crate::Finished;
use crate::laws::{it_is_the_old_one_renumbered, what_is_as_before_has_its_outcome};
use access_domain::Outcome;
use core_code::Program;
use racer_base::{Memory, MethodId};
use std::alloc::Global;
use std::sync::Arc;
use transfer_ties::{Ties, Untied, renumbered, stays};

/// An outcome with the numbers of a newer program. Where each number stays it is shared.
fn outcome_in(alloc: Global, ties: &Ties, outcome: &Arc<Outcome>) -> Result<Arc<Outcome>, Untied>
    requires { AreApart ties.now }
    ensures made { IfOk result (λ made. renumbered ties.now (arc_value outcome.now) ≡ Some (arc_value made)) }
    ensures none { IfErr result (λ why.
        why ≡ Untied.NoPartner → renumbered ties.now (arc_value outcome.now) ≡ None) }
{
    if stays(alloc, ties, outcome)? {
        return Ok(outcome.clone()?);
    }
    Ok(Arc::new(alloc, renumbered(alloc, ties, outcome)?)?)
}

/// A method of a program that is as it was in an older one, finished: it has the outcome that it had, with the numbers
/// of the program.
pub fn carried(
    alloc: Global,
    ties: &Ties,
    old: &Finished,
    program: &Arc<Program>,
    method: MethodId,
) -> Result<Finished, Memory>
    requires ties { AreTies (core (arc_value old.now.program)) (core (arc_value program.now)) ties.now }
    requires as_before { IsTrue
        (is_as_before (core (arc_value old.now.program)) (core (arc_value program.now)) old.now.method method) }
    ensures program { IfOk result (λ made. arc_value made.program ≡ arc_value program.now) }
    ensures method { IfOk result (λ made. made.method ≡ method) }
{
    what_is_as_before_has_its_outcome();
    it_is_the_old_one_renumbered();
    let outcome = match outcome_in(alloc, ties, &old.outcome) {
        Ok(outcome) => outcome,
        Err(Untied::NoPartner) => unreachable!(),
        Err(Untied::Memory) => return Err(Memory),
    };
    Ok(Finished {
        program: program.clone()?,
        method,
        outcome,
    })
}
