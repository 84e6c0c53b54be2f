//! The outcomes of a run, read off its table of pieces.
ghost use Rattle.std.specs.Prelude.{◌≡◌, ℕ, IfOk, option_map};
ghost use Rattle.std.specs.Arc.{arc_value};
ghost use Rattle.core_code.specs.Program.{core};
ghost use Rattle.access_domain.specs.Outcomes.{AreOutcomes};
ghost use Rattle.demand_pool.specs.Pools.{AreAllFound, outcome_found};

use access_domain::{Outcome, Outcomes};
use core_code::Program;
use racer_base::Memory;
use std::alloc::Global;
use std::sync::Arc;
use transfer::Finished;

/// The outcome that stands at a place of the table.
fn outcome_at(table: &[Option<Arc<Finished>>], place: usize) -> Result<Option<Arc<Outcome>>, Memory>
    ensures { IfOk result (λ found. option_map arc_value found ≡ outcome_found table.now place) }
{
    let Some(piece) = table.get(place) else {
        return Ok(None);
    };
    match piece {
        Some(finished) => Ok(Some(finished.outcome.clone()?)),
        None => Ok(None),
    }
}

/// The outcomes of the methods of a program, one after another.
pub(crate) fn outcomes_of(
    alloc: Global,
    program: &Arc<Program>,
    table: &[Option<Arc<Finished>>],
) -> Result<Outcomes, Memory>
    requires { AreAllFound (core (arc_value program.now)) table.now }
    ensures { IfOk result (λ found. AreOutcomes (core (arc_value program.now)) found.items) }
{
    let mut outcomes = Vec::new(alloc);
    for place in 0..program.methods().len() {
        let Ok(outcome) = outcome_at(table, place) else {
            return Err(Memory);
        };
        let Ok(()) = outcomes.push(outcome) else {
            return Err(Memory);
        };
    }
    Ok(outcomes)
}
