//! The analysis of a method.
ghost use Rattle.std.specs.Prelude.{◌≡◌, IfOk, IsTrue};
ghost use Rattle.std.specs.Arc.{arc_value};
ghost use Rattle.racer_base.specs.declared.ids.MethodId.{MethodId as Id};
ghost use Rattle.core_code.specs.Calls.{is_analysed};
ghost use Rattle.core_code.specs.Program.{core};
ghost use Rattle.transfer_steps.specs.Known.{callee_outcome};
ghost use Rattle.transfer.specs.Callees.{AreCallees, outcome_in};

use crate::Finished;
use crate::method_outcomes::outcome;
use core_code::Program;
use racer_base::{Memory, MethodId};
use std::alloc::Global;
use std::sync::Arc;
use transfer_steps::Callee;

/// What is known of the methods that are finished.
fn known(alloc: Global, finished: &[Arc<Finished>]) -> Result<Vec<Callee>, Memory>
    ensures { IfOk result (λ callees. (m : Id) → callee_outcome callees.items m ≡ outcome_in finished.now m) }
{
    let mut callees = Vec::new(alloc);
    for one in finished {
        let Ok(outcome) = one.outcome.clone() else {
            return Err(Memory);
        };
        let callee = Callee {
            method: one.method,
            outcome,
        };
        let Ok(()) = callees.push(callee) else {
            return Err(Memory);
        };
    }
    Ok(callees)
}

/// Analyses a method. The callees are the methods that its code calls, for this program.
pub fn analyse(
    alloc: Global,
    program: &Arc<Program>,
    method: MethodId,
    callees: &[Arc<Finished>],
) -> Result<Finished, Memory>
    requires analysed { IsTrue (is_analysed (core (arc_value program.now)) method) }
    requires callees { AreCallees (core (arc_value program.now)) method callees.now }
    ensures program { IfOk result (λ made. arc_value made.program ≡ arc_value program.now) }
    ensures method { IfOk result (λ made. made.method ≡ method) }
{
    let Ok(callees) = known(alloc, callees) else {
        return Err(Memory);
    };
    let code = &program.methods()[method.0 as usize];
    let Ok(outcome) = outcome(alloc, program, code, callees.as_slice()) else {
        return Err(Memory);
    };
    let Ok(outcome) = Arc::new(alloc, outcome) else {
        return Err(Memory);
    };
    Ok(Finished {
        program: program.clone()?,
        method,
        outcome,
    })
}
