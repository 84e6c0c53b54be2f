//! The outcomes of all methods of a program.
ghost use Rattle.std.specs.Prelude.{◌≡◌, ◌<◌, IfOk, IsTrue, OnOk};
ghost use Rattle.std.specs.Prelude.{option_map, length, slice_set, replicate, None, Some};
ghost use Rattle.std.specs.Arc.{arc_value};
ghost use Rattle.core_code.specs.Calls.{is_analysed};
ghost use Rattle.core_code.specs.Program.{core, methods};
ghost use Rattle.core_code.specs.CalleeRows.{AreRowsOf};
ghost use Rattle.access_domain.specs.Outcomes.{AreOutcomes};
ghost use Rattle.access_domain.specs.Summaries.{outcome_of};
ghost use Rattle.transfer.specs.Callees.{AreCallees};
ghost use Rattle.transfer.specs.Tables.{IsFinished, IsTable, finished_at};

use crate::{Finished, analyse};
use access_domain::{Outcome, Outcomes};
use core_code::{CallRows, Program, call_rows};
use racer_base::{Memory, MethodId};
use std::alloc::Global;
use std::sync::Arc;

/// The methods that are finished, each at its number.
type Table = Vec<Option<Arc<Finished>>>;

/// The method of a number, where it is finished.
fn kept(table: &[Option<Arc<Finished>>], method: MethodId) -> Result<Option<Arc<Finished>>, Memory>
    ensures { IfOk result (λ found. option_map arc_value found ≡ finished_at table.now method) }
{
    let Some(place) = table.get(method.0 as usize) else {
        return Ok(None);
    };
    match place {
        Some(finished) => Ok(Some(finished.clone()?)),
        None => Ok(None),
    }
}

/// Puts a method at its number, where the table has a place for it.
fn keep(table: &mut Table, method: MethodId, finished: Arc<Finished>)
    ensures { table.new.items ≡ slice_set table.old.items method.0 (Some finished) }
{
    let method = method.0 as usize;
    if method < table.len() {
        table[method] = Some(finished);
    }
}

/// A table of so many places, all empty.
fn empty(alloc: Global, places: usize) -> Result<Table, Memory>
    ensures { IfOk result (λ table. table.items ≡ replicate places None) }
{
    let Ok(mut table) = Vec::with_capacity(alloc, places) else {
        return Err(Memory);
    };
    for _place in 0..places {
        let Ok(()) = table.push(None) else {
            return Err(Memory);
        };
    }
    Ok(table)
}

/// The method, finished, where those that it calls are.
fn finish_itself(
    alloc: Global,
    program: &Arc<Program>,
    method: MethodId,
    callees: &[Arc<Finished>],
    table: &mut Table,
) -> Result<Arc<Finished>, Memory>
    requires analysed { IsTrue (is_analysed (core (arc_value program.now)) method) }
    requires callees { AreCallees (core (arc_value program.now)) method callees.now }
    requires table { IsTable (core (arc_value program.now)) table.old.items }
    ensures made { IfOk result (λ made. IsFinished (core (arc_value program.now)) method (arc_value made)) }
    ensures table { OnOk result (IsTable (core (arc_value program.now)) table.new.items) }
{
    let finished = Arc::new(alloc, analyse(alloc, program, method, callees)?)?;
    keep(table, method, finished.clone()?);
    Ok(finished)
}

/// The method, finished: first those that it calls, and then itself. What is finished already is not done again.
fn finish(
    alloc: Global,
    program: &Arc<Program>,
    rows: &CallRows,
    method: MethodId,
    table: &mut Table,
) -> Result<Arc<Finished>, Memory>
    requires rows { AreRowsOf (core (arc_value program.now)) rows.now }
    requires analysed { IsTrue (is_analysed (core (arc_value program.now)) method) }
    requires table { IsTable (core (arc_value program.now)) table.old.items }
    ensures made { IfOk result (λ made. IsFinished (core (arc_value program.now)) method (arc_value made)) }
    ensures table { OnOk result (IsTable (core (arc_value program.now)) table.new.items) }
{
    if let Some(finished) = kept(table.as_slice(), method)? {
        return Ok(finished);
    }
    let mut callees = Vec::new(alloc);
    for callee in rows.row(method) {
        let Ok(finished) = finish(alloc, program, rows, *callee, table) else {
            return Err(Memory);
        };
        let Ok(()) = callees.push(finished) else {
            return Err(Memory);
        };
    }
    finish_itself(alloc, program, method, callees.as_slice(), table)
}

/// The outcome of a method, none where it is not analysed.
fn outcome_at(
    alloc: Global,
    program: &Arc<Program>,
    rows: &CallRows,
    method: MethodId,
    table: &mut Table,
) -> Result<Option<Arc<Outcome>>, Memory>
    requires rows { AreRowsOf (core (arc_value program.now)) rows.now }
    requires there { method.0 < length (methods (arc_value program.now)) }
    requires table { IsTable (core (arc_value program.now)) table.old.items }
    ensures found { IfOk result (λ found.
        option_map arc_value found ≡ outcome_of (core (arc_value program.now)) method) }
    ensures table { OnOk result (IsTable (core (arc_value program.now)) table.new.items) }
{
    if program.methods()[method.0 as usize].status.is_some() {
        return Ok(None);
    }
    let finished = finish(alloc, program, rows, method, table)?;
    Ok(Some(finished.outcome.clone()?))
}

/// The method of a number.
fn numbered(number: usize) -> Result<MethodId, Memory>
    ensures { IfOk result (λ method. method.0 ≡ number) }
{
    let Ok(number) = u32::try_from(number) else {
        return Err(Memory);
    };
    Ok(MethodId(number))
}

/// The outcomes of the methods of a program, one after another.
fn gathered(
    alloc: Global,
    program: &Arc<Program>,
    rows: &CallRows,
    table: &mut Table,
) -> Result<Outcomes, Memory>
    requires rows { AreRowsOf (core (arc_value program.now)) rows.now }
    requires table { IsTable (core (arc_value program.now)) table.old.items }
    ensures { IfOk result (λ found. AreOutcomes (core (arc_value program.now)) found.items) }
{
    let mut outcomes = Vec::new(alloc);
    for number in 0..program.methods().len() {
        let Ok(method) = numbered(number) else {
            return Err(Memory);
        };
        let Ok(outcome) = outcome_at(alloc, program, rows, method, table) else {
            return Err(Memory);
        };
        let Ok(()) = outcomes.push(outcome) else {
            return Err(Memory);
        };
    }
    Ok(outcomes)
}

/// The outcomes of the methods of a program, none for those that are not analysed.
pub fn outcomes(alloc: Global, program: &Arc<Program>) -> Result<Outcomes, Memory>
    ensures { IfOk result (λ found. AreOutcomes (core (arc_value program.now)) found.items) }
{
    let Ok(rows) = call_rows(alloc, &**program) else {
        return Err(Memory);
    };
    let Ok(mut table) = empty(alloc, program.methods().len()) else {
        return Err(Memory);
    };
    gathered(alloc, program, &rows, &mut table)
}
