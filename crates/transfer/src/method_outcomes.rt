//! The outcome of a method of one code.
ghost use Rattle.std.specs.Prelude.{◌≡◌, ◌≤◌, true, IfOk, OnOk, length};
ghost use Rattle.std.specs.FinSet as set;
ghost use Rattle.access_paths.specs.Paths.{alone};
ghost use Rattle.access_paths.specs.Table.{IsTable, GoesOn};
ghost use Rattle.owner_domain.specs.declared.value.Value.TheVariants.{Named as NamedBy};
ghost use Rattle.owner_domain.specs.Numbered.{read_value, IsInRange, AllInRange};
ghost use Rattle.access_domain.specs.Numbered.{read_accesses};
ghost use Rattle.access_domain.specs.Records.{first_of_keys};
ghost use Rattle.call_subst.specs.Numbered.{read_values};
ghost use Rattle.transfer_steps.specs.Numbered.{read_found, AreFoundNumbers};
ghost use Rattle.racer_base.specs.declared.limits.TheConstants.{MAX_SUMMARY_KEYS};
ghost use Rattle.core_code.specs.Core.{method_of};
ghost use Rattle.core_code.specs.Facts.{is_stack_enough};
ghost use Rattle.core_code.specs.Program.{core};
ghost use Rattle.access_domain.specs.Findings.{outcome_from};
ghost use Rattle.access_domain.specs.Operations.{Effects};
ghost use Rattle.access_domain.specs.Summaries.{parameter_value, passed_values, start_of, known_from, known_given};
ghost use Rattle.transfer_steps.specs.Known.{table_of};
ghost use Rattle.transfer_steps.specs.Marks.{IsMarked, nothing, summary_held};

use crate::reading;
use crate::walk::walk_code;
use access_domain::{Outcome, Summary};
use access_paths::{Path, PathTable, Root};
use core_code::{MethodCore, Program};
use indexmap::IndexSet;
use owner_domain::{FlowState, NumberedValue, Value};
use racer_base::{Kind, Memory};
use std::alloc::Global;
use std::mem;
use transfer_steps::{Callee, Found, MethodContext, Notes, NumberedFound, Stop, Walk};

/// The value that is named by a root alone.
fn root_value(alloc: Global, root: Root, table: &mut PathTable) -> Result<NumberedValue, Memory>
    requires once { IsTable table.old }
    ensures value { IfOk result (λ value. read_value table.new value ≡ NamedBy (alone root)) }
    ensures range { IfOk result (λ value. IsInRange table.new value) }
    ensures once { OnOk result (IsTable table.new) }
    ensures table { OnOk result (GoesOn table.old table.new) }
{
    let number = table.number_of(Path::alone(alloc, root))?;
    Ok(NumberedValue::Named(number))
}

/// The value of a parameter, which is named by itself unless its type is primitive.
fn parameter(
    alloc: Global,
    number: usize,
    kind: Kind,
    table: &mut PathTable,
) -> Result<NumberedValue, Memory>
    requires once { IsTable table.old }
    ensures value { IfOk result (λ value. read_value table.new value ≡ parameter_value number kind) }
    ensures range { IfOk result (λ value. IsInRange table.new value) }
    ensures once { OnOk result (IsTable table.new) }
    ensures table { OnOk result (GoesOn table.old table.new) }
{
    if kind == Kind::Plain {
        return Ok(NumberedValue::Unnamed);
    }
    let Ok(number) = u32::try_from(number) else {
        return Err(Memory);
    };
    root_value(alloc, Root::Formal(number), table)
}

/// The values that are passed to a method: `this` of an instance method, and the parameters.
fn passed(
    alloc: Global,
    method: &MethodCore,
    table: &mut PathTable,
) -> Result<Vec<NumberedValue>, Memory>
    requires once { IsTable table.old }
    ensures values { IfOk result (λ values. read_values table.new values.items ≡ passed_values (method_of
        method.now)) }
    ensures range { IfOk result (λ values. AllInRange table.new values.items) }
    ensures once { OnOk result (IsTable table.new) }
    ensures table { OnOk result (GoesOn table.old table.new) }
{
    let mut values = Vec::new(alloc);
    if !method.is_static {
        values.push(root_value(alloc, Root::This, table)?)?;
    }
    for (number, kind) in method.parameters.as_slice().iter().enumerate() {
        values.push(parameter(alloc, number, *kind, table)?)?;
    }
    Ok(values)
}

/// The values of the variables at the entry of a method.
fn start(
    alloc: Global,
    method: &MethodCore,
    table: &mut PathTable,
) -> Result<Vec<NumberedValue>, Memory>
    requires once { IsTable table.old }
    ensures values { IfOk result (λ values. read_values table.new values.items ≡ (start_of (method_of
        method.now)).vars) }
    ensures range { IfOk result (λ values. AllInRange table.new values.items) }
    ensures once { OnOk result (IsTable table.new) }
    ensures table { OnOk result (GoesOn table.old table.new) }
{
    let Ok(mut values) = passed(alloc, method, table) else {
        return Err(Memory);
    };
    for _local in values.len()..method.variables.len() {
        let Ok(()) = values.push(NumberedValue::Owned) else {
            return Err(Memory);
        };
    }
    Ok(values)
}

/// What was found, as a summary.
fn summary_of(found: Found) -> Summary
    ensures held { result ≡ summary_held found }
    ensures few_records { length result.accesses ≤ MAX_SUMMARY_KEYS }
    ensures few_paths { set.len result.wobbly ≤ MAX_SUMMARY_KEYS }
{
    let Found {
        records,
        wobbly,
        result,
    } = found;
    Summary {
        accesses: records,
        wobbly,
        result: result.unwrap_or(Value::Unnamed),
    }
}

/// The outcome of a method whose code ends so, and of which this is found.
fn outcome_found(
    alloc: Global,
    walked: Result<bool, Stop>,
    table: &PathTable,
    found: NumberedFound,
) -> Result<Outcome, Memory>
    requires numbers { OnOk walked (AreFoundNumbers table.now found) }
    requires firsts { OnOk walked (first_of_keys (read_accesses table.now found.records) ≡
        read_accesses table.now found.records) }
    ensures { (e : Effects) → IsMarked nothing e (read_found table.now found) walked →
        IfOk result (λ outcome. outcome ≡ outcome_from (known_from e)) }
{
    match walked {
        Ok(_) => Ok(Outcome::Summary(summary_of(reading::read_found(alloc, table, found)?))),
        Err(stop) => match stop {
            Stop::Large => Ok(Outcome::Large),
            Stop::Memory => Err(Memory),
        },
    }
}

/// The outcome of a method of this code, where this is known of the methods that it calls, and nothing of any other.
pub fn outcome(
    alloc: Global,
    program: &Program,
    method: &MethodCore,
    callees: &[Callee],
) -> Result<Outcome, Memory>
    requires { is_stack_enough (method_of method.now) ≡ true }
    ensures { IfOk result (λ found.
        found ≡ outcome_from (known_given (core program.now) (table_of callees.now) (method_of method.now))) }
{
    let context = MethodContext {
        alloc,
        program,
        main: method.main,
        locked: false,
        callees,
    };
    let mut table = PathTable::new(alloc);
    let Ok(values) = start(alloc, method, &mut table) else {
        return Err(Memory);
    };
    let mut state = FlowState::new(alloc, values);
    let found = NumberedFound::nothing(alloc);
    let mut walk = Walk {
        notes: Notes { table, found },
        calls: IndexSet::new(alloc),
    };
    let walked = walk_code(&mut walk, &context, &method.code, &mut state);
    mem::drop(state);
    let Notes { table, found } = walk.notes;
    outcome_found(alloc, walked, &table, found)
}
