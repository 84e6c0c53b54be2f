//! Substitution at a call, over the numbers of paths.
ghost use Rattle.std.specs.Prelude.{◌≡◌, ◌≤◌, ◌<◌, ◌+◌, [], IfOk, OnOk, length, true};
ghost use Rattle.std.specs.FinSet as set;
ghost use Rattle.std.specs.Option.{option_to_list};
ghost use Rattle.racer_base.specs.declared.limits.TheConstants.{MAX_SUMMARY_KEYS};
ghost use Rattle.access_paths.specs.Table.{GoesOn, IsTable};
ghost use Rattle.owner_domain.specs.Numbered.{read_value, IsInRange, AllInRange};
ghost use Rattle.owner_domain.specs.Values.{has_known_root};
ghost use Rattle.core_code.specs.Program.{core};
ghost use Rattle.access_domain.specs.Additions.{keys_added, paths_added};
ghost use Rattle.access_domain.specs.FlowContext.{is_static_method};
ghost use Rattle.access_domain.specs.Numbered.{read_accesses, AreNumbered};
ghost use Rattle.access_domain.specs.Records.{first_of_keys};
ghost use Rattle.access_domain.specs.Substitution.{actuals_from, substituted_value};
ghost use Rattle.call_subst.specs.Calls.{substituted_at, records_at, paths_at, name_at};
ghost use Rattle.call_subst.specs.Numbered.{AreKnown, AreReplaced, AreWobbly, IsReplaced, read_set, read_values};
ghost use Rattle.call_subst.specs.Substitutes.{IsSubstituted};

use crate::naming::{Call, is_static, path_there, value_named};
use crate::numbering::{number_access, number_value, values_of};
use access_domain::{Access, Accesses, NumberedAccess, NumberedAccesses, Summary};
use access_paths::{Path, PathTable};
use core_code::Program;
use indexmap::IndexSet;
use owner_domain::{NumberedValue, Value};
use racer_base::{Memory, MethodId, SiteId};
use std::alloc::Global;
use wobbly_paths::Adding;

/// What is found of a callee in its caller's values, each path by its number.
#[derive(Drop)]
pub struct Replaced {
    /// The first of each key, in order.
    pub accesses: Vec<NumberedAccess>,
    /// The numbers of different paths.
    pub wobbly: Vec<u32>,
}

/// What is found of a method that is called at a site with these values, in the values of its caller. Of an instance
/// method the first value is that of `this`. A record gets the site, and its index among the callee's. Paths that are
/// new to the table are put at its end, and each other one keeps its number, after any answer.
pub fn substitute(
    alloc: Global,
    program: &Program,
    table: &mut PathTable,
    callee: MethodId,
    summary: &Summary,
    actuals: &[NumberedValue],
    locked: bool,
    main: bool,
    site: SiteId,
) -> Result<Replaced, Memory>
    requires { AllInRange table.old actuals.now }
    ensures answer { IfOk result (λ made. IsSubstituted (core program.now) callee (read_values table.old actuals.now)
        locked main site summary.now (read_accesses table.new made.accesses.items)
        (read_set table.new made.wobbly.items)) }
    ensures numbers { IfOk result (λ made. AreReplaced table.new made) }
    ensures table { GoesOn table.old table.new }
    ensures each_once { IsTable table.old → IsTable table.new }
{
    let values = values_of(alloc, table, actuals)?;
    let call = Call {
        program,
        is_static: is_static(program, callee),
        actuals: values.as_slice(),
        locked,
        main,
        site,
    };
    replace(alloc, &call, table, summary)
}

/// What a method that is called with these values returns, in the values of its caller.
pub fn substitute_value(
    alloc: Global,
    program: &Program,
    table: &mut PathTable,
    callee: MethodId,
    actuals: &[NumberedValue],
    value: &Value,
) -> Result<NumberedValue, Memory>
    requires { AllInRange table.old actuals.now }
    ensures value { IfOk result (λ made. read_value table.new made ≡ substituted_value
        (actuals_from (is_static_method (core program.now) callee) (read_values table.old actuals.now)) value.now) }
    ensures range { IfOk result (λ made. IsInRange table.new made) }
    ensures known { IfOk result (λ made. AreKnown (read_values table.old actuals.now) →
        has_known_root (read_value table.new made) ≡ true) }
    ensures table { GoesOn table.old table.new }
    ensures each_once { IsTable table.old → IsTable table.new }
{
    match value {
        Value::Owned => Ok(NumberedValue::Owned),
        Value::Unnamed => Ok(NumberedValue::Unnamed),
        Value::Named(path) => {
            let values = values_of(alloc, table, actuals)?;
            let call = Call {
                program,
                is_static: is_static(program, callee),
                actuals: values.as_slice(),
                locked: false,
                main: false,
                site: SiteId(0),
            };
            number_value(table, value_named(alloc, &call, path)?)
        }
    }
}

/// What is found of the callee of a call, in its caller's values.
fn replace(
    alloc: Global,
    call: &Call,
    table: &mut PathTable,
    summary: &Summary,
) -> Result<Replaced, Memory>
    ensures answer { IfOk result (λ made. IsReplaced call.now summary.now
        (read_accesses table.new made.accesses.items) (read_set table.new made.wobbly.items)) }
    ensures numbers { IfOk result (λ made. AreReplaced table.new made) }
    ensures table { GoesOn table.old table.new }
    ensures each_once { IsTable table.old → IsTable table.new }
{
    let accesses = records_there(alloc, call, table, &summary.accesses)?;
    let paths = summary.wobbly.paths(alloc)?;
    let wobbly = paths_there(alloc, call, table, paths.as_slice())?;
    Ok(Replaced { accesses, wobbly })
}

/// A record of the callee with its index, in the caller; none where its object is owned.
fn record_there(
    alloc: Global,
    call: &Call,
    index: u32,
    access: &Access,
) -> Result<Option<Access>, Memory>
    ensures { IfOk result (λ made. option_to_list made ≡ substituted_at call.now (index, access.now)) }
{
    match path_there(alloc, call, &access.path)? {
        None => Ok(None),
        Some(path) => Ok(Some(Access {
            path,
            kind: access.kind,
            locked: access.locked || call.locked,
            main: access.main || call.main,
            site: call.site,
            below: Some(index),
        })),
    }
}

/// Adds a record of the callee, in the caller.
fn add_record(
    alloc: Global,
    call: &Call,
    table: &mut PathTable,
    index: u32,
    access: &Access,
    kept: &mut NumberedAccesses,
) -> Result<(), Memory>
    requires room { length kept.old < MAX_SUMMARY_KEYS }
    requires numbers { AreNumbered table.old kept.old }
    ensures all { OnOk result (read_accesses table.new kept.new ≡
        keys_added (read_accesses table.old kept.old) (substituted_at call.now (index, access.now))) }
    ensures numbers { OnOk result (AreNumbered table.new kept.new) }
    ensures count { OnOk result (length kept.new ≤ length kept.old + 1) }
    ensures table { GoesOn table.old table.new }
    ensures each_once { IsTable table.old → IsTable table.new }
{
    let Some(made) = record_there(alloc, call, index, access)? else {
        return Ok(());
    };
    match kept.add(number_access(table, made)?) {
        Adding::Added | Adding::Present => Ok(()),
        Adding::Full => unreachable!(),
        Adding::Memory => Err(Memory),
    }
}

/// The first of each key of the callee's records, in the caller.
fn records_there(
    alloc: Global,
    call: &Call,
    table: &mut PathTable,
    records: &Accesses,
) -> Result<Vec<NumberedAccess>, Memory>
    ensures all { IfOk result (λ made. read_accesses table.new made.items ≡
        first_of_keys (records_at call.now 0 records.now)) }
    ensures numbers { IfOk result (λ made. AreNumbered table.new made.items) }
    ensures table { GoesOn table.old table.new }
    ensures each_once { IsTable table.old → IsTable table.new }
{
    let mut kept = NumberedAccesses::new(alloc);
    for index in 0..records.len() {
        add_record(alloc, call, table, index, records.get(index), &mut kept)?;
    }
    Ok(kept.into_vec())
}

/// Adds the number of what a path of the callee names in the caller, where that has a name.
fn add_number(
    alloc: Global,
    call: &Call,
    table: &mut PathTable,
    path: &Path,
    numbers: &mut IndexSet<u32>,
) -> Result<(), Memory>
    requires { AreWobbly table.old numbers.old.keys }
    ensures all { OnOk result (read_set table.new numbers.new.keys ≡
        paths_added (read_set table.old numbers.old.keys) (name_at call.now path.now)) }
    ensures numbers { OnOk result (AreWobbly table.new numbers.new.keys) }
    ensures table { GoesOn table.old table.new }
    ensures each_once { IsTable table.old → IsTable table.new }
{
    let Value::Named(name) = value_named(alloc, call, path)? else {
        return Ok(());
    };
    let number = table.number_of(name)?;
    let Ok(_) = numbers.insert(number) else {
        return Err(Memory);
    };
    Ok(())
}

/// The numbers of what these paths of the callee name in the caller, each once.
fn paths_there(
    alloc: Global,
    call: &Call,
    table: &mut PathTable,
    paths: &[Path],
) -> Result<Vec<u32>, Memory>
    ensures all { IfOk result (λ made. read_set table.new made.items ≡ set.from_list (paths_at call.now paths.now)) }
    ensures numbers { IfOk result (λ made. AreWobbly table.new made.items) }
    ensures table { GoesOn table.old table.new }
    ensures each_once { IsTable table.old → IsTable table.new }
{
    let mut numbers = IndexSet::new(alloc);
    for path in paths {
        add_number(alloc, call, table, path, &mut numbers)?;
    }
    Ok(Vec::from_slice(alloc, numbers.as_slice())?)
}
