//! What was found over the numbers of a table, in paths.
ghost use Rattle.std.specs.Prelude.{◌≡◌, ◌<◌, IfOk, length, option_map};
ghost use Rattle.owner_domain.specs.Numbered.{read_value};
ghost use Rattle.access_domain.specs.Numbered.{read_access, read_accesses, AreNumbered};
ghost use Rattle.call_subst.specs.Numbered.{read_set, AreBelow};
ghost use Rattle.transfer_steps.specs.Numbered.{read_found, AreFoundNumbers, IsResultInRange};
ghost use Rattle.access_domain.specs.Records.{first_of_keys};

use access_domain::{Access, Accesses, NumberedAccess};
use access_paths::PathTable;
use owner_domain::{NumberedValue, Value};
use racer_base::Memory;
use std::alloc::Global;
use transfer_steps::{Found, NumberedFound};
use wobbly_paths::{Adding, Wobbly};

/// What was found, each path in place of its number.
pub fn read_found(alloc: Global, table: &PathTable, found: NumberedFound) -> Result<Found, Memory>
    requires numbers { AreFoundNumbers table.now found }
    requires firsts { first_of_keys (read_accesses table.now found.records) ≡ read_accesses table.now found.records }
    ensures { IfOk result (λ made. made ≡ read_found table.now found) }
{
    let NumberedFound {
        records,
        wobbly,
        result,
    } = found;
    let records = records_of(alloc, table, records.into_vec().as_slice())?;
    let records = Accesses::from_vec(records);
    let wobbly = paths_of(alloc, table, wobbly.as_slice())?;
    let result = result_of(alloc, table, result)?;
    Ok(Found {
        records,
        wobbly,
        result,
    })
}

/// A record, with its path in place of the number.
fn record_of(alloc: Global, table: &PathTable, access: NumberedAccess) -> Result<Access, Memory>
    requires { access.path < length table.now }
    ensures { IfOk result (λ made. made ≡ read_access table.now access) }
{
    Ok(Access {
        path: table.path_of(access.path).copied(alloc)?,
        kind: access.kind,
        locked: access.locked,
        main: access.main,
        site: access.site,
        below: access.below,
    })
}

/// The records, each with its path in place of the number.
fn records_of(
    alloc: Global,
    table: &PathTable,
    records: &[NumberedAccess],
) -> Result<Vec<Access>, Memory>
    requires { AreNumbered table.now records.now }
    ensures { IfOk result (λ made. made.items ≡ read_accesses table.now records.now) }
{
    let mut made = Vec::with_capacity(alloc, records.len())?;
    for record in records {
        made.push(record_of(alloc, table, *record)?)?;
    }
    Ok(made)
}

/// The set of the paths of these numbers.
fn paths_of(alloc: Global, table: &PathTable, numbers: &[u32]) -> Result<Wobbly, Memory>
    requires { AreBelow (length table.now) numbers.now }
    ensures { IfOk result (λ made. made ≡ read_set table.now numbers.now) }
{
    let mut made = Wobbly::new(alloc);
    for number in numbers {
        match made.add(table.path_of(*number).copied(alloc)?) {
            Adding::Added | Adding::Present => {}
            Adding::Full | Adding::Memory => return Err(Memory),
        }
    }
    Ok(made)
}

/// A returned value, with its path in place of the number.
fn result_of(
    alloc: Global,
    table: &PathTable,
    value: Option<NumberedValue>,
) -> Result<Option<Value>, Memory>
    requires { IsResultInRange table.now value }
    ensures { IfOk result (λ made. made ≡ option_map (read_value table.now) value) }
{
    match value {
        None => Ok(None),
        Some(NumberedValue::Owned) => Ok(Some(Value::Owned)),
        Some(NumberedValue::Unnamed) => Ok(Some(Value::Unnamed)),
        Some(NumberedValue::Named(number)) => {
            Ok(Some(Value::Named(table.path_of(number).copied(alloc)?)))
        }
    }
}
