//! Values and records by the numbers of their paths, and back.
ghost use Rattle.std.specs.Prelude.{◌≡◌, ◌<◌, IfOk, length};
ghost use Rattle.access_paths.specs.Table.{GoesOn, IsTable};
ghost use Rattle.owner_domain.specs.Numbered.{read_value, IsInRange, AllInRange};
ghost use Rattle.access_domain.specs.Numbered.{read_access};
ghost use Rattle.call_subst.specs.Numbered.{read_values};

use access_domain::{Access, NumberedAccess};
use access_paths::PathTable;
use owner_domain::{NumberedValue, Value};
use racer_base::Memory;
use std::alloc::Global;

/// What a numbered value is in a table.
fn value_of(alloc: Global, table: &PathTable, value: NumberedValue) -> Result<Value, Memory>
    requires { IsInRange table.now value }
    ensures { IfOk result (λ made. made ≡ read_value table.now value) }
{
    match value {
        NumberedValue::Owned => Ok(Value::Owned),
        NumberedValue::Named(number) => Ok(Value::Named(table.path_of(number).copied(alloc)?)),
        NumberedValue::Unnamed => Ok(Value::Unnamed),
    }
}

/// What numbered values are in a table.
pub fn values_of(
    alloc: Global,
    table: &PathTable,
    values: &[NumberedValue],
) -> Result<Vec<Value>, Memory>
    requires { AllInRange table.now values.now }
    ensures { IfOk result (λ made. made.items ≡ read_values table.now values.now) }
{
    let mut made = Vec::new(alloc);
    for value in values {
        made.push(value_of(alloc, table, *value)?)?;
    }
    Ok(made)
}

/// A value by the number of its path.
pub fn number_value(table: &mut PathTable, value: Value) -> Result<NumberedValue, Memory>
    ensures value { IfOk result (λ made. read_value table.new made ≡ value) }
    ensures range { IfOk result (λ made. IsInRange table.new made) }
    ensures table { GoesOn table.old table.new }
    ensures each_once { IsTable table.old → IsTable table.new }
{
    match value {
        Value::Owned => Ok(NumberedValue::Owned),
        Value::Named(path) => Ok(NumberedValue::Named(table.number_of(path)?)),
        Value::Unnamed => Ok(NumberedValue::Unnamed),
    }
}

/// A record by the number of its path.
pub fn number_access(table: &mut PathTable, access: Access) -> Result<NumberedAccess, Memory>
    ensures access { IfOk result (λ made. read_access table.new made ≡ access) }
    ensures range { IfOk result (λ made. made.path < length table.new) }
    ensures table { GoesOn table.old table.new }
    ensures each_once { IsTable table.new }
{
    Ok(NumberedAccess {
        path: table.number_of(access.path)?,
        kind: access.kind,
        locked: access.locked,
        main: access.main,
        site: access.site,
        below: access.below,
    })
}
