//! Methods with their code.
ghost use Rattle.std.specs.Prelude.{◌≡◌, IfOk, map};
ghost use Rattle.std.specs.List.{All};
ghost use Rattle.core_code.specs.Core.{method_of};
ghost use Rattle.core_lowering_rules.specs.Programs as wanted;
ghost use Rattle.core_lowering_context.specs.Views.{folder_of};
ghost use Rattle.core_lowering_surveys.specs.Entries.{is_checked_in, is_entry_in};
ghost use Rattle.core_lowering_surveys.specs.Surveys.{seen, IsRight};

use crate::surveys::Surveyed;
use container_cells::Cell;
use core_code::{MethodCore, Reason};
use core_lowering_methods::lower_method;
use java_resolver::{ClassInfo, MethodInfo, Table};
use racer_base::{ClassId, Items, Kind, Memory, Text};
use std::alloc::Global;

/// Whether a class is analysed for races.
fn is_checked(classes: &[ClassInfo], c: ClassId) -> bool
    ensures { result ≡ is_checked_in classes.now c }
{
    match classes.get(c.0 as usize) {
        Some(class) => class.checked,
        None => false,
    }
}

/// Whether other threads may call a method at any time.
fn is_entry(classes: &[ClassInfo], info: &MethodInfo, status: Option<Reason>) -> bool
    ensures { result ≡ is_entry_in classes.now info.now status }
{
    status.is_none()
        && is_checked(classes, info.class)
        && !info.is_private
        && !info.is_constructor
        && !info.not_thread_safe
}

fn kinds_of(alloc: Global, kinds: &[Kind]) -> Result<Items<Kind>, Memory>
    ensures { IfOk result (λ made. made ≡ kinds.now) }
{
    Ok(Items::from(Vec::from_slice(alloc, kinds)?))
}

/// A method of this status, where these are the reasons why methods are not analysed.
fn method(
    alloc: Global,
    table: &Table,
    cells: &[Option<Cell>],
    statuses: &[Option<Reason>],
    surveyed: &Surveyed,
    status: Option<Reason>,
) -> Result<MethodCore, Memory>
    requires { IsRight table.now cells.now surveyed.now }
    ensures { IfOk result (λ method. method_of method ≡
        wanted.method_core (folder_of table.now cells.now statuses.now) (seen surveyed.now) status) }
{
    let info = surveyed.source.info;
    let name = Text::from_str(alloc, info.name.as_str())?;
    let parameters = kinds_of(alloc, info.parameters.as_slice())?;
    let lowered = lower_method(
        alloc,
        table,
        cells,
        statuses,
        &surveyed.source,
        surveyed.extent,
    )?;
    Ok(MethodCore {
        class: info.class,
        name,
        place: info.place,
        parameters,
        result: info.result,
        variables: lowered.kinds,
        is_static: info.is_static,
        entry: is_entry(table.classes(), info, status),
        main: info.main,
        status,
        code: lowered.code,
    })
}

/// The methods, where these are the reasons why they are not analysed.
pub fn methods(
    alloc: Global,
    table: &Table,
    cells: &[Option<Cell>],
    statuses: &[Option<Reason>],
    surveyed: &[Surveyed],
) -> Result<Items<MethodCore>, Memory>
    requires { All (IsRight table.now cells.now) surveyed.now }
    ensures { IfOk result (λ methods. map method_of methods ≡
        wanted.method_cores (folder_of table.now cells.now statuses.now) (map seen surveyed.now) statuses.now) }
{
    let mut methods = Items::new(alloc);
    for (one, status) in surveyed.iter().zip(statuses) {
        methods.push(method(alloc, table, cells, statuses, one, *status)?)?;
    }
    Ok(methods)
}
