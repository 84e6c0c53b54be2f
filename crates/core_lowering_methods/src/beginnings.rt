//! What the fields of an object begin with, which stands in no method (JLS 8.3.2, 12.5).
ghost use Rattle.std.specs.Prelude.{◌≡◌, ◌++◌, OnOk, IfOk};
ghost use Rattle.core_lowering_rules.specs.Methods.{entered, fields_begun, outside_methods};
ghost use Rattle.core_lowering_context.specs.Beginning.{inside};
ghost use Rattle.core_lowering_context.specs.Drafts as path;
ghost use Rattle.core_lowering_context.specs.Sources.{source_of};
ghost use Rattle.core_lowering_context.specs.Views.{folder_of};
ghost use Rattle.core_lowering_methods.specs.Bodies.{object_begun};

use container_cells::Cell;
use core_code::Reason;
use core_lowering_context::{Making, Source, enter, enter_spelled};
use core_lowering_drafts::Draft;
use core_lowering_expressions::begin_members;
use java_resolver::Table;
use java_tree::{MethodTree, ResultTree};
use racer_base::Memory;
use std::alloc::Global;

/// Puts the fields of its object, of a constructor, without variables in scope.
fn begin_object(
    alloc: Global,
    table: &Table,
    cells: &[Option<Cell>],
    statuses: &[Option<Reason>],
    source: &Source,
    m: &MethodTree,
    making: &mut Making,
) -> Result<(), Memory>
    ensures { OnOk result (path.code_of making.new ≡ path.code_of making.old ++ object_begun
        (outside_methods (inside (folder_of table.now cells.now statuses.now) (source_of source.now) m.now))
        source.now.members.now m.now) }
{
    if !matches!(m.result, ResultTree::Constructor) {
        return Ok(());
    }
    let mut bare = enter_spelled(alloc, table, cells, statuses, source, m)?;
    bare.leave_method();
    begin_members(alloc, &bare, source.members, making)
}

/// Of a constructor, the fields of its object.
pub fn fields_of(
    alloc: Global,
    table: &Table,
    cells: &[Option<Cell>],
    statuses: &[Option<Reason>],
    source: &Source,
    m: &MethodTree,
) -> Result<Draft, Memory>
    ensures { IfOk result (λ fields. fields ≡ object_begun
        (outside_methods (inside (folder_of table.now cells.now statuses.now) (source_of source.now) m.now))
        source.now.members.now m.now) }
{
    let mut making = Making::new(alloc);
    begin_object(alloc, table, cells, statuses, source, m, &mut making)?;
    making.taken(alloc, 0)
}

/// The same of the constructor that a class has without declaring it.
fn begin_default(
    alloc: Global,
    table: &Table,
    cells: &[Option<Cell>],
    statuses: &[Option<Reason>],
    source: &Source,
    making: &mut Making,
) -> Result<(), Memory>
    ensures { OnOk result (path.code_of making.new ≡ path.code_of making.old ++ fields_begun
        (entered (folder_of table.now cells.now statuses.now) (source_of source.now)) source.now.members.now) }
{
    let mut bare = enter(alloc, table, cells, statuses, source)?;
    bare.leave_method();
    begin_members(alloc, &bare, source.members, making)
}

/// The fields of its object, of the constructor that a class has without declaring it.
pub fn default_fields(
    alloc: Global,
    table: &Table,
    cells: &[Option<Cell>],
    statuses: &[Option<Reason>],
    source: &Source,
) -> Result<Draft, Memory>
    ensures { IfOk result (λ fields. fields ≡ fields_begun
        (entered (folder_of table.now cells.now statuses.now) (source_of source.now)) source.now.members.now) }
{
    let mut making = Making::new(alloc);
    begin_default(alloc, table, cells, statuses, source, &mut making)?;
    making.taken(alloc, 0)
}
