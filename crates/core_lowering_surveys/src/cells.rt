//! The cells of containers.
ghost use Rattle.std.specs.Prelude.{◌≡◌, IfOk, OnOk, map};
ghost use Rattle.container_cells.specs.declared.cell.Containers.TheVariants.{WithCells};
ghost use Rattle.core_lowering_rules.specs.Cells as wanted;

use container_cells::{Cell, Containers};
use core_lowering_context::number_of;
use java_resolver::FieldInfo;
use racer_base::{FieldId, Memory};
use std::alloc::Global;

/// Without cells, beside these fields.
fn no_cells(alloc: Global, fields: &[FieldInfo]) -> Result<Vec<Option<Cell>>, Memory>
    ensures { IfOk result (λ cells. cells.items ≡ map wanted.no_cell fields.now) }
{
    let mut cells = Vec::new(alloc);
    for _field in fields {
        cells.push(None)?;
    }
    Ok(cells)
}

/// The cells of the containers among these fields, which are fields behind them all.
fn all_cells(alloc: Global, fields: &[FieldInfo]) -> Result<Vec<Option<Cell>>, Memory>
    ensures { IfOk result (λ cells. cells.items ≡ wanted.cells_of WithCells fields.now) }
{
    let mut cells = Vec::new(alloc);
    let mut next = number_of(fields.len())?;
    for field in fields {
        match field.family {
            None => cells.push(None)?,
            Some(family) => {
                let content = FieldId(next);
                cells.push(Some(Cell { family, content }))?;
                next = next.checked_add(1).ok_or(Memory)?;
            }
        }
    }
    Ok(cells)
}

/// The cell of each of these fields that has one.
pub fn cells_of(
    alloc: Global,
    fields: &[FieldInfo],
    containers: Containers,
) -> Result<Vec<Option<Cell>>, Memory>
    ensures { IfOk result (λ cells. cells.items ≡ wanted.cells_of containers fields.now) }
{
    match containers {
        Containers::Opaque => no_cells(alloc, fields),
        Containers::WithCells => all_cells(alloc, fields),
    }
}
