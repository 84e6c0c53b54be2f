//! The cells that texts are.
ghost use Rattle.std.specs.Prelude.{◌≡◌, IfOk, option_map};
ghost use Rattle.core_code.specs.Core.{method_of};
ghost use Rattle.core_code.specs.Program.{core};
ghost use Rattle.witness_text_names.specs.Indexes.{FindsFields, FindsRoots};
ghost use Rattle.witness_text_names.specs.Names.{all_roots};
ghost use Rattle.witness_text_names.specs.Objects as said;

use crate::fields::FieldIndex;
use crate::reached::root_reached;
use crate::roots::{RootIndex, root_at};
use crate::walk::{Ends, cut, walk};
use core_code::{MethodCore, Program};
use core_semantics::{Object, StartPath, StartRoot};
use racer_base::{FieldId, Items, MAX_PATH_FIELDS, Memory};
use std::alloc::Global;

/// A field of an object.
#[derive(Drop)]
pub struct Cell {
    pub object: Object,
    pub field: FieldId,
}

/// What the path of a witness file is.
#[derive(Drop)]
pub enum NamedPath {
    /// The file has none.
    Absent,
    /// Its text is no cell.
    NoCell,
    Is(Cell),
}

/// Whether both threads have a root.
fn is_shared(root: StartRoot) -> bool
    ensures { result ≡ said.is_shared root }
{
    match root {
        StartRoot::This | StartRoot::Class(_) => true,
        StartRoot::Param(_, _) => false,
    }
}

/// The cell of a field of the object of a start path, unless its path has too many fields.
fn short_cell(root: StartRoot, fields: Vec<FieldId>, field: FieldId) -> Option<Cell>
    ensures { result ≡ said.short_cell (record { root = root; fields = fields.items }, field) }
{
    if fields.len() >= MAX_PATH_FIELDS {
        return None;
    }
    let fields = Items::from(fields);
    Some(Cell {
        object: Object::Start(StartPath { root, fields }),
        field,
    })
}

/// The cell that a text is, where it is one.
fn cell_named(
    alloc: Global,
    program: &Program,
    first: &MethodCore,
    second: &MethodCore,
    roots: &RootIndex,
    fields: &FieldIndex,
    text: &str,
) -> Result<Option<Cell>, Memory>
    requires roots { FindsRoots (core program.now)
        (all_roots (core program.now) (method_of first.now) (method_of second.now)) roots.now }
    requires fields { FindsFields (core program.now).fields fields.now }
    ensures { IfOk result (λ cell. cell
        ≡ said.cell_named (core program.now) (method_of first.now) (method_of second.now) text.now) }
{
    let Some((name, names)) = cut(text) else {
        return Ok(None);
    };
    let Some(root) = root_at(roots, name) else {
        return Ok(None);
    };
    if !is_shared(root) {
        return Ok(None);
    }
    let Some(from) = root_reached(first, second, root) else {
        return Ok(None);
    };
    let path = walk(alloc, program, fields, from, names, Ends::AtCell)?;
    let Some((path, field)) = path else {
        return Ok(None);
    };
    Ok(short_cell(root, path, field))
}

/// What the path of a witness file is, by these indexes.
pub(crate) fn path_cell(
    alloc: Global,
    program: &Program,
    first: &MethodCore,
    second: &MethodCore,
    roots: &RootIndex,
    fields: &FieldIndex,
    path: Option<&str>,
) -> Result<NamedPath, Memory>
    requires roots { FindsRoots (core program.now)
        (all_roots (core program.now) (method_of first.now) (method_of second.now)) roots.now }
    requires fields { FindsFields (core program.now).fields fields.now }
    ensures { IfOk result (λ named. named ≡ said.path_cell (core program.now) (method_of first.now)
        (method_of second.now) (option_map (λ text. text.now) path.entry)) }
{
    let Some(text) = path else {
        return Ok(NamedPath::Absent);
    };
    match cell_named(alloc, program, first, second, roots, fields, text)? {
        None => Ok(NamedPath::NoCell),
        Some(cell) => Ok(NamedPath::Is(cell)),
    }
}
