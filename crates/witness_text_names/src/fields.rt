//! Fields, by their names and classes.
ghost use Rattle.std.specs.Prelude.{◌≡◌, ℕ, List, None, IfOk, OnOk};
ghost use Rattle.racer_base.specs.declared.ids.ClassId.{ClassId};
ghost use Rattle.core_code.specs.Program.{core};
ghost use Rattle.witness_text_names.specs.Indexes.{AddsField, AddsKeyed, FindsFields, field_at};

use crate::entries::number_of;
use core_code::{FieldCore, Program};
use racer_base::{ClassId, FieldId, Memory};
use std::alloc::Global;
use std::collections::BTreeMap;

/// Fields by the numbers of their classes.
type Keyed = BTreeMap<u32, FieldId>;

/// These by their names.
pub(crate) type FieldIndex = BTreeMap<String, Keyed>;

/// No fields.
fn no_fields(alloc: Global) -> FieldIndex
    ensures { (c : ClassId) (name : List ℕ) → field_at result c name ≡ None }
{
    BTreeMap::new(alloc)
}

/// The field of a class by a name.
pub(crate) fn field_at(fields: &FieldIndex, class: ClassId, name: &str) -> Option<FieldId>
    ensures { result ≡ field_at fields.now class name.now }
{
    let keyed = fields.get(name)?;
    keyed.get(&class.0).copied()
}

/// Puts a field at the number of its class, unless there is one.
fn add_keyed(keyed: &mut Keyed, class: ClassId, number: FieldId) -> Result<(), Memory>
    ensures { OnOk result (AddsKeyed class.0 number keyed.old keyed.new) }
{
    if keyed.get(&class.0).is_none() {
        keyed.insert(class.0, number)?;
    }
    Ok(())
}

/// Puts a field at its name and class, unless there is one.
fn add_field(
    alloc: Global,
    fields: &mut FieldIndex,
    field: &FieldCore,
    number: FieldId,
) -> Result<(), Memory>
    ensures { OnOk result (AddsField field.now number fields.old fields.new) }
{
    let name = field.name.as_str();
    if let Some(keyed) = fields.get_mut(name) {
        return add_keyed(keyed, field.class, number);
    }
    let mut keyed = BTreeMap::new(alloc);
    add_keyed(&mut keyed, field.class, number)?;
    fields.insert(String::from_str(alloc, name)?, keyed)?;
    Ok(())
}

/// The fields of a program.
pub(crate) fn field_index(alloc: Global, program: &Program) -> Result<FieldIndex, Memory>
    ensures { IfOk result (FindsFields (core program.now).fields) }
{
    let mut fields = no_fields(alloc);
    for (index, field) in program.fields().iter().enumerate() {
        let number = FieldId(number_of(index)?);
        add_field(alloc, &mut fields, field, number)?;
    }
    Ok(fields)
}
