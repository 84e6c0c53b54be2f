//! The fields of a program.
ghost use Rattle.std.specs.Prelude.{◌≡◌, ◌++◌, IfOk, OnOk, map};
ghost use Rattle.container_cells.specs.declared.cell.Containers.TheVariants.{WithCells};
ghost use Rattle.core_lowering_rules.specs.Cells.{content_core, contents};
ghost use Rattle.core_lowering_rules.specs.Programs.{field_core, field_cores};

use container_cells::Containers;
use core_code::FieldCore;
use java_resolver::FieldInfo;
use racer_base::{Items, Kind, Memory, Text};
use std::alloc::Global;

fn field(alloc: Global, info: &FieldInfo) -> Result<FieldCore, Memory>
    ensures { IfOk result (λ field. field ≡ field_core info.now) }
{
    Ok(FieldCore {
        class: info.class,
        name: Text::from_str(alloc, info.name.as_str())?,
        kind: info.kind,
        is_static: info.is_static,
        recorded: !info.is_volatile && !info.is_final,
    })
}

/// Puts these fields behind those that there are; accesses of volatile and of final ones are not recorded.
fn push_fields(
    alloc: Global,
    infos: &[FieldInfo],
    fields: &mut Items<FieldCore>,
) -> Result<(), Memory>
    ensures { OnOk result (fields.new ≡ fields.old ++ map field_core infos.now) }
{
    for info in infos {
        fields.push(field(alloc, info)?)?;
    }
    Ok(())
}

/// What a container holds, as a field.
fn content(alloc: Global, container: &FieldInfo) -> Result<FieldCore, Memory>
    ensures { IfOk result (λ field. field ≡ content_core container.now) }
{
    let mut name = String::from_str(alloc, container.name.as_str())?;
    name.push_str("[]")?;
    Ok(FieldCore {
        class: container.class,
        name: Text::from(name),
        kind: Kind::Other,
        is_static: container.is_static,
        recorded: true,
    })
}

/// Puts what each container among these fields holds behind the fields that there are.
fn push_contents(
    alloc: Global,
    infos: &[FieldInfo],
    fields: &mut Items<FieldCore>,
) -> Result<(), Memory>
    ensures { OnOk result (fields.new ≡ fields.old ++ contents WithCells infos.now) }
{
    for info in infos {
        if info.family.is_some() {
            fields.push(content(alloc, info)?)?;
        }
    }
    Ok(())
}

/// The fields, and behind them all what the containers among them hold, where containers have cells.
pub fn fields(
    alloc: Global,
    infos: &[FieldInfo],
    containers: Containers,
) -> Result<Items<FieldCore>, Memory>
    ensures { IfOk result (λ fields. fields ≡ field_cores containers infos.now) }
{
    let mut fields = Items::new(alloc);
    push_fields(alloc, infos, &mut fields)?;
    match containers {
        Containers::Opaque => {}
        Containers::WithCells => push_contents(alloc, infos, &mut fields)?,
    }
    Ok(fields)
}
