//! The program of a folder.
ghost use Rattle.std.specs.Prelude.{◌≡◌, ◌≤◌, map, string_bytes, IfErr, IfOk, IfSome, OnOk};
ghost use Rattle.racer_base.specs.declared.limits.TheConstants.{MAX_CALL_EDGES};
ghost use Rattle.core_code.specs.Program as program;
ghost use Rattle.core_lowering_rules.specs.Programs.{IsLowered};
ghost use Rattle.core_lowering.specs.Lowered.{calls_of, IsFault};
ghost use Rattle.racer_sources.specs.Finding as finding;
ghost use Rattle.racer_sources.specs.Programs as programs;
ghost use Rattle.racer_sources.specs.Lowering as lowering;

use crate::{AcceptedSources, FolderSources, Refusal, let_go, refusal_line, sources};
use container_cells::Containers;
use core_code::Program;
use core_lowering::{LowerFault, lower, lower_cells};
use core_lowering_conditions::laws::{read_units_are_named, read_units_are_placed};
use java_resolver::Table;
use java_tree::Unit;
use racer_base::{Folder, FolderFault, Memory, Text};
use std::alloc::Global;
use std::string::String;

/// The program of a folder, or the line of its refusal.
#[derive(Drop)]
pub enum FoundProgram {
    Accepted(Program),
    Refused(Text),
}

/// The program of accepted sources, where containers are this.
fn lower_as(
    alloc: Global,
    table: &Table,
    units: &[Unit],
    names: &[String],
    containers: Containers,
) -> Result<Program, LowerFault>
    requires { finding.AreKnown (map string_bytes names.now) units.now table.now }
    ensures ok { IfOk result (λ made.
        IsLowered containers (map string_bytes names.now) units.now (program.core made)) }
    ensures few { IfOk result (λ _. calls_of containers units.now ≤ MAX_CALL_EDGES) }
    ensures err { IfErr result (IsFault containers units.now) }
{
    read_units_are_placed();
    read_units_are_named();
    match containers {
        Containers::Opaque => lower(alloc, table, units, names),
        Containers::WithCells => lower_cells(alloc, table, units, names),
    }
}

/// The same, or the line of their calls.
pub(crate) fn lowered(
    alloc: Global,
    table: &Table,
    units: &[Unit],
    names: &[String],
    containers: Containers,
) -> Result<FoundProgram, Memory>
    requires { finding.AreKnown (map string_bytes names.now) units.now table.now }
    ensures { IfOk result (lowering.IsLoweredFrom containers (map string_bytes names.now) units.now) }
{
    match lower_as(alloc, table, units, names, containers) {
        Ok(program) => Ok(FoundProgram::Accepted(program)),
        Err(LowerFault::TooManyCalls(count)) => {
            let line = refusal_line(alloc, names, Refusal::TooManyCalls(count))?;
            Ok(FoundProgram::Refused(Text::from(line)))
        }
        Err(LowerFault::Memory) => Err(Memory),
    }
}

/// The same of sources.
pub(crate) fn lowered_sources(
    alloc: Global,
    found: &AcceptedSources,
    containers: Containers,
) -> Result<FoundProgram, Memory>
    requires { finding.AreKnown (map string_bytes found.now.names.items) found.now.units.items found.now.table }
    ensures { IfOk result
        (lowering.IsLoweredFrom containers (map string_bytes found.now.names.items) found.now.units.items) }
{
    let names = found.names.as_slice();
    lowered(
        alloc,
        &found.table,
        found.units.as_slice(),
        names,
        containers,
    )
}

/// Enters the folder of this name, and gives the program of its sources, where containers are this, or the line of
/// their refusal.
pub fn folder_program<F: Folder>(
    alloc: Global,
    folder: &mut F,
    name: &str,
    containers: Containers,
) -> Result<FoundProgram, FolderFault>
    ensures count { finding.CountsFaults result (F.faults folder.old) (F.faults folder.new) }
    ensures keeps { finding.KeepsMeaning F.told F.steady folder.old folder.new }
    ensures steady { F.steady folder.old →
        IfSome (F.told folder.old) (λ told. name.now ≡ told.name → finding.FailsByMemory result) }
    ensures entered { OnOk result (IfSome (F.told folder.old) (λ told. name.now ≡ told.name)) }
    ensures found { IfOk result (λ found. IfSome (F.told folder.old) (λ told.
        programs.IsSource containers told.files (programs.source_of found))) }
{
    match sources(alloc, folder, name)? {
        FolderSources::Accepted(found) => {
            let lowered = lowered_sources(alloc, &found, containers);
            let_go(found);
            Ok(lowered?)
        }
        FolderSources::Refused(line) => Ok(FoundProgram::Refused(line)),
    }
}
