//! The program of the units of a folder.
ghost use Rattle.std.specs.Prelude.{◌≡◌, ◌≤◌, [], IfOk, IfErr, IsTrue, None, map};
ghost use Rattle.std.specs.List.{All, flat_map};
ghost use Rattle.std.specs.String.{string_bytes};
ghost use Rattle.container_cells.specs.declared.cell.Containers.TheVariants.{Opaque, WithCells};
ghost use Rattle.racer_base.specs.declared.limits.TheConstants.{MAX_CALL_EDGES};
ghost use Rattle.core_code.specs.Chains.{flag_of};
ghost use Rattle.core_code.specs.Core.{core_of};
ghost use Rattle.core_code.specs.Program as program;
ghost use Rattle.core_code.specs.Recursion.{all_rows, TellRecursion};
ghost use Rattle.java_resolver.specs.Declarations.{classes_of, fields_of, methods_of};
ghost use Rattle.java_resolver.specs.Refusals.{refusal};
ghost use Rattle.java_resolver.specs.Table as seen;
ghost use Rattle.core_lowering_rules.specs.Cells.{cells_of};
ghost use Rattle.core_lowering_rules.specs.Conditions.{are_in_files, are_named};
ghost use Rattle.core_lowering_rules.specs.Programs as wanted;
ghost use Rattle.core_lowering_rules.specs.Programs.{draft_of, IsLowered};
ghost use Rattle.core_lowering_context.specs.Views.{folder_of};
ghost use Rattle.core_lowering.specs.Calls.{are_rows_low};
ghost use Rattle.core_lowering.specs.Known.{IsKnown};
ghost use Rattle.core_lowering.specs.Lowered.{calls_of, IsFault};
ghost use Rattle.core_lowering_surveys.specs.Surveys.{seen as source_seen, IsRight};

use crate::classes::{classes, file_names};
use crate::edges::count_edges;
use crate::fault::LowerFault;
use crate::skipped::skipped_of;
use crate::sources::sources_of;
use container_cells::{Cell, Containers};
use core_code::{Parts, Program, Reason, on_cycles};
use core_lowering_surveys::{Surveyed, Surveys, cells_of, fields, find_surveys, methods, statuses};
use java_resolver::Table;
use java_tree::Unit;
use racer_base::{Items, MAX_CALL_EDGES, Memory, MethodId};
use std::alloc::Global;

/// How many different pairs of a method and one that it calls there are, whatever their status.
fn find_edges(
    alloc: Global,
    units: &[Unit],
    containers: Containers,
    rows: &[Items<MethodId>],
) -> Result<u32, Memory>
    requires rows { rows.now ≡ all_rows (draft_of containers [] units.now) }
    requires low { IsTrue (are_rows_low (all_rows (draft_of containers [] units.now))) }
    ensures { IfOk result (λ edges. calls_of containers units.now ≡ edges) }
{
    let edges = count_edges(alloc, rows)?;
    Ok(edges)
}

/// What units declare, what containers are taken for, and the cells of the fields.
#[derive(Clone, Copy)]
struct Declared<'a> {
    table: &'a Table,
    containers: Containers,
    cells: &'a [Option<Cell>],
}

/// What the program is made of, where these are the reasons why methods are not analysed.
fn parts(
    alloc: Global,
    declared: Declared,
    units: &[Unit],
    files: &[String],
    statuses: &[Option<Reason>],
    surveyed: &[Surveyed],
) -> Result<Parts, Memory>
    requires { All (IsRight declared.table.now declared.cells.now) surveyed.now }
    ensures { IfOk result (λ parts. core_of parts ≡ record {
      files = map (λ file. string_bytes file) files.now;
      skipped = wanted.in_order (flat_map wanted.skipped_in units.now);
      classes = map wanted.class_core (seen.classes declared.entry.table.now);
      fields = wanted.field_cores declared.entry.containers (seen.fields declared.entry.table.now);
      methods = wanted.method_cores (folder_of declared.entry.table.now declared.entry.cells.now statuses.now)
          (map source_seen surveyed.now) statuses.now;
    }) }
{
    let table = declared.table;
    Ok(Parts {
        files: file_names(alloc, files)?,
        skipped: skipped_of(alloc, units)?,
        classes: classes(alloc, table.classes())?,
        fields: fields(alloc, table.fields(), declared.containers)?,
        methods: methods(alloc, table, declared.cells, statuses, surveyed)?,
    })
}

/// What the program is made of, where the methods of these flags are recursive.
fn program_parts(
    alloc: Global,
    declared: Declared,
    units: &[Unit],
    files: &[String],
    reasons: &[Option<Reason>],
    recursive: &[bool],
    surveyed: &[Surveyed],
) -> Result<Parts, Memory>
    requires known { IsKnown declared.containers declared.table.now declared.cells.now units.now surveyed.now
        reasons.now }
    ensures { IfOk result (λ parts. core_of parts ≡
        wanted.program_of declared.entry.containers (map (λ file. string_bytes file) files.now) units.now
        (flag_of recursive.now)) }
{
    let statuses = statuses(alloc, reasons, recursive)?;
    parts(alloc, declared, units, files, statuses.as_slice(), surveyed)
}

/// The program where the methods of these flags are recursive, which tell the recursion of the draft.
fn program(
    alloc: Global,
    declared: Declared,
    units: &[Unit],
    files: &[String],
    reasons: &[Option<Reason>],
    recursive: &[bool],
    surveyed: &[Surveyed],
) -> Result<Program, Memory>
    requires known { IsKnown declared.containers declared.table.now declared.cells.now units.now surveyed.now
        reasons.now }
    requires accepted { refusal units.now ≡ None }
    requires named { IsTrue (are_named units.now) }
    requires placed { IsTrue (are_in_files (map (λ file. string_bytes file) files.now) units.now) }
    requires recursive { TellRecursion
        (draft_of declared.containers (map (λ file. string_bytes file) files.now) units.now) recursive.now }
    ensures { IfOk result (λ made. program.core made ≡
        wanted.program_of declared.entry.containers (map (λ file. string_bytes file) files.now) units.now
        (flag_of recursive.now)) }
{
    let parts = program_parts(alloc, declared, units, files, reasons, recursive, surveyed)?;
    Ok(Program::of(parts))
}

/// The program of units whose calls are these.
fn program_of(
    alloc: Global,
    declared: Declared,
    units: &[Unit],
    files: &[String],
    reasons: &[Option<Reason>],
    surveyed: &[Surveyed],
    rows: &[Items<MethodId>],
) -> Result<Program, Memory>
    requires known { IsKnown declared.containers declared.table.now declared.cells.now units.now surveyed.now
        reasons.now }
    requires accepted { refusal units.now ≡ None }
    requires named { IsTrue (are_named units.now) }
    requires placed { IsTrue (are_in_files (map (λ file. string_bytes file) files.now) units.now) }
    requires rows { rows.now ≡ all_rows (draft_of declared.containers [] units.now) }
    ensures { IfOk result (λ made.
        IsLowered declared.entry.containers (map (λ file. string_bytes file) files.now) units.now (program.core made)) }
{
    let flags = on_cycles(alloc, rows)?;
    let made = program(
        alloc,
        declared,
        units,
        files,
        reasons,
        flags.as_slice(),
        surveyed,
    )?;
    Ok(made)
}

/// What is known of the methods of units before it is known which are recursive.
fn find_known<'a>(
    alloc: Global,
    declared: Declared<'a>,
    units: &'a [Unit],
) -> Result<Surveys<'a>, Memory>
    requires classes { seen.classes declared.table.now ≡ classes_of units.now }
    requires fields { seen.fields declared.table.now ≡ fields_of units.now }
    requires cells { declared.cells.now ≡ cells_of declared.containers (seen.fields declared.table.now) }
    requires methods { seen.methods declared.table.now ≡ methods_of units.now }
    ensures known { IfOk result (λ surveys.
        IsKnown declared.entry.containers declared.entry.table.now declared.entry.cells.now units.now
        surveys.methods.items surveys.reasons.items) }
    ensures rows { IfOk result (λ surveys.
        surveys.rows.items ≡ all_rows (draft_of declared.entry.containers [] units.now)) }
{
    let sources = sources_of(alloc, declared.table.methods(), units)?;
    let surveys = find_surveys(alloc, declared.table, declared.cells, sources.as_slice())?;
    Ok(surveys)
}

/// The program of the units of a folder, from their table and the names of its files, where containers are this.
fn lower_with(
    alloc: Global,
    table: &Table,
    units: &[Unit],
    files: &[String],
    containers: Containers,
) -> Result<Program, LowerFault>
    requires classes { seen.classes table.now ≡ classes_of units.now }
    requires fields { seen.fields table.now ≡ fields_of units.now }
    requires methods { seen.methods table.now ≡ methods_of units.now }
    requires accepted { refusal units.now ≡ None }
    requires named { IsTrue (are_named units.now) }
    requires placed { IsTrue (are_in_files (map (λ file. string_bytes file) files.now) units.now) }
    ensures ok { IfOk result (λ made.
        IsLowered containers (map (λ file. string_bytes file) files.now) units.now (program.core made)) }
    ensures few { IfOk result (λ _. calls_of containers units.now ≤ MAX_CALL_EDGES) }
    ensures err { IfErr result (IsFault containers units.now) }
{
    let cells = cells_of(alloc, table.fields(), containers)?;
    let declared = Declared {
        table,
        containers,
        cells: cells.as_slice(),
    };
    let known = find_known(alloc, declared, units)?;
    let surveyed = known.methods.as_slice();
    let reasons = known.reasons.as_slice();
    let rows = known.rows.as_slice();
    let edges = find_edges(alloc, units, containers, rows)?;
    if edges as usize > MAX_CALL_EDGES {
        return Err(LowerFault::TooManyCalls(edges));
    }
    Ok(program_of(alloc, declared, units, files, reasons, surveyed, rows)?)
}

/// The program of the units of a folder, from their table and the names of its files.
pub fn lower(
    alloc: Global,
    table: &Table,
    units: &[Unit],
    files: &[String],
) -> Result<Program, LowerFault>
    requires classes { seen.classes table.now ≡ classes_of units.now }
    requires fields { seen.fields table.now ≡ fields_of units.now }
    requires methods { seen.methods table.now ≡ methods_of units.now }
    requires accepted { refusal units.now ≡ None }
    requires named { IsTrue (are_named units.now) }
    requires placed { IsTrue (are_in_files (map (λ file. string_bytes file) files.now) units.now) }
    ensures ok { IfOk result (λ made.
        IsLowered Opaque (map (λ file. string_bytes file) files.now) units.now (program.core made)) }
    ensures few { IfOk result (λ _. calls_of Opaque units.now ≤ MAX_CALL_EDGES) }
    ensures err { IfErr result (IsFault Opaque units.now) }
{
    lower_with(alloc, table, units, files, Containers::Opaque)
}

/// The same, with a cell for what each container field holds, which calls on it read and write.
pub fn lower_cells(
    alloc: Global,
    table: &Table,
    units: &[Unit],
    files: &[String],
) -> Result<Program, LowerFault>
    requires classes { seen.classes table.now ≡ classes_of units.now }
    requires fields { seen.fields table.now ≡ fields_of units.now }
    requires methods { seen.methods table.now ≡ methods_of units.now }
    requires accepted { refusal units.now ≡ None }
    requires named { IsTrue (are_named units.now) }
    requires placed { IsTrue (are_in_files (map (λ file. string_bytes file) files.now) units.now) }
    ensures ok { IfOk result (λ made.
        IsLowered WithCells (map (λ file. string_bytes file) files.now) units.now (program.core made)) }
    ensures few { IfOk result (λ _. calls_of WithCells units.now ≤ MAX_CALL_EDGES) }
    ensures err { IfErr result (IsFault WithCells units.now) }
{
    lower_with(alloc, table, units, files, Containers::WithCells)
}
