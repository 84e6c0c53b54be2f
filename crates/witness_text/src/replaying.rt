//! Replays witness files.
ghost use Rattle.std.specs.Prelude.{◌≡◌, IfOk, option_map};
ghost use Rattle.core_code.specs.Core.{method_of};
ghost use Rattle.core_code.specs.Program.{core};
ghost use Rattle.witness_text_files.specs.Answers.{seen};
ghost use Rattle.witness_text_names.specs.Objects as named;
ghost use Rattle.witness_text.specs.Verdicts.{named_verdict, run_verdict, verdict};

use crate::Verdict;
use crate::legs::legs_verdict;
use core_code::Program;
use core_semantics::{Start, StartPath, begin};
use core_ways::let_go;
use racer_base::{Items, Memory};
use std::alloc::Global;
use witness_text_files::WitnessFile;
use witness_text_names::{Cell, Entry, Named, NamedPath, entry_named, texts_named};

/// The verdict of the run of two entries, where there are these objects at the begin, whose race is to be in this cell.
fn run_verdict(
    alloc: Global,
    program: &Program,
    file: &WitnessFile,
    first: Entry<'_>,
    second: Entry<'_>,
    objects: Items<StartPath>,
    cell: Option<&Cell>,
) -> Result<Verdict, Memory>
    ensures { IfOk result (λ v. v ≡ run_verdict (core program.now) (seen file.now) first.entry.number
        second.entry.number objects (option_map (λ c. c.now) cell.entry)) }
{
    let start = Start::Only(objects);
    let mut machine = begin(alloc, program, first.number, second.number, start)?;
    let verdict = legs_verdict(alloc, program, &mut machine, file, cell);
    let_go(machine);
    verdict
}

/// The verdict of a file, where these are its entries, its objects and its path.
fn named_verdict(
    alloc: Global,
    program: &Program,
    file: &WitnessFile,
    first: Entry<'_>,
    second: Entry<'_>,
    objects: Named,
    path: &NamedPath,
) -> Result<Verdict, Memory>
    ensures { IfOk result (λ v. v ≡ named_verdict (core program.now) (seen file.now) first.entry.number
        second.entry.number objects path.now) }
{
    let objects = match objects {
        Named::NoneAt(index) => return Ok(Verdict::NoSuchObject(index)),
        Named::All(objects) => objects,
    };
    match path {
        NamedPath::NoCell => Ok(Verdict::NoSuchPath),
        NamedPath::Absent => run_verdict(alloc, program, file, first, second, objects, None),
        NamedPath::Is(cell) => run_verdict(
            alloc,
            program,
            file,
            first,
            second,
            objects,
            Some(cell),
        ),
    }
}

/// The text of the path of a file.
fn path_text(file: &WitnessFile) -> Option<&str>
    ensures { option_map (λ s. s.now) result ≡ file.now.path }
{
    match &file.path {
        Some(path) => Some(path.as_str()),
        None => None,
    }
}

/// The verdict of a file, where these are its entries.
fn entries_verdict(
    alloc: Global,
    program: &Program,
    file: &WitnessFile,
    first: Entry<'_>,
    second: Entry<'_>,
) -> Result<Verdict, Memory>
    ensures { IfOk result (λ v. v ≡ named_verdict (core program.now) (seen file.now) first.entry.number
        second.entry.number (named.objects_named (core program.now) (method_of first.entry.method.now)
        (method_of second.entry.method.now) file.now.objects) (named.path_cell (core program.now)
        (method_of first.entry.method.now) (method_of second.entry.method.now) file.now.path)) }
{
    let texts = file.objects.as_slice();
    let path = path_text(file);
    let named = texts_named(alloc, program, first.method, second.method, texts, path)?;
    named_verdict(
        alloc,
        program,
        file,
        first,
        second,
        named.objects,
        &named.path,
    )
}

/// The verdict of a file.
fn judged(alloc: Global, program: &Program, file: &WitnessFile) -> Result<Verdict, Memory>
    ensures { IfOk result (λ v. v ≡ verdict (core program.now) (seen file.now)) }
{
    let class = file.class.as_str();
    let first = entry_named(alloc, program, class, file.first_entry.as_str())?;
    let Some(first) = first else {
        return Ok(Verdict::NoSuchEntry);
    };
    let second = entry_named(alloc, program, class, file.second_entry.as_str())?;
    let Some(second) = second else {
        return Ok(Verdict::NoSuchEntry);
    };
    entries_verdict(alloc, program, file, first, second)
}

/// Replays a witness file: what its run shows, if there is one.
pub fn replay(alloc: Global, program: &Program, file: &WitnessFile) -> Result<Verdict, Memory>
    ensures { IfOk result (λ v. v ≡ verdict (core program.now) (seen file.now)) }
{
    let verdict = judged(alloc, program, file)?;
    Ok(verdict)
}
