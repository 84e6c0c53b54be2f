//! The sources of a folder, as they are kept while some of them are replaced.
ghost use Rattle.std.specs.Prelude.{◌≡◌, ◌≤◌, ◌+◌, ℕ, List, Ok, Err, IfOk, IfSome, OnOk, length, map};
ghost use Rattle.std.specs.Prelude.{false, string_bytes, true};
ghost use Rattle.std.specs.FinMap.{insert};
ghost use Rattle.std.specs.List.{list_any};
ghost use Rattle.container_cells.specs.declared.cell.Containers.TheVariants.{Opaque};
ghost use Rattle.racer_base.specs.Outside.{Files, same_name};
ghost use Rattle.racer_sources.specs.Contents.{front, AreInLimits};
ghost use Rattle.racer_sources.specs.Finding as finding;
ghost use Rattle.racer_sources.specs.Kept.{AreKept, HasKept, IsDeclaredOf, IsNumberOf, IsSourceOf, source_kept};
ghost use Rattle.racer_base.specs.declared.limits.TheConstants.{MAX_FILE_BYTES};
ghost use Rattle.racer_sources.specs.Programs.{IsSource, source_of};
ghost use Rattle.racer_sources.specs.Sources.{source_names};

use crate::fault::SourceFault;
use crate::found::{DeclaredUnits, with_table};
use crate::programs::{lowered, lowered_sources};
use crate::source_files::SourceFiles;
use crate::units::read_kept;
use crate::{AcceptedSources, FolderSources, FoundProgram, refusal_line, sources};
use container_cells::Containers;
use core_code::Program;
use java_parser::let_all_go;
use racer_base::{Folder, FolderFault, Memory, Text};
use std::alloc::Global;

/// The program of a folder with its sources, or the line of their refusal.
#[derive(Drop)]
pub enum KeptProgram {
    Accepted(Program, SourceFiles),
    Refused(Text),
}

/// Keeps names and bytes, and lets the rest go.
fn files_of(sources: AcceptedSources) -> SourceFiles
    requires { AreInLimits (length sources.names.items) sources.contents.items }
    ensures names { result.names ≡ sources.names }
    ensures contents { result.contents ≡ sources.contents }
{
    let AcceptedSources {
        names,
        contents,
        units,
        ..
    } = sources;
    let_all_go(units);
    SourceFiles { names, contents }
}

/// The program with the sources that it was made of.
fn with_files(found: FoundProgram, files: SourceFiles) -> KeptProgram
    ensures source { source_kept result ≡ source_of found }
    ensures kept { (folder : Files) → AreKept folder files → HasKept folder result }
{
    match found {
        FoundProgram::Accepted(program) => KeptProgram::Accepted(program, files),
        FoundProgram::Refused(line) => KeptProgram::Refused(line),
    }
}

/// Enters the folder of this name, and gives the program of its sources with these, or the line of their refusal.
pub fn kept_program<F: Folder>(
    alloc: Global,
    folder: &mut F,
    name: &str,
) -> Result<KeptProgram, FolderFault>
    ensures count { finding.CountsFaults result (F.faults folder.old) (F.faults folder.new) }
    ensures keeps { finding.KeepsMeaning F.told F.steady folder.old folder.new }
    ensures steady { F.steady folder.old →
        IfSome (F.told folder.old) (λ told. name.now ≡ told.name → finding.FailsByMemory result) }
    ensures entered { OnOk result (IfSome (F.told folder.old) (λ told. name.now ≡ told.name)) }
    ensures found { IfOk result (λ found. IfSome (F.told folder.old) (λ told.
        IsSource Opaque told.files (source_kept found))) }
    ensures kept { IfOk result (λ found. IfSome (F.told folder.old) (λ told. HasKept told.files found)) }
{
    match sources(alloc, folder, name)? {
        FolderSources::Accepted(found) => {
            let lowered = lowered_sources(alloc, &found, Containers::Opaque);
            let files = files_of(found);
            Ok(with_files(lowered?, files))
        }
        FolderSources::Refused(line) => Ok(KeptProgram::Refused(line)),
    }
}

impl SourceFiles {
    /// The number of the source of this name.
    fn number_of(&self, name: &str) -> Option<usize>
        ensures { IsNumberOf (map string_bytes self.now.names.items) name.now result }
    {
        for number in 0..self.names.len() {
            if name == self.names[number].as_str() {
                return Some(number);
            }
        }
        None
    }

    /// Whether there is a source of this name.
    pub fn has(&self, name: &str) -> bool
        ensures { result ≡ list_any (same_name name.now) (map string_bytes self.now.names.items) }
    {
        self.number_of(name).is_some()
    }

    /// Gives these bytes to the source of this name: all of a file, or a byte more than it may have.
    pub fn replace(&mut self, name: &str, bytes: Vec<u8>)
        requires most { length bytes.items ≤ MAX_FILE_BYTES + 1 }
        ensures names { self.new.names ≡ self.old.names }
        ensures kept { (files : Files) (whole : List ℕ) → AreKept files self.old →
            list_any (same_name name.now) (source_names files) ≡ true → bytes.items ≡ front whole →
            AreKept (insert files name.now whole) self.new }
        ensures stays { list_any (same_name name.now) (map string_bytes self.old.names.items) ≡ false →
            self.new ≡ self.old }
    {
        let Some(number) = self.number_of(name) else {
            return;
        };
        self.contents[number] = bytes;
    }

    /// What the sources declare.
    fn declared(&self, alloc: Global) -> Result<DeclaredUnits, SourceFault>
        ensures { IsDeclaredOf self.now result }
    {
        match read_kept(alloc, self) {
            Ok(units) => with_table(alloc, units),
            Err(fault) => Err(fault),
        }
    }

    /// The program of what they declare, or the line of their calls.
    fn lowered(&self, alloc: Global, declared: DeclaredUnits) -> Result<FoundProgram, Memory>
        requires { IsDeclaredOf self.now (Ok declared) }
        ensures { IsSourceOf self.now result }
    {
        let DeclaredUnits { units, table } = declared;
        let names = self.names.as_slice();
        let lowered = lowered(alloc, &table, units.as_slice(), names, Containers::Opaque);
        let_all_go(units);
        lowered
    }

    /// The line of why they declare nothing.
    fn refused(&self, alloc: Global, fault: SourceFault) -> Result<FoundProgram, Memory>
        requires { IsDeclaredOf self.now (Err fault) }
        ensures { IsSourceOf self.now result }
    {
        match fault {
            SourceFault::Refused(refusal) => {
                let line = refusal_line(alloc, self.names.as_slice(), refusal)?;
                Ok(FoundProgram::Refused(Text::from(line)))
            }
            SourceFault::Failed => unreachable!(),
            SourceFault::Memory => Err(Memory),
        }
    }

    /// The program of the sources, or the line of their refusal.
    pub fn program(&self, alloc: Global) -> Result<FoundProgram, Memory>
        ensures { IsSourceOf self.now result }
    {
        match self.declared(alloc) {
            Ok(declared) => self.lowered(alloc, declared),
            Err(fault) => self.refused(alloc, fault),
        }
    }
}
