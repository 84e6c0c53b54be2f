//! The sources of a folder, read one after the other.
ghost use Rattle.std.specs.Prelude.{◌≡◌, ◌+◌, ◌<◌, ◌≤◌, [], ◌∷◌, ◌++◌, length, map, string_bytes};
ghost use Rattle.std.specs.Prelude.{IfOk, IfErr, IfSome, OnOk};
ghost use Rattle.racer_base.specs.declared.limits.TheConstants.{MAX_FILES, MAX_FILE_BYTES, MAX_FOLDER_BYTES};
ghost use Rattle.racer_sources.specs.Sources as sources;
ghost use Rattle.racer_sources.specs.Reading as reading;
ghost use Rattle.racer_sources.specs.Finding as finding;
ghost use Rattle.racer_sources.specs.Contents.{bytes_in};
ghost use Rattle.racer_sources.specs.ReadContents as kept;

use crate::fault::SourceFault;
use crate::file::file_unit;
use crate::source_files::SourceFiles;
use java_parser::{let_all_go, put_unit};
use java_tree::Unit;
use racer_base::{FileId, Folder, MAX_FILE_BYTES, Memory};
use std::alloc::Global;

/// The units of the sources that were read, and how many bytes these have together.
#[derive(Drop)]
struct ReadSources {
    units: Vec<Unit>,
    sum: usize,
}

/// The file of this index.
fn file_at(index: usize) -> FileId
    requires { index ≤ MAX_FILES }
    ensures { result.0 ≡ index }
{
    FileId(index as u32)
}

/// Reads one more source, of these bytes.
fn add_bytes(alloc: Global, bytes: &[u8], read: &mut ReadSources) -> Result<(), SourceFault>
    requires few { read.old.sum ≤ MAX_FOLDER_BYTES }
    requires most { length bytes.now ≤ MAX_FILE_BYTES + 1 }
    requires files { length read.old.units.items < MAX_FILES }
    ensures few { OnOk result (read.new.sum ≤ MAX_FOLDER_BYTES) }
    ensures added { OnOk result (reading.IsAdded bytes.now read.old read.new) }
    ensures fault { IfErr result
        (reading.IsFileFault (reading.next_file read.old) (read.old.sum + length bytes.now) bytes.now) }
{
    let file = file_at(read.units.len());
    let sum = read.sum + bytes.len();
    let unit = file_unit(alloc, file, sum, bytes)?;
    read.sum = sum;
    Ok(put_unit(&mut read.units, unit)?)
}

/// Puts the bytes of a file behind those of others.
fn put_bytes(contents: &mut Vec<Vec<u8>>, bytes: Vec<u8>) -> Result<(), Memory>
    ensures { OnOk result (contents.new.items ≡ contents.old.items ++ bytes ∷ []) }
{
    Ok(contents.push(bytes)?)
}

/// Reads one more source, of these bytes, and keeps them.
fn add_kept(
    alloc: Global,
    bytes: Vec<u8>,
    read: &mut ReadSources,
    contents: &mut Vec<Vec<u8>>,
) -> Result<(), SourceFault>
    requires few { read.old.sum ≤ MAX_FOLDER_BYTES }
    requires most { length bytes.items ≤ MAX_FILE_BYTES + 1 }
    requires files { length read.old.units.items < MAX_FILES }
    ensures few { OnOk result (read.new.sum ≤ MAX_FOLDER_BYTES) }
    ensures added { OnOk result (reading.IsAdded bytes.items read.old read.new) }
    ensures fault { IfErr result
        (reading.IsFileFault (reading.next_file read.old) (read.old.sum + length bytes.items) bytes.items) }
    ensures kept { OnOk result (contents.new.items ≡ contents.old.items ++ bytes ∷ []) }
{
    add_bytes(alloc, bytes.as_slice(), read)?;
    Ok(put_bytes(contents, bytes)?)
}

/// Reads one more source, of this name, and keeps its bytes.
fn add_source<F: Folder>(
    alloc: Global,
    folder: &mut F,
    name: &str,
    read: &mut ReadSources,
    contents: &mut Vec<Vec<u8>>,
) -> Result<(), SourceFault>
    requires few { read.old.sum ≤ MAX_FOLDER_BYTES }
    requires files { length read.old.units.items < MAX_FILES }
    ensures count { reading.Counts result (F.faults folder.old) (F.faults folder.new) }
    ensures keeps { finding.KeepsMeaning F.told F.steady folder.old folder.new }
    ensures steady { F.steady folder.old → IfSome (F.told folder.old) (λ t.
        reading.IsThere t.files name.now → reading.NeverFails result) }
    ensures few { OnOk result (read.new.sum ≤ MAX_FOLDER_BYTES) }
    ensures any { OnOk result (reading.IsAddedSomehow read.old read.new) }
    ensures read { OnOk result (IfSome (F.told folder.old) (λ t.
        reading.IsAdded (sources.bytes_of t.files name.now) read.old read.new)) }
    ensures refused { IfErr result (λ fault. IfSome (F.told folder.old) (λ t. reading.IfRefused fault
        (reading.IsNextRefused (sources.bytes_of t.files name.now) read.old))) }
    ensures kept_any { OnOk result (kept.AddsSomeContent contents.old contents.new) }
    ensures kept { OnOk result (IfSome (F.told folder.old) (λ t.
        kept.AddsContent (sources.bytes_of t.files name.now) contents.old contents.new)) }
{
    let bytes = folder.read(alloc, name, MAX_FILE_BYTES + 1)?;
    add_kept(alloc, bytes, read, contents)
}

/// Reads the sources of these names, one after the other, and keeps their bytes.
pub fn read_all<F: Folder>(
    alloc: Global,
    folder: &mut F,
    names: &[String],
    contents: &mut Vec<Vec<u8>>,
) -> Result<Vec<Unit>, SourceFault>
    requires { length names.now ≤ MAX_FILES }
    ensures count { reading.Counts result (F.faults folder.old) (F.faults folder.new) }
    ensures keeps { finding.KeepsMeaning F.told F.steady folder.old folder.new }
    ensures steady { F.steady folder.old → IfSome (F.told folder.old) (λ t.
        reading.AreThere t.files (map string_bytes names.now) → reading.NeverFails result) }
    ensures counted { IfOk result (λ units. length units.items ≡ length names.now) }
    ensures any { IfOk result (λ units. finding.AreReadSomehow 0 units.items) }
    ensures read { IfOk result (λ units. IfSome (F.told folder.old) (λ t.
        sources.AreReadFrom 0 0 (reading.bytes_of_all t.files (map string_bytes names.now)) units.items)) }
    ensures refused { IfErr result (λ fault. IfSome (F.told folder.old) (λ t. reading.IfRefused fault
        (sources.IsOneRefused 0 0 (reading.bytes_of_all t.files (map string_bytes names.now))))) }
    ensures kept_any { OnOk result (kept.AddSomeContents (length names.now) contents.old contents.new) }
    ensures kept { OnOk result (IfSome (F.told folder.old) (λ t.
        kept.AddContents (reading.bytes_of_all t.files (map string_bytes names.now)) contents.old contents.new)) }
{
    let mut read = ReadSources {
        units: Vec::new(alloc),
        sum: 0,
    };
    for name in names {
        if let Err(fault) = add_source(alloc, folder, name.as_str(), &mut read, contents) {
            let_all_go(read.units);
            return Err(fault);
        }
    }
    Ok(read.units)
}

/// Reads the sources that are kept, one after the other.
pub fn read_kept(alloc: Global, files: &SourceFiles) -> Result<Vec<Unit>, SourceFault>
    ensures counted { IfOk result (λ units. length units.items ≡ length files.now.contents.items) }
    ensures any { IfOk result (λ units. finding.AreReadSomehow 0 units.items) }
    ensures read { IfOk result (λ units. sources.AreReadFrom 0 0 (bytes_in files.now.contents.items) units.items) }
    ensures refused { IfErr result (λ fault.
        reading.IfRefused fault (sources.IsOneRefused 0 0 (bytes_in files.now.contents.items))) }
    ensures never { reading.NeverFails result }
{
    let mut read = ReadSources {
        units: Vec::new(alloc),
        sum: 0,
    };
    for bytes in &files.contents {
        if let Err(fault) = add_bytes(alloc, bytes.as_slice(), &mut read) {
            let_all_go(read.units);
            return Err(fault);
        }
    }
    Ok(read.units)
}
