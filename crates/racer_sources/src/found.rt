//! What is found in a folder.
ghost use Rattle.std.specs.Prelude.{◌≡◌, length, map, string_bytes, IfOk, IfErr, IfSome, OnOk, None};
ghost use Rattle.java_resolver.specs.Refusals.{refusal};
ghost use Rattle.racer_sources.specs.Sources as sources;
ghost use Rattle.racer_sources.specs.Reading as reading;
ghost use Rattle.racer_sources.specs.Finding as finding;
ghost use Rattle.racer_sources.specs.ReadContents as kept;
ghost use Rattle.racer_sources.specs.Declaring as declaring;

use crate::fault::SourceFault;
use crate::line::refusal_line;
use crate::names::source_names;
use crate::refusal::Refusal;
use crate::units::read_all;
use java_parser::let_all_go;
use java_resolver::{ResolveFault, Table, resolve};
use java_tree::Unit;
use racer_base::{Folder, FolderFault, MAX_FILES, Text};
use std::alloc::Global;

/// The sources of a folder, in byte order of their names: the names, the bytes, what they are read as, and what that
/// declares.
#[derive(Drop)]
pub struct AcceptedSources {
    pub names: Vec<String>,
    pub contents: Vec<Vec<u8>>,
    pub units: Vec<Unit>,
    pub table: Table,
}

/// Lets sources go, so that a crate that looks at them need not show how.
pub fn let_go(sources: AcceptedSources) {
    let_all_go(sources.units);
}

/// What is found in a folder.
#[derive(Drop)]
pub enum FolderSources {
    Accepted(AcceptedSources),
    /// The line of the refusal.
    Refused(Text),
}

/// Why units are refused.
fn declared_fault(fault: ResolveFault) -> SourceFault
    ensures { result ≡ declaring.as_declared_fault fault }
{
    match fault {
        ResolveFault::DuplicateClass(second, first) => {
            SourceFault::Refused(Refusal::DuplicateClass(second, first))
        }
        ResolveFault::DuplicateField(second, first) => {
            SourceFault::Refused(Refusal::DuplicateField(second, first))
        }
        ResolveFault::TooManyClasses(count) => SourceFault::Refused(Refusal::TooManyClasses(count)),
        ResolveFault::TooManyMethods(count) => SourceFault::Refused(Refusal::TooManyMethods(count)),
        ResolveFault::Memory => SourceFault::Memory,
    }
}

/// The table of units.
fn table_of(alloc: Global, units: &[Unit]) -> Result<Table, SourceFault>
    ensures table { IfOk result (λ t. finding.IsTableOf units.now t) }
    ensures none { IfOk result (λ _. refusal units.now ≡ None) }
    ensures fault { IfErr result (declaring.IsDeclaredFault units.now) }
{
    match resolve(alloc, units) {
        Ok(table) => Ok(table),
        Err(fault) => Err(declared_fault(fault)),
    }
}

/// Reads the sources of these names, if they are not too many, and keeps their bytes.
fn read_few<F: Folder>(
    alloc: Global,
    folder: &mut F,
    names: &[String],
    contents: &mut Vec<Vec<u8>>,
) -> Result<Vec<Unit>, SourceFault>
    ensures count { reading.Counts result (F.faults folder.old) (F.faults folder.new) }
    ensures keeps { finding.KeepsMeaning F.told F.steady folder.old folder.new }
    ensures steady { F.steady folder.old → IfSome (F.told folder.old) (λ t.
        reading.AreThere t.files (map string_bytes names.now) → reading.NeverFails result) }
    ensures counted { IfOk result (λ units. length units.items ≡ length names.now) }
    ensures any { IfOk result (λ units. finding.AreReadSomehow 0 units.items) }
    ensures read { IfOk result (λ units. IfSome (F.told folder.old) (λ t.
        sources.AreRead (reading.bytes_of_all t.files (map string_bytes names.now)) units.items)) }
    ensures refused { IfErr result (λ fault. IfSome (F.told folder.old) (λ t. reading.IfRefused fault
        (sources.AreRefused (reading.bytes_of_all t.files (map string_bytes names.now))))) }
    ensures kept_any { OnOk result (kept.AddSomeContents (length names.now) contents.old contents.new) }
    ensures kept { OnOk result (IfSome (F.told folder.old) (λ t.
        kept.AddContents (reading.bytes_of_all t.files (map string_bytes names.now)) contents.old contents.new)) }
{
    if names.len() > MAX_FILES {
        return Err(SourceFault::Refused(Refusal::TooManyFiles(names.len())));
    }
    read_all(alloc, folder, names, contents)
}

/// Units and what they declare.
#[derive(Drop)]
pub(crate) struct DeclaredUnits {
    pub units: Vec<Unit>,
    pub table: Table,
}

/// What units declare.
pub(crate) fn with_table(alloc: Global, units: Vec<Unit>) -> Result<DeclaredUnits, SourceFault>
    ensures ok { IfOk result (declaring.AreDeclared units.items) }
    ensures fault { IfErr result (declaring.IsDeclaredFault units.items) }
{
    match table_of(alloc, units.as_slice()) {
        Ok(table) => Ok(DeclaredUnits { units, table }),
        Err(fault) => {
            let_all_go(units);
            Err(fault)
        }
    }
}

/// What the sources of these names declare.
fn declared<F: Folder>(
    alloc: Global,
    folder: &mut F,
    names: &[String],
    contents: &mut Vec<Vec<u8>>,
) -> Result<DeclaredUnits, SourceFault>
    ensures count { reading.Counts result (F.faults folder.old) (F.faults folder.new) }
    ensures keeps { finding.KeepsMeaning F.told F.steady folder.old folder.new }
    ensures steady { F.steady folder.old → IfSome (F.told folder.old) (λ t.
        reading.AreThere t.files (map string_bytes names.now) → reading.NeverFails result) }
    ensures known { IfOk result (λ d. finding.AreKnown (map string_bytes names.now) d.units.items d.table) }
    ensures read { IfOk result (λ d. IfSome (F.told folder.old) (λ t.
        sources.AreAccepted (reading.bytes_of_all t.files (map string_bytes names.now)) d.units.items)) }
    ensures refused { IfErr result (λ fault. IfSome (F.told folder.old) (λ t. reading.IfRefused fault
        (sources.AreRefused (reading.bytes_of_all t.files (map string_bytes names.now))))) }
    ensures kept_any { OnOk result (kept.AddSomeContents (length names.now) contents.old contents.new) }
    ensures kept { OnOk result (IfSome (F.told folder.old) (λ t.
        kept.AddContents (reading.bytes_of_all t.files (map string_bytes names.now)) contents.old contents.new)) }
{
    let units = read_few(alloc, folder, names, contents)?;
    with_table(alloc, units)
}

/// The line of sources that are refused, or the folder's fault.
fn refused(
    alloc: Global,
    names: &[String],
    fault: SourceFault,
) -> Result<FolderSources, FolderFault>
    ensures { declaring.IsRefusedOr (map string_bytes names.now) fault result }
{
    match fault {
        SourceFault::Refused(refusal) => {
            let line = refusal_line(alloc, names, refusal)?;
            Ok(FolderSources::Refused(Text::from(line)))
        }
        SourceFault::Failed => Err(FolderFault::Failed),
        SourceFault::Memory => Err(FolderFault::Memory),
    }
}

/// Enters the folder of this name, and reads its sources: the files whose names end in `.java`, in byte order.
///
/// Of each file the tokens are let go before the next one is read; its bytes are kept.
pub fn sources<F: Folder>(
    alloc: Global,
    folder: &mut F,
    name: &str,
) -> Result<FolderSources, FolderFault>
    ensures count { finding.CountsFaults result (F.faults folder.old) (F.faults folder.new) }
    ensures keeps { finding.KeepsMeaning F.told F.steady folder.old folder.new }
    ensures steady { F.steady folder.old →
        IfSome (F.told folder.old) (λ told. name.now ≡ told.name → finding.FailsByMemory result) }
    ensures entered { OnOk result (IfSome (F.told folder.old) (λ told. name.now ≡ told.name)) }
    ensures known { IfOk result finding.IsKnown }
    ensures found { IfOk result (λ found. IfSome (F.told folder.old) (λ told. finding.IsFound told.files found)) }
{
    let names = source_names(alloc, folder, name)?;
    let mut contents = Vec::new(alloc);
    match declared(alloc, folder, names.as_slice(), &mut contents) {
        Ok(declared) => Ok(FolderSources::Accepted(AcceptedSources {
            names,
            contents,
            units: declared.units,
            table: declared.table,
        })),
        Err(fault) => refused(alloc, names.as_slice(), fault),
    }
}
