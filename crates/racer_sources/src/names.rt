//! Which files of a folder are sources.
ghost use Rattle.std.specs.Prelude.{◌≡◌, filter, map, string_bytes, IfOk, IfSome, OnOk};
ghost use Rattle.racer_sources.specs.Sources.{is_java, source_names};
ghost use Rattle.racer_sources.specs.Finding.{CountsFaults, FailsByMemory, KeepsMeaning};

use racer_base::{Folder, FolderFault};
use std::alloc::Global;

/// Whether a file is a source.
fn is_source(name: &str) -> bool
    ensures { result ≡ is_java name.now }
{
    name.as_bytes().ends_with(b".java")
}

/// Keeps the names of sources.
fn keep_sources(names: &mut Vec<String>)
    ensures { names.new.items ≡ filter (λ name. is_java (string_bytes name)) names.old.items }
{
    names.retain(|name| is_source(name.as_str()));
}

/// Enters a folder, and gives the names of its sources in byte order.
pub fn source_names<F: Folder>(
    alloc: Global,
    folder: &mut F,
    name: &str,
) -> Result<Vec<String>, FolderFault>
    ensures count { CountsFaults result (F.faults folder.old) (F.faults folder.new) }
    ensures keeps { KeepsMeaning F.told F.steady folder.old folder.new }
    ensures entered { OnOk result (IfSome (F.told folder.old) (λ told. name.now ≡ told.name)) }
    ensures names { IfOk result (λ names.
        IfSome (F.told folder.old) (λ told. map string_bytes names.items ≡ source_names told.files)) }
    ensures steady { F.steady folder.old →
        IfSome (F.told folder.old) (λ told. name.now ≡ told.name → FailsByMemory result) }
{
    folder.enter(alloc, name)?;
    let mut names = folder.names(alloc)?;
    names.sort()?;
    keep_sources(&mut names);
    Ok(names)
}
