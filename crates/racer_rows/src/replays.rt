//! What the replay of each witness file of a folder says.
use crate::page::Page;
use core_code::Program;
use racer_base::{Folder, FolderFault, MAX_FILE_BYTES, Memory};
use racer_run::replayed;
use std::alloc::Global;

/// The name of a file, the status of its replay, and its line.
fn put_replay(
    alloc: Global,
    page: &mut Page,
    program: &Program,
    name: &str,
    bytes: &[u8],
) -> Result<(), Memory> {
    let said = replayed(alloc, program, bytes)?;
    page.put(name);
    page.put(" ");
    page.put_number(usize::from(said.status.number()));
    page.put_after(" ", said.text.as_str());
    Ok(())
}

/// The replays of all files of the folder whose names end in `.json`, in byte order of their names.
pub fn put_replays<F: Folder>(
    alloc: Global,
    folder: &mut F,
    page: &mut Page,
    program: &Program,
) -> Result<(), FolderFault> {
    let mut names = folder.names(alloc)?;
    names.sort()?;
    for name in names.iter() {
        if name.ends_with(".json") {
            let bytes = folder.read(alloc, name.as_str(), MAX_FILE_BYTES + 1)?;
            put_replay(alloc, page, program, name.as_str(), bytes.as_slice())?;
        }
    }
    Ok(())
}
