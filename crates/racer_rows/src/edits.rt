//! What a session of edits says.
use crate::page::Page;
use racer_base::{Folder, FolderFault, Text};
use racer_run::edited_on;
use racer_words::WantedEdits;
use std::alloc::Global;
use std::thread::Threads;

/// The status and the text of the session whose edits stand in the file `edits` of the folder of this name.
pub fn put_session<R: Threads + Sync, F: Folder>(
    rt: &R,
    alloc: Global,
    folder: &mut F,
    page: &mut Page,
    name: &str,
) -> Result<(), FolderFault> {
    let wanted = WantedEdits {
        folder: Text::from_str(alloc, name)?,
        edits: Text::from_str(alloc, "edits")?,
    };
    let said = edited_on(rt, alloc, folder, &wanted)?;
    page.put_counted("status", usize::from(said.status.number()));
    page.put_after("\n", said.text.as_str());
    Ok(())
}
