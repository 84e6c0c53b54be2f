//! What one word asks to be shown.
use crate::edits::put_session;
use crate::methods::put_program;
use crate::page::Page;
use crate::replays::put_replays;
use crate::reports::put_reports;
use crate::tokens::{put_fault, put_tokens};
use crate::typings::put_typings;
use crate::units::put_unit;
use container_cells::Containers;
use core_code::Program;
use java_lexer::lex;
use racer_base::{FileId, Folder, FolderFault};
use racer_disk::DirFolder;
use racer_sources::{FoundProgram, folder_program};
use std::alloc::Global;
use std::io;
use std::thread::Threads;

/// More bytes than any file of rows has.
const MOST: usize = 1_048_576;

/// What stands between two rows of a file.
const SEPARATOR: u8 = 0x1e;

/// What is shown of each row of a file.
#[derive(Clone, Copy)]
enum Shows {
    Tokens,
    Units,
}

fn put_row(alloc: Global, page: &mut Page, shows: Shows, row: &[u8]) {
    match lex(alloc, FileId(0), row) {
        Ok(lexed) => match shows {
            Shows::Tokens => put_tokens(page, &lexed),
            Shows::Units => put_unit(alloc, page, &lexed),
        },
        Err(fault) => put_fault(page, fault),
    }
}

/// Each row, and its number before it.
fn put_rows(alloc: Global, page: &mut Page, shows: Shows, bytes: &[u8]) {
    let mut begin: usize = 0;
    let mut number: usize = 0;
    for (end, byte) in bytes.iter().enumerate() {
        if *byte == SEPARATOR {
            number = number.saturating_add(1);
            page.put_number(number);
            page.put("\n");
            put_row(alloc, page, shows, bytes.get(begin..end).unwrap_or(&[]));
            begin = end.saturating_add(1);
        }
    }
}

/// The bytes of the file of this name.
fn bytes_of(
    alloc: Global,
    folder: &mut DirFolder<HostRuntime>,
    name: &str,
) -> Result<Vec<u8>, FolderFault> {
    folder.enter(alloc, ".")?;
    folder.read(alloc, name, MOST)
}

/// The rows of the file of this name.
fn put_file(
    alloc: Global,
    folder: &mut DirFolder<HostRuntime>,
    page: &mut Page,
    shows: Shows,
    name: &str,
) -> Result<(), FolderFault> {
    let bytes = bytes_of(alloc, folder, name)?;
    put_rows(alloc, page, shows, bytes.as_slice());
    Ok(())
}

/// The program of a folder; both reports on it where it stands below `report`, the typings of its classes where it
/// stands below `typed`, and the replays of its witness files where it stands below `replay`.
fn put_accepted<R: Threads + Sync>(
    rt: &R,
    alloc: Global,
    folder: &mut DirFolder<HostRuntime>,
    page: &mut Page,
    name: &str,
    program: Program,
) -> Result<(), FolderFault> {
    if name.starts_with("report/") {
        return Ok(put_reports(rt, alloc, page, program)?);
    }
    if name.starts_with("typed/") {
        return Ok(put_typings(alloc, page, &program)?);
    }
    if name.starts_with("replay/") {
        return put_replays(alloc, folder, page, &program);
    }
    put_program(page, &program);
    Ok(())
}

/// What containers are in the folder of this name, which tells it by its end.
fn containers_of(name: &str) -> Containers {
    match name.ends_with("_with_containers") {
        true => Containers::WithCells,
        false => Containers::Opaque,
    }
}

/// What is shown of the folder of this name, or the line of its refusal.
fn put_folder<R: Threads + Sync>(
    rt: &R,
    alloc: Global,
    folder: &mut DirFolder<HostRuntime>,
    page: &mut Page,
    name: &str,
) -> Result<(), FolderFault> {
    match folder_program(alloc, folder, name, containers_of(name))? {
        FoundProgram::Accepted(program) => put_accepted(rt, alloc, folder, page, name, program),
        FoundProgram::Refused(line) => {
            page.put(line.as_str());
            Ok(())
        }
    }
}

/// The word, and below it what is read there.
pub fn shown<R: Threads + Sync>(
    rt: &R,
    alloc: Global,
    folder: &mut DirFolder<HostRuntime>,
    word: &str,
) -> io::Result<String> {
    let mut page = Page::new(alloc);
    page.put_after("== ", word);
    page.put("\n");
    let put = match word {
        "tokens.rows" => put_file(alloc, folder, &mut page, Shows::Tokens, word),
        "units.rows" => put_file(alloc, folder, &mut page, Shows::Units, word),
        name if name.starts_with("edits/") => put_session(rt, alloc, folder, &mut page, name),
        name => put_folder(rt, alloc, folder, &mut page, name),
    };
    if let Err(fault) = put {
        page.note(fault);
    }
    page.into_text()
}
