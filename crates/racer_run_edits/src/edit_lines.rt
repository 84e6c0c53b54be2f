//! The edits that a file has, a line each.
ghost use Rattle.std.specs.Prelude.{◌≡◌, ◌≤◌, length, map, option_map, string_bytes};
ghost use Rattle.std.specs.List.{position_or_len};
ghost use Rattle.racer_run_edits.specs.EditLines.{byte_is, lines_cut, views, word_in, AreEdits, IsEdit};

use racer_base::{MAX_FILE_BYTES, Memory};
use racer_sources::SourceFiles;
use std::alloc::{AllocFailed, Global};
use std::str::from_utf8;

/// Edits of a session, at most.
pub const MAX_EDITS: usize = 64;

/// The file of this name gets what stands in that one.
#[derive(Clone, Copy)]
pub struct EditLine<'a> {
    pub file: &'a str,
    pub content: &'a str,
}

/// Why there are no edits.
#[derive(Clone, Copy)]
pub enum EditsFault {
    /// The file is too long.
    TooLong,
    /// This line of it, counted from 1, is no edit, or one too many.
    BadLine(usize),
    /// Memory was refused.
    Memory,
}

impl From<Memory> for EditsFault {
    ghost use Rattle.std.specs.Prelude.{◌≡◌};
    ghost use Rattle.racer_run_edits.specs.declared.edit_lines.EditsFault.TheVariants as fault;

    ghost from_gives = { λ _ given. given ≡ fault.Memory };

    fn from(_error: Memory) -> EditsFault {
        EditsFault::Memory
    }
}

impl<T: Drop> From<AllocFailed<T>> for EditsFault {
    ghost use Rattle.std.specs.Prelude.{◌≡◌};
    ghost use Rattle.racer_run_edits.specs.declared.edit_lines.EditsFault.TheVariants as fault;

    ghost from_gives = { λ _ given. given ≡ fault.Memory };

    fn from(_error: AllocFailed<T>) -> EditsFault {
        EditsFault::Memory
    }
}

/// Where the first of these bytes stands, or how many bytes there are.
fn first_of(text: &[u8], wanted: u8) -> usize
    ensures place { result ≡ position_or_len (byte_is wanted) text.now }
    ensures most { result ≤ length text.now }
{
    for (place, byte) in text.iter().enumerate() {
        if *byte == wanted {
            return place;
        }
    }
    text.len()
}

/// The first line of a text, and what stands behind its line feed; nothing of an empty text.
fn cut_line(text: &[u8]) -> Option<(&[u8], &[u8])>
    ensures { lines_cut text.now (option_map views result) }
{
    if text.is_empty() {
        return None;
    }
    let end = first_of(text, b'\n');
    if end >= text.len() {
        return Some((text, &text[end..]));
    }
    Some((&text[..end], &text[end + 1..]))
}

/// A name that may stand in a line.
fn word(bytes: &[u8]) -> Option<&str>
    ensures { word_in bytes.now (option_map (λ word. word.now) result) }
{
    if bytes.is_empty() {
        return None;
    }
    if first_of(bytes, b' ') < bytes.len() {
        return None;
    }
    match from_utf8(bytes) {
        Ok(word) => Some(word),
        Err(_) => None,
    }
}

/// The edit of a line, where these are the sources.
fn edit_in<'a>(line: &'a [u8], sources: &SourceFiles) -> Option<EditLine<'a>>
    ensures { IsEdit (map string_bytes sources.now.names.items) line.now result }
{
    let space = first_of(line, b' ');
    if space >= line.len() {
        return None;
    }
    let file = word(&line[..space])?;
    let content = word(&line[space + 1..])?;
    if sources.has(file) {
        Some(EditLine { file, content })
    } else {
        None
    }
}

/// The edits of a file that begins with these bytes, where these are the sources: all of it, or one byte more than a
/// file may have.
pub fn edits_in<'a>(
    alloc: Global,
    bytes: &'a [u8],
    sources: &SourceFiles,
) -> Result<Vec<EditLine<'a>>, EditsFault>
    ensures { AreEdits (map string_bytes sources.now.names.items) bytes.now result }
{
    if bytes.len() > MAX_FILE_BYTES {
        return Err(EditsFault::TooLong);
    }
    let mut edits = Vec::new(alloc);
    let mut rest = bytes;
    while let Some((line, behind)) = cut_line(rest) {
        let number = edits.len() + 1;
        if number > MAX_EDITS {
            return Err(EditsFault::BadLine(number));
        }
        let Some(edit) = edit_in(line, sources) else {
            return Err(EditsFault::BadLine(number));
        };
        edits.push(edit)?;
        rest = behind;
    }
    Ok(edits)
}
