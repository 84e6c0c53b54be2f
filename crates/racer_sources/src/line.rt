//! The line of a refusal.
ghost use Rattle.std.specs.Prelude.{◌≡◌, ◌++◌, map, string_bytes, IfOk, OnOk};
ghost use Rattle.racer_sources.specs.Lines as lines;

use crate::refusal::Refusal;
use racer_base::{FileId, Memory, Place};
use std::alloc::Global;

/// The name of a file, empty where there is none.
fn file_name(names: &[String], file: FileId) -> &str
    ensures { result.now ≡ lines.file_name (map string_bytes names.now) file }
{
    match names.get(file.0 as usize) {
        None => "",
        Some(name) => name.as_str(),
    }
}

/// Puts `FILE:LINE:COLUMN` behind a text.
fn put_place(text: &mut String, names: &[String], place: Place) -> Result<(), Memory>
    ensures { OnOk result (string_bytes text.new
        ≡ string_bytes text.old ++ lines.place_text (map string_bytes names.now) place) }
{
    let file = file_name(names, place.file);
    let line = place.line;
    let column = place.column;
    Ok(write!(text, "{file}:{line}:{column}")?)
}

fn put_at_place(text: &mut String, names: &[String], place: Place, what: &str) -> Result<(), Memory>
    ensures { OnOk result (string_bytes text.new
        ≡ string_bytes text.old ++ lines.at_place (map string_bytes names.now) place what.now) }
{
    put_place(text, names, place)?;
    Ok(write!(text, " {what}")?)
}

/// Puts a second class or field of a name, and the first, behind a text.
fn put_duplicate(
    text: &mut String,
    names: &[String],
    what: &str,
    second: Place,
    first: Place,
) -> Result<(), Memory>
    ensures { OnOk result (string_bytes text.new
        ≡ string_bytes text.old ++ lines.duplicate (map string_bytes names.now) what.now second first) }
{
    put_place(text, names, second)?;
    write!(text, " duplicate {what}, first ")?;
    put_place(text, names, first)
}

fn put_too_many(text: &mut String, what: &str, count: usize) -> Result<(), Memory>
    ensures { OnOk result (string_bytes text.new ≡ string_bytes text.old ++ lines.too_many what.now count) }
{
    Ok(write!(text, "too many {what} {count}")?)
}

fn put_too_long(text: &mut String, names: &[String], file: FileId) -> Result<(), Memory>
    ensures { OnOk result (string_bytes text.new
        ≡ string_bytes text.old ++ lines.reason (map string_bytes names.now) (Refusal.TooLong file)) }
{
    let file = file_name(names, file);
    Ok(write!(text, "{file} too long")?)
}

fn put_not_utf8(
    text: &mut String,
    names: &[String],
    file: FileId,
    offset: usize,
) -> Result<(), Memory>
    ensures { OnOk result (string_bytes text.new
        ≡ string_bytes text.old ++ lines.reason (map string_bytes names.now) (Refusal.NotUtf8 file offset)) }
{
    let file = file_name(names, file);
    Ok(write!(text, "{file} byte {offset} not utf-8")?)
}

/// Puts the reason of a refusal behind a text.
fn put_reason(text: &mut String, names: &[String], refusal: Refusal) -> Result<(), Memory>
    ensures { OnOk result (string_bytes text.new
        ≡ string_bytes text.old ++ lines.reason (map string_bytes names.now) refusal) }
{
    match refusal {
        Refusal::TooManyFiles(count) => put_too_many(text, "files", count),
        Refusal::TooLong(file) => put_too_long(text, names, file),
        Refusal::TooManyBytes(count) => put_too_many(text, "bytes", count),
        Refusal::NotUtf8(file, offset) => put_not_utf8(text, names, file, offset),
        Refusal::BadCharacter(place) => put_at_place(text, names, place, "bad character"),
        Refusal::Unclosed(place) => put_at_place(text, names, place, "unclosed"),
        Refusal::BadLiteral(place) => put_at_place(text, names, place, "bad literal"),
        Refusal::Unbalanced(place) => put_at_place(text, names, place, "unbalanced"),
        Refusal::TooDeep(place) => put_at_place(text, names, place, "too deep"),
        Refusal::NotAUnit(place) => put_at_place(text, names, place, "not a unit"),
        Refusal::DuplicateClass(second, first) => {
            put_duplicate(text, names, "class", second, first)
        }
        Refusal::DuplicateField(second, first) => {
            put_duplicate(text, names, "field", second, first)
        }
        Refusal::TooManyClasses(count) => put_too_many(text, "classes", count as usize),
        Refusal::TooManyMethods(count) => put_too_many(text, "methods", count as usize),
        Refusal::TooManyCalls(count) => put_too_many(text, "calls", count as usize),
    }
}

/// The line of a refusal of sources of these names.
pub fn refusal_line(alloc: Global, names: &[String], refusal: Refusal) -> Result<String, Memory>
    ensures { IfOk result (λ text. string_bytes text
        ≡ lines.refusal_line (map string_bytes names.now) refusal) }
{
    let mut text = String::from_str(alloc, "refused ")?;
    put_reason(&mut text, names, refusal)?;
    text.push_str("\n")?;
    Ok(text)
}
