//! What is asked for by what stands on the line.
ghost use Rattle.std.specs.Prelude.{◌≡◌, map, string_bytes, option_map, IfOk};
ghost use Rattle.racer_words.specs.Lines.{line_view};
ghost use Rattle.racer_words.specs.Requests.{seen};
ghost use Rattle.racer_words.specs.Forms.{form_view};
ghost use Rattle.racer_words.specs.Words.{asked_as, asked_by, edits, is_name, made, replay, report, request_of};

use crate::forms::{Form, form_of, stands_right};
use crate::line::{GivenLine, given_line};
use crate::request::{Request, WantedEdits, WantedMade, WantedReplay, WantedReport};
use container_cells::Containers;
use racer_base::{Memory, Text};
use racer_words_numbers::{made_of, workers_of};
use std::alloc::Global;

fn is_name(word: &str) -> bool
    ensures { result ≡ is_name word.now }
{
    !word.is_empty() && word != "-"
}

/// A report on the folder.
fn report(alloc: Global, folder: &str, line: &GivenLine<'_>) -> Result<Option<Request>, Memory>
    ensures { IfOk result (λ r. option_map seen r ≡ report (line_view line.now) folder.now) }
{
    if !is_name(folder) {
        return Ok(None);
    }
    let Some(workers) = workers_of(line.workers) else {
        return Ok(None);
    };
    Ok(Some(Request::ReportOn(WantedReport {
        folder: Text::from_str(alloc, folder)?,
        mode: line.mode(),
        workers,
        history: line.history,
        containers: line.containers(),
        typed: line.typed,
    })))
}

/// The replay of a witness of the folder.
fn replay(
    alloc: Global,
    folder: &str,
    witness: &str,
    containers: Containers,
) -> Result<Option<Request>, Memory>
    ensures { IfOk result (λ r. option_map seen r ≡ replay containers folder.now witness.now) }
{
    if !is_name(folder) || !is_name(witness) {
        return Ok(None);
    }
    let folder = Text::from_str(alloc, folder)?;
    let witness = Text::from_str(alloc, witness)?;
    Ok(Some(Request::ReplayOf(WantedReplay {
        folder,
        witness,
        containers,
    })))
}

/// A folder made of so many classes.
fn made(count: &str, line: &GivenLine<'_>) -> Option<Request>
    ensures { option_map seen result ≡ made (line_view line.now) count.now }
{
    let number = made_of(count)?;
    let workers = workers_of(line.workers)?;
    Some(Request::MadeOf(WantedMade { number, workers }))
}

/// The edits in a file of the folder.
fn edits(alloc: Global, folder: &str, file: &str) -> Result<Option<Request>, Memory>
    ensures { IfOk result (λ r. option_map seen r ≡ edits folder.now file.now) }
{
    if !is_name(folder) || !is_name(file) {
        return Ok(None);
    }
    let folder = Text::from_str(alloc, folder)?;
    let edits = Text::from_str(alloc, file)?;
    Ok(Some(Request::EditsOf(WantedEdits { folder, edits })))
}

/// What a line of this form asks for.
fn asked_as(alloc: Global, form: Form, line: &GivenLine<'_>) -> Result<Option<Request>, Memory>
    ensures { IfOk result (λ r. option_map seen r ≡ asked_as (form_view form) (line_view line.now)) }
{
    match (form, line.folder, line.replay, line.made, line.edits) {
        (Form::Report, Some(folder), _, _, _) => report(alloc, folder, line),
        (Form::Replay, Some(folder), Some(witness), _, _) => {
            replay(alloc, folder, witness, line.containers())
        }
        (Form::Made, _, _, Some(count), _) => Ok(made(count, line)),
        (Form::Edits, Some(folder), _, _, Some(file)) => edits(alloc, folder, file),
        _ => Ok(None),
    }
}

/// What the line asks for.
fn asked_by(alloc: Global, line: &GivenLine<'_>) -> Result<Option<Request>, Memory>
    ensures { IfOk result (λ r. option_map seen r ≡ asked_by (line_view line.now)) }
{
    if !stands_right(line) {
        return Ok(None);
    }
    asked_as(alloc, form_of(line), line)
}

/// What the words behind the program's name ask for, or nothing where they are no command line: `FOLDER`, with
/// `--workers N`, `--json`, `--summaries`, `--history`, `--containers`, `--typed` in any order; `FOLDER --replay NAME`,
/// with `--containers`; `--made N`, with `--workers N`; or `FOLDER --edits NAME` alone. A value may also stand behind `=`,
/// and behind `--` a word that begins with a minus sign is a folder.
pub fn read_words(alloc: Global, words: &[String]) -> Result<Option<Request>, Memory>
    ensures { IfOk result (λ r. option_map seen r ≡ request_of (map string_bytes words.now)) }
{
    match given_line(alloc, words)? {
        Some(line) => asked_by(alloc, &line),
        None => Ok(None),
    }
}
