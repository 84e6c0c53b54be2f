//! Sessions of edits.
ghost use Rattle.std.specs.Prelude.{◌≡◌, ◌++◌, IfOk, IfSome, OnOk, map, string_bytes, true};
ghost use Rattle.core_code.specs.Program.{core};
ghost use Rattle.edit_session.specs.Sessions.{program_in};
ghost use Rattle.racer_base.specs.Outside.{Files};
ghost use Rattle.racer_sources.specs.Finding.{CountsFaults, FailsByMemory, KeepsMeaning};
ghost use Rattle.racer_sources.specs.Kept.{AreKept};
ghost use Rattle.racer_sources.specs.Programs.{Accepted, source_of};
ghost use Rattle.racer_sources.specs.Sources.{source_names};
ghost use Rattle.racer_run_edits.specs.EditLines.{seen};
ghost use Rattle.racer_run_edits.specs.Edits.{edits_in};
ghost use Rattle.racer_run.specs.RunOutputs.{said_from};
ghost use Rattle.racer_run.specs.Sessions as spec;
ghost use Rattle.racer_run.specs.Statuses.{is_edits_status};
ghost use Rattle.racer_words.specs.Requests.{edits_of};

use crate::output::RunOutput;
use crate::reports::said_of;
use crate::status::Status;
use core_code::Program;
use edit_session::Session;
use race_report_modes::{Format, Mode};
use racer_base::{Folder, FolderFault, MAX_FILE_BYTES, Memory, Text};
use racer_run_edits::{EditLine, EditsFault, edits_in};
use racer_sources::{FoundProgram, KeptProgram, SourceFiles, kept_program};
use racer_words::WantedEdits;
use std::alloc::Global;
use std::sync::Arc;
use std::thread::Threads;
use witness_build_laws::laws::whole_warnings_race;
use witness_text::laws::witnesses_in_reports_replay;

/// How reports of a session are written.
const PLAIN: Mode = Mode {
    format: Format::Text,
    summaries: false,
};

/// Puts behind a text why a file has no edits.
fn put_why(text: &mut String, fault: EditsFault) -> Result<(), Memory>
    ensures { OnOk result (spec.IsWhyPut fault (string_bytes text.old) (string_bytes text.new)) }
{
    match fault {
        EditsFault::TooLong => Ok(text.push_str("length")?),
        EditsFault::BadLine(line) => Ok(write!(text, "line {line}")?),
        EditsFault::Memory => Err(Memory),
    }
}

/// The line that says why a file has no edits.
fn not_edits(alloc: Global, fault: EditsFault) -> Result<RunOutput, Memory>
    ensures { IfOk result (spec.IsNotEdits fault) }
{
    let mut text = String::from_str(alloc, "not edits: ")?;
    put_why(&mut text, fault)?;
    text.push_str("\n")?;
    Ok(RunOutput {
        status: Status::NotEdits,
        text: Text::from(text),
    })
}

/// The same with this text before its own.
fn said_behind(text: String, said: RunOutput) -> Result<RunOutput, Memory>
    ensures { IfOk result (λ new. new ≡ spec.said_behind (string_bytes text) said) }
{
    let mut text = text;
    text.push_str(said.text.as_str())?;
    Ok(RunOutput {
        status: said.status,
        text: Text::from(text),
    })
}

/// One text behind another, with the status of the last one.
fn with_behind(alloc: Global, first: RunOutput, rest: RunOutput) -> Result<RunOutput, Memory>
    ensures { IfOk result (λ new. new ≡ spec.with_behind first rest) }
{
    said_behind(first.text.into_string(alloc)?, rest)
}

/// The report on the program that a session stands at.
fn report_of<R: Threads + Sync>(
    rt: &R,
    alloc: Global,
    session: &Session,
) -> Result<RunOutput, Memory>
    ensures { IfOk result (λ said. said ≡ said_from spec.plain_mode (Accepted (core (program_in session.now)))) }
{
    said_of(rt, alloc, PLAIN, &**session.program(), session.outcomes())
}

/// Puts behind a text the line of an edit of this file, behind which so many methods are analysed.
fn put_analysed(text: &mut String, file: &str, count: u32) -> Result<(), Memory>
    ensures { OnOk result (string_bytes text.new ≡ string_bytes text.old ++ spec.analysed_line file.now count) }
{
    Ok(write!(text, "edit {file} analysed {count}\n")?)
}

/// Puts behind a text the line of an edit of this file, behind which the sources are refused.
fn put_refused(text: &mut String, file: &str) -> Result<(), Memory>
    ensures { OnOk result (string_bytes text.new ≡ string_bytes text.old ++ spec.refused_line file.now) }
{
    Ok(write!(text, "edit {file}\n")?)
}

/// What is said of an edit whose sources are this program.
fn accepted<R: Threads + Sync>(
    rt: &R,
    alloc: Global,
    session: &mut Session,
    edit: EditLine<'_>,
    program: Program,
) -> Result<RunOutput, Memory>
    ensures program { OnOk result (program_in session.new ≡ program) }
    ensures said { IfOk result (λ said. said ≡
        spec.edit_said (core (program_in session.old)) (seen edit.entry) (Accepted (core program))) }
{
    let again = session.next(alloc, Arc::new(alloc, program)?)?;
    let mut line = String::new(alloc);
    put_analysed(&mut line, edit.file, again)?;
    said_behind(line, report_of(rt, alloc, session)?)
}

/// What is said of an edit whose sources are refused with this line.
fn refused(alloc: Global, edit: EditLine<'_>, refusal: Text) -> Result<RunOutput, Memory>
    ensures { IfOk result (λ said. said ≡ spec.refused_said (seen edit.entry) refusal) }
{
    let mut line = String::new(alloc);
    put_refused(&mut line, edit.file)?;
    let said = RunOutput {
        status: Status::Refused,
        text: refusal,
    };
    said_behind(line, said)
}

/// What is said of an edit behind which this is found: a program, to which the session goes on, or a refusal.
fn edit_said<R: Threads + Sync>(
    rt: &R,
    alloc: Global,
    session: &mut Session,
    edit: EditLine<'_>,
    found: FoundProgram,
) -> Result<RunOutput, Memory>
    ensures program { OnOk result (core (program_in session.new) ≡
        spec.program_behind (core (program_in session.old)) (source_of found)) }
    ensures said { IfOk result (λ said. said ≡
        spec.edit_said (core (program_in session.old)) (seen edit.entry) (source_of found)) }
{
    match found {
        FoundProgram::Accepted(program) => accepted(rt, alloc, session, edit, program),
        FoundProgram::Refused(line) => refused(alloc, edit, line),
    }
}

/// Makes an edit: reads what it names, and says what comes of it.
fn edited<R: Threads + Sync, F: Folder>(
    rt: &R,
    alloc: Global,
    folder: &mut F,
    sources: &mut SourceFiles,
    session: &mut Session,
    edit: EditLine<'_>,
) -> Result<RunOutput, FolderFault>
    requires { spec.IsSourceOf sources.old edit }
    ensures status { IfOk result (λ said. is_edits_status said.status ≡ true) }
    ensures count { CountsFaults result (F.faults folder.old) (F.faults folder.new) }
    ensures keeps { KeepsMeaning F.told F.steady folder.old folder.new }
    ensures names { sources.new.names ≡ sources.old.names }
    ensures step { IfOk result (λ said. IfSome (F.told folder.old) (λ told. (now : Files) → AreKept now sources.old →
        spec.IsStepSaid told.files now (core (program_in session.old)) (seen edit.entry)
        (core (program_in session.new)) sources.new said)) }
    ensures steady { F.steady folder.old → IfSome (F.told folder.old) (λ told.
        spec.IsThere told.files (seen edit.entry) → FailsByMemory result) }
{
    whole_warnings_race();
    witnesses_in_reports_replay();
    let bytes = folder.read(alloc, edit.content, MAX_FILE_BYTES + 1)?;
    sources.replace(edit.file, bytes);
    let found = sources.program(alloc)?;
    Ok(edit_said(rt, alloc, session, edit, found)?)
}

/// What is said of a program and then of each of the edits behind it.
fn session_on<R: Threads + Sync, F: Folder>(
    rt: &R,
    alloc: Global,
    folder: &mut F,
    program: Program,
    sources: SourceFiles,
    edits: &[EditLine<'_>],
) -> Result<RunOutput, FolderFault>
    requires { spec.AreSourcesOf edits.now sources }
    ensures status { IfOk result (λ said. is_edits_status said.status ≡ true) }
    ensures count { CountsFaults result (F.faults folder.old) (F.faults folder.new) }
    ensures said { IfOk result (λ said. IfSome (F.told folder.old) (λ told. AreKept told.files sources →
        spec.AreEditsSaid told.files (core program) (map seen edits.now) said)) }
    ensures steady { F.steady folder.old → IfSome (F.told folder.old) (λ told.
        spec.AreAllThere told.files (map seen edits.now) → FailsByMemory result) }
{
    let mut sources = sources;
    let mut session = Session::start(alloc, Arc::new(alloc, program)?)?;
    let mut said = report_of(rt, alloc, &session)?;
    for edit in edits {
        let part = edited(rt, alloc, folder, &mut sources, &mut session, *edit)?;
        said = with_behind(alloc, said, part)?;
    }
    Ok(said)
}

/// What is said behind a program that was accepted, where this is the file of edits.
fn behind_program<R: Threads + Sync, F: Folder>(
    rt: &R,
    alloc: Global,
    folder: &mut F,
    program: Program,
    sources: SourceFiles,
    bytes: &[u8],
) -> Result<RunOutput, FolderFault>
    ensures status { IfOk result (λ said. is_edits_status said.status ≡ true) }
    ensures count { CountsFaults result (F.faults folder.old) (F.faults folder.new) }
    ensures said { IfOk result (λ said. IfSome (F.told folder.old) (λ told. AreKept told.files sources →
        spec.IsSessionSaid told.files (core program) (edits_in (source_names told.files) bytes.now) said)) }
    ensures steady { F.steady folder.old → IfSome (F.told folder.old) (λ told. AreKept told.files sources →
        spec.AreThere told.files (edits_in (source_names told.files) bytes.now) → FailsByMemory result) }
{
    match edits_in(alloc, bytes, &sources) {
        Ok(edits) => session_on(rt, alloc, folder, program, sources, edits.as_slice()),
        Err(fault) => Ok(not_edits(alloc, fault)?),
    }
}

/// What is said to one who wants a session of edits.
pub fn edited_on<R: Threads + Sync, F: Folder>(
    rt: &R,
    alloc: Global,
    folder: &mut F,
    wanted: &WantedEdits,
) -> Result<RunOutput, FolderFault>
    ensures status { IfOk result (λ said. is_edits_status said.status ≡ true) }
    ensures count { CountsFaults result (F.faults folder.old) (F.faults folder.new) }
    ensures entered { OnOk result (IfSome (F.told folder.old) (λ told. wanted.now.folder ≡ told.name)) }
    ensures said { IfOk result (λ said. IfSome (F.told folder.old) (λ told.
        spec.SaysEdits (edits_of wanted.now) told.files said)) }
    ensures steady { F.steady folder.old → IfSome (F.told folder.old) (λ told.
        wanted.now.folder ≡ told.name → spec.HasEdits told.files wanted.now.edits → FailsByMemory result) }
{
    whole_warnings_race();
    witnesses_in_reports_replay();
    match kept_program(alloc, folder, wanted.folder.as_str())? {
        KeptProgram::Accepted(program, sources) => {
            let bytes = folder.read(alloc, wanted.edits.as_str(), MAX_FILE_BYTES + 1)?;
            behind_program(rt, alloc, folder, program, sources, bytes.as_slice())
        }
        KeptProgram::Refused(text) => Ok(RunOutput {
            status: Status::Refused,
            text,
        }),
    }
}
