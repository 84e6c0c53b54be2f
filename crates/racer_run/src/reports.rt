//! Reports on the sources of a folder.
ghost use Rattle.std.specs.Prelude.{◌≡◌, ◌<◌, ◌≤◌, IfOk, IfSome, OnOk, true};
ghost use Rattle.std.specs.Arc.{arc_value};
ghost use Rattle.core_code.specs.Program.{core};
ghost use Rattle.access_domain.specs.Outcomes.{AreOutcomes};
ghost use Rattle.racer_sources.specs.Finding.{CountsFaults, FailsByMemory};
ghost use Rattle.racer_sources.specs.Programs.{Accepted, source_of};
ghost use Rattle.summary_store.specs.Machine.{IsComplete, Legal};
ghost use Rattle.summary_store.specs.Setups.{setup_of};
ghost use Rattle.racer_run.specs.RunOutputs.{report_status, said_from, typings_behind, with_tail, HasHeadline};
ghost use Rattle.racer_run.specs.RunOutputs.{HasReplays, HasTypedClasses, SaysReport};
ghost use Rattle.racer_words.specs.Requests.{wanted_of};
ghost use Rattle.racer_run.specs.Tails.{lines_of, IsSaidWith};
ghost use Rattle.racer_run.specs.Statuses.{is_made_status, is_report_status};

use crate::output::RunOutput;
use crate::status::Status;
use access_domain::Outcomes;
use core_code::{Program, call_rows};
use demand_pool::{Pooled, run_pool};
use race_pairs::{Warning, warnings};
use race_report::report;
use race_report_modes::Mode;
use race_report_parts::Written;
use racer_base::{Folder, FolderFault, Gate, Memory, Text};
use racer_run_history::push_history;
use racer_run_marks::marks_in_threads;
use racer_run_typings::push_typings;
use racer_sources::{FoundProgram, folder_program};
use racer_words::WantedReport;
use std::alloc::Global;
use std::sync::{Arc, Wait};
use std::thread::Threads;
use summary_store::Event;
use typed_core::typings;
use typed_core_laws::laws::typed_classes_are_never_blocked;
use witness_build_laws::laws::whole_warnings_race;
use witness_text::laws::witnesses_in_reports_replay;

/// The status of a report with these warnings.
pub fn status_of(found: &[Warning]) -> Status
    ensures status { result ≡ report_status found.now }
    ensures of_report { is_report_status result ≡ true }
    ensures of_made { is_made_status result ≡ true }
{
    if found.is_empty() {
        Status::Clean
    } else {
        Status::Warned
    }
}

/// The report on a program whose methods have these outcomes, with its status.
pub fn said_of<R: Threads + Sync>(
    rt: &R,
    alloc: Global,
    mode: Mode,
    program: &Program,
    outcomes: &Outcomes,
) -> Result<RunOutput, Memory>
    requires { AreOutcomes (core program.now) outcomes.now.items }
    ensures status { IfOk result (λ said. is_report_status said.status ≡ true) }
    ensures said { IfOk result (λ said. said ≡ said_from mode (Accepted (core program.now))) }
{
    let found = warnings(alloc, program, outcomes)?;
    let marks = marks_in_threads(rt, alloc, program, outcomes, found.as_slice())?;
    let text = report(
        alloc,
        mode,
        program,
        outcomes,
        found.as_slice(),
        marks.as_slice(),
    )?;
    Ok(RunOutput {
        status: status_of(found.as_slice()),
        text: Text::from(text),
    })
}

/// What comes of this many workers on a program.
pub fn pooled<R: Threads + Wait + Sync, G: Gate + Sync>(
    rt: &R,
    alloc: Global,
    program: &Arc<Program>,
    workers: u32,
    gate: &G,
) -> Result<Pooled, Memory>
    requires { (0 < workers) × (workers ≤ 64) }
    ensures legal { IfOk result (λ p. Legal (setup_of (core (arc_value program.now)) workers) p.history.items) }
    ensures complete { IfOk result (λ p.
        IsComplete (setup_of (core (arc_value program.now)) workers) p.history.items) }
    ensures outcomes { IfOk result (λ p. AreOutcomes (core (arc_value program.now)) p.outcomes.items) }
{
    let rows = Arc::new(alloc, call_rows(alloc, &**program)?)?;
    run_pool(rt, alloc, program, &rows, workers, gate)
}

/// The report on a program, with the typings of its classes and then the history of its workers behind it where these
/// are asked for.
fn reported<R: Threads + Wait + Sync, G: Gate + Sync>(
    rt: &R,
    alloc: Global,
    wanted: &WantedReport,
    program: &Arc<Program>,
    gate: &G,
) -> Result<RunOutput, Memory>
    ensures status { IfOk result (λ said. is_report_status said.status ≡ true) }
    ensures said { IfOk result (λ said.
        IsSaidWith (wanted_of wanted.now) (Accepted (core (arc_value program.now))) said) }
{
    let Pooled { history, outcomes } = pooled(rt, alloc, program, wanted.workers, gate)?;
    let plain = said_of(rt, alloc, wanted.mode, &**program, &outcomes)?;
    let said = with_typings(alloc, wanted.typed, plain, &**program)?;
    with_history(alloc, wanted.history, said, &**program, history.as_slice())
}

/// The same with the lines of the classes that have an entry behind the text, where they are asked for.
fn with_typings(
    alloc: Global,
    asked: bool,
    said: RunOutput,
    program: &Program,
) -> Result<RunOutput, Memory>
    ensures { IfOk result (λ new. new ≡ with_tail said (typings_behind asked (Accepted (core program.now)))) }
{
    if !asked {
        return Ok(said);
    }
    let typings = typings(alloc, program)?;
    let RunOutput { status, text } = said;
    let mut written = Written::behind(alloc, text.into_string(alloc)?);
    push_typings(&mut written, program, typings.as_slice());
    Ok(RunOutput {
        status,
        text: Text::from(written.finished()?),
    })
}

/// The same with the lines of a history behind the text, where they are asked for.
fn with_history(
    alloc: Global,
    asked: bool,
    said: RunOutput,
    program: &Program,
    history: &[Event],
) -> Result<RunOutput, Memory>
    ensures { IfOk result (λ new. new ≡ with_tail said (lines_of asked (core program.now) history.now)) }
{
    if !asked {
        return Ok(said);
    }
    let RunOutput { status, text } = said;
    let mut text = Written::behind(alloc, text.into_string(alloc)?);
    push_history(&mut text, program, history);
    Ok(RunOutput {
        status,
        text: Text::from(text.finished()?),
    })
}

/// What is said of what was found in a folder.
fn said_of_found<R: Threads + Wait + Sync, G: Gate + Sync>(
    rt: &R,
    alloc: Global,
    wanted: &WantedReport,
    found: FoundProgram,
    gate: &G,
) -> Result<RunOutput, Memory>
    ensures status { IfOk result (λ said. is_report_status said.status ≡ true) }
    ensures said { IfOk result (λ said. IsSaidWith (wanted_of wanted.now) (source_of found) said) }
    ensures headline { HasHeadline (source_of found) }
    ensures replays { HasReplays (source_of found) }
    ensures typed { HasTypedClasses (source_of found) }
{
    whole_warnings_race();
    witnesses_in_reports_replay();
    typed_classes_are_never_blocked();
    match found {
        FoundProgram::Accepted(program) => {
            let program = Arc::new(alloc, program)?;
            reported(rt, alloc, wanted, &program, gate)
        }
        FoundProgram::Refused(text) => Ok(RunOutput {
            status: Status::Refused,
            text,
        }),
    }
}

/// What is said to one who wants a report on a folder.
pub fn reported_on<R: Threads + Wait + Sync, F: Folder, G: Gate + Sync>(
    rt: &R,
    alloc: Global,
    folder: &mut F,
    wanted: &WantedReport,
    gate: &G,
) -> Result<RunOutput, FolderFault>
    ensures status { IfOk result (λ said. is_report_status said.status ≡ true) }
    ensures count { CountsFaults result (F.faults folder.old) (F.faults folder.new) }
    ensures entered { OnOk result (IfSome (F.told folder.old) (λ told. wanted.now.folder ≡ told.name)) }
    ensures said { IfOk result (λ said. IfSome (F.told folder.old) (λ told.
        SaysReport (wanted_of wanted.now) told.files said)) }
    ensures steady { F.steady folder.old →
        IfSome (F.told folder.old) (λ told. wanted.now.folder ≡ told.name → FailsByMemory result) }
{
    let found = folder_program(alloc, folder, wanted.folder.as_str(), wanted.containers)?;
    Ok(said_of_found(rt, alloc, wanted, found, gate)?)
}
