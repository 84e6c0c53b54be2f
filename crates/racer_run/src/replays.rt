//! Replays of witness files.
ghost use Rattle.std.specs.Prelude.{◌≡◌, ◌+◌, ◌≤◌, IfOk, IfSome, OnOk, take, true};
ghost use Rattle.std.specs.FinMap.{contains_key};
ghost use Rattle.racer_base.specs.declared.limits.TheConstants.{MAX_FILE_BYTES};
ghost use Rattle.core_code.specs.Program.{core};
ghost use Rattle.racer_sources.specs.Finding.{CountsFaults, FailsByMemory};
ghost use Rattle.witness_text.specs.Lines.{field_name};
ghost use Rattle.racer_run.specs.Replays.{file_said, json_of, json_said, not_a_witness, replay_said, verdict_said};
ghost use Rattle.racer_run.specs.Replays.{SaysReplay};
ghost use Rattle.racer_run.specs.Replays.{verdict_status};
ghost use Rattle.racer_words.specs.Requests.{replay_of};
ghost use Rattle.racer_run.specs.Statuses.{is_replay_status};
ghost use Rattle.witness_text_files.specs.Answers.{seen};
ghost use Rattle.witness_text.specs.Verdicts.{verdict};

use crate::output::{RunOutput, line};
use crate::status::Status;
use core_code::Program;
use racer_base::{Folder, FolderFault, MAX_FILE_BYTES, Memory, Text};
use racer_sources::{FoundProgram, folder_program};
use racer_words::WantedReplay;
use std::alloc::Global;
use witness_text::{Verdict, field_name, replay, verdict_line};
use witness_text_files::{WitnessFault, WitnessFile, read};

/// The line that says why a file is no witness.
fn not_a_witness(alloc: Global, why: &str) -> Result<RunOutput, Memory>
    ensures { IfOk result (λ said. said ≡ not_a_witness why.now) }
{
    let mut text = String::from_str(alloc, "not a witness: ")?;
    text.push_str(why)?;
    text.push_str("\n")?;
    Ok(RunOutput {
        status: Status::NotAWitness,
        text: Text::from(text),
    })
}

/// The status of a verdict.
fn verdict_status(verdict: Verdict) -> Status
    ensures { result ≡ verdict_status verdict }
{
    match verdict {
        Verdict::Races => Status::Clean,
        _ => Status::NoRace,
    }
}

/// The verdict on a file, with its line.
fn judged(alloc: Global, program: &Program, file: &WitnessFile) -> Result<RunOutput, Memory>
    ensures { IfOk result (λ said. said ≡ verdict_said (verdict (core program.now) (seen file.now))) }
{
    let verdict = replay(alloc, program, file)?;
    Ok(RunOutput {
        status: verdict_status(verdict),
        text: Text::from(verdict_line(alloc, verdict)?),
    })
}

/// What is said of a file with these bytes, which are not too many.
fn read_and_judged(alloc: Global, program: &Program, bytes: &[u8]) -> Result<RunOutput, Memory>
    ensures { IfOk result (λ said. said ≡ json_said (core program.now) (json_of bytes.now)) }
{
    match read(alloc, bytes) {
        Ok(file) => judged(alloc, program, &file),
        Err(WitnessFault::NotJson) => not_a_witness(alloc, "json"),
        Err(WitnessFault::NotAWitness(field)) => not_a_witness(alloc, field_name(field)),
        Err(WitnessFault::Memory) => Err(Memory),
    }
}

/// What is said of a file that begins with these bytes: all of it, or one byte more than a file may have.
pub fn replayed(alloc: Global, program: &Program, bytes: &[u8]) -> Result<RunOutput, Memory>
    ensures status { IfOk result (λ said. is_replay_status said.status ≡ true) }
    ensures said { IfOk result (λ said. said ≡ replay_said (core program.now) bytes.now) }
{
    if bytes.len() > MAX_FILE_BYTES {
        return not_a_witness(alloc, "length");
    }
    read_and_judged(alloc, program, bytes)
}

/// What is said to one who wants to replay a witness.
pub fn replayed_on<F: Folder>(
    alloc: Global,
    folder: &mut F,
    wanted: &WantedReplay,
) -> Result<RunOutput, FolderFault>
    ensures status { IfOk result (λ said. is_replay_status said.status ≡ true) }
    ensures count { CountsFaults result (F.faults folder.old) (F.faults folder.new) }
    ensures entered { OnOk result (IfSome (F.told folder.old) (λ told. wanted.now.folder ≡ told.name)) }
    ensures said { IfOk result (λ said. IfSome (F.told folder.old) (λ told.
        SaysReplay (replay_of wanted.now) told.files said)) }
    ensures steady { F.steady folder.old → IfSome (F.told folder.old) (λ told.
        wanted.now.folder ≡ told.name → contains_key told.files wanted.now.witness ≡ true → FailsByMemory result) }
{
    match folder_program(alloc, folder, wanted.folder.as_str(), wanted.containers)? {
        FoundProgram::Accepted(program) => {
            let bytes = folder.read(alloc, wanted.witness.as_str(), MAX_FILE_BYTES + 1)?;
            Ok(replayed(alloc, &program, bytes.as_slice())?)
        }
        FoundProgram::Refused(text) => Ok(RunOutput {
            status: Status::Refused,
            text,
        }),
    }
}
