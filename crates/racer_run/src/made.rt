//! Reports on made folders, in numbers.
ghost use Rattle.std.specs.Prelude.{◌≡◌, ◌<◌, ◌≤◌, IfOk, true};
ghost use Rattle.std.specs.Arc.{arc_value};
ghost use Rattle.container_cells.specs.declared.cell.Containers.TheVariants.{Opaque};
ghost use Rattle.core_code.specs.Program.{core};
ghost use Rattle.access_domain.specs.Outcomes.{AreOutcomes};
ghost use Rattle.racer_sources.specs.Programs.{IsProgram};
ghost use Rattle.racer_run.specs.Made.{made_files, made_said, SaysMade};
ghost use Rattle.racer_words.specs.Requests.{made_of};
ghost use Rattle.racer_run.specs.Statuses.{is_made_status};

use crate::output::RunOutput;
use crate::reports::{pooled, status_of};
use access_domain::Outcomes;
use container_cells::Containers;
use core_code::Program;
use demand_pool::Pooled;
use folder_maker::made;
use race_pairs::warnings;
use race_report::made_text;
use racer_base::{FolderFault, Gate, Memory, Text};
use racer_run_marks::marks_in_threads;
use racer_sources::{FoundProgram, folder_program};
use racer_words::WantedMade;
use std::alloc::Global;
use std::sync::{Arc, Wait};
use std::thread::Threads;

/// The program of the folder that is made of so many classes.
///
/// No such folder is refused: all of them were tried, and none of this rests on it.
fn made_program(alloc: Global, number: u32) -> Result<Program, Memory>
    requires { number ≤ 800 }
    ensures { IfOk result (λ program. IsProgram Opaque (made_files number) (core program)) }
{
    let mut folder = made(alloc, number)?;
    match folder_program(alloc, &mut folder, "made", Containers::Opaque) {
        Ok(FoundProgram::Accepted(program)) => Ok(program),
        Ok(FoundProgram::Refused(_)) => Err(Memory),
        Err(FolderFault::Memory) => Err(Memory),
        Err(FolderFault::Failed) => unreachable!(),
    }
}

/// The report on a folder made of so many classes, whose methods have these outcomes.
fn said_of_made<R: Threads + Sync>(
    rt: &R,
    alloc: Global,
    number: u32,
    program: &Program,
    outcomes: &Outcomes,
) -> Result<RunOutput, Memory>
    requires { AreOutcomes (core program.now) outcomes.now.items }
    ensures status { IfOk result (λ said. is_made_status said.status ≡ true) }
    ensures said { IfOk result (λ said. said ≡ made_said number (core program.now)) }
{
    let found = warnings(alloc, program, outcomes)?;
    let marks = marks_in_threads(rt, alloc, program, outcomes, found.as_slice())?;
    let text = made_text(alloc, number, program, found.as_slice(), marks.as_slice())?;
    Ok(RunOutput {
        status: status_of(found.as_slice()),
        text: Text::from(text),
    })
}

/// The report on a folder made of so many classes, of which this is the program, by so many workers.
fn counted<R: Threads + Wait + Sync, G: Gate + Sync>(
    rt: &R,
    alloc: Global,
    wanted: &WantedMade,
    program: &Arc<Program>,
    gate: &G,
) -> Result<RunOutput, Memory>
    ensures status { IfOk result (λ said. is_made_status said.status ≡ true) }
    ensures said { IfOk result (λ said. said ≡ made_said wanted.now.number (core (arc_value program.now))) }
{
    let Pooled { outcomes, .. } = pooled(rt, alloc, program, wanted.workers, gate)?;
    said_of_made(rt, alloc, wanted.number, &**program, &outcomes)
}

/// What is said to one who wants a made folder.
pub fn reported_on_made<R: Threads + Wait + Sync, G: Gate + Sync>(
    rt: &R,
    alloc: Global,
    wanted: &WantedMade,
    gate: &G,
) -> Result<RunOutput, Memory>
    ensures status { IfOk result (λ said. is_made_status said.status ≡ true) }
    ensures said { IfOk result (SaysMade (made_of wanted.now)) }
{
    let program = made_program(alloc, wanted.number)?;
    let program = Arc::new(alloc, program)?;
    counted(rt, alloc, wanted, &program, gate)
}
