//! What is to be said to the words of a command line.
ghost use Rattle.std.specs.Prelude.{◌≡◌, ◌≢◌, ◌<◌, IfErr, IfOk, IfSome, OnOk, map, string_bytes, true, false};
ghost use Rattle.racer_base.specs.Outside.{last_count};
ghost use Rattle.racer_sources.specs.Finding.{CountsFaults, FailsByMemory};
ghost use Rattle.racer_words.specs.Requests.{seen};
ghost use Rattle.racer_run.specs.Causes.{asked_of, is_said_to, AsksFor, IsDue, IsEntered, IsFor, Says};
ghost use Rattle.racer_run.specs.Requests.{is_on_folder, LeavesFolder};

use crate::made::reported_on_made;
use crate::output::{RunOutput, line};
use crate::replays::replayed_on;
use crate::reports::reported_on;
use crate::sessions::edited_on;
use crate::status::Status;
use racer_base::{Folder, FolderFault, Gate, Memory};
use racer_words::{Request, read_words};
use std::alloc::Global;
use std::sync::Wait;
use std::thread::Threads;

/// The usage line.
const USAGE: &str =
    "usage: racer (FOLDER | --made N) [--workers N] [--json] [--summaries] [--history] \
    [--containers] [--typed] [--replay NAME] [--edits NAME]\n";

/// What is said to a request.
fn answered<R: Threads + Wait + Sync, F: Folder, G: Gate + Sync>(
    rt: &R,
    alloc: Global,
    folder: &mut F,
    request: &Request,
    gate: &G,
) -> Result<RunOutput, FolderFault>
    ensures fits { IfOk result (λ said. is_said_to (seen request.now) said.status ≡ true) }
    ensures count { CountsFaults result (F.faults folder.old) (F.faults folder.new) }
    ensures entered { OnOk result (IfSome (F.told folder.old) (IsEntered (seen request.now))) }
    ensures said { IfOk result (Says (seen request.now) (F.told folder.old)) }
    ensures steady { F.steady folder.old →
        IfSome (F.told folder.old) (λ told. IsFor (seen request.now) told → FailsByMemory result) }
    ensures left { is_on_folder (seen request.now) ≡ false → folder.new ≡ folder.old }
    ensures failed { IfErr result (λ fault. fault ≡ FolderFault.Failed → is_on_folder (seen request.now) ≡ true) }
{
    match request {
        Request::ReportOn(wanted) => reported_on(rt, alloc, folder, wanted, gate),
        Request::ReplayOf(wanted) => replayed_on(alloc, folder, wanted),
        Request::MadeOf(wanted) => Ok(reported_on_made(rt, alloc, wanted, gate)?),
        Request::EditsOf(wanted) => edited_on(rt, alloc, folder, wanted),
    }
}

/// What is to be said to these words, over this folder.
pub fn what_to_say<R: Threads + Wait + Sync, F: Folder, G: Gate + Sync>(
    rt: &R,
    alloc: Global,
    words: &[String],
    folder: &mut F,
    gate: &G,
) -> Result<RunOutput, Memory>
    requires { F.faults folder.old < last_count }
    ensures due { IfOk result (λ said.
        IsDue said.status (asked_of F.told F.faults words.now folder.old folder.new) said.text) }
    ensures steady { F.steady folder.old → IfSome (F.told folder.old) (λ told.
        AsksFor words.now told → IfOk result (λ said. said.status ≢ Status.FolderFault)) }
    ensures left { LeavesFolder (map string_bytes words.now) → folder.new ≡ folder.old }
{
    let Some(request) = read_words(alloc, words)? else {
        return line(alloc, Status::Usage, USAGE);
    };
    match answered(rt, alloc, folder, &request, gate) {
        Err(FolderFault::Memory) => Err(Memory),
        Err(FolderFault::Failed) => line(alloc, Status::FolderFault, "folder fault\n"),
        Ok(said) => Ok(said),
    }
}
