//! The call that the program makes.
ghost use Rattle.std.specs.Prelude.{◌≡◌, ◌≢◌, ◌<◌, IfSome, map, string_bytes};
ghost use Rattle.racer_base.specs.Outside.{last_count};
ghost use Rattle.racer_run.specs.Causes.{asked_of, wrote_of, AsksFor, IsRoomFor, IsCause, IsComplete};
ghost use Rattle.racer_run.specs.Requests.{LeavesFolder};

use crate::answers::what_to_say;
use crate::status::Status;
use crate::writing::write_all;
use racer_base::{Folder, Gate, Sink};
use std::alloc::Global;
use std::sync::Wait;
use std::thread::Threads;

/// Does what the words after the program's name ask for, and writes what comes of it to the sink: the report on a
/// folder, behind it, where the words ask for them, the typings of its classes and then the history of the workers; the
/// verdict on a witness of the folder; the report on a made folder, in numbers; the report on the folder and then on
/// what each edit of a file makes of it; or the line that says why there is none.
///
/// The text is made whole before the first write, and writing takes no memory.
pub fn run<R: Threads + Wait + Sync, F: Folder, S: Sink, G: Gate + Sync>(
    rt: &R,
    alloc: Global,
    words: &[String],
    folder: &mut F,
    sink: &mut S,
    gate: &G,
) -> Status
    requires folder { F.faults folder.old < last_count }
    requires sink { S.faults sink.old < last_count }

    // Each status has its cause.
    ensures cause { IsCause result
        (asked_of F.told F.faults words.now folder.old folder.new)
        (wrote_of S.faults S.taken sink.old sink.new) }

    // Where no count rose, a request that can be answered is answered whole, or memory was refused.
    ensures complete { IsComplete result
        (asked_of F.told F.faults words.now folder.old folder.new)
        (wrote_of S.faults S.taken sink.old sink.new) }

    // A steady folder that is asked for has no fault.
    ensures steady { F.steady folder.old →
        IfSome (F.told folder.old) (λ told. AsksFor words.now told → result ≢ Status.FolderFault) }

    // Words that ask for nothing on the folder leave it as it is.
    ensures left { LeavesFolder (map string_bytes words.now) → folder.new ≡ folder.old }

    // A sink with room for whatever text may be due has no fault.
    ensures room { IsRoomFor (S.room sink.old) (asked_of F.told F.faults words.now folder.old folder.new) →
        result ≢ Status.SinkFault }
{
    match what_to_say(rt, alloc, words, folder, gate) {
        Err(_) => Status::Memory,
        Ok(said) => match write_all(sink, said.text.as_str().as_bytes()) {
            Ok(()) => said.status,
            Err(_) => Status::SinkFault,
        },
    }
}
