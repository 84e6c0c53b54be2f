//! Reads a folder of Java sources and reports the data races in it.
#![tactic(auto)]

#[cfg(test)]
mod containers;
#[cfg(test)]
mod edits;
#[cfg(test)]
mod failing;
#[cfg(test)]
mod gates;
#[cfg(test)]
mod outside;
#[cfg(test)]
mod path_numbers;
#[cfg(test)]
mod replays;
#[cfg(test)]
mod store_alone;
#[cfg(test)]
mod tests;
#[cfg(test)]
mod typings;
#[cfg(test)]
mod workers;

use racer_base::{OpenGate, StdSink};
use racer_disk::DirFolder;
use racer_run::{Status, run};
use std::io::ErrorKind;
use std::process::ExitCode;
use std::rt::Env;
use std::{env, io};

/// The words after the program's name.
fn words<R: Env + AllocGlobal>(rt: &R) -> io::Result<Vec<String>> {
    let mut words = Vec::new(rt.alloc());
    for word in env::args(rt)?.skip(1) {
        words.push(word)?;
    }
    Ok(words)
}

fn main(rt: HostRuntime) -> io::Result<ExitCode> {
    let words = match words(&rt) {
        Ok(words) => words,
        Err(error) if error.kind() == ErrorKind::OutOfMemory => {
            return Ok(Status::Memory.exit_code());
        }
        // A word is no UTF-8: as no words at all, it asks for nothing.
        Err(_) => Vec::new(rt.alloc()),
    };
    let Ok(shared) = rt.clone() else {
        return Ok(Status::Memory.exit_code());
    };
    let mut folder = DirFolder::new(shared);
    let mut sink = StdSink::new(&rt);
    let status = run(
        &rt,
        rt.alloc(),
        words.as_slice(),
        &mut folder,
        &mut sink,
        &OpenGate,
    );
    Ok(status.exit_code())
}
