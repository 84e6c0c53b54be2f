//! Prints what is read of texts of Java and reported of folders, for each word that it is given: of the rows of the
//! file `tokens.rows` their tokens, of those of `units.rows` their classes with their members, of a folder
//! `report/NAME` its reports, of a folder `typed/NAME` the typings of its classes, of a folder `replay/NAME` the
//! replays of its witness files, of a folder `edits/NAME` the session of its edits, and of any other folder its program.
//! The stored run compares what it prints with what it has to print.
#![tactic(auto)]

mod edits;
mod methods;
mod page;
mod replays;
mod reports;
mod shown;
mod tokens;
mod trees;
mod typings;
mod units;

use racer_disk::DirFolder;
use shown::shown;
use std::{env, io};

fn main(rt: HostRuntime) -> io::Result<()> {
    let alloc = rt.alloc();
    let mut folder = DirFolder::new(rt.clone()?);
    for word in env::args(&rt)?.skip(1) {
        let text = shown(&rt, alloc, &mut folder, word.as_str())?;
        print!(rt; "{text}")?;
    }
    Ok(())
}
