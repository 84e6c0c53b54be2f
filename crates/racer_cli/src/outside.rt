//! Tests of a folder of the file system and of standard output, whose contracts tell nothing of content.
use racer_base::{Failed, Folder, FolderFault, Sink, StdSink};
use racer_disk::DirFolder;
use std::alloc::{AllocError, Global};
use std::fmt::Display;
use std::os::unix::fs::symlink;
use std::test::Fail;
use std::{env, fs, io, process};

/// A call on a folder.
#[derive(Clone, Copy)]
enum Call {
    Enter(&'static str),
    Names,
    Read(&'static str, usize),
}

/// What a call on a folder gave, as a text: the names, each with a space after it, or the bytes.
fn made(
    alloc: Global,
    folder: &mut DirFolder<HostRuntime>,
    call: Call,
) -> Result<String, FolderFault> {
    match call {
        Call::Enter(name) => {
            folder.enter(alloc, name)?;
            Ok(String::new(alloc))
        }
        Call::Names => joined(alloc, folder.names(alloc)?),
        Call::Read(name, most) => {
            let bytes = folder.read(alloc, name, most)?;
            String::from_utf8(bytes).map_err(|_| FolderFault::Memory)
        }
    }
}

/// These names in order, each with a space after it.
fn joined(alloc: Global, mut names: Vec<String>) -> Result<String, FolderFault> {
    let mut text = String::new(alloc);
    names.sort()?;
    for name in names.as_slice() {
        text.push_str(name.as_str())?;
        text.push(' ')?;
    }
    Ok(text)
}

/// Whether a call gives this text, or fails where none is given.
fn holds(
    alloc: Global,
    folder: &mut DirFolder<HostRuntime>,
    call: Call,
    wanted: Option<&str>,
) -> bool {
    match made(alloc, folder, call) {
        Ok(text) => wanted == Some(text.as_str()),
        Err(fault) => wanted.is_none() && fault == FolderFault::Failed,
    }
}

/// How many calls hold before the first that does not.
fn calls_that_hold(
    alloc: Global,
    folder: &mut DirFolder<HostRuntime>,
    rows: &[(Call, Option<&str>)],
) -> usize {
    let mut count = 0usize;
    for (call, wanted) in rows {
        if !holds(alloc, folder, *call, *wanted) {
            return count;
        }
        count = count.saturating_add(1);
    }
    count
}

/// A path in a folder.
fn path(alloc: Global, root: &str, name: &str) -> Result<String, AllocError> {
    let mut path = String::from_str(alloc, root)?;
    path.push('/')?;
    path.push_str(name)?;
    Ok(path)
}

fn write_file(rt: &HostRuntime, root: &str, name: &str, text: &str) -> Result<(), Fail> {
    let path = path(rt.alloc(), root, name)?;
    Ok(fs::write(rt, path.as_str(), text)?)
}

fn link(rt: &HostRuntime, root: &str, name: &str, target: &str) -> Result<(), Fail> {
    let path = path(rt.alloc(), root, name)?;
    Ok(symlink(rt, target, path.as_str())?)
}

/// Makes a folder in another, and those that the other stands in.
fn make_folder(rt: &HostRuntime, root: &str, name: &str) -> Result<(), Fail> {
    let path = path(rt.alloc(), root, name)?;
    Ok(fs::create_dir_all(rt, path.as_str())?)
}

/// Writes a folder with two files, a folder with a file, and symbolic links to a file and to a folder.
fn lay_out(rt: &HostRuntime, root: &str) -> Result<(), Fail> {
    make_folder(rt, root, "inner")?;
    write_file(rt, root, "a.txt", "")?;
    write_file(rt, root, "B.java", "class B {}")?;
    write_file(rt, root, "inner/C.java", "class C {}")?;
    link(rt, root, "link.java", "B.java")?;
    link(rt, root, "linked", "inner")
}

/// The calls before a folder is entered.
const NOT_ENTERED: &[(Call, Option<&str>)] = &[
    (Call::Names, None),
    (Call::Enter("/nowhere"), None),
];

/// The calls in the folder that `lay_out` writes, and what they give.
const ON_DISK: &[(Call, Option<&str>)] = &[
    (Call::Names, Some("B.java a.txt inner/C.java ")),
    (Call::Read("B.java", 5), Some("class")),
    (Call::Read("B.java", 1_048_577), Some("class B {}")),
    (Call::Read("a.txt", 1), Some("")),
    (Call::Read("b.java", 5), None),
    (Call::Read("link.java", 5), None),
    (Call::Read("inner", 5), None),
    (Call::Read("inner/C.java", 5), Some("class")),
    (Call::Read("linked/C.java", 5), None),
    (Call::Read("inner/../B.java", 5), None),
    (Call::Read("B.java/", 5), None),
];

/// Makes so many subfolders, each in the one before.
fn nest(rt: &HostRuntime, root: &str, nesting: usize) -> Result<(), Fail> {
    let mut path = String::from_str(rt.alloc(), "n")?;
    for _ in 1..nesting {
        path.push_str("/n")?;
    }
    make_folder(rt, root, path.as_str())
}

/// A folder of this process alone.
fn own_folder(rt: &HostRuntime) -> Result<String, Fail> {
    let parent = env::temp_dir(rt)?;
    let number = process::id(rt.process());
    Ok(format!(in rt.alloc(); "{}/racer_{number}", parent.as_str())?)
}

/// How many of the calls hold on a folder that is entered between them.
fn tried(rt: &HostRuntime, folder: &mut DirFolder<HostRuntime>, root: &str) -> usize {
    let before = calls_that_hold(rt.alloc(), folder, NOT_ENTERED);
    if folder.enter(rt.alloc(), root).is_err() {
        return before;
    }
    before.saturating_add(calls_that_hold(rt.alloc(), folder, ON_DISK))
}

/// Whether the folder has names where so many subfolders stand in one another.
fn has_names(
    rt: &HostRuntime,
    folder: &mut DirFolder<HostRuntime>,
    root: &str,
    nesting: usize,
) -> Result<bool, Fail> {
    nest(rt, root, nesting)?;
    Ok(folder.names(rt.alloc()).is_ok())
}

#[test]
fn real_folder(rt: HostRuntime) -> Result<(), Fail> {
    let root = own_folder(&rt)?;
    lay_out(&rt, root.as_str())?;
    let mut folder = DirFolder::new(rt.clone()?);
    assert!(rt; tried(&rt, &mut folder, root.as_str()) == NOT_ENTERED.len() + ON_DISK.len());
    assert!(rt; has_names(&rt, &mut folder, root.as_str(), 64)?);
    assert!(rt; !has_names(&rt, &mut folder, root.as_str(), 65)?);
    fs::remove_dir_all(&rt, root.as_str())?;
    Ok(())
}

/// A printer that takes at most so many bytes of a write, or fails.
#[derive(Clone, Copy)]
struct Printer(Option<usize>);

impl Print for Printer {
    fn print<D: Display + Drop>(&self, _value: D) -> io::Result<()> {
        Err(io::Error::from(io::ErrorKind::Unsupported))
    }

    fn println<D: Display + Drop>(&self, _value: D) -> io::Result<()> {
        Err(io::Error::from(io::ErrorKind::Unsupported))
    }

    fn write_all(&self, _bytes: &[u8]) -> io::Result<()> {
        Err(io::Error::from(io::ErrorKind::Unsupported))
    }

    fn write_some(&self, bytes: &[u8]) -> io::Result<usize> {
        match self.0 {
            Some(most) => Ok(bytes.len().min(most)),
            None => Err(io::Error::from(io::ErrorKind::BrokenPipe)),
        }
    }
}

const PIECE: &[u8] = b"racer report 1\n";

/// Printers, and what a write of the piece gives on each.
const PRINTERS: &[(Printer, Result<usize, Failed>)] = &[
    (Printer(Some(100)), Ok(15)),
    (Printer(Some(4)), Ok(4)),
    (Printer(Some(0)), Err(Failed)),
    (Printer(None), Err(Failed)),
];

/// How many printers take as much of the piece as they should before the first that does not.
fn printers_that_hold() -> usize {
    let mut count = 0usize;
    for (printer, wanted) in PRINTERS {
        if StdSink::new(printer).write(PIECE) != *wanted {
            return count;
        }
        count = count.saturating_add(1);
    }
    count
}

#[test]
fn printers(rt: HostRuntime) {
    assert!(rt; printers_that_hold() == PRINTERS.len());
    assert!(rt; StdSink::new(&Printer(Some(0))).write(b"") == Ok(0));
    assert!(rt; StdSink::new(&rt).write(PIECE) == Ok(15));
}
