//! Tests of the top call with a folder and a sink each of whose calls fails once, and of calls that are not made.
use super::*;
use crate::tests::{Case, DINNER, REFUSED, held, holds};
use racer_base::MAX_FILE_BYTES;
use std::alloc::Global;
use std::sync::Wait;
use std::test::Fail;
use std::thread::Threads;

/// The folder of the dinner fails.
const DINNER_FAULT: Case = Case {
    status: Status::FolderFault,
    text: b"folder fault\n",
    ..DINNER
};

/// What comes of a call that fails while one source is read and its report of 315 bytes is written. No call is made
/// behind these, nor any on the folder behind a refusal.
const CALLS: &[Case] = &[
    Case {
        folder_fails: &[0],
        ..DINNER_FAULT
    },
    Case {
        folder_fails: &[1],
        ..DINNER_FAULT
    },
    Case {
        folder_fails: &[2],
        ..DINNER_FAULT
    },
    Case {
        folder_fails: &[3],
        most: 1,
        sink_fails: &[315],
        ..DINNER
    },
    Case {
        folder_fails: &[0],
        sink_fails: &[0],
        status: Status::SinkFault,
        text: b"",
        ..DINNER
    },
    Case {
        files: &[("A.java", b"int x;"), ("B.java", b"class B { }")],
        folder_fails: &[3],
        text: b"refused A.java:1:1 not a unit\n",
        ..REFUSED
    },
];

/// Files of 1 MiB, one more than are read: the 33rd is the first with which they are too many bytes.
const LONG_FILES: Case = Case {
    folder_fails: &[35],
    text: b"refused too many bytes 34603008\n",
    ..REFUSED
};

/// One file more than are read: their names are counted before the first is read, which would fail.
const MANY_FILES: Case = Case {
    folder_fails: &[2],
    text: b"refused too many files 4097\n",
    ..REFUSED
};

/// How many writes of one byte, from the first, each end a run with what was written before where they fail.
fn failing_writes_that_hold<R: Threads + Wait + Sync>(
    rt: &R,
    alloc: Global,
    row: &Case,
) -> Result<usize, Fail> {
    for at in 0..row.text.len() {
        let Ok(call) = u32::try_from(at) else {
            return Ok(at);
        };
        let failing = [call];
        let cut = Case {
            most: 1,
            sink_fails: &failing,
            status: Status::SinkFault,
            text: &row.text[..at],
            ..*row
        };
        if !holds(rt, alloc, &cut)? {
            return Ok(at);
        }
    }
    Ok(row.text.len())
}

/// So many names of sources.
fn names(alloc: Global, count: u32) -> Result<Vec<String>, Fail> {
    let mut names = Vec::new(alloc);
    for number in 0..count {
        names.push(format!(in alloc; "A{number}.java")?)?;
    }
    Ok(names)
}

/// Files of these names and bytes.
fn files<'a>(
    alloc: Global,
    names: &'a [String],
    bytes: &'a [u8],
) -> Result<Vec<(&'a str, &'a [u8])>, Fail> {
    let mut files = Vec::new(alloc);
    for name in names {
        files.push((name.as_str(), bytes))?;
    }
    Ok(files)
}

/// Whether the row holds over so many files of these bytes, in place of its own.
fn holds_over<R: Threads + Wait + Sync>(
    rt: &R,
    alloc: Global,
    count: u32,
    bytes: &[u8],
    row: &Case,
) -> Result<bool, Fail> {
    let names = names(alloc, count)?;
    let files = files(alloc, names.as_slice(), bytes)?;
    let files = files.as_slice();
    holds(rt, alloc, &Case { files, ..*row })
}

#[test]
fn every_call_fails_once(rt: HostRuntime) -> Result<(), Fail> {
    assert!(rt; held(&rt, rt.alloc(), CALLS)? == CALLS.len());
    assert!(rt; failing_writes_that_hold(&rt, rt.alloc(), &DINNER)? == DINNER.text.len());
    Ok(())
}

#[test]
fn no_read_behind_too_many_bytes(rt: HostRuntime) -> Result<(), Fail> {
    let bytes = vec![in rt.alloc(); b' '; MAX_FILE_BYTES]?;
    assert!(rt; holds_over(&rt, rt.alloc(), 34, bytes.as_slice(), &LONG_FILES)?);
    Ok(())
}

#[test]
fn no_read_behind_too_many_files(rt: HostRuntime) -> Result<(), Fail> {
    assert!(rt; holds_over(&rt, rt.alloc(), 4097, b"class A { }", &MANY_FILES)?);
    Ok(())
}
