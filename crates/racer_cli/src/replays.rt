//! Tests of replays and made folders, each a row of words, files and failing calls with what is to come of it.
use super::*;
use crate::tests::{Case, FAULT, PLAIN, REFUSED, held};
use std::test::Fail;

const GATE: &[u8] = b"@ThreadSafe class Gate { int c; int k; \
    void a() { synchronized (this) { this.k = 1; } this.c = 1; } synchronized int b() { return this.c; } }";

/// The witness of the second warning on it.
const WITNESS: &[u8] = b"{\"class\":\"Gate\",\"entries\":[\"b/0\",\"a/0\"],\"legs\":[\
    {\"steps\":9,\"thread\":1,\"turns\":\"\"},{\"steps\":3,\"thread\":0,\"turns\":\"\"}],\"objects\":[],\"version\":1}";

const REPLAY: &[&str] = &["src", "--replay", "w.json"];

/// A replay whose threads race.
const RACES: Case = Case {
    words: REPLAY,
    files: &[("Gate.java", GATE), ("w.json", WITNESS)],
    text: b"races\n",
    ..PLAIN
};

/// A file that is no witness.
const NO_WITNESS: Case = Case {
    words: REPLAY,
    status: Status::NotAWitness,
    text: b"not a witness: version\n",
    ..PLAIN
};

/// A made folder; the folder that is handed in would fail.
const MADE: Case = Case {
    folder_fails: &[0],
    status: Status::Warned,
    ..PLAIN
};

/// Replays: what the folder's calls and the order of refusals come to. What each file is answered is data of the stored
/// run.
const REPLAYS: &[Case] = &[
    RACES,
    Case {
        files: &[("Gate.java", GATE), ("w.json", b"{}")],
        ..NO_WITNESS
    },
    Case {
        words: REPLAY,
        files: &[("Gate.java", GATE)],
        ..FAULT
    },
    Case {
        words: REPLAY,
        files: &[("A.java", b"int x;")],
        text: b"refused A.java:1:1 not a unit\n",
        ..REFUSED
    },
    Case {
        folder_fails: &[0],
        status: Status::FolderFault,
        text: b"folder fault\n",
        ..RACES
    },
    Case {
        folder_fails: &[1],
        status: Status::FolderFault,
        text: b"folder fault\n",
        ..RACES
    },
    Case {
        folder_fails: &[2],
        status: Status::FolderFault,
        text: b"folder fault\n",
        ..RACES
    },
    Case {
        folder_fails: &[3],
        status: Status::FolderFault,
        text: b"folder fault\n",
        ..RACES
    },
    Case {
        folder_fails: &[4],
        ..RACES
    },
    Case {
        most: 1,
        sink_fails: &[3],
        status: Status::SinkFault,
        text: b"rac",
        ..RACES
    },
];

/// Made folders.
const FOLDERS: &[Case] = &[
    Case {
        words: &["--made", "1"],
        text: b"made 1\nfiles 1 classes 1 methods 4\nwarnings 3 confirmed 3\n",
        ..MADE
    },
    Case {
        words: &["--made", "100"],
        text: b"made 100\nfiles 100 classes 100 methods 490\nwarnings 580 confirmed 480\n",
        ..MADE
    },
    Case {
        words: &["--made", "100", "--workers", "1"],
        text: b"made 100\nfiles 100 classes 100 methods 490\nwarnings 580 confirmed 480\n",
        ..MADE
    },
    Case {
        words: &["--made", "100", "--workers", "2"],
        text: b"made 100\nfiles 100 classes 100 methods 490\nwarnings 580 confirmed 480\n",
        ..MADE
    },
    Case {
        words: &["--made", "100", "--workers", "64"],
        text: b"made 100\nfiles 100 classes 100 methods 490\nwarnings 580 confirmed 480\n",
        ..MADE
    },
];

#[test]
fn replays(rt: HostRuntime) -> Result<(), Fail> {
    assert!(rt; held(&rt, rt.alloc(), REPLAYS)? == REPLAYS.len());
    Ok(())
}

#[test]
fn made_folders(rt: HostRuntime) -> Result<(), Fail> {
    assert!(rt; held(&rt, rt.alloc(), FOLDERS)? == FOLDERS.len());
    Ok(())
}
