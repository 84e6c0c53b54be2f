//! Tests of the top call, each a row of words, files and failing calls with what is to come of it.
ghost use Rattle.std.specs.Prelude.{◌≡◌, ◌<◌, IfOk};
ghost use Rattle.racer_memory.specs.MemoryFolder.{faults_of};
ghost use Rattle.racer_memory.specs.MemorySink as sinks;

use super::*;
use racer_base::{Gate, Memory, Text};
use racer_memory::{MemoryFolder, MemorySink};
use std::alloc::Global;
use std::sync::Wait;
use std::test::Fail;
use std::thread::Threads;

/// One call of `run` on a folder of the name `src`, and what it answers and writes.
#[derive(Clone, Copy)]
pub(crate) struct Case<'a> {
    pub words: &'a [&'a str],
    pub files: &'a [(&'a str, &'a [u8])],
    /// The calls on the folder that fail, by their numbers from 0.
    pub folder_fails: &'a [u32],
    /// How many bytes the sink takes in all, and at most in one call.
    pub capacity: usize,
    pub most: usize,
    /// The calls on the sink that fail.
    pub sink_fails: &'a [u32],
    pub status: Status,
    pub text: &'a [u8],
}

const EMPTY: &[u8] = b"racer report 1\nfiles 0 classes 0 methods 0\nwarnings 0 confirmed 0\n";

pub(crate) const USAGE: &[u8] =
    b"usage: racer (FOLDER | --made N) [--workers N] [--json] [--summaries] [--history] \
    [--containers] [--typed] [--replay NAME] [--edits NAME]\n";

/// A report on an empty folder, into a sink that takes all at once.
pub(crate) const PLAIN: Case = Case {
    words: &["src"],
    files: &[],
    folder_fails: &[],
    capacity: 100_000,
    most: 10_000,
    sink_fails: &[],
    status: Status::Clean,
    text: EMPTY,
};

/// Words that ask for nothing.
const WRONG: Case = Case {
    words: &[],
    status: Status::Usage,
    text: USAGE,
    ..PLAIN
};

/// A folder that fails.
pub(crate) const FAULT: Case = Case {
    status: Status::FolderFault,
    text: b"folder fault\n",
    ..PLAIN
};

/// Sources that are refused.
pub(crate) const REFUSED: Case = Case {
    status: Status::Refused,
    ..PLAIN
};

/// Two files without a fault.
const TWO: &[(&str, &[u8])] = &[("A.java", b"class A { }"), ("B.java", b"class B { }")];

/// Words, folders, and calls that fail.
const CALLS: &[Case] = &[
    WRONG,
    Case {
        words: &["src", "--workers", "0"],
        ..WRONG
    },
    Case {
        words: &["src", "--workers", "65"],
        ..WRONG
    },
    Case {
        words: &["src", "--workers", "08"],
        ..WRONG
    },
    Case {
        words: &["src", "--made", "3"],
        ..WRONG
    },
    Case {
        words: &["--made", "801"],
        ..WRONG
    },
    Case {
        words: &["--replay", "w.json"],
        ..WRONG
    },
    Case {
        words: &["src", "--replay", "w.json", "--json"],
        ..WRONG
    },
    Case {
        words: &["src", "--replay", "w.json", "--workers", "4"],
        ..WRONG
    },
    Case {
        words: &["--made", "1", "--history"],
        folder_fails: &[0],
        ..WRONG
    },
    Case {
        words: &["--made", "1", "--containers"],
        ..WRONG
    },
    Case {
        words: &["--edits", "e"],
        ..WRONG
    },
    Case {
        words: &["src", "--edits", "-"],
        ..WRONG
    },
    Case {
        words: &["src", "--edits", "e", "--containers"],
        ..WRONG
    },
    Case {
        words: &["src", "--edits", "e", "--replay", "w.json"],
        ..WRONG
    },
    Case {
        words: &["src", "--what"],
        ..WRONG
    },
    Case {
        words: &["src", "lib"],
        ..WRONG
    },
    PLAIN,
    Case {
        words: &["src", "--workers", "64"],
        ..PLAIN
    },
    Case {
        words: &["src", "--json"],
        text: b"{\"classes\":0,\"files\":0,\"methods\":0,\"not_analysed\":[],\"profile\":5,\"skipped\":[],\
          \"warnings\":[]}\n",
        ..PLAIN
    },
    Case {
        words: &["src", "--workers", "1", "--history"],
        text: b"racer report 1\nfiles 0 classes 0 methods 0\nwarnings 0 confirmed 0\nleave 0\n",
        ..PLAIN
    },
    Case {
        words: &["src", "--json", "--workers", "1", "--history"],
        text: b"{\"classes\":0,\"files\":0,\"methods\":0,\"not_analysed\":[],\"profile\":5,\"skipped\":[],\
          \"warnings\":[]}\n\
          leave 0\n",
        ..PLAIN
    },
    Case {
        files: TWO,
        text: b"racer report 1\nfiles 2 classes 2 methods 2\nwarnings 0 confirmed 0\n",
        ..PLAIN
    },
    Case {
        words: &["lib"],
        ..FAULT
    },
    Case {
        files: TWO,
        folder_fails: &[3],
        ..FAULT
    },
    Case {
        most: 16,
        sink_fails: &[2],
        status: Status::SinkFault,
        text: b"racer report 1\nfiles 0 classes 0",
        ..PLAIN
    },
    Case {
        capacity: 10,
        status: Status::SinkFault,
        text: b"racer repo",
        ..PLAIN
    },
    Case {
        folder_fails: &[1],
        sink_fails: &[0],
        status: Status::SinkFault,
        text: b"",
        ..PLAIN
    },
];

/// A method that calls another.
pub(crate) const DINNER: Case = Case {
    files: &[(
        "Dinner.java",
        b"@ThreadSafe\npublic class Dinner {\n  private int mTemperature;\n  public void makeDinner() {\n\
          \x20   boilWater();\n  }\n  private void boilWater() {\n    mTemperature = 100;\n  }\n}\n",
    )],
    status: Status::Warned,
    text: b"racer report 1\nfiles 1 classes 1 methods 3\n\
      warning Dinner.makeDinner/0 write this.mTemperature\n at Dinner.java:5:5\n at Dinner.java:8:5\n\
      \x20with Dinner.makeDinner/0 write this.mTemperature\n at Dinner.java:5:5\n at Dinner.java:8:5\n\
      \x20mark confirmed\n first 0 turns - steps 4\n second 1 turns - steps 4\nwarnings 1 confirmed 1\n",
    ..PLAIN
};

/// Folders that are accepted and that are refused.
const SOURCES: &[Case] = &[
    DINNER,
    Case {
        words: &["src", "--workers", "64"],
        ..DINNER
    },
    Case {
        words: &["src", "--summaries"],
        text: b"racer report 1\nfiles 1 classes 1 methods 3\n\
          summary Dinner.<new>/0\n result this\n\
          summary Dinner.makeDinner/0\n write this.mTemperature at 5:5\n wobbly this.mTemperature\n result unnamed\n\
          summary Dinner.boilWater/0\n write this.mTemperature at 8:5\n wobbly this.mTemperature\n result unnamed\n\
          warning Dinner.makeDinner/0 write this.mTemperature\n at Dinner.java:5:5\n at Dinner.java:8:5\n\
          \x20with Dinner.makeDinner/0 write this.mTemperature\n at Dinner.java:5:5\n at Dinner.java:8:5\n\
          \x20mark confirmed\n first 0 turns - steps 4\n second 1 turns - steps 4\nwarnings 1 confirmed 1\n",
        ..DINNER
    },
    Case {
        words: &["src", "--summaries", "--json"],
        text: b"{\"classes\":1,\"files\":1,\"methods\":3,\"not_analysed\":[],\"profile\":5,\"skipped\":[],\
          \"summaries\":[{\"accesses\":[],\"method\":\"Dinner.<new>/0\",\"result\":\"this\",\
          \"wobbly\":[]},{\"accesses\":[\"write this.mTemperature at 5:5\"],\
          \"method\":\"Dinner.makeDinner/0\",\"result\":\"unnamed\",\
          \"wobbly\":[\"this.mTemperature\"]},{\"accesses\":[\"write this.mTemperature at 8:5\"],\
          \"method\":\"Dinner.boilWater/0\",\"result\":\"unnamed\",\
          \"wobbly\":[\"this.mTemperature\"]}],\"warnings\":[{\"at\":[\"Dinner.java:5:5\",\
          \"Dinner.java:8:5\"],\"kind\":\"write\",\"locked\":false,\"main\":false,\
          \"mark\":{\"witness\":{\"class\":\"Dinner\",\"entries\":[\"makeDinner/0\",\"makeDinner/0\"],\
          \"legs\":[{\"steps\":4,\"thread\":0,\"turns\":\"\"},{\"steps\":4,\"thread\":1,\
          \"turns\":\"\"}],\"objects\":[],\"path\":\"this.mTemperature\",\"version\":2},\
          \"word\":\"confirmed\"},\
          \"method\":\"Dinner.makeDinner/0\",\"path\":\"this.mTemperature\",\
          \"with\":{\"at\":[\"Dinner.java:5:5\",\"Dinner.java:8:5\"],\"kind\":\"write\",\
          \"locked\":false,\"main\":false,\"method\":\"Dinner.makeDinner/0\",\
          \"path\":\"this.mTemperature\"}}]}\n",
        ..DINNER
    },
    Case {
        words: &["src", "--workers", "1", "--history"],
        text: b"racer report 1\nfiles 1 classes 1 methods 3\n\
          warning Dinner.makeDinner/0 write this.mTemperature\n at Dinner.java:5:5\n at Dinner.java:8:5\n\
          \x20with Dinner.makeDinner/0 write this.mTemperature\n at Dinner.java:5:5\n at Dinner.java:8:5\n\
          \x20mark confirmed\n first 0 turns - steps 4\n second 1 turns - steps 4\nwarnings 1 confirmed 1\n\
          take 0 Dinner.<new>/0\npublish 0 Dinner.<new>/0\ntake 0 Dinner.makeDinner/0\n\
          park 0 Dinner.makeDinner/0 Dinner.boilWater/0\ntake 0 Dinner.boilWater/0\npublish 0 Dinner.boilWater/0\n\
          take 0 Dinner.makeDinner/0\npublish 0 Dinner.makeDinner/0\nleave 0\n",
        ..DINNER
    },
    Case {
        files: &[(
            "A.java",
            b"@ThreadSafe class A { int x; void f() { this.x = 1; synchronized (this) { this.x = 2; } } }",
        )],
        status: Status::Warned,
        text: b"racer report 1\nfiles 1 classes 1 methods 2\n\
          warning A.f/0 write this.x\n at A.java:1:46\n with A.f/0 write this.x\n at A.java:1:46\n\
          \x20mark confirmed\n first 0 turns - steps 2\n second 1 turns - steps 2\n\
          warning A.f/0 write this.x locked\n at A.java:1:80\n with A.f/0 write this.x\n at A.java:1:46\n\
          \x20mark confirmed\n first 1 turns - steps 2\n second 0 turns - steps 8\n\
          warnings 2 confirmed 2\n",
        ..PLAIN
    },
    Case {
        files: &[(
            "Two.java",
            b"@ThreadSafe class Two { int n; final Object k = new Object(); \
              void a() { synchronized (k) { n = 1; } } synchronized void b() { n = 2; } }",
        )],
        text: b"racer report 1\nfiles 1 classes 1 methods 3\nwarnings 0 confirmed 0\n",
        ..PLAIN
    },
    Case {
        files: &[("A.java", b"class A { interface I { } static { } }")],
        text: b"racer report 1\nfiles 1 classes 1 methods 1\n\
          skipped A.java:1:11\nskipped A.java:1:27\nwarnings 0 confirmed 0\n",
        ..PLAIN
    },
    Case {
        files: &[(
            "Loop.java",
            b"@ThreadSafe\nclass Loop {\n  int c;\n  void m() { n(); }\n  void n() { m(); }\n\
              \x20 void k() { m(); this.c = 1; }\n}\n",
        )],
        status: Status::Warned,
        text: b"racer report 1\nfiles 1 classes 1 methods 4\n\
          not analysed Loop.m/0 Loop.java:4:8 recursive\nnot analysed Loop.n/0 Loop.java:5:8 recursive\n\
          warning Loop.k/0 write this.c\n at Loop.java:6:24\n with Loop.k/0 write this.c\n at Loop.java:6:24\n\
          \x20mark unread Loop.java:6:14\nwarnings 1 confirmed 0\n",
        ..PLAIN
    },
    Case {
        files: &[("A.java", b"class A {}"), ("B.java", b"class B {}\n/* x")],
        text: b"refused B.java:2:1 unclosed\n",
        ..REFUSED
    },
    Case {
        files: &[("A.java", b"class A { int x; int x; }")],
        text: b"refused A.java:1:22 duplicate field, first A.java:1:15\n",
        ..REFUSED
    },
];

fn strings(alloc: Global, words: &[&str]) -> Result<Vec<String>, Fail> {
    let mut strings = Vec::new(alloc);
    for word in words {
        strings.push(String::from_str(alloc, word)?)?;
    }
    Ok(strings)
}

/// A file of this name and these bytes.
fn file(alloc: Global, name: &str, bytes: &[u8]) -> Result<(String, Vec<u8>), Fail> {
    let bytes = bytes.to_vec(alloc)?;
    Ok((String::from_str(alloc, name)?, bytes))
}

fn files(alloc: Global, files: &[(&str, &[u8])]) -> Result<Vec<(String, Vec<u8>)>, Fail> {
    let mut held = Vec::new(alloc);
    for (name, bytes) in files {
        held.push(file(alloc, name, bytes)?)?;
    }
    Ok(held)
}

/// The folder of a row.
pub(crate) fn folder(alloc: Global, row: &Case) -> Result<MemoryFolder, Fail>
    ensures { IfOk result (λ folder. faults_of folder ≡ 0) }
{
    let failing = row.folder_fails.to_vec(alloc)?;
    let name = String::from_str(alloc, "src")?;
    let held = files(alloc, row.files)?;
    if !MemoryFolder::names_differ(held.as_slice()) {
        return Err(Fail::from("two files of one name"));
    }
    Ok(MemoryFolder::new(name, held, failing))
}

/// The sink of a row.
fn sink(alloc: Global, row: &Case) -> Result<MemorySink, Fail>
    ensures { IfOk result (λ sink. sinks.faults_of sink ≡ 0) }
{
    if row.most == 0 {
        return Err(Fail::from("a sink that takes nothing"));
    }
    let failing = row.sink_fails.to_vec(alloc)?;
    match MemorySink::new(alloc, row.capacity, row.most, failing) {
        Ok(sink) => Ok(sink),
        Err(_) => Err(Fail::from("no memory for a sink")),
    }
}

/// What the call of `run` of a row answers, and the sink with what it writes.
pub(crate) fn called<R: Threads + Wait + Sync, G: Gate + Sync>(
    rt: &R,
    alloc: Global,
    row: &Case,
    gate: &G,
) -> Result<(Status, MemorySink), Fail> {
    let words = strings(alloc, row.words)?;
    let mut folder = folder(alloc, row)?;
    let mut sink = sink(alloc, row)?;
    let status = run(rt, alloc, words.as_slice(), &mut folder, &mut sink, gate);
    Ok((status, sink))
}

/// Whether a call of `run` answers and writes what the row says.
pub(crate) fn holds<R: Threads + Wait + Sync>(
    rt: &R,
    alloc: Global,
    row: &Case,
) -> Result<bool, Fail> {
    let (status, sink) = called(rt, alloc, row, &OpenGate)?;
    Ok(status == row.status && sink.taken() == row.text)
}

/// How many rows hold before the first that does not.
pub(crate) fn held<R: Threads + Wait + Sync>(
    rt: &R,
    alloc: Global,
    rows: &[Case],
) -> Result<usize, Fail> {
    for (i, row) in rows.iter().enumerate() {
        if !holds(rt, alloc, row)? {
            return Ok(i);
        }
    }
    Ok(rows.len())
}

#[test]
fn calls(rt: HostRuntime) -> Result<(), Fail> {
    assert!(rt; held(&rt, rt.alloc(), CALLS)? == CALLS.len());
    assert!(rt; Status::Usage.exit_code() == ExitCode::from(2));
    Ok(())
}

#[test]
fn sources(rt: HostRuntime) -> Result<(), Fail> {
    assert!(rt; held(&rt, rt.alloc(), SOURCES)? == SOURCES.len());
    Ok(())
}

/// Texts that lie in themselves, and one that is too long for that.
const TEXTS: &[&str] = &["", "short", "of sixteen bytes", "of seventeen byte"];

/// How many texts are given back as strings, before the first that is not.
fn given_back(alloc: Global, texts: &[&str]) -> Result<usize, Memory> {
    for (i, text) in texts.iter().enumerate() {
        let string = Text::from_str(alloc, text)?.into_string(alloc)?;
        if string.as_str() != *text {
            return Ok(i);
        }
    }
    Ok(texts.len())
}

#[test]
fn texts_are_given_back(rt: HostRuntime) -> Result<(), Fail> {
    assert!(rt; matches!(given_back(rt.alloc(), TEXTS), Ok(4)));
    Ok(())
}
