//! Tests of several workers: that two work at once, that a printed history is the one that came about, and that no
//! report depends on its workers.
use super::*;
use crate::gates::{Meeting, Watching};
use crate::tests::{Case, DINNER, PLAIN, called, held};
use racer_memory::MemorySink;
use std::alloc::Global;
use std::str;
use std::sync::Wait;
use std::test::Fail;
use std::thread::Threads;

/// A class with two methods that call nothing.
const TWO_METHODS: Case = Case {
    words: &["src", "--workers", "2", "--history"],
    files: &[("A.java", b"class A { void f() { } }")],
    ..PLAIN
};

/// Runs of two workers whose history is not asked for.
const MEETINGS: &[Case] = &[
    Case {
        words: &["src", "--workers", "2"],
        ..TWO_METHODS
    },
    Case {
        words: &["--made", "2", "--workers", "2"],
        ..PLAIN
    },
];

/// A realistic class, one of whose methods calls another.
const STOCK: Case = Case {
    files: &[("Stock.java", STOCK_JAVA)],
    status: Status::Warned,
    text: STOCK_REPORT,
    ..PLAIN
};

/// The names of its methods, by their numbers.
const STOCK_METHODS: &[&str] = &[
    "Stock.<new>/1",
    "Stock.add/2",
    "Stock.noteChange/1",
    "Stock.total/0",
    "Stock.getLast/0",
    "Stock.getChanges/0",
    "Stock.close/0",
    "Stock.state/1",
];

const STOCK_JAVA: &[u8] = b"\
  package shop;\n\
  \n\
  import java.util.HashMap;\n\
  import java.util.Map;\n\
  import java.util.logging.Logger;\n\
  \n\
  /** Stock counts by article. */\n\
  public class Stock {\n\
  \x20 private static final Logger LOG = Logger.getLogger(\"stock\");\n\
  \x20 private final Map<String, Integer> counts = new HashMap<>();\n\
  \x20 private int changes;\n\
  \x20 private String last;\n\
  \x20 private volatile boolean closed;\n\
  \n\
  \x20 public Stock(String first) {\n\
  \x20   this.last = first;\n\
  \x20 }\n\
  \n\
  \x20 public synchronized void add(String name, int n) {\n\
  \x20   if (closed || n <= 0) {\n\
  \x20     return;\n\
  \x20   }\n\
  \x20   Integer old = counts.get(name);\n\
  \x20   counts.put(name, old == null ? n : old + n);\n\
  \x20   noteChange(name);\n\
  \x20 }\n\
  \n\
  \x20 private void noteChange(String name) {\n\
  \x20   changes++;\n\
  \x20   last = name;\n\
  \x20   LOG.info(\"changed \" + name);\n\
  \x20 }\n\
  \n\
  \x20 public synchronized int total() {\n\
  \x20   int sum = 0;\n\
  \x20   for (Integer n : counts.values()) {\n\
  \x20     sum += n;\n\
  \x20   }\n\
  \x20   return sum;\n\
  \x20 }\n\
  \n\
  \x20 public String getLast() {\n\
  \x20   return last;\n\
  \x20 }\n\
  \n\
  \x20 public int getChanges() {\n\
  \x20   return changes;\n\
  \x20 }\n\
  \n\
  \x20 public void close() {\n\
  \x20   closed = true;\n\
  \x20 }\n\
  \n\
  \x20 public String state(int code) {\n\
  \x20   switch (code) {\n\
  \x20     case 0: return \"new\";\n\
  \x20     default: return closed ? \"closed\" : \"open\";\n\
  \x20   }\n\
  \x20 }\n\
  }\n";

const STOCK_REPORT: &[u8] = b"\
  racer report 1\n\
  files 1 classes 1 methods 8\n\
  warning Stock.add/2 write this.changes locked\n\
  \x20at Stock.java:25:5\n\
  \x20at Stock.java:29:5\n\
  \x20with Stock.getChanges/0 read this.changes\n\
  \x20at Stock.java:47:12\n\
  \x20mark confirmed\n\
  \x20first 1 turns - steps 1\n\
  \x20second 0 turns RRR steps 34\n\
  warning Stock.add/2 write this.last locked\n\
  \x20at Stock.java:25:5\n\
  \x20at Stock.java:30:5\n\
  \x20with Stock.getLast/0 read this.last\n\
  \x20at Stock.java:43:12\n\
  \x20mark confirmed\n\
  \x20first 1 turns - steps 1\n\
  \x20second 0 turns RRR steps 38\n\
  warning Stock.getLast/0 read this.last\n\
  \x20at Stock.java:43:12\n\
  \x20with Stock.add/2 write this.last locked\n\
  \x20at Stock.java:25:5\n\
  \x20at Stock.java:30:5\n\
  \x20mark confirmed\n\
  \x20first 0 turns - steps 1\n\
  \x20second 1 turns RRR steps 38\n\
  warning Stock.getChanges/0 read this.changes\n\
  \x20at Stock.java:47:12\n\
  \x20with Stock.add/2 write this.changes locked\n\
  \x20at Stock.java:25:5\n\
  \x20at Stock.java:29:5\n\
  \x20mark confirmed\n\
  \x20first 0 turns - steps 1\n\
  \x20second 1 turns RRR steps 34\n\
  warnings 4 confirmed 4\n";

/// What one worker does with its methods.
const STOCK_HISTORY: &[u8] = b"\
  take 0 Stock.<new>/1\n\
  publish 0 Stock.<new>/1\n\
  take 0 Stock.add/2\n\
  park 0 Stock.add/2 Stock.noteChange/1\n\
  take 0 Stock.noteChange/1\n\
  publish 0 Stock.noteChange/1\n\
  take 0 Stock.add/2\n\
  publish 0 Stock.add/2\n\
  take 0 Stock.total/0\n\
  publish 0 Stock.total/0\n\
  take 0 Stock.getLast/0\n\
  publish 0 Stock.getLast/0\n\
  take 0 Stock.getChanges/0\n\
  publish 0 Stock.getChanges/0\n\
  take 0 Stock.close/0\n\
  publish 0 Stock.close/0\n\
  take 0 Stock.state/1\n\
  publish 0 Stock.state/1\n\
  leave 0\n";

/// The lines of a text that say what this worker took and published, in order.
fn worker_lines(alloc: Global, text: &[u8], worker: u32) -> Result<String, Fail> {
    let take = format!(in alloc; "take {worker} ")?;
    let publish = format!(in alloc; "publish {worker} ")?;
    let Ok(text) = str::from_utf8(text) else {
        return Err(Fail::from("a report that is no text"));
    };
    let mut lines = String::new(alloc);
    for line in text.lines() {
        if line.starts_with(take.as_str()) || line.starts_with(publish.as_str()) {
            lines.push_str(line)?;
            lines.push('\n')?;
        }
    }
    Ok(lines)
}

/// How many workers, from the first on, were told in a text's history as they passed the gate.
fn workers_as_told(
    alloc: Global,
    watching: &Watching,
    text: &[u8],
    names: &[&str],
) -> Result<u32, Fail> {
    for worker in 0..8u32 {
        let told = worker_lines(alloc, text, worker)?;
        if told != watching.lines(alloc, worker, names)? {
            return Ok(worker);
        }
    }
    Ok(8)
}

/// How many of these runs have two workers that meet, before the first that has not.
fn meetings<R: Threads + Wait + Sync>(rt: &R, alloc: Global, rows: &[Case]) -> Result<usize, Fail> {
    for (i, row) in rows.iter().enumerate() {
        let gate = Meeting::new(alloc)?;
        let (_status, _sink) = called(rt, alloc, row, &gate)?;
        if !gate.met() {
            return Ok(i);
        }
    }
    Ok(rows.len())
}

#[test]
fn two_workers_meet(rt: HostRuntime) -> Result<(), Fail> {
    let gate = Meeting::new(rt.alloc())?;
    let (_status, sink) = called(&rt, rt.alloc(), &TWO_METHODS, &gate)?;
    assert!(rt; gate.met());
    let names = ["A.<new>/0", "A.f/0"];
    assert!(rt; workers_as_told(rt.alloc(), &gate.watching, sink.taken(), &names)? == 8);
    assert!(rt; meetings(&rt, rt.alloc(), MEETINGS)? == MEETINGS.len());
    Ok(())
}

/// Words that ask for the history of several workers.
const HISTORIES: &[&[&str]] = &[
    &["src", "--history", "--workers", "1"],
    &["src", "--history", "--workers", "2"],
    &["src", "--history", "--workers", "8"],
];

/// Whether a run with these words tells its workers as they passed the gate, behind the report of the realistic class.
fn is_told<R: Threads + Wait + Sync>(rt: &R, alloc: Global, words: &[&str]) -> Result<bool, Fail> {
    let row = Case { words, ..STOCK };
    let gate = Watching::new(alloc)?;
    let (status, sink) = called(rt, alloc, &row, &gate)?;
    let told = workers_as_told(alloc, &gate, sink.taken(), STOCK_METHODS)?;
    Ok(told == 8 && status == row.status && sink.taken().starts_with(row.text))
}

/// How many of these words are answered with the history that came about, before the first that are not.
fn histories_told<R: Threads + Wait + Sync>(
    rt: &R,
    alloc: Global,
    all: &[&[&str]],
) -> Result<usize, Fail> {
    for (i, words) in all.iter().enumerate() {
        if !is_told(rt, alloc, words)? {
            return Ok(i);
        }
    }
    Ok(all.len())
}

#[test]
fn histories_are_what_came_about(rt: HostRuntime) -> Result<(), Fail> {
    assert!(rt; histories_told(&rt, rt.alloc(), HISTORIES)? == HISTORIES.len());
    Ok(())
}

/// What a run with these words writes of the realistic class.
fn stock<R: Threads + Wait + Sync>(
    rt: &R,
    alloc: Global,
    words: &[&str],
) -> Result<MemorySink, Fail> {
    let row = Case { words, ..STOCK };
    let (_status, sink) = called(rt, alloc, &row, &OpenGate)?;
    Ok(sink)
}

#[test]
fn history_of_one(rt: HostRuntime) -> Result<(), Fail> {
    let words = ["src", "--workers", "1", "--history"];
    let sink = stock(&rt, rt.alloc(), &words)?;
    assert!(rt; sink.taken().strip_prefix(STOCK_REPORT) == Some(STOCK_HISTORY));
    let words = ["src", "--workers", "1", "--history", "--json"];
    let json = stock(&rt, rt.alloc(), &words)?;
    assert!(rt; json.taken().ends_with(STOCK_HISTORY));
    assert!(rt; json.taken().starts_with(b"{\"classes\":1,\"files\":1,"));
    Ok(())
}

/// The dinner and the realistic class with several numbers of workers.
const RUNS: &[Case] = &[
    Case {
        words: &["src", "--workers", "1"],
        ..DINNER
    },
    Case {
        words: &["src", "--workers", "2"],
        ..DINNER
    },
    Case {
        words: &["src", "--workers", "64"],
        ..DINNER
    },
    Case {
        words: &["src", "--workers", "1"],
        ..STOCK
    },
    Case {
        words: &["src", "--workers", "2"],
        ..STOCK
    },
    Case {
        words: &["src", "--workers", "64"],
        ..STOCK
    },
];

#[test]
fn workers_change_no_report(rt: HostRuntime) -> Result<(), Fail> {
    assert!(rt; held(&rt, rt.alloc(), RUNS)? == RUNS.len());
    Ok(())
}
