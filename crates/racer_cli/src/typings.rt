//! Tests of the typings of classes, each a row of words and files with what is to come of it.
use super::*;
use crate::tests::{Case, PLAIN, USAGE, held};
use std::test::Fail;

/// A class that is typed, one that stores null, and one without an entry.
const CUPS: Case = Case {
    words: &["src", "--typed"],
    files: &[(
        "Cup.java",
        b"@ThreadSafe\nclass Cup {\n  int level;\n  synchronized void fill() { level = 1; }\n}\n\
          @ThreadSafe\nclass Pot {\n  Pot lid;\n  synchronized void open() { lid = null; }\n}\nclass Tap { }\n",
    )],
    text: b"racer report 1\nfiles 1 classes 3 methods 5\nwarnings 0 confirmed 0\n\
      typed Cup\nuntyped Pot Cup.java:9:30\n",
    ..PLAIN
};

/// Typings behind a report and before a history, and what they do not stand beside.
const TYPINGS: &[Case] = &[
    CUPS,
    Case {
        words: &["src", "--typed", "--workers", "1", "--history"],
        text: b"racer report 1\nfiles 1 classes 3 methods 5\nwarnings 0 confirmed 0\n\
          typed Cup\nuntyped Pot Cup.java:9:30\n\
          take 0 Cup.<new>/0\npublish 0 Cup.<new>/0\ntake 0 Cup.fill/0\npublish 0 Cup.fill/0\n\
          take 0 Pot.<new>/0\npublish 0 Pot.<new>/0\ntake 0 Pot.open/0\npublish 0 Pot.open/0\n\
          take 0 Tap.<new>/0\npublish 0 Tap.<new>/0\nleave 0\n",
        ..CUPS
    },
    Case {
        words: &["src", "--json", "--typed"],
        text: b"{\"classes\":3,\"files\":1,\"methods\":5,\"not_analysed\":[],\"profile\":5,\"skipped\":[],\
          \"warnings\":[]}\ntyped Cup\nuntyped Pot Cup.java:9:30\n",
        ..CUPS
    },
    Case {
        words: &["src"],
        text: b"racer report 1\nfiles 1 classes 3 methods 5\nwarnings 0 confirmed 0\n",
        ..CUPS
    },
    Case {
        words: &["src", "--typed"],
        ..PLAIN
    },
    Case {
        words: &["src", "--typed"],
        files: &[("A.java", b"class A { } class A { }")],
        status: Status::Refused,
        text: b"refused A.java:1:19 duplicate class, first A.java:1:7\n",
        ..PLAIN
    },
    Case {
        words: &["src", "--typed", "--replay", "w.json"],
        status: Status::Usage,
        text: USAGE,
        ..PLAIN
    },
    Case {
        words: &["src", "--edits", "e", "--typed"],
        status: Status::Usage,
        text: USAGE,
        ..PLAIN
    },
    Case {
        words: &["--made", "1", "--typed"],
        status: Status::Usage,
        text: USAGE,
        ..PLAIN
    },
    Case {
        words: &["src", "--typed", "--typed"],
        status: Status::Usage,
        text: USAGE,
        ..PLAIN
    },
];

#[test]
fn typings(rt: HostRuntime) -> Result<(), Fail> {
    assert!(rt; held(&rt, rt.alloc(), TYPINGS)? == TYPINGS.len());
    Ok(())
}
