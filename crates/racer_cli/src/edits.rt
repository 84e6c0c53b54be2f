//! Tests of sessions of edits, each a row of words and files with what is to come of it.
use super::*;
use crate::tests::{Case, FAULT, PLAIN, held, holds};
use std::alloc::Global;
use std::sync::Wait;
use std::test::Fail;
use std::thread::Threads;

const DINNER: &[u8] = b"@ThreadSafe\npublic class Dinner {\n\
    \x20 private int mTemperature;\n\
    \x20 public void makeDinner() {\n\
    \x20   boilWater();\n\
    \x20 }\n\
    \x20 private void boilWater() {\n\
    \x20   mTemperature = 100;\n\
    \x20 }\n}\n";

/// The same after an empty line.
const SHIFTED: &[u8] = b"\n@ThreadSafe\npublic class Dinner {\n\
    \x20 private int mTemperature;\n\
    \x20 public void makeDinner() {\n\
    \x20   boilWater();\n\
    \x20 }\n\
    \x20 private void boilWater() {\n\
    \x20   mTemperature = 100;\n\
    \x20 }\n}\n";

/// The same without its write.
const QUIET: &[u8] = b"@ThreadSafe\npublic class Dinner {\n\
    \x20 private int mTemperature;\n\
    \x20 public void makeDinner() {\n\
    \x20   boilWater();\n\
    \x20 }\n\
    \x20 private void boilWater() {\n\
    \x20 }\n}\n";

const REPORT: &str = "racer report 1\nfiles 1 classes 1 methods 3\n\
    warning Dinner.makeDinner/0 write this.mTemperature\n\
    \x20at Dinner.java:5:5\n at Dinner.java:8:5\n\
    \x20with Dinner.makeDinner/0 write this.mTemperature\n\
    \x20at Dinner.java:5:5\n at Dinner.java:8:5\n\
    \x20mark confirmed\n first 0 turns - steps 4\n second 1 turns - steps 4\n\
    warnings 1 confirmed 1\n";

const SHIFTED_REPORT: &str = "racer report 1\nfiles 1 classes 1 methods 3\n\
    warning Dinner.makeDinner/0 write this.mTemperature\n\
    \x20at Dinner.java:6:5\n at Dinner.java:9:5\n\
    \x20with Dinner.makeDinner/0 write this.mTemperature\n\
    \x20at Dinner.java:6:5\n at Dinner.java:9:5\n\
    \x20mark confirmed\n first 0 turns - steps 4\n second 1 turns - steps 4\n\
    warnings 1 confirmed 1\n";

const QUIET_REPORT: &str = "racer report 1\nfiles 1 classes 1 methods 3\nwarnings 0 confirmed 0\n";

/// A session over the files that follow.
const SESSION: Case = Case {
    words: &["src", "--edits", "e"],
    ..PLAIN
};

/// A file of edits that is none.
const NONE: Case = Case {
    status: Status::NotEdits,
    ..SESSION
};

/// Lines that are no edits, with the line of which it is said.
const LINES: &[(&[u8], &[u8])] = &[
    (b"Dinner.java", b"not edits: line 1\n"),
    (b"\n", b"not edits: line 1\n"),
    (b"Dinner.java e\n\n", b"not edits: line 2\n"),
    (b" Dinner.java e\n", b"not edits: line 1\n"),
    (b"Dinner.java  e\n", b"not edits: line 1\n"),
    (b"Dinner.java e \n", b"not edits: line 1\n"),
    (b"Dinner.java e e\n", b"not edits: line 1\n"),
    (b"Dinner.java\te\n", b"not edits: line 1\n"),
    (b"e Dinner.java\n", b"not edits: line 1\n"),
    (b"Dinner.jav e\n", b"not edits: line 1\n"),
    (b"Dinner.java \xff\n", b"not edits: line 1\n"),
    (b"\xff e\n", b"not edits: line 1\n"),
    (
        b"Dinner.java Dinner.java\nDinner.java ",
        b"not edits: line 2\n",
    ),
];

/// Dinner, a file of these bytes, and a file of edits.
fn files<'a>(
    alloc: Global,
    dinner: &'a [u8],
    tried: &'a [u8],
    edits: &'a [u8],
) -> Result<Vec<(&'a str, &'a [u8])>, Fail> {
    let mut files = Vec::new(alloc);
    files.push(("Dinner.java", dinner))?;
    files.push(("x", tried))?;
    files.push(("e", edits))?;
    Ok(files)
}

/// Whether the row holds over these files, in place of its own.
fn holds_over<R: Threads + Wait + Sync>(
    rt: &R,
    alloc: Global,
    tried: &[u8],
    edits: &[u8],
    row: &Case,
) -> Result<bool, Fail> {
    let files = files(alloc, DINNER, tried, edits)?;
    let files = files.as_slice();
    holds(rt, alloc, &Case { files, ..*row })
}

/// How many of these are answered so, before the first that is not.
fn refused<R: Threads + Wait + Sync>(
    rt: &R,
    alloc: Global,
    lines: &[(&[u8], &[u8])],
) -> Result<usize, Fail> {
    for (i, (edits, text)) in lines.iter().enumerate() {
        if !holds_over(rt, alloc, QUIET, edits, &Case { text, ..NONE })? {
            return Ok(i);
        }
    }
    Ok(lines.len())
}

#[test]
fn lines_that_are_no_edits(rt: HostRuntime) -> Result<(), Fail> {
    assert!(rt; refused(&rt, rt.alloc(), LINES)? == LINES.len());
    Ok(())
}

/// So many times the same line, and the last one without its line feed.
fn repeated(alloc: Global, line: &str, count: usize) -> Result<String, Fail> {
    let mut text = String::new(alloc);
    for number in 0..count {
        if number > 0 {
            text.push_str("\n")?;
        }
        text.push_str(line)?;
    }
    Ok(text)
}

/// The report, and so often what is said of an edit that changes nothing.
fn repeated_report(alloc: Global, count: usize) -> Result<String, Fail> {
    let mut text = String::from_str(alloc, REPORT)?;
    for _edit in 0..count {
        text.push_str("edit Dinner.java analysed 0\n")?;
        text.push_str(REPORT)?;
    }
    Ok(text)
}

#[test]
fn most_edits(rt: HostRuntime) -> Result<(), Fail> {
    let alloc = rt.alloc();
    let edits = repeated(alloc, "Dinner.java Dinner.java", 64)?;
    let more = repeated(alloc, "Dinner.java Dinner.java", 65)?;
    let text = repeated_report(alloc, 64)?;
    let most = Case {
        status: Status::Warned,
        text: text.as_str().as_bytes(),
        ..SESSION
    };
    let one_more = Case {
        text: b"not edits: line 65\n",
        ..NONE
    };
    assert!(rt; holds_over(&rt, alloc, QUIET, edits.as_str().as_bytes(), &most)?);
    assert!(rt; holds_over(&rt, alloc, QUIET, more.as_str().as_bytes(), &one_more)?);
    Ok(())
}

/// Texts in a row.
fn joined(alloc: Global, texts: &[&str]) -> Result<String, Fail> {
    let mut all = String::new(alloc);
    for text in texts {
        all.push_str(text)?;
    }
    Ok(all)
}

#[test]
fn edits(rt: HostRuntime) -> Result<(), Fail> {
    let alloc = rt.alloc();
    let said = joined(
        alloc,
        &[
            REPORT,
            "edit Dinner.java analysed 0\n",
            SHIFTED_REPORT,
            "edit Dinner.java analysed 2\n",
            QUIET_REPORT,
        ],
    )?;
    let behind_refused = joined(
        alloc,
        &[
            REPORT,
            "edit Dinner.java\nrefused Dinner.java byte 0 not utf-8\n",
            "edit Dinner.java analysed 2\n",
            QUIET_REPORT,
            "edit Dinner.java\nrefused Dinner.java:1:1 not a unit\n",
        ],
    )?;
    let cases = [
        Case {
            files: &[
                ("Dinner.java", DINNER),
                ("s", SHIFTED),
                ("q", QUIET),
                ("e", b"Dinner.java s\nDinner.java q\n"),
            ],
            text: said.as_str().as_bytes(),
            ..SESSION
        },
        // A carriage return belongs to the second name.
        Case {
            files: &[
                ("Dinner.java", DINNER),
                ("s\r", SHIFTED),
                ("q\r", QUIET),
                ("e", b"Dinner.java s\r\nDinner.java q\r\n"),
            ],
            text: said.as_str().as_bytes(),
            ..SESSION
        },
        // An edit that is refused, one behind it, and the file of edits itself as Java.
        Case {
            files: &[
                ("Dinner.java", DINNER),
                ("x", b"\xff"),
                ("q", QUIET),
                ("e", b"Dinner.java x\nDinner.java q\nDinner.java e\n"),
            ],
            status: Status::Refused,
            text: behind_refused.as_str().as_bytes(),
            ..SESSION
        },
        // Without an edit.
        Case {
            files: &[("Dinner.java", DINNER), ("e", b"")],
            status: Status::Warned,
            text: REPORT.as_bytes(),
            ..SESSION
        },
        // Sources are judged before the file of edits is read, which is not there.
        Case {
            files: &[("Dinner.java", b"class Dinner {")],
            status: Status::Refused,
            text: b"refused Dinner.java:1:14 unbalanced\n",
            ..SESSION
        },
    ];
    assert!(rt; held(&rt, alloc, &cases)? == cases.len());
    Ok(())
}

/// The calls: enter, names, the source, the edits, and what each of them names.
const FAULTS: &[Case] = &[
    Case {
        folder_fails: &[0],
        ..EDITED
    },
    Case {
        folder_fails: &[1],
        ..EDITED
    },
    Case {
        folder_fails: &[2],
        ..EDITED
    },
    Case {
        folder_fails: &[3],
        ..EDITED
    },
    Case {
        folder_fails: &[4],
        ..EDITED
    },
    Case {
        folder_fails: &[5],
        ..EDITED
    },
    // A name that is not there.
    Case {
        files: &[("Dinner.java", DINNER), ("e", b"Dinner.java x\n")],
        ..EDITED
    },
    Case {
        files: &[("Dinner.java", DINNER)],
        ..EDITED
    },
];

const EDITED: Case = Case {
    words: &["src", "--edits", "e"],
    files: &[
        ("Dinner.java", DINNER),
        ("s", SHIFTED),
        ("e", b"Dinner.java s\nDinner.java s\n"),
    ],
    ..FAULT
};

#[test]
fn faults_of_the_folder(rt: HostRuntime) -> Result<(), Fail> {
    assert!(rt; held(&rt, rt.alloc(), FAULTS)? == FAULTS.len());
    Ok(())
}

/// So many spaces.
fn spaces(alloc: Global, count: usize) -> Result<Vec<u8>, Fail> {
    Ok(vec![in alloc; b' '; count]?)
}

#[test]
fn long_files(rt: HostRuntime) -> Result<(), Fail> {
    let alloc = rt.alloc();
    let whole = spaces(alloc, 1_048_576)?;
    let longer = spaces(alloc, 1_048_577)?;
    let too_long = joined(
        alloc,
        &[REPORT, "edit Dinner.java\nrefused Dinner.java too long\n"],
    )?;
    let empty = joined(
        alloc,
        &[
            REPORT,
            "edit Dinner.java analysed 0\n",
            "racer report 1\nfiles 1 classes 0 methods 0\nwarnings 0 confirmed 0\n",
        ],
    )?;
    let line = Case {
        text: b"not edits: line 1\n",
        ..NONE
    };
    let length = Case {
        text: b"not edits: length\n",
        ..NONE
    };
    let refused = Case {
        status: Status::Refused,
        text: too_long.as_str().as_bytes(),
        ..SESSION
    };
    let accepted = Case {
        text: empty.as_str().as_bytes(),
        ..SESSION
    };
    assert!(rt; holds_over(&rt, alloc, QUIET, whole.as_slice(), &line)?);
    assert!(rt; holds_over(&rt, alloc, QUIET, longer.as_slice(), &length)?);
    assert!(rt; holds_over(&rt, alloc, longer.as_slice(), b"Dinner.java x\n", &refused)?);
    assert!(rt; holds_over(&rt, alloc, whole.as_slice(), b"Dinner.java x\n", &accepted)?);
    Ok(())
}
