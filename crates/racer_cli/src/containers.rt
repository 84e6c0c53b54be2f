//! Tests of containers, each a row of words and files with what is to come of it.
use super::*;
use crate::tests::{Case, PLAIN, held};
use std::test::Fail;

const BAG: &[u8] = b"@ThreadSafe\nclass Bag {\n\
    \x20 private final List<String> names = new ArrayList<>();\n\
    \x20 void add(String s) { names.add(s); }\n\
    \x20 synchronized int size() { return names.size(); }\n}\n";

/// A list that is no new object of a class of the table.
const OTHER_LIST: &[u8] = b"@ThreadSafe\nclass Bag {\n\
    \x20 private final List<String> names = Collections.emptyList();\n\
    \x20 void add(String s) { names.add(s); }\n\
    \x20 synchronized int size() { return names.size(); }\n}\n";

const NO_WARNING: &[u8] = b"racer report 1\nfiles 1 classes 1 methods 3\nwarnings 0 confirmed 0\n";

/// The report on the bag, whose first call changes what the second one looks at.
const REPORT: &[u8] = b"racer report 1\nfiles 1 classes 1 methods 3\n\
    warning Bag.add/1 write this.names[]\n at Bag.java:4:30\n\
    \x20with Bag.add/1 write this.names[]\n at Bag.java:4:30\n\
    \x20mark confirmed\n first 0 turns - steps 5\n second 1 turns - steps 5\n\
    warning Bag.size/0 read this.names[] locked\n at Bag.java:5:42\n\
    \x20with Bag.add/1 write this.names[]\n at Bag.java:4:30\n\
    \x20mark confirmed\n first 1 turns - steps 5\n second 0 turns - steps 7\n\
    warnings 2 confirmed 2\n";

/// The witness of the first warning on it.
const WITNESS: &[u8] = b"{\"class\":\"Bag\",\"entries\":[\"add/1\",\"add/1\"],\"legs\":[\
    {\"steps\":5,\"thread\":0,\"turns\":\"\"},{\"steps\":5,\"thread\":1,\"turns\":\"\"}],\
    \"objects\":[],\"path\":\"this.names[]\",\"version\":2}";

/// Containers with cells, and without.
const CONTAINERS: &[Case] = &[
    Case {
        files: &[("Bag.java", BAG)],
        text: NO_WARNING,
        ..PLAIN
    },
    Case {
        words: &["src", "--containers"],
        files: &[("Bag.java", BAG)],
        status: Status::Warned,
        text: REPORT,
        ..PLAIN
    },
    Case {
        words: &["src", "--containers"],
        files: &[("Bag.java", OTHER_LIST)],
        text: NO_WARNING,
        ..PLAIN
    },
    Case {
        words: &["src", "--containers", "--replay", "w.json"],
        files: &[("Bag.java", BAG), ("w.json", WITNESS)],
        text: b"races\n",
        ..PLAIN
    },
    Case {
        words: &["src", "--replay", "w.json"],
        files: &[("Bag.java", BAG), ("w.json", WITNESS)],
        status: Status::NoRace,
        text: b"no such path\n",
        ..PLAIN
    },
];

#[test]
fn containers(rt: HostRuntime) -> Result<(), Fail> {
    assert!(rt; held(&rt, rt.alloc(), CONTAINERS)? == CONTAINERS.len());
    Ok(())
}
