//! A made folder beside file names and texts that were written by hand.
use super::*;
use racer_base::{Folder, FolderFault, Memory};
use std::alloc::Global;
use std::test::Fail;

/// The names of the files of the folder of eleven classes.
const NAMES: &str =
    "C0000.java C0001.java C0002.java C0003.java C0004.java C0005.java C0006.java C0007.java \
    C0008.java C0009.java C0010.java ";

/// The text of a class that is not the last of its group.
const CLASS_8: &[u8] = b"@ThreadSafe
class C0008 {
  int a;
  C0009 next;
  void set() { this.a = 1; }
  synchronized int get() { return this.a; }
  int deep() { return this.next.deep(); }
  void link(C0009 n) { this.next = n; this.next.a = 2; }
}
";

/// The text of one that is the last of its group, and not of all.
const CLASS_9: &[u8] = b"@ThreadSafe
class C0009 {
  int a;
  void set() { this.a = 1; }
  synchronized int get() { return this.a; }
  int deep() { return this.a; }
}
";

/// These names, with a space behind each.
fn listed(alloc: Global, names: &[String]) -> Result<String, Memory> {
    let mut text = String::new(alloc);
    for name in names {
        write!(text, "{name} ")?;
    }
    Ok(text)
}

/// Whether the folder of eleven classes has these names and these texts.
fn is_as_written(alloc: Global) -> Result<bool, FolderFault> {
    let mut folder = made(alloc, 11)?;
    folder.enter(alloc, "made")?;
    let names = folder.names(alloc)?;
    let class_8 = folder.read(alloc, "C0008.java", 1000)?;
    let class_9 = folder.read(alloc, "C0009.java", 1000)?;
    let listed = listed(alloc, names.as_slice())?;
    Ok(listed.as_str() == NAMES && class_8.as_slice() == CLASS_8 && class_9.as_slice() == CLASS_9)
}

#[test]
fn folder_of_eleven(rt: HostRuntime) -> Result<(), Fail> {
    assert!(rt; matches!(is_as_written(rt.alloc()), Ok(true)));
    Ok(())
}
