//! Access records whose paths are numbers of a table.
ghost use Rattle.std.specs.Prelude.{◌≡◌, ◌≤◌, [], ◌∷◌, ◌++◌, length, is_ok, if◌then◌else◌, OnOk, OnErr};
ghost use Rattle.std.specs.List.{list_any};
ghost use Rattle.racer_base.specs.declared.limits.TheConstants.{MAX_SUMMARY_KEYS};
ghost use Rattle.indexmap.specs.IndexSet.{insert_key};
ghost use Rattle.access_domain.specs.Numbered.{same_numbered_key, numbered_key_of, numbered_key_eq};
ghost use Rattle.wobbly_paths.specs.Sets.{IsAnswer};

use core_code::is_write;
use indexmap::IndexSet;
use racer_base::{MAX_SUMMARY_KEYS, Memory, SiteId, Touch};
use std::alloc::Global;
use std::marker::Model;
use wobbly_paths::Adding;

/// An access, its path by its number.
#[derive(Clone, Copy)]
pub struct NumberedAccess {
    pub path: u32,
    pub kind: Touch,
    /// Whether it is made under some lock.
    pub locked: bool,
    /// Whether it is made on the main thread.
    pub main: bool,
    /// The operation that makes it, or the call that leads to it.
    pub site: SiteId,
    /// Where the site is a call, the index of the record among the callee's.
    pub below: Option<u32>,
}

/// What all records of one key share.
#[derive(Clone, Copy, PartialEq, Eq, Hash)]
struct NumberedKey {
    path: u32,
    is_write: bool,
    locked: bool,
    main: bool,
}

/// At most 1,024 records in order, no two of one key: number of the path, kind and the two flags.
#[derive(Drop)]
pub struct NumberedAccesses {
    items: Vec<NumberedAccess>,
    /// The keys of the records.
    keys: IndexSet<NumberedKey>,
}

impl Model for NumberedAccesses {
    ghost use Rattle.std.specs.Prelude.{List};
    ghost use Rattle.access_domain.specs.declared.numbered.NumberedAccess.{NumberedAccess};
    ghost use Rattle.access_domain.specs.Numbered.{AreKept};

    ghost Value = { List NumberedAccess };

    ghost view = { λ accesses. accesses.items.items };

    ghost invariant = { λ accesses. AreKept accesses.keys.keys accesses.items.items };
}

impl NumberedAccesses {
    pub fn new(alloc: Global) -> NumberedAccesses
        ensures { result ≡ [] }
    {
        NumberedAccesses {
            items: Vec::new(alloc),
            keys: IndexSet::new(alloc),
        }
    }

    /// Adds a record, unless there is one of its key. Unless the answer is `Added`, the records are as before.
    pub fn add(&mut self, access: NumberedAccess) -> Adding
        ensures { IsAnswer (list_any (λ r. same_numbered_key r access) self.old) (length self.old) self.old self.new
            (self.old ++ access ∷ []) result }
    {
        if self.has_key_of(access) {
            return Adding::Present;
        }
        if self.items.len() >= MAX_SUMMARY_KEYS {
            return Adding::Full;
        }
        let Ok(()) = put(&mut self.items, &mut self.keys, access, key_of(access)) else {
            return Adding::Memory;
        };
        Adding::Added
    }

    /// Whether there is a record of this one's key.
    fn has_key_of(&self, access: NumberedAccess) -> bool
        ensures { result ≡ list_any (λ r. same_numbered_key r access) self.now }
    {
        self.keys.contains(&key_of(access))
    }

    /// The records, in order.
    pub fn into_vec(self) -> Vec<NumberedAccess>
        ensures records { result.items ≡ self }
        ensures limit { length result.items ≤ MAX_SUMMARY_KEYS }
    {
        self.items
    }
}

/// The key of a record.
fn key_of(access: NumberedAccess) -> NumberedKey
    ensures { result ≡ numbered_key_of access }
{
    NumberedKey {
        path: access.path,
        is_write: is_write(access.kind),
        locked: access.locked,
        main: access.main,
    }
}

/// Puts a record at the end, and its key among the keys. Where memory is refused, both are as before.
fn put(
    items: &mut Vec<NumberedAccess>,
    keys: &mut IndexSet<NumberedKey>,
    access: NumberedAccess,
    key: NumberedKey,
) -> Result<(), Memory>
    ensures items { items.new.items ≡ (if is_ok result then items.old.items ++ access ∷ [] else items.old.items) }
    ensures keys { OnOk result (keys.new.keys ≡ insert_key numbered_key_eq keys.old.keys key) }
    ensures same { OnErr result (keys.new.keys ≡ keys.old.keys) }
{
    items.reserve(1)?;
    let Ok(_) = keys.insert(key) else {
        return Err(Memory);
    };
    let Ok(()) = items.push(access) else {
        unreachable!()
    };
    Ok(())
}
