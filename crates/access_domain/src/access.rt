//! Access records.
ghost use Rattle.std.specs.Prelude.{◌≡◌, ◌≤◌, ◌<◌, Some, length, slice_get};
ghost use Rattle.racer_base.specs.declared.limits.TheConstants.{MAX_SUMMARY_KEYS};
ghost use Rattle.access_domain.specs.Records.{same_key, first_of_keys, IsWithin};

use access_paths::Path;
use racer_base::{SiteId, Touch};
use std::marker::Model;

/// An access that a method makes, itself or through what it calls.
#[derive(Drop)]
pub struct Access {
    pub path: Path,
    pub kind: Touch,
    /// Whether it is made under some lock.
    pub locked: bool,
    /// Whether it is made on the main thread.
    pub main: bool,
    /// The operation that makes it, or the call that leads to it.
    pub site: SiteId,
    /// Where the site is a call, the index of the record among the callee's.
    pub below: Option<u32>,
}

impl Access {
    /// Whether the other record has the same path, kind and flags.
    pub fn has_key_of(&self, other: &Access) -> bool
        ensures { result ≡ same_key self.now other.now }
    {
        self.path == other.path
            && self.kind == other.kind
            && self.locked == other.locked
            && self.main == other.main
    }
}

/// At most 1,024 records in order, no two of one key: path, kind and the two flags.
#[derive(Drop)]
pub struct Accesses {
    items: Vec<Access>,
}

impl Model for Accesses {
    ghost use Rattle.std.specs.Prelude.{List};
    ghost use Rattle.access_domain.specs.declared.access.Access.{Access};

    ghost Value = { List Access };

    ghost use Rattle.access_domain.specs.Records.{IsWithin};

    ghost view = { λ accesses. accesses.items.items };

    ghost invariant = { λ accesses. IsWithin accesses.items.items };
}

impl Accesses {
    /// These records.
    pub fn from_vec(records: Vec<Access>) -> Accesses
        requires { IsWithin records.items }
        ensures { result ≡ records.items }
    {
        Accesses { items: records }
    }

    /// The records, in order.
    pub fn as_slice(&self) -> &[Access]
        ensures { result.now ≡ self.now }
    {
        self.items.as_slice()
    }

    /// The record of an index.
    pub fn get(&self, index: u32) -> &Access
        requires { index < length self.now }
        ensures { slice_get self.now index ≡ Some result.now }
    {
        &self.items[index as usize]
    }

    /// How many records there are.
    pub fn len(&self) -> u32
        ensures count { result ≡ length self.now }
        ensures firsts { first_of_keys self.now ≡ self.now }
        ensures limit { result ≤ MAX_SUMMARY_KEYS }
    {
        self.items.len() as u32
    }
}
