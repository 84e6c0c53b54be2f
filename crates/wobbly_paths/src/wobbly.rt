//! A set of wobbly paths.
ghost use Rattle.std.specs.Prelude.{◌≡◌, ◌≤◌, IfOk, MatchOption, length, vec_len};
ghost use Rattle.std.specs.FinSet as set;
ghost use Rattle.racer_base.specs.declared.limits.TheConstants.{MAX_SUMMARY_KEYS};
ghost use Rattle.wobbly_paths.specs.Sets.{IsAnswer, HasNoPrefix, IsShortestPrefix};

use access_paths::Path;
use racer_base::{MAX_SUMMARY_KEYS, Memory};
use std::alloc::Global;
use std::collections::BTreeSet;
use std::marker::Model;

/// What became of something that was to be added.
#[derive(Clone, Copy)]
pub enum Adding {
    Added,
    /// It was there already.
    Present,
    /// It was not there, and there is no room for more.
    Full,
    /// Memory was refused.
    Memory,
}

/// A set of at most 1,024 paths.
#[derive(Drop)]
pub struct Wobbly {
    paths: BTreeSet<Path>,
}

impl Model for Wobbly {
    ghost use Rattle.std.specs.FinSet as set;
    ghost use Rattle.access_paths.specs.contracts.path.Path as path;
    ghost use Rattle.access_paths.specs.Order.{path_cmp};

    ghost Value = { set.FinSet path_cmp };

    ghost coded = { set.code path.the_row.coded };

    ghost use Rattle.wobbly_paths.specs.Inside.{set_of, IsWithin};

    ghost view = { λ wobbly. set_of wobbly.paths.keys };

    ghost invariant = { λ wobbly. IsWithin wobbly.paths.keys };
}

impl Wobbly {
    pub fn new(alloc: Global) -> Wobbly
        ensures { result ≡ set.empty }
    {
        Wobbly {
            paths: BTreeSet::new(alloc),
        }
    }

    /// Adds a path. Unless the answer is `Added`, the set is as before.
    pub fn add(&mut self, path: Path) -> Adding
        ensures cases { IsAnswer (set.contains self.old path) (set.len self.old) self.old self.new
            (set.insert self.old path) result }
        ensures limit { set.len self.new ≤ MAX_SUMMARY_KEYS }
    {
        if self.len() >= MAX_SUMMARY_KEYS {
            if self.has(&path) {
                return Adding::Present;
            }
            return Adding::Full;
        }
        let Ok(added) = self.paths.insert(path) else {
            return Adding::Memory;
        };
        if !added {
            return Adding::Present;
        }
        Adding::Added
    }

    /// Whether a path is in the set.
    pub fn has(&self, path: &Path) -> bool
        ensures { result ≡ set.contains self.now path.now }
    {
        self.paths.contains(path)
    }

    /// How many paths there are.
    fn len(&self) -> usize
        ensures { result ≡ set.len self.now }
    {
        self.paths.len()
    }

    /// The number of fields of the shortest proper prefix of a path, the root alone included, that is in the set: each
    /// is looked up, so the size of the set hardly matters.
    pub fn unstable_prefix(&self, alloc: Global, path: &Path) -> Result<Option<u32>, Memory>
        ensures { IfOk result (λ found. MatchOption found (HasNoPrefix self.now path.now (length path.now.fields))
            (IsShortestPrefix self.now path.now)) }
    {
        for fields in 0..path.fields.len() {
            if self.has(&path.front(alloc, fields)?) {
                return Ok(Some(fields as u32));
            }
        }
        Ok(None)
    }

    /// The paths of the set, each once, in no stated order.
    pub fn paths(&self, alloc: Global) -> Result<Vec<Path>, Memory>
        ensures all { IfOk result (λ paths. set.from_list paths.items ≡ self.now) }
        ensures each_once { IfOk result (λ paths. vec_len paths ≡ set.len self.now) }
        ensures limit { IfOk result (λ paths. vec_len paths ≤ MAX_SUMMARY_KEYS) }
    {
        copies(alloc, &self.paths)
    }
}

/// Paths that are equal to these, in order.
fn copies(alloc: Global, paths: &BTreeSet<Path>) -> Result<Vec<Path>, Memory>
    ensures { IfOk result (λ copies. copies.items ≡ paths.now.keys) }
{
    let mut copies = Vec::new(alloc);
    for path in paths {
        copies.push(path.copied(alloc)?)?;
    }
    Ok(copies)
}
