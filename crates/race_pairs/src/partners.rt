//! The first record that conflicts with a given one, without a look at every record.
//!
//! A conflict sees only paths, kinds and flags. So the records are kept in groups, one a path, and in a group only the
//! first record of each kind and flags: at most eight, in order. Groups are found by the numbers of their path, in an
//! ordered map: the time is near linear on every input.
ghost use Rattle.std.specs.Prelude.{◌≡◌, List, IfOk, OnOk, option_map};
ghost use Rattle.access_paths.specs.Order.{root_key, path_key};
ghost use Rattle.race_pairs.specs.Warnings.{MethodRecord, conflicts};
ghost use Rattle.race_pairs.specs.MethodRecords.{record_of, all_records};
ghost use Rattle.race_pairs.specs.Firsts.{has_key, with_first, AddsFirst, FindsPartners, partner_in};

use crate::method_access::MethodAccess;
use access_domain::Access;
use access_paths::{Path, Root};
use racer_base::{Memory, Touch};
use std::alloc::Global;
use std::collections::BTreeMap;

/// By the numbers of a path, the first record of each kind and flags there.
pub type Firsts<'a> = BTreeMap<Vec<u32>, Vec<MethodAccess<'a>>>;

/// Whether two threads that make these accesses may meet in them.
fn conflicts(a: &Access, b: &Access) -> bool
    ensures { result ≡ conflicts a.now b.now }
{
    a.path == b.path
        && !matches!(a.path.root, Root::Formal(_))
        && (a.kind == Touch::Write || b.kind == Touch::Write)
        && !(a.locked && b.locked)
        && !(a.main && b.main)
}

/// The form of a root and the number in it.
fn root_key(root: Root) -> [u32; 2]
    ensures { result ≡ root_key root }
{
    match root {
        Root::This => [0, 0],
        Root::Class(class) => [1, class.0],
        Root::Formal(number) => [2, number],
        Root::Some(class) => [3, class.0],
    }
}

/// The numbers of a path, the same exactly where the paths are equal.
fn path_key(alloc: Global, path: &Path) -> Result<Vec<u32>, Memory>
    ensures { IfOk result (λ key. key.items ≡ path_key path.now) }
{
    let mut key = Vec::from_array(alloc, root_key(path.root))?;
    for field in path.fields.as_slice() {
        key.push(field.0)?;
    }
    Ok(key)
}

/// Whether one of these records has the path, kind and flags of this one.
fn has_key(group: &[MethodAccess], access: &Access) -> bool
    ensures { result ≡ has_key (all_records group.now) access.now }
{
    for first in group {
        if first.access.has_key_of(access) {
            return true;
        }
    }
    false
}

/// Puts a record behind those of its path, unless there is one of its kind and flags.
fn add_first<'a>(group: &mut Vec<MethodAccess<'a>>, added: MethodAccess<'a>) -> Result<(), Memory>
    ensures { OnOk result (
        all_records group.new.items ≡ with_first (all_records group.old.items) (record_of added.entry)) }
{
    if !has_key(group.as_slice(), added.access) {
        group.push(added)?;
    }
    Ok(())
}

/// Adds a record to the group of its path.
fn add_record<'a>(
    alloc: Global,
    firsts: &mut Firsts<'a>,
    added: MethodAccess<'a>,
) -> Result<(), Memory>
    ensures { OnOk result (AddsFirst firsts.old firsts.new (record_of added.entry)) }
{
    let key = path_key(alloc, &added.access.path)?;
    if let Some(group) = firsts.get_mut(&key) {
        return add_first(group, added);
    }
    let group = vec![in alloc; added]?;
    firsts.insert(key, group)?;
    Ok(())
}

/// The groups of these records.
pub fn firsts_of<'a>(alloc: Global, records: &[MethodAccess<'a>]) -> Result<Firsts<'a>, Memory>
    ensures { IfOk result (λ firsts. FindsPartners firsts (all_records records.now)) }
{
    let mut firsts = BTreeMap::new(alloc);
    for added in records {
        add_record(alloc, &mut firsts, *added)?;
    }
    Ok(firsts)
}

/// The first of these records that conflicts with this one.
fn first_partner<'a>(first: &Access, records: &[MethodAccess<'a>]) -> Option<MethodAccess<'a>>
    ensures { option_map record_of result ≡ partner_in first.now (all_records records.now) }
{
    for partner in records {
        if conflicts(first, partner.access) {
            return Some(*partner);
        }
    }
    None
}

/// The first that conflicts with this one, of the records that the groups were made of.
pub fn partner_of<'a>(
    alloc: Global,
    first: &Access,
    firsts: &Firsts<'a>,
) -> Result<Option<MethodAccess<'a>>, Memory>
    ensures { IfOk result (λ partner. (records : List MethodRecord) → FindsPartners firsts.now records →
        option_map record_of partner ≡ partner_in first.now records) }
{
    let key = path_key(alloc, &first.path)?;
    match firsts.get(&key) {
        None => Ok(None),
        Some(group) => Ok(first_partner(first, group.as_slice())),
    }
}
