//! An outcome of an older program and one of a newer, side by side.
ghost use Rattle.std.specs.Prelude.{◌≡◌, IfOk};
ghost use Rattle.std.specs.FinSet as set;
ghost use Rattle.core_code.specs.Core.{Core};
ghost use Rattle.transfer_ties.specs.Names as named;
ghost use Rattle.transfer_ties.specs.Outcomes as spec;
ghost use Rattle.transfer_ties.specs.Partners.{AreTies};

use crate::partners::{Ties, is_class, is_field};
use crate::renumbering::wobbly;
use crate::untied::Untied;
use access_domain::{Access, Outcome, Summary};
use access_paths::{Path, Root};
use owner_domain::Value;
use racer_base::{FieldId, Memory};
use std::alloc::Global;
use wobbly_paths::Wobbly;

fn same_root(ties: &Ties, old: Root, new: Root) -> bool
    ensures { result ≡ named.same_root ties.now old new }
{
    match (old, new) {
        (Root::This, Root::This) => true,
        (Root::Class(old), Root::Class(new)) => is_class(ties.class(old), new),
        (Root::Formal(old), Root::Formal(new)) => old == new,
        (Root::Some(old), Root::Some(new)) => is_class(ties.class(old), new),
        _ => false,
    }
}

fn same_fields(ties: &Ties, olds: &[FieldId], news: &[FieldId]) -> bool
    ensures { result ≡ named.same_fields ties.now olds.now news.now }
{
    if olds.len() != news.len() {
        return false;
    }
    for (old, new) in olds.iter().zip(news) {
        if !is_field(ties.field(*old), *new) {
            return false;
        }
    }
    true
}

fn same_path(ties: &Ties, old: &Path, new: &Path) -> bool
    ensures { result ≡ named.same_path ties.now old.now new.now }
{
    same_root(ties, old.root, new.root)
        && same_fields(ties, old.fields.as_slice(), new.fields.as_slice())
}

fn same_value(ties: &Ties, old: &Value, new: &Value) -> bool
    ensures { result ≡ named.same_value ties.now old.now new.now }
{
    match (old, new) {
        (Value::Owned, Value::Owned) | (Value::Unnamed, Value::Unnamed) => true,
        (Value::Named(old), Value::Named(new)) => same_path(ties, old, new),
        _ => false,
    }
}

/// Whether two indices are the same, or neither is there.
fn same_index(old: Option<u32>, new: Option<u32>) -> bool
    ensures { result ≡ spec.same_index old new }
{
    match (old, new) {
        (Some(old), Some(new)) => old == new,
        (None, None) => true,
        _ => false,
    }
}

fn same_record(ties: &Ties, old: &Access, new: &Access) -> bool
    ensures { result ≡ named.same_record ties.now old.now new.now }
{
    same_path(ties, &old.path, &new.path)
        && old.kind == new.kind
        && old.locked == new.locked
        && old.main == new.main
        && old.site == new.site
        && same_index(old.below, new.below)
}

fn same_records(ties: &Ties, olds: &[Access], news: &[Access]) -> bool
    ensures { result ≡ named.same_records ties.now olds.now news.now }
{
    if olds.len() != news.len() {
        return false;
    }
    for (old, new) in olds.iter().zip(news) {
        if !same_record(ties, old, new) {
            return false;
        }
    }
    true
}

/// Whether each path of a set is one of another.
fn are_among(alloc: Global, some: &Wobbly, others: &Wobbly) -> Result<bool, Memory>
    ensures { IfOk result (λ all. all ≡ set.is_subset some.now others.now) }
{
    let paths = some.paths(alloc)?;
    for path in paths.as_slice() {
        if !others.has(path) {
            return Ok(false);
        }
    }
    Ok(true)
}

/// Whether two sets have the same paths.
fn same_sets(alloc: Global, some: &Wobbly, others: &Wobbly) -> Result<bool, Memory>
    ensures { IfOk result (λ same. same ≡ named.same_sets some.now others.now) }
{
    let all = are_among(alloc, some, others)?;
    if !all {
        return Ok(false);
    }
    are_among(alloc, others, some)
}

/// Whether a set of paths of the older program is this one of the newer.
fn same_paths(alloc: Global, ties: &Ties, old: &Wobbly, new: &Wobbly) -> Result<bool, Memory>
    ensures { IfOk result (λ same. same ≡ named.is_set (named.set_in ties.now old.now) new.now) }
{
    match wobbly(alloc, ties, old) {
        Ok(paths) => same_sets(alloc, &paths, new),
        Err(Untied::NoPartner) => Ok(false),
        Err(Untied::Memory) => Err(Memory),
    }
}

fn same_summary(alloc: Global, ties: &Ties, old: &Summary, new: &Summary) -> Result<bool, Memory>
    ensures { IfOk result (λ same. same ≡ named.same_summary ties.now old.now new.now) }
{
    if !same_records(ties, old.accesses.as_slice(), new.accesses.as_slice()) {
        return Ok(false);
    }
    if !same_value(ties, &old.result, &new.result) {
        return Ok(false);
    }
    same_paths(alloc, ties, &old.wobbly, &new.wobbly)
}

/// Whether an outcome of the older program and one of the newer are the same by names.
pub fn same_outcome(
    alloc: Global,
    ties: &Ties,
    old: &Outcome,
    new: &Outcome,
) -> Result<bool, Memory>
    ensures { IfOk result (λ same. (p q : Core) → AreTies p q ties.now → same ≡ spec.same_outcome p q old.now new.now) }
{
    same_by_partners(alloc, ties, old, new)
}

/// Whether two outcomes are the same by partners.
fn same_by_partners(
    alloc: Global,
    ties: &Ties,
    old: &Outcome,
    new: &Outcome,
) -> Result<bool, Memory>
    ensures { IfOk result (λ same. same ≡ named.same_outcome ties.now old.now new.now) }
{
    match (old, new) {
        (Outcome::Large, Outcome::Large) => Ok(true),
        (Outcome::Summary(old), Outcome::Summary(new)) => same_summary(alloc, ties, old, new),
        _ => Ok(false),
    }
}
