//! Whether an outcome has the same numbers in a newer program.
ghost use Rattle.std.specs.Prelude.{◌≡◌, IfOk, IsTrue, Some};
ghost use Rattle.transfer_ties.specs.Names.{set_in};
ghost use Rattle.transfer_ties.specs.Partners as spec;

use crate::partners::{Ties, is_class, is_field};
use access_domain::{Access, Outcome, Summary};
use access_paths::{Path, Root};
use owner_domain::Value;
use racer_base::{FieldId, Memory};
use std::alloc::Global;
use wobbly_paths::Wobbly;

fn root_stays(ties: &Ties, root: Root) -> bool
    ensures { IsTrue result → spec.root_in ties.now root ≡ Some root }
{
    match root {
        Root::This => true,
        Root::Class(class) => is_class(ties.class(class), class),
        Root::Formal(_) => true,
        Root::Some(class) => is_class(ties.class(class), class),
    }
}

fn fields_stay(ties: &Ties, fields: &[FieldId]) -> bool
    ensures { IsTrue result → spec.fields_in ties.now fields.now ≡ Some fields.now }
{
    for field in fields {
        if !is_field(ties.field(*field), *field) {
            return false;
        }
    }
    true
}

fn path_stays(ties: &Ties, path: &Path) -> bool
    ensures { IsTrue result → spec.path_in ties.now path.now ≡ Some path.now }
{
    if !root_stays(ties, path.root) {
        return false;
    }
    fields_stay(ties, path.fields.as_slice())
}

fn value_stays(ties: &Ties, value: &Value) -> bool
    ensures { IsTrue result → spec.value_in ties.now value.now ≡ Some value.now }
{
    match value {
        Value::Owned | Value::Unnamed => true,
        Value::Named(path) => path_stays(ties, path),
    }
}

/// Whether each of these paths stays.
fn paths_stay(ties: &Ties, paths: &[Path]) -> bool
    ensures { IsTrue result → spec.paths_in ties.now paths.now ≡ Some paths.now }
{
    for path in paths {
        if !path_stays(ties, path) {
            return false;
        }
    }
    true
}

/// Whether the paths of each of these records stay.
fn accesses_stay(ties: &Ties, accesses: &[Access]) -> bool
    ensures { IsTrue result → spec.accesses_in ties.now accesses.now ≡ Some accesses.now }
{
    for access in accesses {
        if !path_stays(ties, &access.path) {
            return false;
        }
    }
    true
}

/// Whether each path of a set stays.
fn wobbly_stay(alloc: Global, ties: &Ties, wobbly: &Wobbly) -> Result<bool, Memory>
    ensures { IfOk result (λ stay. IsTrue stay → set_in ties.now wobbly.now ≡ Some wobbly.now) }
{
    let paths = wobbly.paths(alloc)?;
    Ok(paths_stay(ties, paths.as_slice()))
}

fn summary_stays(alloc: Global, ties: &Ties, summary: &Summary) -> Result<bool, Memory>
    ensures { IfOk result (λ stays. IsTrue stays → spec.summary_in ties.now summary.now ≡ Some summary.now) }
{
    if !accesses_stay(ties, summary.accesses.as_slice()) {
        return Ok(false);
    }
    if !value_stays(ties, &summary.result) {
        return Ok(false);
    }
    wobbly_stay(alloc, ties, &summary.wobbly)
}

/// Whether an outcome of the older program has the same numbers in the newer one.
pub fn stays(alloc: Global, ties: &Ties, outcome: &Outcome) -> Result<bool, Memory>
    ensures { IfOk result (λ stays. IsTrue stays → spec.renumbered ties.now outcome.now ≡ Some outcome.now) }
{
    match outcome {
        Outcome::Large => Ok(true),
        Outcome::Summary(summary) => summary_stays(alloc, ties, summary),
    }
}
