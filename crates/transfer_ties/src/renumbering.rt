//! Outcomes with the numbers of a newer program.
ghost use Rattle.std.specs.Prelude.{◌≡◌, OnOk};
ghost use Rattle.std.specs.FinSet as set;
ghost use Rattle.transfer_ties.specs.Making.{IsGiven};
ghost use Rattle.transfer_ties.specs.Names as named;
ghost use Rattle.transfer_ties.specs.Partners as spec;

use crate::partners::Ties;
use crate::untied::Untied;
use access_domain::{Access, Accesses, Outcome, Summary};
use access_paths::{Path, PathFields, Root};
use owner_domain::Value;
use racer_base::Memory;
use std::alloc::Global;
use wobbly_paths::{Adding, Wobbly};

/// The root, with its class's number in the newer program.
fn root(ties: &Ties, root: Root) -> Option<Root>
    ensures { result ≡ spec.root_in ties.now root }
{
    match root {
        Root::This => Some(Root::This),
        Root::Class(class) => Some(Root::Class(ties.class(class)?)),
        Root::Formal(number) => Some(Root::Formal(number)),
        Root::Some(class) => Some(Root::Some(ties.class(class)?)),
    }
}

fn fields(alloc: Global, ties: &Ties, fields: &PathFields) -> Result<PathFields, Untied>
    ensures { IsGiven (spec.fields_in ties.now fields.now) result }
{
    let mut made = Vec::with_capacity(alloc, fields.len())?;
    for field in fields.as_slice() {
        let Some(partner) = ties.field(*field) else {
            return Err(Untied::NoPartner);
        };
        made.push(partner)?;
    }
    Ok(PathFields::from_vec(made))
}

fn path(alloc: Global, ties: &Ties, path: &Path) -> Result<Path, Untied>
    ensures { IsGiven (spec.path_in ties.now path.now) result }
{
    let Some(root) = root(ties, path.root) else {
        return Err(Untied::NoPartner);
    };
    let fields = fields(alloc, ties, &path.fields)?;
    Ok(Path { root, fields })
}

fn value(alloc: Global, ties: &Ties, value: &Value) -> Result<Value, Untied>
    ensures { IsGiven (spec.value_in ties.now value.now) result }
{
    match value {
        Value::Owned => Ok(Value::Owned),
        Value::Unnamed => Ok(Value::Unnamed),
        Value::Named(named) => Ok(Value::Named(path(alloc, ties, named)?)),
    }
}

fn access(alloc: Global, ties: &Ties, access: &Access) -> Result<Access, Untied>
    ensures { IsGiven (spec.access_in ties.now access.now) result }
{
    let path = path(alloc, ties, &access.path)?;
    Ok(Access {
        path,
        kind: access.kind,
        locked: access.locked,
        main: access.main,
        site: access.site,
        below: access.below,
    })
}

fn accesses(alloc: Global, ties: &Ties, accesses: &Accesses) -> Result<Accesses, Untied>
    requires { spec.AreApart ties.now }
    ensures { IsGiven (spec.accesses_in ties.now accesses.now) result }
{
    let mut made = Vec::with_capacity(alloc, accesses.len() as usize)?;
    for one in accesses.as_slice() {
        made.push(access(alloc, ties, one)?)?;
    }
    Ok(Accesses::from_vec(made))
}

/// Puts a path into a set that has room for it.
fn put(paths: &mut Wobbly, path: Path) -> Result<(), Memory>
    ensures { OnOk result (paths.new ≡ set.insert paths.old path) }
{
    match paths.add(path) {
        Adding::Added => Ok(()),
        Adding::Present => Ok(()),
        Adding::Full => Err(Memory),
        Adding::Memory => Err(Memory),
    }
}

/// The set of paths of a list, with the numbers of the newer program.
fn set_of(alloc: Global, ties: &Ties, paths: &[Path]) -> Result<Wobbly, Untied>
    ensures { IsGiven (named.set_of ties.now paths.now) result }
{
    let mut made = Wobbly::new(alloc);
    for one in paths {
        put(&mut made, path(alloc, ties, one)?)?;
    }
    Ok(made)
}

/// A set of paths, with the numbers of the newer program.
pub(crate) fn wobbly(alloc: Global, ties: &Ties, wobbly: &Wobbly) -> Result<Wobbly, Untied>
    ensures { IsGiven (named.set_in ties.now wobbly.now) result }
{
    let paths = wobbly.paths(alloc)?;
    set_of(alloc, ties, paths.as_slice())
}

fn summary(alloc: Global, ties: &Ties, summary: &Summary) -> Result<Summary, Untied>
    requires { spec.AreApart ties.now }
    ensures { IsGiven (spec.summary_in ties.now summary.now) result }
{
    let result = value(alloc, ties, &summary.result)?;
    let wobbly = wobbly(alloc, ties, &summary.wobbly)?;
    let accesses = accesses(alloc, ties, &summary.accesses)?;
    Ok(Summary {
        accesses,
        wobbly,
        result,
    })
}

/// An outcome of the older program, with the numbers of the newer one.
pub fn renumbered(alloc: Global, ties: &Ties, outcome: &Outcome) -> Result<Outcome, Untied>
    requires { spec.AreApart ties.now }
    ensures { IsGiven (spec.renumbered ties.now outcome.now) result }
{
    match outcome {
        Outcome::Large => Ok(Outcome::Large),
        Outcome::Summary(found) => Ok(Outcome::Summary(summary(alloc, ties, found)?)),
    }
}
