//! The shortest prefix of a path that may name another object later.
ghost use Rattle.std.specs.Prelude.{◌≡◌, IfOk, length};
ghost use Rattle.std.specs.Option.{option_copied};
ghost use Rattle.core_code.specs.Program.{core};
ghost use Rattle.access_domain.specs.Outcomes.{AreOutcomes};
ghost use Rattle.core_ways.specs.Stable.{unstable_prefix};
ghost use Rattle.witness_build.specs.ShortestPrefix.{IsLeast, holds_front, least};

use access_domain::{Outcomes, wobbly_of};
use access_paths::Path;
use core_code::Program;
use racer_base::{Memory, MethodId};
use std::alloc::Global;
use wobbly_paths::Wobbly;

/// The smaller of two numbers, of those that there are.
fn least(a: Option<u32>, b: Option<u32>) -> Option<u32>
    ensures { result ≡ least a b }
{
    match a {
        None => b,
        Some(j) => match b {
            None => Some(j),
            Some(k) => { if j < k { Some(j) } else { Some(k) } }
        },
    }
}

/// How many fields the shortest proper prefix of a path has that is in a set, where there is a set.
fn prefix_in(alloc: Global, wobbly: Option<&Wobbly>, path: &Path) -> Result<Option<u32>, Memory>
    ensures { IfOk result (λ least. IsLeast (holds_front (option_copied wobbly.entry) path.now)
        (length path.now.fields) least) }
{
    let Some(wobbly) = wobbly else {
        return Ok(None);
    };
    wobbly.unstable_prefix(alloc, path)
}

/// The shortest proper prefix of a path that is wobbly in one of two methods.
pub(crate) fn unstable_prefix(
    alloc: Global,
    program: &Program,
    outcomes: &Outcomes,
    m1: MethodId,
    m2: MethodId,
    path: &Path,
) -> Result<Option<Path>, Memory>
    requires { AreOutcomes (core program.now) outcomes.now.items }
    ensures { IfOk result (λ prefix. prefix ≡ unstable_prefix (core program.now) m1 m2 path.now) }
{
    let first = prefix_in(alloc, wobbly_of(outcomes, m1), path)?;
    let second = prefix_in(alloc, wobbly_of(outcomes, m2), path)?;
    match least(first, second) {
        Some(fields) => Ok(Some(path.front(alloc, fields as usize)?)),
        None => Ok(None),
    }
}
