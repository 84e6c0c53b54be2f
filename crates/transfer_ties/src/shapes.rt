//! What code is made of, one layer of it.
ghost use Rattle.std.specs.Prelude.{◌≡◌, option_map, map};
ghost use Rattle.core_code.specs.Tree.{tree_of};
ghost use Rattle.transfer_ties.specs.Shapes as shape;

use core_code::{Code, LockKind, Op};
use racer_base::SiteId;

/// The operation that code is, with its site.
pub(crate) fn operation(code: &Code) -> Option<(SiteId, Op)>
    ensures { result ≡ shape.operation (tree_of code.now) }
{
    match code {
        Code::Op(site, _, op) => Some((*site, *op)),
        Code::Seq(_) => None,
        _ => None,
    }
}

/// The parts that stand one after another.
pub(crate) fn sequence(code: &Code) -> Option<&[Code]>
    ensures { shape.IsSequence (tree_of code.now) (option_map (λ parts. map tree_of parts.now) result) }
{
    match code {
        Code::Seq(parts) => Some(parts.as_slice()),
        _ => None,
    }
}

/// The sides of a choice.
pub(crate) fn sides(code: &Code) -> Option<(&Code, &Code)>
    ensures { option_map shape.both_trees result ≡ shape.sides (tree_of code.now) }
{
    match code {
        Code::Choice(left, right) => Some((left, right)),
        Code::Seq(_) => None,
        _ => None,
    }
}

/// The body of a loop.
pub(crate) fn looped(code: &Code) -> Option<&Code>
    ensures { option_map (λ body. tree_of body.now) result ≡ shape.looped (tree_of code.now) }
{
    match code {
        Code::Loop(body) => Some(body),
        Code::Seq(_) => None,
        _ => None,
    }
}

/// The kind of a lock and what is done under it.
pub(crate) fn locked(code: &Code) -> Option<(LockKind, &Code)>
    ensures { option_map shape.held_tree result ≡ shape.locked (tree_of code.now) }
{
    match code {
        Code::Sync(_, kind, body) => Some((*kind, body)),
        Code::Seq(_) => None,
        _ => None,
    }
}
