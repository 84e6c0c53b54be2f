//! How far down the operand stack code reaches.
ghost use Rattle.std.specs.Prelude.{◌≡◌, true, map, IfSome};
ghost use Rattle.racer_base.specs.declared.ids.Place.{Place};
ghost use Rattle.racer_base.specs.declared.ids.SiteId.{SiteId};
ghost use Rattle.core_code.specs.Tree.{tree_of, in_sequence};
ghost use Rattle.core_code.specs.Tree as tree;
ghost use Rattle.transfer_bodies.specs.Reaching.{LeadsFrom, IsWithin};

use crate::shortening::{pops, pushes};
use core_code::{Code, Op};

/// The height of the stack behind an operation, where it has this one before.
fn height_behind_op(op: Op, height: usize) -> Option<usize>
    ensures { IfSome result (λ behind. (site : SiteId) (place : Place) →
        LeadsFrom height behind (tree.Op site place op)) }
{
    let popped = pops(op);
    if height < popped {
        return None;
    }
    (height - popped).checked_add(pushes(op))
}

/// The height of the stack behind code without loops and locks, where it has this one before and nothing is popped that
/// is not there.
#[cycle(heights)]
fn height_behind(code: &Code, height: usize) -> Option<usize>
    ensures { IfSome result (λ behind. LeadsFrom height behind (tree_of code.now)) }
{
    match code {
        Code::Op(_, _, op) => height_behind_op(*op, height),
        Code::Seq(parts) => height_behind_all(parts.as_slice(), height),
        Code::Choice(left, right) => {
            let Some(one) = height_behind(left, height) else {
                return None;
            };
            let Some(two) = height_behind(right, height) else {
                return None;
            };
            if one == two { Some(one) } else { None }
        }
        Code::Loop(_) | Code::Sync(_, _, _) => None,
    }
}

/// The same of parts one after another.
#[cycle(heights)]
fn height_behind_all(parts: &[Code], height: usize) -> Option<usize>
    ensures { IfSome result (λ behind. LeadsFrom height behind (in_sequence (map tree_of parts.now))) }
{
    let mut behind = height;
    for part in parts {
        let Some(next) = height_behind(part, behind) else {
            return None;
        };
        behind = next;
    }
    Some(behind)
}

/// Whether code has no loop and no lock, and pops none but the upper so many values of the stack and what it pushes.
/// Such code leaves what lies below as it is, and finds the same over it.
pub fn is_within(code: &Code, height: usize) -> bool
    ensures { result ≡ true → IsWithin height (tree_of code.now) }
{
    height_behind(code, height).is_some()
}
