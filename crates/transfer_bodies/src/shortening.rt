//! Code made shorter, for those who ask for the state at its end alone.
ghost use Rattle.std.specs.Prelude.{◌≡◌, ◌&&◌, Bool, true, map, length, is_some, IfOk};
ghost use Rattle.owner_domain.specs.declared.value.State.{State};
ghost use Rattle.core_code.specs.Tree.{tree_of, in_sequence};
ghost use Rattle.core_code.specs.Tree as tree;
ghost use Rattle.core_code.specs.Facts as heights;
ghost use Rattle.access_domain.specs.FlowContext.{FlowContext};
ghost use Rattle.access_domain.specs.Flow.{flow};
ghost use Rattle.transfer_bodies.specs.Shortening.{IsShortened};
ghost use Rattle.transfer_bodies.specs.Still.{is_still_op};

use crate::kept::{Kept, Short};
use core_code::{Code, LockKind, Op};
use racer_base::{Memory, Place, SiteId};
use std::alloc::Global;

/// How many values an operation pops.
pub fn pops(op: Op) -> usize
    ensures { result ≡ heights.pops op }
{
    match op {
        Op::Dup | Op::Drop | Op::Get(_) | Op::Set(_) | Op::Ret => 1,
        Op::Put(_) => 2,
        Op::Prim(count) | Op::Outside(count) | Op::Call(_, count) | Op::Unread(_, count) =>
            count as usize,
        _ => 0,
    }
}

/// How many values an operation pushes then.
pub fn pushes(op: Op) -> usize
    ensures { result ≡ heights.pushes op }
{
    match op {
        Op::Dup => 2,
        Op::Drop | Op::Ret | Op::Throw => 0,
        _ => 1,
    }
}

fn is_still(op: Op) -> bool
    ensures { result ≡ is_still_op op }
{
    !matches!(op, Op::Set(_) | Op::Ret | Op::Throw)
}

/// One operation, where the stack has this height.
fn operation(site: SiteId, place: Place, op: Op, height: usize) -> Result<Short, Memory>
    ensures { IfOk result (λ short. IsShortened height (tree.Op site place op) short) }
{
    let Some(behind) = height.saturating_sub(pops(op)).checked_add(pushes(op)) else {
        return Err(Memory);
    };
    Ok(Short {
        code: Code::Op(site, place, op),
        height: behind,
        is_still: is_still(op),
    })
}

/// One of two that begin at one height.
fn choice(alloc: Global, left: Short, right: Short) -> Result<Short, Memory>
    ensures code { IfOk result (λ short. tree_of short.code ≡ tree.Choice (tree_of left.code) (tree_of right.code)) }
    ensures height { IfOk result (λ short. short.height ≡ left.height) }
    ensures still { IfOk result (λ short. short.is_still ≡ (left.is_still && right.is_still)) }
{
    let height = left.height;
    let is_still = left.is_still && right.is_still;
    let Ok(left) = Box::new(alloc, left.code) else {
        return Err(Memory);
    };
    let Ok(right) = Box::new(alloc, right.code) else {
        return Err(Memory);
    };
    Ok(Short {
        code: Code::Choice(left, right),
        height,
        is_still,
    })
}

/// A loop with this body.
fn repeated(alloc: Global, body: Short) -> Result<Short, Memory>
    ensures code { IfOk result (λ short. tree_of short.code ≡ tree.Loop (tree_of body.code)) }
    ensures height { IfOk result (λ short. short.height ≡ body.height) }
    ensures still { IfOk result (λ short. short.is_still ≡ body.is_still) }
{
    let Ok(code) = Box::new(alloc, body.code) else {
        return Err(Memory);
    };
    Ok(Short {
        code: Code::Loop(code),
        height: body.height,
        is_still: body.is_still,
    })
}

/// This body under a lock.
fn locked(alloc: Global, place: Place, kind: LockKind, body: Short) -> Result<Short, Memory>
    ensures code { IfOk result (λ short. tree_of short.code
        ≡ tree.Sync (record { place = place; kind = kind }) (tree_of body.code)) }
    ensures height { IfOk result (λ short. short.height ≡ body.height) }
    ensures still { IfOk result (λ short. short.is_still ≡ body.is_still) }
{
    let Ok(code) = Box::new(alloc, body.code) else {
        return Err(Memory);
    };
    Ok(Short {
        code: Code::Sync(place, kind, code),
        height: body.height,
        is_still: body.is_still,
    })
}

/// Code made shorter, where the stack has this height.
#[cycle(shortenings)]
fn shorten(alloc: Global, code: &Code, height: usize) -> Result<Short, Memory>
    ensures { IfOk result (λ short. IsShortened height (tree_of code.now) short) }
{
    match code {
        Code::Op(site, place, op) => operation(*site, *place, *op, height),
        Code::Seq(parts) => shorten_all(alloc, parts.as_slice(), height),
        Code::Choice(left, right) => {
            let Ok(left) = shorten(alloc, left, height) else {
                return Err(Memory);
            };
            let Ok(right) = shorten(alloc, right, height) else {
                return Err(Memory);
            };
            choice(alloc, left, right)
        }
        Code::Loop(body) => {
            let Ok(body) = shorten(alloc, body, height) else {
                return Err(Memory);
            };
            repeated(alloc, body)
        }
        Code::Sync(place, kind, body) => {
            let Ok(body) = shorten(alloc, body, height.saturating_sub(1)) else {
                return Err(Memory);
            };
            locked(alloc, *place, *kind, body)
        }
    }
}

/// Parts one after another, without those that may be left out.
#[cycle(shortenings)]
fn shorten_all(alloc: Global, parts: &[Code], height: usize) -> Result<Short, Memory>
    ensures { IfOk result (λ short. IsShortened height (in_sequence (map tree_of parts.now)) short) }
{
    let mut kept = Kept::new(alloc, height);
    for part in parts {
        let Ok(short) = shorten(alloc, part, kept.height) else {
            return Err(Memory);
        };
        let Ok(()) = kept.keep(short) else {
            return Err(Memory);
        };
    }
    Ok(kept.joined())
}

/// The parts of code that can change the state, where it begins with a stack of this height. Statements that set no
/// variable and do not return are left out.
pub fn shortened(alloc: Global, code: &Code, height: usize) -> Result<Code, Memory>
    ensures next { IfOk result (λ short. (g : FlowContext) (locked : Bool) (s : State) → length s.stack ≡ height →
        is_some (heights.height_after (tree_of code.now) height) ≡ true →
        (flow g (tree_of short) locked s).next ≡ (flow g (tree_of code.now) locked s).next) }
    ensures height { IfOk result (λ short. is_some (heights.height_after (tree_of code.now) height) ≡ true →
        heights.height_after (tree_of short) height ≡ heights.height_after (tree_of code.now) height) }
{
    let Ok(short) = shorten(alloc, code, height) else {
        return Err(Memory);
    };
    Ok(short.code)
}
