//! Code that is passed on a way, and code up to a site.
ghost use Rattle.std.specs.Prelude.{◌≡◌, ◌++◌, ◌∷◌, [], false, true, map, not, suc, take, replicate, IfOk, OnOk};
ghost use Rattle.core_code.specs.Tree.{tree_of, in_sequence, can_end, stops};
ghost use Rattle.core_semantics.specs.declared.answer.Turn.TheVariants.{Left};
ghost use Rattle.core_ways.specs.declared.part.WayPart.TheVariants.{Step, Branched};
ghost use Rattle.core_ways.specs.Ways.{passed, passed_op};
ghost use Rattle.core_ways.specs.Paths.{followed, passed_end, sides_of, turn_to};

use crate::part::WayPart;
use core_code::{Code, Op};
use core_semantics::Turn;
use racer_base::{Memory, Place};

/// The number of locks within one more.
fn one_more(locks: u32) -> Result<u32, Memory>
    ensures { IfOk result (λ more. more ≡ suc locks) }
{
    locks.checked_add(1).ok_or(Memory)
}

/// Puts one step at the end, and so many more: a return within so many locks, behind which nothing is done.
fn put_return(parts: &mut Vec<WayPart>, locks: u32) -> Result<bool, Memory>
    ensures ends { IfOk result (λ ends. ends ≡ false) }
    ensures parts { OnOk result (parts.new.items ≡ parts.old.items ++ replicate (suc locks) Step) }
{
    let Ok(()) = parts.push(WayPart::Step) else {
        return Err(Memory);
    };
    for step in 0..locks {
        let Ok(()) = parts.push(WayPart::Step) else {
            return Err(Memory);
        };
    }
    Ok(false)
}

/// Puts one step at the end: a throw, behind which nothing is done.
fn put_throw(parts: &mut Vec<WayPart>) -> Result<bool, Memory>
    ensures ends { IfOk result (λ ends. ends ≡ false) }
    ensures parts { OnOk result (parts.new.items ≡ parts.old.items ++ Step ∷ []) }
{
    let Ok(()) = parts.push(WayPart::Step) else {
        return Err(Memory);
    };
    Ok(false)
}

/// Puts a part at the end, behind which the rest is done.
fn put(parts: &mut Vec<WayPart>, part: WayPart) -> Result<bool, Memory>
    ensures ends { IfOk result (λ ends. ends ≡ true) }
    ensures parts { OnOk result (parts.new.items ≡ parts.old.items ++ part ∷ []) }
{
    let Ok(()) = parts.push(part) else {
        return Err(Memory);
    };
    Ok(true)
}

/// The turn to a side of a choice.
fn turn_to(is_left: bool) -> Turn
    ensures { result ≡ turn_to is_left }
{
    if is_left { Turn::Left } else { Turn::Right }
}

/// Takes the left side of a choice that has so many parts before it.
fn turn_left(parts: &mut Vec<WayPart>, before: usize) -> Result<(), Memory>
    ensures { OnOk result (parts.new.items ≡ take before parts.old.items ++ Branched Left ∷ []) }
{
    parts.truncate(before);
    let Ok(()) = parts.push(WayPart::Branched(Turn::Left)) else {
        return Err(Memory);
    };
    Ok(())
}

/// Passes an operation; whether what stands behind it is done.
fn pass_op(parts: &mut Vec<WayPart>, locks: u32, place: Place, op: Op) -> Result<bool, Memory>
    ensures ends { IfOk result (λ ends. ends ≡ not (stops op)) }
    ensures parts { OnOk result (parts.new.items ≡ parts.old.items ++ passed_op locks place op) }
{
    match op {
        Op::Ret => put_return(parts, locks),
        Op::Throw => put_throw(parts),
        Op::Call(method, _) => put(parts, WayPart::Passed(method)),
        Op::Unread(_, _) => put(parts, WayPart::Unread(place)),
        _ => put(parts, WayPart::Step),
    }
}

/// Passes a piece of code within so many locks; whether what stands behind it is done.
#[cycle(passing)]
pub fn pass(parts: &mut Vec<WayPart>, locks: u32, code: &Code) -> Result<bool, Memory>
    ensures ends { IfOk result (λ ends. ends ≡ can_end (tree_of code.now)) }
    ensures parts { OnOk result (parts.new.items ≡ parts.old.items ++ passed locks (tree_of code.now)) }
{
    match code {
        Code::Op(_, place, op) => pass_op(parts, locks, *place, *op),
        Code::Seq(codes) => pass_through(parts, locks, codes.as_slice()),
        Code::Choice(left, right) => {
            let before = parts.len();
            let Ok(()) = parts.push(WayPart::Branched(Turn::Right)) else {
                return Err(Memory);
            };
            let Ok(right_ends) = pass(parts, locks, right) else {
                return Err(Memory);
            };
            if right_ends {
                return Ok(true);
            }
            let Ok(()) = turn_left(parts, before) else {
                return Err(Memory);
            };
            pass(parts, locks, left)
        }
        Code::Loop(_) => put(parts, WayPart::Branched(Turn::Right)),
        Code::Sync(_, _, body) => {
            let Ok(()) = parts.push(WayPart::Step) else {
                return Err(Memory);
            };
            let Ok(within) = one_more(locks) else {
                return Err(Memory);
            };
            let Ok(ends) = pass(parts, within, body) else {
                return Err(Memory);
            };
            if !ends {
                return Ok(false);
            }
            put(parts, WayPart::Step)
        }
    }
}

/// Passes pieces of code one after another, up to the first behind which nothing is done.
#[cycle(passing)]
fn pass_through(parts: &mut Vec<WayPart>, locks: u32, codes: &[Code]) -> Result<bool, Memory>
    ensures ends { IfOk result (λ ends. ends ≡ can_end (in_sequence (map tree_of codes.now))) }
    ensures parts { OnOk result (
        parts.new.items ≡ parts.old.items ++ passed locks (in_sequence (map tree_of codes.now))) }
{
    for code in codes {
        let Ok(ends) = pass(parts, locks, code) else {
            return Err(Memory);
        };
        if !ends {
            return Ok(false);
        }
    }
    Ok(true)
}

/// Where a path ends: before an operation, or behind it.
#[derive(Clone, Copy)]
pub(crate) enum PathEnd {
    Before,
    Behind,
}

/// Passes the operation at which a path ends, where it ends behind it.
fn pass_end(
    parts: &mut Vec<WayPart>,
    locks: u32,
    end: PathEnd,
    place: Place,
    op: Op,
) -> Result<(), Memory>
    ensures { OnOk result (parts.new.items ≡ parts.old.items ++ passed_end end locks place op) }
{
    if let PathEnd::Behind = end {
        let Ok(_ends) = pass_op(parts, locks, place, op) else {
            return Err(Memory);
        };
    }
    Ok(())
}

/// The first side of a path, and those behind it.
fn first_side(path: &[bool]) -> Option<(bool, &[bool])>
    ensures { path.now ≡ sides_of result }
{
    match path {
        [] => None,
        [first, rest @ ..] => Some((*first, rest)),
    }
}

/// Goes into a piece of code along a path of sides.
#[cycle(following)]
pub(crate) fn follow(
    parts: &mut Vec<WayPart>,
    locks: u32,
    end: PathEnd,
    path: &[bool],
    code: &Code,
) -> Result<(), Memory>
    ensures { OnOk result (parts.new.items ≡ parts.old.items ++ followed end locks path.now (tree_of code.now)) }
{
    match code {
        Code::Op(_, place, op) => pass_end(parts, locks, end, *place, *op),
        Code::Seq(codes) => follow_through(parts, locks, end, path, codes.as_slice()),
        Code::Choice(left, right) => {
            let Some((is_left, rest)) = first_side(path) else {
                return Ok(());
            };
            let Ok(()) = parts.push(WayPart::Branched(turn_to(is_left))) else {
                return Err(Memory);
            };
            if is_left {
                return follow(parts, locks, end, rest, left);
            }
            follow(parts, locks, end, rest, right)
        }
        Code::Loop(body) => {
            let Ok(()) = parts.push(WayPart::Branched(Turn::Left)) else {
                return Err(Memory);
            };
            follow(parts, locks, end, path, body)
        }
        Code::Sync(_, _, body) => {
            let Ok(()) = parts.push(WayPart::Step) else {
                return Err(Memory);
            };
            let Ok(within) = one_more(locks) else {
                return Err(Memory);
            };
            follow(parts, within, end, path, body)
        }
    }
}

/// Passes pieces of code, up to the one that the path goes into.
#[cycle(following)]
fn follow_through(
    parts: &mut Vec<WayPart>,
    locks: u32,
    end: PathEnd,
    path: &[bool],
    codes: &[Code],
) -> Result<(), Memory>
    ensures { OnOk result (
        parts.new.items ≡ parts.old.items ++ followed end locks path.now (in_sequence (map tree_of codes.now))) }
{
    let mut path = path;
    for code in codes {
        let Some((is_first, rest)) = first_side(path) else {
            return Ok(());
        };
        if is_first {
            return follow(parts, locks, end, rest, code);
        }
        let Ok(_ends) = pass(parts, locks, code) else {
            return Err(Memory);
        };
        path = rest;
    }
    Ok(())
}
