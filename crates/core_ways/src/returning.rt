//! The way through a method to its return.
ghost use Rattle.std.specs.Prelude.{◌≡◌, ◌++◌, ◌∷◌, [], ◌&&◌, ◌||◌, not, if◌then◌else◌, map, IfOk, OnOk};
ghost use Rattle.core_code.specs.Tree.{Choice, Seq, Tree, in_sequence, tree_of};
ghost use Rattle.core_ways.specs.Exits.{IsExit};
ghost use Rattle.core_ways.specs.Ways.{to_return};

use crate::part::WayPart;
use crate::passing::{PathEnd, follow};
use core_code::{Code, Exits};
use racer_base::Memory;
use std::alloc::Global;

/// How code can be left, and the path to where it is left: at each sequence and choice round that, from the inside,
/// whether it stands in the first part.
#[derive(Drop)]
pub(crate) struct Exit {
    pub exits: Exits,
    pub path: Vec<bool>,
}

/// Whether the first of two parts in sequence is passed.
fn goes_past(first: Exits, rest: Exits) -> bool
    ensures { result ≡ (first.ends && (rest.returns || not first.returns)) }
{
    first.ends && (rest.returns || !first.returns)
}

/// The path into one of two parts, whose own paths these are.
fn path_into(is_first: bool, first: Vec<bool>, second: Vec<bool>) -> Result<Vec<bool>, Memory>
    ensures { IfOk result (λ path.
        path.items ≡ (if is_first then first.items else second.items) ++ is_first ∷ []) }
{
    let mut path = if is_first { first } else { second };
    path.push(is_first)?;
    Ok(path)
}

/// From one part, and what comes after it.
fn then(first: Exit, rest: Exit) -> Result<Exit, Memory>
    ensures { (a b : Tree) → IsExit a first → IsExit b rest → IfOk result (λ exit. IsExit (Seq a b) exit) }
{
    let is_past = goes_past(first.exits, rest.exits);
    Ok(Exit {
        exits: first.exits.then(rest.exits),
        path: path_into(!is_past, first.path, rest.path)?,
    })
}

/// From one of two sides.
fn either(left: Exit, right: Exit) -> Result<Exit, Memory>
    ensures { (a b : Tree) → IsExit a left → IsExit b right → IfOk result (λ exit. IsExit (Choice a b) exit) }
{
    let is_left = left.exits.returns;
    Ok(Exit {
        exits: left.exits.either(right.exits),
        path: path_into(is_left, left.path, right.path)?,
    })
}

/// How a piece of code can be left, and where.
#[cycle(leaving)]
fn exit_of(alloc: Global, code: &Code) -> Result<Exit, Memory>
    ensures { IfOk result (λ exit. IsExit (tree_of code.now) exit) }
{
    match code {
        Code::Op(_, _, op) => Ok(Exit {
            exits: Exits::of(*op),
            path: Vec::new(alloc),
        }),
        Code::Seq(codes) => exit_among(alloc, codes.as_slice()),
        Code::Choice(left, right) => {
            let on_left = exit_of(alloc, left)?;
            let on_right = exit_of(alloc, right)?;
            either(on_left, on_right)
        }
        Code::Loop(body) => {
            let inside = exit_of(alloc, body)?;
            Ok(Exit {
                exits: inside.exits.repeated(),
                path: inside.path,
            })
        }
        Code::Sync(_, _, body) => exit_of(alloc, body),
    }
}

/// The same of pieces of code in sequence.
#[cycle(leaving)]
fn exit_among(alloc: Global, codes: &[Code]) -> Result<Exit, Memory>
    ensures { IfOk result (λ exit. IsExit (in_sequence (map tree_of codes.now)) exit) }
{
    let mut exit = Exit {
        exits: Exits::of_nothing(),
        path: Vec::new(alloc),
    };
    for place in (0..codes.len()).rev() {
        exit = then(exit_of(alloc, &codes[place])?, exit)?;
    }
    Ok(exit)
}

/// Goes through the code of a method to a return.
pub(crate) fn come_back(alloc: Global, parts: &mut Vec<WayPart>, code: &Code) -> Result<(), Memory>
    ensures { OnOk result (parts.new.items ≡ parts.old.items ++ to_return 0 (tree_of code.now)) }
{
    let mut path = exit_of(alloc, code)?.path;
    path.reverse();
    follow(parts, 0, PathEnd::Behind, path.as_slice(), code)
}
