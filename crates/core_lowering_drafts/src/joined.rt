//! How what is made of drafts ends.
ghost use Rattle.std.specs.Prelude.{◌∷◌, ◌++◌, IfOk};
ghost use Rattle.core_lowering_drafts.specs.Drafts.{Normal, SameEnds, ends_behind, ends_finally, ends_last};
ghost use Rattle.core_lowering_drafts.specs.Drafts.{ends_within, part_ends};
ghost use Rattle.core_lowering_drafts.specs.EndSets.{seen};
ghost use Rattle.core_lowering_drafts.specs.Lists.{ends_of};
ghost use Rattle.core_lowering_drafts.specs.Pieces.{all_parts, part_of, parts_of};

use crate::draft::{Draft, Part, Piece};
use crate::ends::{Ends, Exit};
use racer_base::Memory;
use std::alloc::Global;

/// How two sides of a choice end.
fn either_ends(left: &Ends, right: &Ends) -> Result<Ends, Memory>
    ensures { IfOk result (λ ends. SameEnds (seen ends) (seen left.now ++ seen right.now)) }
{
    let mut ends = left.copied()?;
    ends.add(right)?;
    Ok(ends)
}

/// How a loop round a body ends.
fn loop_ends(body: &Ends) -> Result<Ends, Memory>
    ensures { IfOk result (λ ends. SameEnds (seen ends) (Normal ∷ seen body.now)) }
{
    let mut ends = body.copied()?;
    ends.put_normal();
    Ok(ends)
}

/// How a body ends behind which an exit leads.
pub(crate) fn within_ends(body: &Ends, exit: Exit) -> Result<Ends, Memory>
    ensures { IfOk result (λ ends. SameEnds (seen ends) (ends_within exit.0 (seen body.now))) }
{
    if !body.has(exit) {
        return body.copied();
    }
    let mut ends = body.copied()?;
    ends.leave_out(exit);
    ends.put_normal();
    Ok(ends)
}

/// Behind a `finally` that ends normally.
fn last_ends(body: &Ends, exit: Exit, last: &Ends) -> Result<Ends, Memory>
    ensures { IfOk result (λ ends. SameEnds (seen ends) (ends_last exit.0 (seen body.now) (seen last.now))) }
{
    if !body.has(exit) {
        return body.kept(exit);
    }
    let kept = body.kept(exit)?;
    let mut ends = last.copied()?;
    ends.add(&kept)?;
    Ok(ends)
}

/// Behind a body that does not throw.
fn finally_ends(body: &Ends, finally: &Ends, exit: Exit, last: &Ends) -> Result<Ends, Memory>
    ensures { IfOk result (λ ends. SameEnds (seen ends)
        (ends_finally exit.0 (seen body.now) (seen finally.now) (seen last.now))) }
{
    if !finally.has_normal() {
        return finally.without_normal();
    }
    let behind = last_ends(body, exit, last)?;
    let mut ends = finally.without_normal()?;
    ends.add(&behind)?;
    Ok(ends)
}

/// How a body with a `finally` ends.
fn behind_ends(
    alloc: Global,
    body: &Ends,
    finally: &Ends,
    exit: Exit,
    last: &Ends,
) -> Result<Ends, Memory>
    ensures { IfOk result (λ ends. SameEnds (seen ends)
        (ends_behind exit.0 (seen body.now) (seen finally.now) (seen last.now))) }
{
    if !body.goes_on() {
        return Ok(body.thrown(alloc));
    }
    let behind = finally_ends(body, finally, exit, last)?;
    let mut ends = body.thrown(alloc);
    ends.add(&behind)?;
    Ok(ends)
}

/// How a part ends.
pub(crate) fn part_ends(alloc: Global, part: &Part) -> Result<Ends, Memory>
    ensures { IfOk result (λ ends. SameEnds (seen ends) (part_ends (part_of part.now))) }
{
    match part {
        Part::Op(_, op) => Ok(Ends::of_op(alloc, *op)),
        Part::Choice(left, right) => either_ends(left.ends(), right.ends()),
        Part::Loop(body) => loop_ends(body.ends()),
        Part::Sync(_, _, body) => body.ends().copied(),
        Part::Leave(exit) => Ends::of_exit(alloc, *exit),
        Part::Within(exit, body) => within_ends(body.ends(), *exit),
        Part::Never => Ok(Ends::none(alloc)),
        Part::Ending(body, _, _) => body.ends().copied(),
        Part::Behind(body, finally, exit, last) => {
            behind_ends(alloc, body.ends(), finally.ends(), *exit, last.ends())
        }
        Part::Entered(groups) => groups.entered_ends(alloc, groups.len()),
    }
}

/// How a piece ends.
fn piece_ends(alloc: Global, piece: &Piece) -> Result<Ends, Memory>
    ensures { IfOk result (λ ends. SameEnds (seen ends) (ends_of (parts_of piece.now))) }
{
    match piece {
        Piece::Part(part) => part_ends(alloc, part),
        Piece::Again(body) => body.ends().copied(),
    }
}

/// How pieces end, one after another.
fn ends_of(alloc: Global, pieces: &[Piece]) -> Result<Ends, Memory>
    ensures { IfOk result (λ ends. SameEnds (seen ends) (ends_of (all_parts pieces.now))) }
{
    let mut ends = Ends::of_nothing(alloc);
    for i in (0..pieces.len()).rev() {
        let first = piece_ends(alloc, &pieces[i])?;
        ends.put_before(&first)?;
    }
    Ok(ends)
}

impl Draft {
    ghost use Rattle.std.specs.Prelude.{◌≡◌, [], IfOk};
    ghost use Rattle.core_lowering_drafts.specs.Drafts.{SameEnds};
    ghost use Rattle.core_lowering_drafts.specs.EndSets.{seen};
    ghost use Rattle.core_lowering_drafts.specs.Lists.{ends_of};
    ghost use Rattle.core_lowering_drafts.specs.Pieces.{all_parts};

    pub fn of(alloc: Global, pieces: Vec<Piece>) -> Result<Draft, Memory>
        ensures { IfOk result (λ draft. draft ≡ all_parts pieces.items) }
    {
        let ends = ends_of(alloc, pieces.as_slice())?;
        Ok(Draft { pieces, ends })
    }

    pub fn nothing(alloc: Global) -> Draft
        ensures { result ≡ [] }
    {
        Draft {
            pieces: Vec::new(alloc),
            ends: Ends::of_nothing(alloc),
        }
    }

    pub fn pieces(&self) -> &[Piece]
        ensures { all_parts result.now ≡ self.now }
    {
        self.pieces.as_slice()
    }

    pub fn ends(&self) -> &Ends
        ensures { SameEnds (seen result.now) (ends_of self.now) }
    {
        &self.ends
    }

    pub fn into_pieces(self) -> Vec<Piece>
        ensures { all_parts result.items ≡ self }
    {
        self.pieces
    }
}
