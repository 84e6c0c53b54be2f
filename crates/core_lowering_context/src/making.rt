//! Drafts of code while they are made.
ghost use Rattle.std.specs.Prelude.{◌≡◌, ◌≤◌, ◌++◌, drop, length, IfOk};
ghost use Rattle.core_lowering_drafts.specs.Pieces.{all_parts};

use crate::value_kind::ValueKind;
use core_code::{LockKind, Op};
use core_lowering_drafts::{Draft, Exit, Part, Piece, count_parts, count_piece};
use racer_base::{Memory, Place, VarId};
use std::alloc::Global;
use std::mem;

/// Pieces in reading order, and how many parts they are.
#[derive(Drop)]
pub struct Making {
    pieces: Vec<Piece>,
    len: usize,
    ghost counted: { len ≡ length (all_parts pieces.items) },
}

/// The piece with which the last so many parts begin.
fn border(pieces: &[Piece], count: usize) -> Result<usize, Memory>
    ensures within { IfOk result (λ i. i ≤ length pieces.now) }
    ensures parts { IfOk result (λ i. length (all_parts (drop i pieces.now)) ≡ count) }
{
    let mut left = count;
    for i in (0..pieces.len()).rev() {
        if left == 0 {
            return Ok(i + 1);
        }
        let parts = count_piece(&pieces[i])?;
        left = left.checked_sub(parts).ok_or(Memory)?;
    }
    if left == 0 {
        return Ok(0);
    }
    Err(Memory)
}

/// Takes the pieces with the last so many parts.
fn split_off(pieces: &mut Vec<Piece>, count: usize) -> Result<Vec<Piece>, Memory>
    ensures whole { IfOk result (λ tail. all_parts pieces.old.items
        ≡ all_parts pieces.new.items ++ all_parts tail.items) }
    ensures parts { IfOk result (λ tail. length (all_parts tail.items) ≡ count) }
{
    let at = border(pieces.as_slice(), count)?;
    Ok(pieces.split_off(at)?)
}

fn boxed(alloc: Global, draft: Draft) -> Result<Box<Draft>, Memory>
    ensures { IfOk result (λ made. made.value ≡ draft) }
{
    Ok(Box::new(alloc, draft)?)
}

impl Making {
    ghost use Rattle.std.specs.Prelude.{◌≡◌, [], ◌∷◌, ◌++◌, take, drop, length, OnOk, OnErr, IfOk};
    ghost use Rattle.core_lowering_drafts.specs.Drafts as path;
    ghost use Rattle.core_lowering_drafts.specs.Drafts.{in_order};
    ghost use Rattle.core_lowering_drafts.specs.Pieces.{parts_of};
    ghost use Rattle.core_lowering_rules.specs.Context.{op_at, choice, repeated, again, held, within, ending, guarded};
    ghost use Rattle.core_lowering_context.specs.Drafts.{code_of};
    ghost use Rattle.core_lowering_context.specs.Views.{value_kind};

    pub fn new(alloc: Global) -> Making
        ensures { code_of result ≡ [] }
    {
        Making {
            pieces: Vec::new(alloc),
            len: 0,
        }
    }

    /// How many parts there are.
    pub fn len(&self) -> usize
        ensures { result ≡ length (code_of self.now) }
    {
        self.len
    }

    /// Puts a piece at the end.
    fn push(&mut self, piece: Piece) -> Result<(), Memory>
        ensures code { OnOk result (code_of self.new ≡ code_of self.old ++ parts_of piece) }
        ensures err { OnErr result (code_of self.new ≡ code_of self.old) }
    {
        let count = count_piece(&piece)?;
        let len = self.len.checked_add(count).ok_or(Memory)?;
        self.pieces.push(piece)?;
        self.len = len;
        Ok(())
    }

    /// Puts an operation at the end.
    pub fn op(&mut self, place: Place, op: Op) -> Result<(), Memory>
        ensures code { OnOk result (code_of self.new ≡ code_of self.old ++ op_at place op) }
        ensures err { OnErr result (code_of self.new ≡ code_of self.old) }
    {
        self.push(Piece::Part(Part::Op(place, op)))
    }

    /// Puts an operation at the end, which leaves a value of this kind.
    pub fn value(&mut self, place: Place, op: Op, kind: ValueKind) -> Result<ValueKind, Memory>
        ensures code { OnOk result (code_of self.new ≡ code_of self.old ++ op_at place op) }
        ensures kind { IfOk result (λ k. value_kind k ≡ value_kind kind) }
    {
        self.op(place, op)?;
        Ok(kind)
    }

    /// Leaves for an exit.
    pub fn leave(&mut self, exit: Exit) -> Result<(), Memory>
        ensures { OnOk result (code_of self.new ≡ code_of self.old ++ path.Leave exit.0 ∷ []) }
    {
        self.push(Piece::Part(Part::Leave(exit)))
    }

    /// Nothing comes behind what is there.
    pub fn never(&mut self) -> Result<(), Memory>
        ensures { OnOk result (code_of self.new ≡ code_of self.old ++ path.Never ∷ []) }
    {
        self.push(Piece::Part(Part::Never))
    }

    /// Takes the parts from this one on.
    pub fn taken(&mut self, alloc: Global, at: usize) -> Result<Draft, Memory>
        ensures kept { OnOk result (code_of self.new ≡ take at (code_of self.old)) }
        ensures taken { IfOk result (λ draft. draft ≡ drop at (code_of self.old)) }
        ensures err { OnErr result (code_of self.new ≡ []) }
    {
        let len = mem::replace(&mut self.len, 0);
        let mut pieces = mem::replace(&mut self.pieces, Vec::new(alloc));
        let count = len.checked_sub(at).ok_or(Memory)?;
        let tail = split_off(&mut pieces, count)?;
        let draft = Draft::of(alloc, tail)?;
        self.pieces = pieces;
        self.len = at;
        Ok(draft)
    }

    fn taken_apart(&mut self, alloc: Global, at: usize) -> Result<Box<Draft>, Memory>
        ensures kept { OnOk result (code_of self.new ≡ take at (code_of self.old)) }
        ensures taken { IfOk result (λ body. body.value ≡ drop at (code_of self.old)) }
    {
        let draft = self.taken(alloc, at)?;
        boxed(alloc, draft)
    }

    /// Puts the parts of a draft at the end.
    pub fn put(&mut self, draft: Draft) -> Result<(), Memory>
        ensures { OnOk result (code_of self.new ≡ code_of self.old ++ draft) }
    {
        let count = count_parts(&draft)?;
        let len = self.len.checked_add(count).ok_or(Memory)?;
        let mut pieces = draft.into_pieces();
        self.pieces.append(&mut pieces)?;
        self.len = len;
        Ok(())
    }

    /// As `choose`, whatever is left after a fault.
    fn fork(&mut self, alloc: Global, left: usize, right: usize) -> Result<(), Memory>
        ensures { OnOk result (code_of self.new ≡ take left (take right (code_of self.old))
            ++ choice (drop left (take right (code_of self.old))) (drop right (code_of self.old))) }
    {
        let second = self.taken_apart(alloc, right)?;
        let first = self.taken_apart(alloc, left)?;
        self.push(Piece::Part(Part::Choice(first, second)))
    }

    /// Makes the parts from one on and those from another on the two sides of a choice.
    pub fn choose(&mut self, alloc: Global, left: usize, right: usize) -> Result<(), Memory>
        ensures code { OnOk result (code_of self.new ≡ take left (take right (code_of self.old))
            ++ choice (drop left (take right (code_of self.old))) (drop right (code_of self.old))) }
        ensures err { OnErr result (code_of self.new ≡ []) }
    {
        let mut made = mem::replace(self, Making::new(alloc));
        made.fork(alloc, left, right)?;
        *self = made;
        Ok(())
    }

    /// As `repeat`, whatever is left after a fault.
    fn turn(&mut self, alloc: Global, at: usize) -> Result<(), Memory>
        ensures { OnOk result (code_of self.new ≡ take at (code_of self.old)
            ++ repeated (drop at (code_of self.old))) }
    {
        let body = self.taken_apart(alloc, at)?;
        self.push(Piece::Part(Part::Loop(body)))
    }

    /// Makes the parts from this one on the body of a loop.
    pub fn repeat(&mut self, alloc: Global, at: usize) -> Result<(), Memory>
        ensures code { OnOk result (code_of self.new ≡ take at (code_of self.old)
            ++ repeated (drop at (code_of self.old))) }
        ensures err { OnErr result (code_of self.new ≡ []) }
    {
        let mut made = mem::replace(self, Making::new(alloc));
        made.turn(alloc, at)?;
        *self = made;
        Ok(())
    }

    /// Makes the parts from this one on the body of a loop that is done at least once.
    pub fn again(&mut self, alloc: Global, at: usize) -> Result<(), Memory>
        ensures { OnOk result (code_of self.new ≡ take at (code_of self.old)
            ++ again (drop at (code_of self.old))) }
    {
        let body = self.taken_apart(alloc, at)?;
        self.push(Piece::Again(body))
    }

    /// As `hold`, whatever is left after a fault.
    fn lock(&mut self, alloc: Global, kind: LockKind, place: Place, at: usize) -> Result<(), Memory>
        ensures { OnOk result (code_of self.new ≡ take at (code_of self.old)
            ++ held kind place (drop at (code_of self.old))) }
    {
        let body = self.taken_apart(alloc, at)?;
        self.push(Piece::Part(Part::Sync(place, kind, body)))
    }

    /// Puts the parts from this one on under a lock.
    pub fn hold(
        &mut self,
        alloc: Global,
        kind: LockKind,
        place: Place,
        at: usize,
    ) -> Result<(), Memory>
        ensures code { OnOk result (code_of self.new ≡ take at (code_of self.old)
            ++ held kind place (drop at (code_of self.old))) }
        ensures err { OnErr result (code_of self.new ≡ []) }
    {
        let mut made = mem::replace(self, Making::new(alloc));
        made.lock(alloc, kind, place, at)?;
        *self = made;
        Ok(())
    }

    /// Puts a draft at the end, behind which the exit leads.
    pub fn put_within(&mut self, alloc: Global, exit: Exit, body: Draft) -> Result<(), Memory>
        ensures { OnOk result (code_of self.new ≡ code_of self.old ++ within exit.0 body) }
    {
        if !body.ends().has(exit) {
            return self.put(body);
        }
        let body = boxed(alloc, body)?;
        self.push(Piece::Part(Part::Within(exit, body)))
    }

    /// The exit leads behind the parts from this one on.
    pub fn come_out(&mut self, alloc: Global, exit: Exit, at: usize) -> Result<(), Memory>
        ensures { OnOk result (code_of self.new ≡ take at (code_of self.old)
            ++ within exit.0 (drop at (code_of self.old))) }
    {
        let body = self.taken(alloc, at)?;
        self.put_within(alloc, exit, body)
    }

    /// Behind the parts from this one on these variables are null.
    pub fn end(
        &mut self,
        alloc: Global,
        place: Place,
        variables: Vec<VarId>,
        at: usize,
    ) -> Result<(), Memory>
        ensures { OnOk result (code_of self.new ≡ take at (code_of self.old)
            ++ ending place variables.items (drop at (code_of self.old))) }
    {
        if variables.is_empty() {
            return Ok(());
        }
        let body = self.taken_apart(alloc, at)?;
        self.push(Piece::Part(Part::Ending(body, place, variables)))
    }

    /// As `guard`, of a body that has another end than the normal one.
    fn guard_ends(
        &mut self,
        alloc: Global,
        body: Draft,
        finally: Draft,
        exit: Exit,
        last: Draft,
    ) -> Result<(), Memory>
        ensures { OnOk result (code_of self.new ≡ code_of self.old
            ++ path.Behind (in_order body) (in_order finally) exit.0 (in_order last) ∷ []) }
    {
        let body = boxed(alloc, body)?;
        let finally = boxed(alloc, finally)?;
        let last = boxed(alloc, last)?;
        self.push(Piece::Part(Part::Behind(body, finally, exit, last)))
    }

    /// Puts a body at the end, behind which comes `finally`, and then the last where the body was left for the exit.
    pub fn guard(
        &mut self,
        alloc: Global,
        body: Draft,
        finally: Draft,
        exit: Exit,
        last: Draft,
    ) -> Result<(), Memory>
        ensures { OnOk result (code_of self.new ≡ code_of self.old ++ guarded exit.0 body finally last) }
    {
        if !body.ends().falls_through() {
            return self.guard_ends(alloc, body, finally, exit, last);
        }
        self.put(body)?;
        self.put(finally)
    }
}
