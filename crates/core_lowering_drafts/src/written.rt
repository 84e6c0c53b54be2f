//! Core code while it is written, in a room that runs out.
ghost use Rattle.std.specs.Prelude.{◌≡◌, ◌++◌, map, take, drop, OnOk, IfOk};
ghost use Rattle.core_code.specs.Tree.{tree_of};
ghost use Rattle.core_lowering_drafts.specs.Only.{fork, loop_of};
ghost use Rattle.core_lowering_drafts.specs.Rooms.{GivesRoom, entered_room, left_room, small_room, taken_room};
ghost use Rattle.core_lowering_drafts.specs.Sites.{AreNumbered, locked, whole_of};

use core_code::{Code, LockKind, Op, exits_through};
use racer_base::{Memory, Place, SiteId};
use std::alloc::Global;
use std::mem;

/// Most choices, loops and locks within each other.
pub const MAX_BRANCHINGS: u32 = 1024;

/// Why no code is written.
#[derive(Clone, Copy)]
pub enum Stop {
    Memory,
    /// The code is too large.
    TooLarge,
}

impl From<Memory> for Stop {
    ghost use Rattle.std.specs.Prelude.{◌≡◌};
    ghost use Rattle.core_lowering_drafts.specs.declared.written.Stop.TheVariants as stop;

    ghost from_gives = { λ _ given. given ≡ stop.Memory };

    fn from(_error: Memory) -> Stop {
        Stop::Memory
    }
}

/// How many more operations and branchings there is room for, how many branchings stand around what is written next,
/// and how many of them may stand within each other.
#[derive(Clone, Copy)]
pub struct Room {
    left: u64,
    within: u32,
    most: u32,
}

/// A room that code does not fill.
fn free_room() -> Room {
    Room {
        left: u64::MAX,
        within: 0,
        most: u32::MAX,
    }
}

/// The room of the code of a method's block that has so many tokens.
fn small_room(tokens: u32) -> Room
    ensures { result ≡ small_room tokens }
{
    Room {
        left: 1024 + 8 * u64::from(tokens),
        within: 0,
        most: MAX_BRANCHINGS,
    }
}

/// A room with one operation or branching less.
fn taken_room(room: Room) -> Result<Room, Stop>
    ensures { GivesRoom (taken_room room) result }
{
    match room.left.checked_sub(1) {
        Some(left) => Ok(Room { left, ..room }),
        None => Err(Stop::TooLarge),
    }
}

/// A room in one more branching.
fn entered_room(room: Room) -> Result<Room, Stop>
    ensures { GivesRoom (entered_room room) result }
{
    let taken = taken_room(room)?;
    if taken.within >= taken.most {
        return Err(Stop::TooLarge);
    }
    Ok(Room {
        within: taken.within + 1,
        ..taken
    })
}

/// A room in one branching less.
fn left_room(room: Room) -> Room
    ensures { result ≡ left_room room }
{
    Room {
        within: room.within.saturating_sub(1),
        ..room
    }
}

/// Parts in reading order, the site of the next operation, and the room.
#[derive(Drop)]
pub struct Written {
    parts: Vec<Code>,
    next: u32,
    room: Room,
    ghost in_order: { AreNumbered parts.items next },
}

/// Takes the parts from this one on.
fn split_off(alloc: Global, parts: &mut Vec<Code>, at: usize) -> Result<Vec<Code>, Memory>
    ensures kept { OnOk result (parts.new.items ≡ take at parts.old.items) }
    ensures taken { IfOk result (λ tail. tail.items ≡ drop at parts.old.items) }
{
    if parts.len() < at {
        return Ok(Vec::new(alloc));
    }
    Ok(parts.split_off(at)?)
}

/// Takes the parts from this one on, one after the other.
fn taken(alloc: Global, parts: &mut Vec<Code>, at: usize) -> Result<Box<Code>, Memory>
    ensures kept { OnOk result (parts.new.items ≡ take at parts.old.items) }
    ensures taken { IfOk result (λ body. tree_of body.value ≡ whole_of (drop at parts.old.items)) }
{
    let tail = split_off(alloc, parts, at)?;
    Ok(Box::new(alloc, Code::Seq(tail))?)
}

/// Makes the parts from one on and those from another on the two sides of a choice.
fn choose(alloc: Global, parts: &mut Vec<Code>, left: usize, right: usize) -> Result<(), Memory>
    ensures { OnOk result (map tree_of parts.new.items ≡ map tree_of (take left (take right parts.old.items))
        ++ fork (map tree_of (drop left (take right parts.old.items))) (map tree_of (drop right parts.old.items))) }
{
    let second = taken(alloc, parts, right)?;
    let first = taken(alloc, parts, left)?;
    parts.push(Code::Choice(first, second))?;
    Ok(())
}

/// Makes the parts from this one on the body of a loop.
fn repeat(alloc: Global, parts: &mut Vec<Code>, at: usize) -> Result<(), Memory>
    ensures { OnOk result (map tree_of parts.new.items ≡ map tree_of (take at parts.old.items)
        ++ loop_of (map tree_of (drop at parts.old.items))) }
{
    let body = taken(alloc, parts, at)?;
    parts.push(Code::Loop(body))?;
    Ok(())
}

/// Puts the parts from this one on under the monitor of an object, or under its explicit lock.
fn hold(
    alloc: Global,
    parts: &mut Vec<Code>,
    kind: LockKind,
    place: Place,
    at: usize,
) -> Result<(), Memory>
    ensures { OnOk result (map tree_of parts.new.items ≡ map tree_of (take at parts.old.items)
        ++ locked kind place (map tree_of (drop at parts.old.items))) }
{
    let body = taken(alloc, parts, at)?;
    parts.push(Code::Sync(place, kind, body))?;
    Ok(())
}

impl Written {
    ghost use Rattle.std.specs.Prelude.{◌≡◌, [], ◌++◌, take, drop, length, OnOk};
    ghost use Rattle.core_code.specs.Tree.{can_end, in_sequence, tree_of};
    ghost use Rattle.core_lowering_drafts.specs.Only.{one, fork, loop_of};
    ghost use Rattle.core_lowering_drafts.specs.Rooms.{IsRoom, entered_room, left_room, room_behind, small_room};
    ghost use Rattle.core_lowering_drafts.specs.Sites.{locked, numbered};
    ghost use Rattle.core_lowering_drafts.specs.Written.{code_of, room_of};

    /// No code yet, and no limit.
    pub fn new(alloc: Global) -> Written
        ensures { code_of result ≡ [] }
    {
        Written {
            parts: Vec::new(alloc),
            next: 0,
            room: free_room(),
        }
    }

    /// How many parts there are.
    pub fn len(&self) -> usize
        ensures { result ≡ length (code_of self.now) }
    {
        self.parts.len()
    }

    /// Puts an operation at the end, whatever room there is.
    fn put_op(&mut self, place: Place, op: Op) -> Result<(), Memory>
        ensures code { OnOk result (code_of self.new ≡ code_of self.old ++ one place op) }
        ensures room { room_of self.new ≡ room_of self.old }
    {
        let next = self.next.checked_add(1).ok_or(Memory)?;
        self.parts.push(Code::Op(SiteId(self.next), place, op))?;
        self.next = next;
        Ok(())
    }

    /// Puts an operation at the end.
    pub fn op(&mut self, place: Place, op: Op) -> Result<(), Stop>
        ensures code { OnOk result (code_of self.new ≡ code_of self.old ++ one place op) }
        ensures room { IsRoom (room_behind (one place op) (room_of self.old)) (room_of self.new) result }
    {
        self.room = taken_room(self.room)?;
        self.put_op(place, op)?;
        Ok(())
    }

    /// What is written next stands in one more branching.
    pub fn enter(&mut self) -> Result<(), Stop>
        ensures code { OnOk result (code_of self.new ≡ code_of self.old) }
        ensures room { IsRoom (entered_room (room_of self.old)) (room_of self.new) result }
    {
        self.room = entered_room(self.room)?;
        Ok(())
    }

    /// Leaves the innermost branching, a choice between the parts from one on and those from another on.
    pub fn choose(&mut self, alloc: Global, left: usize, right: usize) -> Result<(), Memory>
        ensures code { OnOk result (code_of self.new ≡ take left (take right (code_of self.old))
            ++ fork (drop left (take right (code_of self.old))) (drop right (code_of self.old))) }
        ensures room { OnOk result (room_of self.new ≡ left_room (room_of self.old)) }
    {
        let mut parts = mem::replace(&mut self.parts, Vec::new(alloc));
        let next = mem::replace(&mut self.next, 0);
        choose(alloc, &mut parts, left, right)?;
        self.parts = parts;
        self.next = next;
        self.room = left_room(self.room);
        Ok(())
    }

    /// Leaves the innermost branching, a loop round the parts from this one on.
    pub fn repeat(&mut self, alloc: Global, at: usize) -> Result<(), Memory>
        ensures code { OnOk result (code_of self.new ≡ take at (code_of self.old)
            ++ loop_of (drop at (code_of self.old))) }
        ensures room { OnOk result (room_of self.new ≡ left_room (room_of self.old)) }
    {
        let mut parts = mem::replace(&mut self.parts, Vec::new(alloc));
        let next = mem::replace(&mut self.next, 0);
        repeat(alloc, &mut parts, at)?;
        self.parts = parts;
        self.next = next;
        self.room = left_room(self.room);
        Ok(())
    }

    /// Leaves the innermost branching, a lock round the parts from this one on.
    pub fn hold(
        &mut self,
        alloc: Global,
        kind: LockKind,
        place: Place,
        at: usize,
    ) -> Result<(), Memory>
        ensures code { OnOk result (code_of self.new ≡ take at (code_of self.old)
            ++ locked kind place (drop at (code_of self.old))) }
        ensures room { OnOk result (room_of self.new ≡ left_room (room_of self.old)) }
    {
        let mut parts = mem::replace(&mut self.parts, Vec::new(alloc));
        let next = mem::replace(&mut self.next, 0);
        hold(alloc, &mut parts, kind, place, at)?;
        self.parts = parts;
        self.next = next;
        self.room = left_room(self.room);
        Ok(())
    }

    /// What is written next is the code of a method's block that has so many tokens. Gives the room that there was.
    pub fn limit(&mut self, tokens: u32) -> Room
        ensures code { code_of self.new ≡ code_of self.old }
        ensures room { room_of self.new ≡ small_room tokens }
        ensures before { result ≡ room_of self.old }
    {
        mem::replace(&mut self.room, small_room(tokens))
    }

    /// There is this room from here on.
    pub fn go_on(&mut self, room: Room)
        ensures code { code_of self.new ≡ code_of self.old }
        ensures room { room_of self.new ≡ room }
    {
        self.room = room;
    }

    /// Whether the code can come to its end.
    pub fn can_end(&self) -> bool
        ensures { result ≡ can_end (in_sequence (code_of self.now)) }
    {
        exits_through(self.parts.as_slice()).ends
    }

    /// The parts, one after the other.
    pub fn into_code(self) -> Code
        ensures { tree_of result ≡ numbered 0 (in_sequence (code_of self)) }
    {
        Code::Seq(self.parts)
    }
}
