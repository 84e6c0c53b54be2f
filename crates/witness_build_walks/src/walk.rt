//! A walk, and one step of it.
ghost use Rattle.std.specs.Prelude.{◌≡◌, ◌<◌, ◌++◌, List, IfOk, OnOk, slice_get};
ghost use Rattle.racer_base.specs.declared.ids.FieldId.{FieldId};
ghost use Rattle.racer_base.specs.declared.limits.TheConstants.{MAX_WAY_STEPS};
ghost use Rattle.core_code.specs.Program.{core};
ghost use Rattle.core_semantics.specs.Changes.{next_sight};
ghost use Rattle.core_semantics.specs.Runs.{next_value, wants_turn};
ghost use Rattle.core_semantics.specs.View.{state_of};
ghost use Rattle.witness_build_walks.specs.Walks.{AreKept, IsAtEntry, IsOnward, IsTurned, IsWalk};
ghost use Rattle.witness_build_walks.specs.Walks.{is_loud_behind, listed};
ghost use Rattle.witness_build_walks.specs.Walks.{written};

use core_code::Program;
use core_semantics::{FieldChange, Machine, Sight, Start, Turn, Value, begin};
use core_ways::{Objects, let_go};
use racer_base::{FieldId, Memory, MethodId};
use std::alloc::Global;
use std::collections::BTreeSet;

/// A thread that goes along ways of a method, alone, from the beginning with all start paths as objects.
#[derive(Drop)]
pub(crate) struct Walk<'a> {
    pub machine: Machine<'a>,
    pub thread: u32,
    pub method: MethodId,
    pub steps: u32,
    /// The turns that its steps took.
    pub turns: Vec<Turn>,
    /// The start paths with a field that it read.
    pub given: Objects,
    /// The fields that it read, but for those of primitive types.
    pub reads: BTreeSet<FieldId>,
    /// The fields that it stored in, but for primitive values in fields of such types.
    pub writes: BTreeSet<FieldId>,
    /// Whether it may have changed more.
    pub is_loud: bool,
}

/// Lets a walk go. It is taken apart here alone, since a drop is proved again wherever it stands.
pub(crate) fn let_walk_go(walk: Walk) {
    let_go(walk.machine);
}

/// The same, where there is one.
pub(crate) fn let_last_go(last: Option<Walk>) {
    match last {
        Some(walk) => let_walk_go(walk),
        None => {}
    }
}

/// A walk at the entry of a method.
pub(crate) fn walk_from_entry<'a>(
    alloc: Global,
    program: &'a Program,
    thread: u32,
    method: MethodId,
) -> Result<Walk<'a>, Memory>
    ensures walk { IfOk result (λ walk. IsWalk (core program.now) walk) }
    ensures entry { IfOk result (λ walk. IsAtEntry thread method walk) }
{
    let machine = begin(alloc, program, method, method, Start::All)?;
    Ok(Walk {
        machine,
        thread,
        method,
        steps: 0,
        turns: Vec::new(alloc),
        given: Objects::new(alloc),
        reads: BTreeSet::new(alloc),
        writes: BTreeSet::new(alloc),
        is_loud: false,
    })
}

/// The value that a step reads, which is seen so before it is made.
fn value_in(
    program: &Program,
    machine: &Machine,
    thread: u32,
    sight: Sight,
) -> Result<Option<Value>, Memory>
    requires { sight ≡ next_sight (core program.now) (state_of machine.now) thread }
    ensures { IfOk result (λ value. value ≡ next_value (core program.now) (state_of machine.now) thread) }
{
    if !sight.reads {
        return Ok(None);
    }
    machine.next_value(program, thread)
}

/// The next of these turns.
fn next_turn(turns: &[Turn]) -> Option<Turn>
    ensures { result ≡ slice_get turns.now 0 }
{
    turns.get(0).copied()
}

/// A step, with the next of these turns where it takes one; the turns that are left, where it was made.
fn turn_on<'a, 't>(
    program: &'a Program,
    machine: &mut Machine<'a>,
    turns: &mut Vec<Turn>,
    thread: u32,
    takes_turn: bool,
    rest: &'t [Turn],
) -> Result<Option<&'t [Turn]>, Memory>
    requires { takes_turn ≡ wants_turn (state_of machine.old) thread }
    ensures { IfOk result (λ left. IsTurned (core program.now) thread rest.now (state_of machine.old)
        (state_of machine.new) turns.old.items turns.new.items left) }
{
    let Some(left) = machine.advance(program, thread, rest)? else {
        return Ok(None);
    };
    if !takes_turn {
        return Ok(Some(left));
    }
    let Some(turn) = next_turn(rest) else {
        return Ok(None);
    };
    turns.push(turn)?;
    Ok(Some(left))
}

/// Adds the field that a step reads.
fn add_look(reads: &mut BTreeSet<FieldId>, look: Option<FieldId>) -> Result<(), Memory>
    ensures { OnOk result ((fields : List FieldId) → AreKept reads.old fields →
        AreKept reads.new (fields ++ listed look)) }
{
    match look {
        Some(f) => {
            reads.insert(f)?;
            Ok(())
        }
        None => Ok(()),
    }
}

/// Adds the field that a step changes.
fn add_change(writes: &mut BTreeSet<FieldId>, change: FieldChange) -> Result<(), Memory>
    ensures { OnOk result ((fields : List FieldId) → AreKept writes.old fields →
        AreKept writes.new (fields ++ written change)) }
{
    match change {
        FieldChange::Field(f) => {
            writes.insert(f)?;
            Ok(())
        }
        FieldChange::Nothing => Ok(()),
        FieldChange::Anything => Ok(()),
    }
}

/// Whether a walk may have changed more than fields, behind a step that changes this.
fn is_loud_behind(is_loud: bool, change: FieldChange) -> bool
    ensures { result ≡ is_loud_behind is_loud change }
{
    match change {
        FieldChange::Nothing => is_loud,
        FieldChange::Field(_) => is_loud,
        FieldChange::Anything => true,
    }
}

/// One more step of a walk along these turns; the turns that are left, where it was made.
pub(crate) fn step_on<'a, 't>(
    program: &'a Program,
    walk: &mut Walk<'a>,
    rest: &'t [Turn],
) -> Result<Option<&'t [Turn]>, Memory>
    requires walk { IsWalk (core program.now) walk.old }
    requires few { walk.old.steps < MAX_WAY_STEPS }
    ensures walk { OnOk result (IsWalk (core program.now) walk.new) }
    ensures thread { OnOk result (walk.new.thread ≡ walk.old.thread) }
    ensures method { OnOk result (walk.new.method ≡ walk.old.method) }
    ensures onward { IfOk result (λ left. IsOnward (core program.now) walk.old rest.now walk.new left) }
{
    let thread = walk.thread;
    let sight = walk.machine.next_sight(program, thread);
    let value = value_in(program, &walk.machine, thread, sight)?;
    add_look(&mut walk.reads, sight.look)?;
    let Some(left) = turn_on(
        program,
        &mut walk.machine,
        &mut walk.turns,
        thread,
        sight.takes_turn,
        rest,
    )?
    else {
        return Ok(None);
    };
    walk.given.add_read(value)?;
    add_change(&mut walk.writes, sight.change)?;
    walk.is_loud = is_loud_behind(walk.is_loud, sight.change);
    walk.steps += 1;
    Ok(Some(left))
}
