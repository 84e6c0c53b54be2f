//! What is gone of a way so far: its count, and its turns as long as it is read and not too long.
ghost use Rattle.std.specs.Prelude.{◌≡◌, List, [], ◌∷◌, ◌++◌, true, IfOk, OnOk};
ghost use Rattle.core_code.specs.Program.{core};
ghost use Rattle.core_semantics.specs.declared.answer.Turn.{Turn};
ghost use Rattle.core_ways.specs.Passings.{IsTable};
ghost use Rattle.core_ways.specs.Ways.{Trip, joined, straight, trip_along, trip_of};
ghost use Rattle.core_ways_sites.specs.Gone.{IsLonger, IsOpen, LeadsOn, one_turn};

use core_code::Program;
use core_semantics::Turn;
use core_ways::{Count, Passings, WayPart, count_along, push_turns};
use racer_base::{MAX_WAY_STEPS, Memory};
use std::alloc::Global;

/// Whether what is counted so is read and not too long.
pub(crate) fn is_open(count: Count) -> bool
    ensures if_open { IsOpen count → result ≡ true }
    ensures if_true { result ≡ true → IsOpen count }
{
    count.unread.is_none() && count.steps <= MAX_WAY_STEPS
}

/// Goes on by one step that takes no turn.
pub(crate) fn step(count: Count) -> Count
    ensures { (turns : List Turn) (rest whole : Trip) →
        LeadsOn count turns (joined (straight 1) rest) whole → LeadsOn result turns rest whole }
{
    count.and(Count {
        steps: 1,
        unread: None,
    })
}

/// Puts a turn at the end, where what is gone with it is open.
fn push_open(turns: &mut Vec<Turn>, count: Count, turn: Turn) -> Result<(), Memory>
    ensures longer { OnOk result (IsLonger turns.old.items turns.new.items) }
    ensures turned { OnOk result (IsOpen count → turns.new.items ≡ turns.old.items ++ turn ∷ []) }
{
    if is_open(count) {
        turns.push(turn)?;
    }
    Ok(())
}

/// Goes on by one step that takes a turn.
pub(crate) fn turn(turns: &mut Vec<Turn>, count: Count, turn: Turn) -> Result<Count, Memory>
    ensures longer { OnOk result (IsLonger turns.old.items turns.new.items) }
    ensures leads { (rest whole : Trip) → LeadsOn count turns.old.items (joined (one_turn turn) rest) whole →
        IfOk result (λ now. LeadsOn now turns.new.items rest whole) }
{
    let now = count.and(Count {
        steps: 1,
        unread: None,
    });
    push_open(turns, now, turn)?;
    Ok(now)
}

/// Goes on along parts.
pub(crate) fn along(
    alloc: Global,
    program: &Program,
    table: &mut Passings,
    turns: &mut Vec<Turn>,
    count: Count,
    parts: &[WayPart],
) -> Result<Count, Memory>
    requires { IsTable (core program.now) table.old }
    ensures table { OnOk result (IsTable (core program.now) table.new) }
    ensures longer { OnOk result (IsLonger turns.old.items turns.new.items) }
    ensures leads { (rest whole : Trip) →
        LeadsOn count turns.old.items (joined (trip_along (trip_of (core program.now)) parts.now) rest) whole →
        IfOk result (λ now. LeadsOn now turns.new.items rest whole) }
{
    let now = count.and(count_along(alloc, program, table, parts)?);
    if is_open(now) {
        push_turns(alloc, program, table, turns, parts)?;
    }
    Ok(now)
}
