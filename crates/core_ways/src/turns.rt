//! The turns of a way.
ghost use Rattle.std.specs.Prelude.{◌≡◌, ◌++◌, ◌∷◌, [], OnOk};
ghost use Rattle.core_code.specs.Program.{core};
ghost use Rattle.core_ways.specs.Passings.{IsTable};
ghost use Rattle.core_ways.specs.Ways.{trip_of, trip_of_part, trip_along};

use crate::counting::{Passings, parts_of};
use crate::part::WayPart;
use core_code::Program;
use core_semantics::Turn;
use racer_base::{Memory, MethodId};
use std::alloc::Global;

/// Puts a turn at the end.
fn push_turn(turns: &mut Vec<Turn>, turn: Turn) -> Result<(), Memory>
    ensures { OnOk result (turns.new.items ≡ turns.old.items ++ turn ∷ []) }
{
    let Ok(()) = turns.push(turn) else {
        return Err(Memory);
    };
    Ok(())
}

/// Puts the turns of passing a method at the end.
#[cycle(turning)]
fn push_method(
    alloc: Global,
    program: &Program,
    table: &Passings,
    turns: &mut Vec<Turn>,
    method: MethodId,
) -> Result<(), Memory>
    requires { IsTable (core program.now) table.now }
    ensures { OnOk result (turns.new.items ≡ turns.old.items ++ (trip_of (core program.now) method).turns) }
{
    if let Some(passing) = table.get(&method.0) {
        return push_turns(alloc, program, table, turns, passing.parts.as_slice());
    }
    let Ok(parts) = parts_of(alloc, program, method) else {
        return Err(Memory);
    };
    push_turns(alloc, program, table, turns, parts.as_slice())
}

/// Puts the turns of a part at the end.
#[cycle(turning)]
fn push_part(
    alloc: Global,
    program: &Program,
    table: &Passings,
    turns: &mut Vec<Turn>,
    part: WayPart,
) -> Result<(), Memory>
    requires { IsTable (core program.now) table.now }
    ensures { OnOk result (turns.new.items
        ≡ turns.old.items ++ (trip_of_part (trip_of (core program.now)) part).turns) }
{
    match part {
        WayPart::Branched(turn) => push_turn(turns, turn),
        WayPart::Passed(method) => push_method(alloc, program, table, turns, method),
        WayPart::Step | WayPart::Unread(_) => Ok(()),
    }
}

/// Puts the turns of parts at the end.
#[cycle(turning)]
pub fn push_turns(
    alloc: Global,
    program: &Program,
    table: &Passings,
    turns: &mut Vec<Turn>,
    parts: &[WayPart],
) -> Result<(), Memory>
    requires { IsTable (core program.now) table.now }
    ensures { OnOk result (turns.new.items
        ≡ turns.old.items ++ (trip_along (trip_of (core program.now)) parts.now).turns) }
{
    for part in parts {
        let Ok(()) = push_part(alloc, program, table, turns, *part) else {
            return Err(Memory);
        };
    }
    Ok(())
}
