//! The code of loops.
ghost use Rattle.std.specs.Prelude.{◌≡◌, [], ◌∷◌, ◌++◌, OnOk};
ghost use Rattle.core_lowering_drafts.specs.Ahead.{passed};
ghost use Rattle.core_lowering_drafts.specs.Drafts.{Normal, exits, final_ends, in_order, on};
ghost use Rattle.core_lowering_drafts.specs.EndSets.{seen_asked};
ghost use Rattle.core_lowering_drafts.specs.Only.{fork, loop_of, looped, only, rounds};
ghost use Rattle.core_lowering_drafts.specs.Rooms.{IsRoom, in_branching, room_behind};
ghost use Rattle.core_lowering_drafts.specs.Written.{code_of, room_of};

use crate::only::write;
use core_lowering_drafts::{Asked, Draft, Stop, Written, meets};
use std::alloc::Global;

/// A loop round a draft.
#[cycle(only)]
fn write_repeated(
    alloc: Global,
    body: &Draft,
    asked: Asked,
    written: &mut Written,
) -> Result<(), Stop>
    ensures code { OnOk result (code_of written.new
        ≡ code_of written.old ++ loop_of (only (in_order body.now) (seen_asked asked.entry))) }
    ensures room { IsRoom (in_branching (room_behind (only (in_order body.now) (seen_asked asked.entry)))
        (room_of written.old)) (room_of written.new) result }
{
    written.enter()?;
    let at = written.len();
    write(alloc, body, asked, written)?;
    written.repeat(alloc, at)?;
    Ok(())
}

/// Any number of rounds, where the body has such an end.
#[cycle(only)]
fn write_rounds(
    alloc: Global,
    body: &Draft,
    asked: Asked,
    written: &mut Written,
) -> Result<(), Stop>
    ensures code { OnOk result (code_of written.new ≡ code_of written.old
        ++ rounds (in_order body.now) (only (in_order body.now)) (seen_asked asked.entry)) }
    ensures room { IsRoom (room_behind (rounds (in_order body.now) (only (in_order body.now))
        (seen_asked asked.entry)) (room_of written.old)) (room_of written.new) result }
{
    if !meets(body, asked) {
        return Ok(());
    }
    write_repeated(alloc, body, asked, written)
}

/// One more round, or none.
#[cycle(only)]
fn write_last(alloc: Global, body: &Draft, asked: Asked, written: &mut Written) -> Result<(), Stop>
    ensures code { OnOk result (code_of written.new
        ≡ code_of written.old ++ fork (only (in_order body.now) (seen_asked asked.entry)) []) }
    ensures room { IsRoom (in_branching (room_behind (only (in_order body.now) (seen_asked asked.entry)))
        (room_of written.old)) (room_of written.new) result }
{
    written.enter()?;
    let left = written.len();
    write(alloc, body, asked, written)?;
    let right = written.len();
    written.choose(alloc, left, right)?;
    Ok(())
}

/// Rounds, and then nothing, or one more that leaves for an exit.
#[cycle(only)]
fn write_passed(
    alloc: Global,
    body: &Draft,
    asked: Asked,
    written: &mut Written,
) -> Result<(), Stop>
    ensures code { OnOk result (code_of written.new ≡ code_of written.old
        ++ passed (in_order body.now) (only (in_order body.now)) (seen_asked asked.entry)) }
    ensures room { IsRoom (room_behind (passed (in_order body.now) (only (in_order body.now))
        (seen_asked asked.entry)) (room_of written.old)) (room_of written.new) result }
{
    write_rounds(alloc, body, asked.on(), written)?;
    if !meets(body, asked.exits_alone()) {
        return Ok(());
    }
    write_last(alloc, body, asked.exits_alone(), written)
}

/// Rounds, and then one that leaves for an exit.
#[cycle(only)]
fn write_out(alloc: Global, body: &Draft, asked: Asked, written: &mut Written) -> Result<(), Stop>
    ensures code { OnOk result (code_of written.new ≡ code_of written.old
        ++ (rounds (in_order body.now) (only (in_order body.now)) (on (seen_asked asked.entry))
        ++ only (in_order body.now) (exits (seen_asked asked.entry)))) }
    ensures room { IsRoom (room_behind (rounds (in_order body.now) (only (in_order body.now))
        (on (seen_asked asked.entry)) ++ only (in_order body.now) (exits (seen_asked asked.entry)))
        (room_of written.old)) (room_of written.new) result }
{
    write_rounds(alloc, body, asked.on(), written)?;
    write(alloc, body, asked.exits_alone(), written)
}

/// Rounds, and then one that ends for good.
#[cycle(only)]
fn write_ended(alloc: Global, body: &Draft, asked: Asked, written: &mut Written) -> Result<(), Stop>
    ensures code { OnOk result (code_of written.new ≡ code_of written.old
        ++ (rounds (in_order body.now) (only (in_order body.now)) (Normal ∷ [])
        ++ only (in_order body.now) (final_ends (seen_asked asked.entry)))) }
    ensures room { IsRoom (room_behind (rounds (in_order body.now) (only (in_order body.now)) (Normal ∷ []) ++ only
        (in_order body.now) (final_ends (seen_asked asked.entry))) (room_of written.old)) (room_of written.new)
        result }
{
    write_rounds(alloc, body, Asked::normal_alone(), written)?;
    write(alloc, body, asked.final_ends(), written)
}

/// A loop.
#[cycle(only)]
pub(crate) fn write_loop(
    alloc: Global,
    body: &Draft,
    asked: Asked,
    written: &mut Written,
) -> Result<(), Stop>
    ensures code { OnOk result (code_of written.new ≡ code_of written.old
        ++ looped (in_order body.now) (only (in_order body.now)) (seen_asked asked.entry)) }
    ensures room { IsRoom (room_behind (looped (in_order body.now) (only (in_order body.now))
        (seen_asked asked.entry)) (room_of written.old)) (room_of written.new) result }
{
    if asked.has_normal() {
        return write_passed(alloc, body, asked, written);
    }
    if meets(body, asked.exits_alone()) {
        return write_out(alloc, body, asked, written);
    }
    write_ended(alloc, body, asked, written)
}
