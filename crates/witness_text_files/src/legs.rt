//! The legs of a witness file.
ghost use Rattle.std.specs.Prelude.{◌≡◌, ◌+◌, ◌≤◌, length, codes, option_map, IfOk, IfSome};
ghost use Rattle.serde_json.specs.View.{view};
ghost use Rattle.racer_base.specs.declared.limits.TheConstants.{MAX_WAY_STEPS};
ghost use Rattle.core_ways.specs.Marks.{leg_of};
ghost use Rattle.witness_text_files.specs.Files as files;

use crate::members::{number_up_to, text, two_items};
use core_semantics::Turn;
use core_ways::{Leg, LegTurns};
use racer_base::{MAX_WAY_STEPS, Memory};
use serde_json::Value;
use std::alloc::Global;

/// The turns that `L` and `R` stand for.
fn turns(alloc: Global, letters: &[u8]) -> Result<Option<Vec<Turn>>, Memory>
    ensures { IfOk result (λ r. option_map (λ turns. turns.items) r ≡ files.turns_of letters.now) }
{
    let mut turns = Vec::new(alloc);
    for letter in letters {
        let turn = match *letter {
            b'L' => Turn::Left,
            b'R' => Turn::Right,
            _ => return Ok(None),
        };
        turns.push(turn)?;
    }
    Ok(Some(turns))
}

/// The turns of a leg.
fn text_turns(alloc: Global, value: &Value) -> Result<Option<LegTurns>, Memory>
    ensures turns { IfOk result (λ r. r ≡ files.member (codes "turns") files.text_turns (view value.now)) }
    ensures few { IfOk result (λ r. IfSome r (λ turns. length turns ≤ MAX_WAY_STEPS)) }
{
    let Some(letters) = text(value, "turns") else {
        return Ok(None);
    };
    let Some(turns) = turns(alloc, letters.as_bytes())? else {
        return Ok(None);
    };
    if turns.len() > MAX_WAY_STEPS as usize {
        return Ok(None);
    }
    Ok(Some(LegTurns::from_vec(alloc, turns)?))
}

/// A leg.
fn leg(alloc: Global, value: &Value) -> Result<Option<Leg>, Memory>
    ensures { IfOk result (λ r. option_map leg_of r ≡ files.leg_of (view value.now)) }
{
    let Some(steps) = number_up_to(value, "steps", MAX_WAY_STEPS) else {
        return Ok(None);
    };
    let Some(thread) = number_up_to(value, "thread", 1) else {
        return Ok(None);
    };
    let Some(turns) = text_turns(alloc, value)? else {
        return Ok(None);
    };
    Ok(Some(Leg {
        thread,
        turns,
        steps,
    }))
}

/// Both legs.
fn both(alloc: Global, first: &Value, second: &Value) -> Result<Option<(Leg, Leg)>, Memory>
    ensures legs { IfOk result (λ r. option_map (λ p. (leg_of p.0, leg_of p.1)) r
        ≡ files.two_legs (view first.now, view second.now)) }
    ensures threads { IfOk result (λ r. IfSome r (λ p. p.0.thread + p.1.thread ≡ 1)) }
{
    let Some(first) = leg(alloc, first)? else {
        return Ok(None);
    };
    let Some(second) = leg(alloc, second)? else {
        return Ok(None);
    };
    if first.thread + second.thread == 1 {
        Ok(Some((first, second)))
    } else {
        Ok(None)
    }
}

/// The legs, in running order.
pub(crate) fn legs(alloc: Global, value: &Value) -> Result<Option<(Leg, Leg)>, Memory>
    ensures legs { IfOk result (λ r. option_map (λ p. (leg_of p.0, leg_of p.1)) r
        ≡ files.member (codes "legs") files.legs_of (view value.now)) }
    ensures threads { IfOk result (λ r. IfSome r (λ p. p.0.thread + p.1.thread ≡ 1)) }
{
    let Some((first, second)) = two_items(value, "legs") else {
        return Ok(None);
    };
    both(alloc, first, second)
}
