//! The turns of a leg.
ghost use Rattle.std.specs.Prelude.{◌≡◌, IfOk};
ghost use Rattle.std.specs.Option.{IfSome};

use core_semantics::Turn;
use racer_base::Memory;
use std::alloc::Global;
use std::marker::Model;
use std::mem::size_of;

/// How many turns may lie in a leg itself.
const MOST_INSIDE: usize = 14;

/// Few turns: so many, in the first of these places.
#[derive(Drop)]
struct FewTurns {
    count: u8,
    places: [Turn; MOST_INSIDE],
}

impl Model for FewTurns {
    ghost use Rattle.std.specs.Prelude.{List, ◌≤◌, take};
    ghost use Rattle.std.specs.Coded.{coded_list};
    ghost use Rattle.core_semantics.specs.declared.answer.Turn.{Turn};
    ghost use Rattle.core_semantics.specs.contracts.answer.Turn as turn;
    ghost use Rattle.core_ways.specs.declared.leg_turns.TheConstants.{MOST_INSIDE};

    ghost Value = { List Turn };

    ghost coded = { coded_list turn.the_row.coded };

    ghost view = { λ few. take few.count few.places };

    ghost invariant = { λ few. few.count ≤ MOST_INSIDE };
}

impl FewTurns {
    /// A copy of these turns, where they are few.
    fn of(turns: &[Turn]) -> Option<FewTurns>
        ensures { IfSome result (λ few. few ≡ turns.now) }
    {
        if turns.len() > MOST_INSIDE {
            return None;
        }
        let mut places = [Turn::Left; MOST_INSIDE];
        places[..turns.len()].copy_from_slice(turns);
        Some(FewTurns {
            count: turns.len() as u8,
            places,
        })
    }

    fn as_slice(&self) -> &[Turn]
        ensures { result.now ≡ self.now }
    {
        &self.places[..self.count as usize]
    }
}

/// Where the turns of a leg lie. Most legs have few, which take no memory of their own.
#[derive(Drop)]
enum Held {
    Few(FewTurns),
    Many(Box<Vec<Turn>>),
}

/// The turns of a leg, which contracts see as their list.
#[derive(Drop)]
pub struct LegTurns {
    held: Held,
}

impl Model for LegTurns {
    ghost use Rattle.std.specs.Prelude.{List};
    ghost use Rattle.std.specs.Coded.{coded_list};
    ghost use Rattle.core_semantics.specs.declared.answer.Turn.{Turn};
    ghost use Rattle.core_semantics.specs.contracts.answer.Turn as turn;
    ghost use Rattle.core_ways.specs.declared.leg_turns.Held.TheVariants.{Few, Many};

    ghost Value = { List Turn };

    ghost coded = { coded_list turn.the_row.coded };

    ghost view = { λ turns. elim turns.held [ Few few ↦ few | Many many ↦ many.value.items ] };
}

impl LegTurns {
    /// These turns; few of them take no memory.
    pub fn from_vec(alloc: Global, turns: Vec<Turn>) -> Result<LegTurns, Memory>
        ensures { IfOk result (λ made. made ≡ turns.items) }
    {
        let held = match FewTurns::of(turns.as_slice()) {
            Some(few) => Held::Few(few),
            None => Held::Many(Box::new(alloc, turns)?),
        };
        Ok(LegTurns { held })
    }

    pub fn as_slice(&self) -> &[Turn]
        ensures { result.now ≡ self.now }
    {
        match &self.held {
            Held::Few(few) => few.as_slice(),
            Held::Many(many) => many.as_slice(),
        }
    }
}

const _: () = prove!(size_of::<LegTurns>() <= 16);
