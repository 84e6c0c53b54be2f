//! What is known of a warning.
ghost use Rattle.std.specs.Prelude.{◌≡◌, ◌+◌, ◌*◌, ◌<◌, ◌≤◌, length};
ghost use Rattle.racer_base.specs.declared.limits.TheConstants.{MAX_WAY_STEPS};

use crate::leg_turns::LegTurns;
use access_paths::Path;
use core_semantics::StartPath;
use racer_base::{Items, Place};
use std::mem::size_of;

/// Steps of one thread, 0 or 1, with the turns that they take.
#[derive(Drop)]
pub struct Leg {
    pub thread: u32,
    pub steps: u32,
    pub turns: LegTurns,
    pub ghost one_of_two: { thread < 2 },
    pub ghost few_turns: { length turns ≤ MAX_WAY_STEPS },
    pub ghost few_steps: { steps ≤ MAX_WAY_STEPS },
}

/// A run that ends in a race: two legs from the beginning on, one of each thread.
#[derive(Drop)]
pub struct Witness {
    /// The start paths with a field that the run reads, each once, in the order first read.
    pub objects: Items<StartPath>,
    pub first: Leg,
    pub second: Leg,
    pub ghost few_objects: { length objects ≤ 2 * MAX_WAY_STEPS },
    pub ghost both_threads: { first.thread + second.thread ≡ 1 },
}

/// The mark of a warning.
#[derive(Drop)]
pub enum Mark {
    /// Nothing more than the class of the object is known.
    Unnamed,
    /// This prefix of the path may name another object later.
    Unstable(Path),
    /// A way comes to a call, at this place, of a method that is not analysed.
    Unread(Place),
    /// A way has so many steps.
    Long(u32),
    /// The thread of this number cannot step at this place.
    Blocked(u32, Place),
    Confirmed(Witness),
}

/// So that four million marks are held beside their report in less than 3,000 MiB.
const _: () = prove!(size_of::<Mark>() <= 80);
