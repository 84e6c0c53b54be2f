//! Witness files.
ghost use Rattle.std.specs.Prelude.{◌≡◌, ◌+◌, ◌*◌, ◌≤◌, length};
ghost use Rattle.racer_base.specs.declared.limits.TheConstants.{MAX_WAY_STEPS};

use core_ways::Leg;
use racer_base::{Items, Text};

/// A witness as its file has it. Whether a program has what the texts name shows at the replay alone.
#[derive(Drop)]
pub struct WitnessFile {
    pub class: Text,
    /// The entry that thread 0 runs.
    pub first_entry: Text,
    /// The entry that thread 1 runs.
    pub second_entry: Text,
    /// The path of the cell that both threads race on. Files of version 1 have none.
    pub path: Option<Text>,
    /// The start paths that there are objects for.
    pub objects: Items<Text>,
    /// The leg that runs first, of either thread.
    pub first: Leg,
    pub second: Leg,
    pub ghost few_objects: { length objects ≤ MAX_WAY_STEPS * 2 },
    pub ghost both_threads: { first.thread + second.thread ≡ 1 },
}
