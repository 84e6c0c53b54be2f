//! Ways to an access, and the marks of warnings.
//!
//! The definitions stand in `specs/Ways.antt`, `specs/Stable.antt` and `specs/Marks.antt`. A warning is named there by
//! its two entries and by the indices of their records.
//!
//! `specs/Ends.antt` and `specs/Gathered.antt` say where a leg that is run ends, and what it read. The steps of a leg
//! are made by `advance` of `core_semantics`, in runs as in walks, and `run_leg` is its loop, for marks and replays.
//!
//! What is passed of a method is kept in an ordered map by its number, and the turns of a way are written out only
//! where it has at most 65,536 steps. How a method can be left is found once a part, and then gone along. A leg holds
//! up to 14 turns itself, which is what a box with its tag takes, so that a `Mark` has 80 bytes. A leg that want of
//! memory breaks off tells nothing of machine and paths. Nothing is passed of a method that is not analysed.
#![tactic(auto)]

mod count;
mod counting;
mod driving;
mod finding;
pub mod laws;
mod leg_turns;
mod mark;
mod objects;
mod part;
mod passing;
mod reaching;
mod returning;
mod taken;
mod turns;
mod way_pair;

pub use count::Count;
pub use counting::{Passing, Passings, count_along};
pub use driving::{LegEnd, let_go, run_leg};
pub use leg_turns::LegTurns;
pub use mark::{Leg, Mark, Witness};
pub use objects::Objects;
pub use part::WayPart;
pub use passing::pass;
pub use reaching::{code_of, parts_to};
pub use taken::{WayFault, WayTaken};
pub use turns::push_turns;
pub use way_pair::{Target, WayPair, behind_long, behind_taken};
