//! A way to an access that is taken, or why it is not.
use core_semantics::Turn;
use racer_base::{Items, Place};

/// A way to an access.
#[derive(Drop)]
pub struct WayTaken {
    /// The sides of its choices, and whether each of its loops is gone into, in order.
    pub turns: Items<Turn>,
    pub steps: u32,
}

/// Why a way is not to be taken.
#[derive(Clone, Copy)]
pub enum WayFault {
    /// It comes to a call, at this place, of a method that is not analysed.
    Unread(Place),
    /// It has more than `MAX_WAY_STEPS` steps: so many, or the last number of the type where there are more.
    Long(u32),
}
