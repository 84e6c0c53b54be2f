//! The two ways of a warning.
ghost use Rattle.core_ways.specs.Answers.{IsLong, IsTaken, IsWay};
ghost use Rattle.core_ways.specs.Ways.{Trip};
ghost use Rattle.core_ways.specs.WayPairs.{IsWayPair};

use crate::{WayFault, WayTaken};
use racer_base::{MethodId, Place};

/// Two ways, in running order; or what is known in their place.
#[derive(Drop)]
pub enum WayPair {
    Taken(WayTaken, WayTaken),
    /// One of them comes to a call, at this place, of a method that is not analysed.
    Unread(Place),
    /// One of them has so many steps.
    Long(u32),
}

/// A record, by its method and its index there.
#[derive(Clone, Copy)]
pub struct Target {
    pub method: MethodId,
    pub access: u32,
}

/// What is known where the first way is taken.
pub fn behind_taken(first: WayTaken, second: Result<WayTaken, WayFault>) -> WayPair
    ensures { (a b : Trip) → IsTaken a first → IsWay b second → IsWayPair a b result }
{
    match second {
        Ok(second) => WayPair::Taken(first, second),
        Err(WayFault::Unread(place)) => WayPair::Unread(place),
        Err(WayFault::Long(steps)) => WayPair::Long(steps),
    }
}

/// What is known where the first way has so many steps.
pub fn behind_long(steps: u32, second: Result<WayTaken, WayFault>) -> WayPair
    ensures { (a b : Trip) → IsLong a steps → IsWay b second → IsWayPair a b result }
{
    match second {
        Ok(_) => WayPair::Long(steps),
        Err(WayFault::Unread(at)) => WayPair::Unread(at),
        Err(WayFault::Long(_)) => WayPair::Long(steps),
    }
}
