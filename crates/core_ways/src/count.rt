//! How many steps parts of a way have, and the first call among them that is not read.
ghost use Rattle.std.specs.Prelude.{◌≡◌};
ghost use Rattle.core_ways.specs.Counts.{added};

use racer_base::Place;

/// A number of steps, which stops at the last value of its type, and the place of the first call that is not read.
#[derive(Clone, Copy)]
pub struct Count {
    pub steps: u32,
    pub unread: Option<Place>,
}

impl Count {
    /// The count of these parts and then others.
    pub fn and(self, then: Count) -> Count
        ensures { result ≡ added self then }
    {
        Count {
            steps: self.steps.saturating_add(then.steps),
            unread: self.unread.or(then.unread),
        }
    }
}
