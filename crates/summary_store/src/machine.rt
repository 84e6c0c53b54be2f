//! Events, and what a worker holds.
use racer_base::MethodId;

/// One step of a worker; its number comes first.
#[derive(Clone, Copy)]
pub enum Event {
    /// The worker takes a method.
    Take(u32, MethodId),
    /// The worker puts its method, the first, aside until the second is done.
    Park(u32, MethodId, MethodId),
    /// The worker is done with its method.
    Publish(u32, MethodId),
    /// The worker finds nothing to take, and leaves for ever.
    Leave(u32),
}

/// What a worker holds: nothing, a method, or nothing for ever since it has left.
#[derive(Clone, Copy)]
pub enum Hand {
    Free,
    Holds(MethodId),
    Gone,
}

impl Hand {
    ghost use Rattle.std.specs.Prelude.{◌≡◌, IsTrue, ◌↔◌};

    /// Whether both are the same.
    pub(crate) fn is(self, other: Hand) -> bool
        ensures { IsTrue result ↔ (self ≡ other) }
    {
        match (self, other) {
            (Hand::Free, Hand::Free) | (Hand::Gone, Hand::Gone) => true,
            (Hand::Holds(m), Hand::Holds(n)) => m == n,
            _ => false,
        }
    }
}
