//! What the definitions say of numbers, by a function that does nothing.
ghost use Rattle.racer_base.specs.Limits.{AreLimits};

/// The number of each limit.
pub fn limit_numbers()
    ensures { AreLimits }
{}
