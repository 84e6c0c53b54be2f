//! The race of a machine.
ghost use Rattle.std.specs.Prelude.{◌≡◌};
ghost use Rattle.core_semantics.specs.Runs.{races};
ghost use Rattle.core_semantics.specs.View.{state_of};

use crate::Machine;
use core_code::is_write;

impl Machine<'_> {
    /// Whether the next steps of both threads touch one field of one object, and at least one writes it (JLS 17.4.5).
    pub fn races(&self) -> bool
        ensures { result ≡ races (state_of self.now) }
    {
        match (self.next_touch(0), self.next_touch(1)) {
            (Some((o, f, kind)), Some((p, g, other))) => {
                o == p && f == g && (is_write(kind) || is_write(other))
            }
            _ => false,
        }
    }
}
