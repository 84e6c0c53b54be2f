//! Calls whose callee's findings were noted.
ghost use Rattle.std.specs.Prelude.{◌≡◌};

use owner_domain::NumberedValue;
use racer_base::{Items, MethodId};
use std::hash::{Hash, Hasher};

/// A call, but for its place: another one like it finds nothing new.
#[derive(Drop)]
pub struct NotedCall {
    pub callee: MethodId,
    pub locked: bool,
    pub actuals: Items<NumberedValue>,
}

impl PartialEq for NotedCall {
    ghost use Rattle.transfer_steps.specs.NotedCalls.{same_call, same_call-laws};

    ghost eq = { same_call };

    ghost laws = { same_call-laws };

    fn eq(&self, other: &NotedCall) -> bool {
        self.callee == other.callee
            && self.locked == other.locked
            && self.actuals.as_slice() == other.actuals.as_slice()
    }
}

impl Eq for NotedCall {
    ghost use Rattle.transfer_steps.specs.NotedCalls.{same_call-equivalence};

    ghost laws = { same_call-equivalence };
}

impl Hash for NotedCall {
    ghost use Rattle.transfer_steps.specs.NotedCalls.{call_input, call_input-respects};

    ghost hash_input = { call_input };

    ghost respects_eq = { call_input-respects };

    fn hash<H: Hasher>(&self, state: &mut H) {
        self.callee.0.hash(state);
        self.locked.hash(state);
        self.actuals.as_slice().hash(state);
    }
}
