//! The outcome of one method.
ghost use Rattle.std.specs.Prelude.{◌≡◌, Some};
ghost use Rattle.std.specs.Arc.{arc_value};
ghost use Rattle.core_code.specs.Program.{core};
ghost use Rattle.access_domain.specs.Summaries.{outcome_of};

use access_domain::Outcome;
use core_code::Program;
use racer_base::MethodId;
use std::sync::Arc;

/// A method with its outcome, for its program.
#[derive(Drop)]
pub struct Finished {
    pub program: Arc<Program>,
    pub method: MethodId,
    pub outcome: Arc<Outcome>,
    pub ghost right: { Some (arc_value outcome) ≡ outcome_of (core (arc_value program)) method },
}
