//! The program that was there before, with its methods.
ghost use Rattle.std.specs.Prelude.{◌≡◌, IfOk, option_map};
ghost use Rattle.std.specs.Arc.{arc_value};
ghost use Rattle.std.specs.Option.{option_copied};
ghost use Rattle.core_code.specs.Core.{Core};
ghost use Rattle.core_code.specs.Program.{core};
ghost use Rattle.edit_session.specs.Sessions as spec;

use access_domain::Outcome;
use core_code::Program;
use racer_base::{Memory, MethodId};
use std::alloc::Global;
use std::sync::Arc;
use transfer::Finished;
use transfer_ties::{Ties, same_form, same_outcome};

/// An older program, its methods, finished, and what of it is the same by names in the one that follows.
#[derive(Drop)]
pub(crate) struct Before<'a> {
    pub program: &'a Arc<Program>,
    pub finished: &'a [Option<Arc<Finished>>],
    pub ties: Ties,
}

impl<'a> Before<'a> {
    /// The method of the older program that has this one's class, name and as many parameters.
    fn partner(&self, method: MethodId) -> Option<&'a Arc<Finished>>
        ensures { option_map arc_value (option_copied result) ≡ spec.partner_of self.now method }
    {
        let Some(before) = self.ties.before(method) else {
            return None;
        };
        let Some(place) = self.finished.get(before.0 as usize) else {
            return None;
        };
        place.as_ref()
    }

    /// That method, where it has the same form.
    pub fn of_same_form(&self, program: &Program, method: MethodId) -> Option<&'a Arc<Finished>>
        requires { spec.IsBefore (core program.now) self.now }
        ensures { option_map arc_value (option_copied result) ≡
            spec.of_same_form self.now (core program.now) method }
    {
        let Some(old) = self.partner(method) else {
            return None;
        };
        if same_form(&**self.program, program, &self.ties, old.method, method) {
            Some(old)
        } else {
            None
        }
    }

    /// Whether the outcome of a method is another than its partner had, or it had none.
    pub fn differs(
        &self,
        alloc: Global,
        method: MethodId,
        outcome: &Outcome,
    ) -> Result<bool, Memory>
        ensures { IfOk result (λ differs. (program : Core) → spec.IsBefore program self.now →
            spec.TellsDifference program self.now method outcome.now differs) }
    {
        let Some(old) = self.partner(method) else {
            return Ok(true);
        };
        let same = same_outcome(alloc, &self.ties, &old.outcome, outcome)?;
        Ok(!same)
    }
}
