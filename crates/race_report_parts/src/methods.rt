//! What is known of methods.
ghost use Rattle.std.specs.Prelude.{◌≡◌, option_map};
ghost use Rattle.std.specs.Option.{option_copied};
ghost use Rattle.core_code.specs.Core.{method_of};
ghost use Rattle.core_code.specs.Program.{core};
ghost use Rattle.access_domain.specs.Findings.{summary_from};
ghost use Rattle.access_domain.specs.Outcomes.{AreOutcomes};
ghost use Rattle.race_report_parts.specs.Told as told;

use crate::texts::reason_text;
use access_domain::{Outcome, Outcomes, Summary, outcome_at, summary_at};
use core_code::{MethodCore, Program, Reason};

/// The summary of the method of this number, none where it has none.
pub fn summary_of<'a>(
    program: &Program,
    outcomes: &'a Outcomes,
    number: usize,
) -> Option<&'a Summary>
    requires { AreOutcomes (core program.now) outcomes.now.items }
    ensures { option_copied result
        ≡ option_map summary_from (told.found_of (core program.now) (record { 0 = number })) }
{
    summary_at(outcomes, number)
}

/// Why a method of this status and outcome has no summary, none where it has one.
fn reason_from(status: Option<Reason>, outcome: Option<&Outcome>) -> Option<&'static str>
    ensures { option_copied result ≡ told.reason_from status (option_copied outcome.entry) }
{
    if let Some(reason) = status {
        return Some(reason_text(reason));
    }
    match outcome {
        Some(Outcome::Large) => Some("large"),
        _ => None,
    }
}

/// Why a method has no summary, none where it has one.
pub fn reason_of(
    program: &Program,
    outcomes: &Outcomes,
    number: usize,
    method: &MethodCore,
) -> Option<&'static str>
    requires { AreOutcomes (core program.now) outcomes.now.items }
    ensures { option_copied result ≡ told.reason_of (core program.now) (number, method_of method.now) }
{
    reason_from(method.status, outcome_at(outcomes, number))
}
