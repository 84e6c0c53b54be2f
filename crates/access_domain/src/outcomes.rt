//! The outcomes of all methods, and what they have of one.
ghost use Rattle.std.specs.Prelude.{◌≡◌};
ghost use Rattle.std.specs.Option.{option_copied};
ghost use Rattle.access_domain.specs.Outcomes.{outcomes_held, outcome_among, record_among, summary_in, wobbly_held};
ghost use Rattle.access_domain.specs.OutcomeRecords.{records_held};

use crate::{Access, Outcome, Summary};
use racer_base::MethodId;
use std::sync::Arc;
use wobbly_paths::Wobbly;

/// One for each method, `None` for those that are not analysed.
pub type Outcomes = Vec<Option<Arc<Outcome>>>;

/// The outcome of the method of this number; none where it is not analysed.
pub fn outcome_at(outcomes: &Outcomes, number: usize) -> Option<&Outcome>
    ensures { option_copied result ≡ outcome_among (outcomes_held outcomes.now.items) (record { 0 = number }) }
{
    let Some(place) = outcomes.get(number) else {
        return None;
    };
    match place {
        Some(outcome) => Some(&**outcome),
        None => None,
    }
}

/// The summary of the method of this number; none where it is not analysed, or large.
pub fn summary_at(outcomes: &Outcomes, number: usize) -> Option<&Summary>
    ensures { option_copied result ≡ summary_in
        (outcome_among (outcomes_held outcomes.now.items) (record { 0 = number })) }
{
    match outcome_at(outcomes, number) {
        Some(Outcome::Summary(summary)) => Some(summary),
        _ => None,
    }
}

/// The records of a method; none where it is not analysed, or large.
pub fn records_of(outcomes: &Outcomes, method: MethodId) -> &[Access]
    ensures { result.now ≡ records_held (outcome_among (outcomes_held outcomes.now.items) method) }
{
    match outcome_at(outcomes, method.0 as usize) {
        Some(Outcome::Summary(summary)) => summary.accesses.as_slice(),
        _ => &[],
    }
}

/// The record of an index of a method; none where there are too many.
pub fn record_of(outcomes: &Outcomes, method: MethodId, access: u32) -> Option<&Access>
    ensures { option_copied result ≡ record_among (outcomes_held outcomes.now.items) method access }
{
    records_of(outcomes, method).get(access as usize)
}

/// The wobbly paths of a method; none where it is not analysed, or large.
pub fn wobbly_of(outcomes: &Outcomes, method: MethodId) -> Option<&Wobbly>
    ensures { option_copied result ≡ wobbly_held (outcome_among (outcomes_held outcomes.now.items) method) }
{
    match summary_at(outcomes, method.0 as usize) {
        Some(summary) => Some(&summary.wobbly),
        None => None,
    }
}
