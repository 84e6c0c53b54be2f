//! Lines of a report: counts, places, methods without a summary, the record of a warning.
ghost use Rattle.std.specs.Prelude.{Some};
ghost use Rattle.std.specs.List.{flat_map, enumerate_from};
ghost use Rattle.core_code.specs.Core.{method_of};
ghost use Rattle.core_code.specs.Program.{core};
ghost use Rattle.access_domain.specs.Outcomes.{AreOutcomes};
ghost use Rattle.race_report_parts.specs.Sides.{side_told};
ghost use Rattle.race_report_parts.specs.Written.{Puts};
ghost use Rattle.race_report_parts.specs.Report as said;

use crate::{
    Side, Written, push_count, push_end, push_method, push_place, push_record, push_space,
    push_text, reason_of,
};
use access_domain::Outcomes;
use core_code::{MethodCore, Program};
use racer_base::Place;

/// `files N classes N methods N`
pub fn push_counts(text: &mut Written, program: &Program)
    ensures { Puts (said.counts_line (core program.now)) text.old text.new }
{
    push_text(text, "files ");
    push_count(text, program.files().len());
    push_text(text, " classes ");
    push_count(text, program.classes().len());
    push_text(text, " methods ");
    push_count(text, program.methods().len());
    push_end(text)
}

/// `skipped PLACE`
fn push_skipped_line(text: &mut Written, program: &Program, place: Place)
    ensures { Puts (said.skipped_line (core program.now) place) text.old text.new }
{
    push_text(text, "skipped ");
    push_place(text, program, place);
    push_end(text)
}

/// `skipped PLACE` for each member that is skipped
pub fn push_skipped(text: &mut Written, program: &Program)
    ensures { Puts
        (flat_map (said.skipped_line (core program.now)) (core program.now).skipped) text.old text.new }
{
    for place in program.skipped() {
        push_skipped_line(text, program, *place)
    }
}

/// `METHOD PLACE`
fn push_method_place(text: &mut Written, program: &Program, method: &MethodCore)
    ensures { Puts (said.method_place (core program.now) (method_of method.now)) text.old text.new }
{
    push_method(text, program, method);
    push_space(text);
    push_place(text, program, method.place)
}

/// `not analysed METHOD PLACE REASON`
fn push_reason(text: &mut Written, program: &Program, method: &MethodCore, reason: &str)
    ensures { Puts
        (said.reason_line (core program.now) (method_of method.now) (Some reason.now)) text.old text.new }
{
    push_text(text, "not analysed ");
    push_method_place(text, program, method);
    push_space(text);
    push_text(text, reason);
    push_end(text)
}

/// The line of a method that has no summary, nothing for one that has.
fn push_not_analysed_line(
    text: &mut Written,
    program: &Program,
    outcomes: &Outcomes,
    number: usize,
    method: &MethodCore,
)
    requires { AreOutcomes (core program.now) outcomes.now.items }
    ensures { Puts (said.not_analysed_line (core program.now) (number, method_of method.now)) text.old text.new }
{
    match reason_of(program, outcomes, number, method) {
        None => {}
        Some(reason) => push_reason(text, program, method, reason),
    }
}

/// `not analysed METHOD PLACE REASON` for each method that has no summary
pub fn push_not_analysed(text: &mut Written, program: &Program, outcomes: &Outcomes)
    requires { AreOutcomes (core program.now) outcomes.now.items }
    ensures { Puts (flat_map (said.not_analysed_line (core program.now))
        (enumerate_from 0 (core program.now).methods)) text.old text.new }
{
    let methods = program.methods();
    for (number, method) in methods.iter().enumerate() {
        push_not_analysed_line(text, program, outcomes, number, method)
    }
}

/// ` at PLACE`
fn push_at(text: &mut Written, program: &Program, place: Place)
    ensures { Puts (said.at_line (core program.now) place) text.old text.new }
{
    push_text(text, " at ");
    push_place(text, program, place);
    push_end(text)
}

fn push_places(text: &mut Written, program: &Program, places: &[Place])
    ensures { Puts (flat_map (said.at_line (core program.now)) places.now) text.old text.new }
{
    for place in places {
        push_at(text, program, *place)
    }
}

/// `METHOD RECORD`, and below it the places from the record's site down to its access.
pub fn push_side(text: &mut Written, program: &Program, side: &Side<'_>)
    ensures { Puts (said.side_lines (core program.now) (side_told side.now)) text.old text.new }
{
    push_method(text, program, side.method);
    push_space(text);
    push_record(text, program, side.access);
    push_end(text);
    push_places(text, program, side.places.as_slice())
}
