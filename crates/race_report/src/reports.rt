//! The report on a program.
ghost use Rattle.std.specs.Prelude.{◌≡◌, IfOk, map, string_bytes};
ghost use Rattle.serde_json.specs.Written.{compact_text};
ghost use Rattle.core_code.specs.Program.{core};
ghost use Rattle.access_domain.specs.Outcomes.{AreOutcomes};
ghost use Rattle.race_pairs.specs.Warnings as pairs;
ghost use Rattle.core_ways.specs.Marks.{said_by};
ghost use Rattle.witness_build_laws.specs.Warned.{warning_mark};
ghost use Rattle.race_report_parts.specs.Written.{Puts};
ghost use Rattle.race_report_parts.specs.Json.{report_value};
ghost use Rattle.race_report.specs.Modes as said;
ghost use Rattle.race_report_parts.specs.Report as lines;

use crate::marks::push_last;
use crate::text::push_warnings;
use access_domain::Outcomes;
use core_code::Program;
use core_ways::Mark;
use race_pairs::Warning;
use race_report_modes::{Format, Mode};
use race_report_parts::{
    Written, push_counts, push_end, push_not_analysed, push_skipped, push_summaries, push_text,
};
use racer_base::Memory;
use std::alloc::Global;

/// Puts the lines of the summaries behind a text, where they are asked for.
fn push_asked(text: &mut Written, summaries: bool, program: &Program, outcomes: &Outcomes)
    requires { AreOutcomes (core program.now) outcomes.now.items }
    ensures { Puts (lines.summaries_lines summaries (core program.now)) text.old text.new }
{
    if summaries {
        push_summaries(text, program, outcomes)
    }
}

/// Puts the first lines behind a text.
fn push_head(text: &mut Written, program: &Program)
    ensures { Puts (lines.head_lines (core program.now)) text.old text.new }
{
    push_text(text, "racer report 1\n");
    push_counts(text, program)
}

/// Puts the lines on places and methods behind a text.
fn push_methods(text: &mut Written, summaries: bool, program: &Program, outcomes: &Outcomes)
    requires { AreOutcomes (core program.now) outcomes.now.items }
    ensures { Puts (lines.method_lines summaries (core program.now)) text.old text.new }
{
    push_skipped(text, program);
    push_not_analysed(text, program, outcomes);
    push_asked(text, summaries, program, outcomes)
}

/// Puts a report of lines behind a text.
fn push_lines(
    text: &mut Written,
    summaries: bool,
    program: &Program,
    outcomes: &Outcomes,
    found: &[Warning],
    marks: &[Mark],
)
    requires outcomes { AreOutcomes (core program.now) outcomes.now.items }
    requires found { found.now ≡ pairs.warnings (core program.now) }
    requires marks { map said_by marks.now ≡ map (warning_mark (core program.now)) found.now }
    ensures { Puts (lines.report_text summaries (core program.now)) text.old text.new }
{
    push_head(text, program);
    push_methods(text, summaries, program, outcomes);
    push_warnings(text, program, outcomes, found, marks);
    push_last(text, program, found, marks)
}

/// Puts a report that is an object behind a text, and a line feed.
fn push_object(
    text: &mut Written,
    summaries: bool,
    program: &Program,
    outcomes: &Outcomes,
    found: &[Warning],
    marks: &[Mark],
)
    requires outcomes { AreOutcomes (core program.now) outcomes.now.items }
    requires found { found.now ≡ pairs.warnings (core program.now) }
    requires marks { map said_by marks.now ≡ map (warning_mark (core program.now)) found.now }
    ensures { Puts (lines.line (compact_text (report_value summaries (core program.now)))) text.old text.new }
{
    race_report_parts::push_report(text, summaries, program, outcomes, found, marks);
    push_end(text)
}

/// Puts a report behind a text.
fn push_report(
    text: &mut Written,
    mode: Mode,
    program: &Program,
    outcomes: &Outcomes,
    found: &[Warning],
    marks: &[Mark],
)
    requires outcomes { AreOutcomes (core program.now) outcomes.now.items }
    requires found { found.now ≡ pairs.warnings (core program.now) }
    requires marks { map said_by marks.now ≡ map (warning_mark (core program.now)) found.now }
    ensures { Puts (said.report mode (core program.now)) text.old text.new }
{
    match mode.format {
        Format::Text => push_lines(text, mode.summaries, program, outcomes, found, marks),
        Format::Json => push_object(text, mode.summaries, program, outcomes, found, marks),
    }
}

/// The report of a program, of the outcomes of its methods, of its warnings and of their marks, one a warning.
pub fn report(
    alloc: Global,
    mode: Mode,
    program: &Program,
    outcomes: &Outcomes,
    found: &[Warning],
    marks: &[Mark],
) -> Result<String, Memory>
    requires outcomes { AreOutcomes (core program.now) outcomes.now.items }
    requires found { found.now ≡ pairs.warnings (core program.now) }
    requires marks { map said_by marks.now ≡ map (warning_mark (core program.now)) found.now }
    ensures { IfOk result (λ text. string_bytes text ≡ said.report mode (core program.now)) }
{
    let mut text = Written::new(alloc);
    push_report(&mut text, mode, program, outcomes, found, marks);
    text.finished()
}
