//! The object of a report, put behind a text member by member.
ghost use Rattle.std.specs.Prelude.{◌≡◌, Some, Bool, codes, false, map, option_map, true};
ghost use Rattle.std.specs.List.{flat_map, enumerate_from};
ghost use Rattle.serde_json.specs.Written.{compact_text};
ghost use Rattle.core_code.specs.Core.{method_of};
ghost use Rattle.core_code.specs.Program.{core};
ghost use Rattle.access_domain.specs.Findings.{summary_from};
ghost use Rattle.access_domain.specs.Outcomes.{AreOutcomes};
ghost use Rattle.core_ways.specs.Marks.{said_by};
ghost use Rattle.witness_build_laws.specs.Warned.{warning_mark};
ghost use Rattle.race_report_parts.specs.Sides.{sides_told};
ghost use Rattle.race_report_parts.specs.Sites.{AreSites};
ghost use Rattle.race_report_parts.specs.Told as told;
ghost use Rattle.race_report_parts.specs.Written.{Puts};
ghost use Rattle.race_pairs.specs.Warnings as pairs;
ghost use Rattle.race_report_parts.specs.Json as said;
ghost use Rattle.race_report_parts.specs.Pieces as pieces;
ghost use Rattle.race_report_parts.specs.Pieces.{PutsItems, PutsMembers};

use crate::mark_numbers::mark_at;
use crate::strings::{push_comma, push_place_strings};
use crate::values::{push_found, push_marked, push_reason};
use crate::{
    Sides, Site, Written, push_count, push_text, reason_of, sides_of, sites, summary_of,
    wobbly_texts,
};
use access_domain::{Outcomes, Summary};
use core_code::{MethodCore, Program};
use core_ways::Mark;
use race_pairs::Warning;

/// The object of a method that has no summary, as an item.
fn push_reason_item(
    text: &mut Written,
    later: bool,
    program: &Program,
    method: &MethodCore,
    reason: &str,
)
    ensures { PutsItems later true (said.reason_values (core program.now) (method_of method.now) (Some reason.now))
        text.old text.new }
{
    push_comma(text, later);
    push_reason(text, program, method, reason)
}

/// The object of a method, where it has no summary. Says whether a value stands before what follows.
fn push_not_analysed_item(
    text: &mut Written,
    later: bool,
    program: &Program,
    outcomes: &Outcomes,
    number: usize,
    method: &MethodCore,
) -> bool
    requires { AreOutcomes (core program.now) outcomes.now.items }
    ensures { PutsItems later result (said.not_analysed_values (core program.now) (number, method_of method.now))
        text.old text.new }
{
    match reason_of(program, outcomes, number, method) {
        None => later,
        Some(reason) => {
            push_reason_item(text, later, program, method, reason);
            true
        }
    }
}

fn push_not_analysed(text: &mut Written, program: &Program, outcomes: &Outcomes)
    requires { AreOutcomes (core program.now) outcomes.now.items }
    ensures { Puts (pieces.not_analysed_text (core program.now)) text.old text.new }
{
    push_text(text, "[");
    let mut later = false;
    let methods = program.methods();
    for (number, method) in methods.iter().enumerate() {
        later = push_not_analysed_item(text, later, program, outcomes, number, method);
    }
    push_text(text, "]")
}

/// The object of a summary, as an item.
fn push_summary_item(
    text: &mut Written,
    later: bool,
    program: &Program,
    sites: &[Vec<Site>],
    number: usize,
    method: &MethodCore,
    summary: &Summary,
)
    requires sites { AreSites (core program.now) sites.now }
    requires is { option_map summary_from (told.found_of (core program.now) (record { 0 = number }))
        ≡ Some summary.now }
    ensures { PutsItems later true (said.summary_values (core program.now) (number, method_of method.now))
        text.old text.new }
{
    push_comma(text, later);
    match wobbly_texts(text.alloc, program, number, summary) {
        Ok(wobbly) => {
            let wobbly = wobbly.as_slice();
            push_found(text, program, sites, number, method, summary, wobbly)
        }
        Err(_) => text.is_cut = true,
    }
}

/// The object of the summary of a method, where it has one. Says whether a value stands before what follows.
fn push_summary(
    text: &mut Written,
    later: bool,
    program: &Program,
    outcomes: &Outcomes,
    sites: &[Vec<Site>],
    number: usize,
    method: &MethodCore,
) -> bool
    requires outcomes { AreOutcomes (core program.now) outcomes.now.items }
    requires sites { AreSites (core program.now) sites.now }
    ensures { PutsItems later result (said.summary_values (core program.now) (number, method_of method.now))
        text.old text.new }
{
    match summary_of(program, outcomes, number) {
        None => later,
        Some(summary) => {
            push_summary_item(text, later, program, sites, number, method, summary);
            true
        }
    }
}

/// The summaries, by the operations of all methods.
fn push_found_summaries(
    text: &mut Written,
    program: &Program,
    outcomes: &Outcomes,
    sites: &[Vec<Site>],
)
    requires outcomes { AreOutcomes (core program.now) outcomes.now.items }
    requires sites { AreSites (core program.now) sites.now }
    ensures { Puts (pieces.summaries_text (core program.now)) text.old text.new }
{
    push_text(text, "[");
    let mut later = false;
    let methods = program.methods();
    for (number, method) in methods.iter().enumerate() {
        later = push_summary(text, later, program, outcomes, sites, number, method);
    }
    push_text(text, "]")
}

/// The summaries of all methods that have one.
fn push_summaries(text: &mut Written, program: &Program, outcomes: &Outcomes)
    requires { AreOutcomes (core program.now) outcomes.now.items }
    ensures { Puts (pieces.summaries_text (core program.now)) text.old text.new }
{
    match sites(text.alloc, program) {
        Ok(sites) => push_found_summaries(text, program, outcomes, sites.as_slice()),
        Err(_) => text.is_cut = true,
    }
}

/// The object of a warning with this mark, as an item.
fn push_marked_item(
    text: &mut Written,
    later: bool,
    program: &Program,
    sides: &Sides<'_>,
    mark: &Mark,
)
    ensures { PutsItems later true
        (said.marked_values (core program.now) (said_by mark.now) (Some (sides_told sides.now))) text.old text.new }
{
    push_comma(text, later);
    push_marked(text, program, sides, mark)
}

/// The object of a warning, where it has its two records. Says whether a value stands before what follows.
fn push_warning(
    text: &mut Written,
    later: bool,
    program: &Program,
    outcomes: &Outcomes,
    sites: &[Vec<Site>],
    warning: Warning,
    mark: &Mark,
) -> bool
    requires outcomes { AreOutcomes (core program.now) outcomes.now.items }
    requires sites { AreSites (core program.now) sites.now }
    requires mark { said_by mark.now ≡ warning_mark (core program.now) warning }
    ensures { PutsItems later result (said.warning_values (core program.now) warning) text.old text.new }
{
    match sides_of(text.alloc, program, outcomes, sites, warning) {
        Ok(None) => later,
        Ok(Some(sides)) => {
            push_marked_item(text, later, program, &sides, mark);
            true
        }
        Err(_) => {
            text.is_cut = true;
            later
        }
    }
}

/// The warnings, by the operations of all methods.
fn push_found_warnings(
    text: &mut Written,
    program: &Program,
    outcomes: &Outcomes,
    sites: &[Vec<Site>],
    found: &[Warning],
    marks: &[Mark],
)
    requires outcomes { AreOutcomes (core program.now) outcomes.now.items }
    requires sites { AreSites (core program.now) sites.now }
    requires marks { map said_by marks.now ≡ map (warning_mark (core program.now)) found.now }
    ensures { Puts (pieces.warnings_text (core program.now) found.now) text.old text.new }
{
    push_text(text, "[");
    let mut later = false;
    for (number, warning) in found.iter().enumerate() {
        let mark = mark_at(marks, number);
        later = push_warning(text, later, program, outcomes, sites, *warning, mark);
    }
    push_text(text, "]")
}

fn push_warnings(
    text: &mut Written,
    program: &Program,
    outcomes: &Outcomes,
    found: &[Warning],
    marks: &[Mark],
)
    requires outcomes { AreOutcomes (core program.now) outcomes.now.items }
    requires marks { map said_by marks.now ≡ map (warning_mark (core program.now)) found.now }
    ensures { Puts (pieces.warnings_text (core program.now) found.now) text.old text.new }
{
    match sites(text.alloc, program) {
        Ok(sites) => push_found_warnings(text, program, outcomes, sites.as_slice(), found, marks),
        Err(_) => text.is_cut = true,
    }
}

/// The counts.
fn push_counts(text: &mut Written, program: &Program)
    ensures { Puts (pieces.counts_text (core program.now)) text.old text.new }
{
    push_text(text, "{\"classes\":");
    push_count(text, program.classes().len());
    push_text(text, ",\"files\":");
    push_count(text, program.files().len());
    push_text(text, ",\"methods\":");
    push_count(text, program.methods().len())
}

/// The members before the summaries.
fn push_first(text: &mut Written, program: &Program, outcomes: &Outcomes)
    requires { AreOutcomes (core program.now) outcomes.now.items }
    ensures { Puts (pieces.first_text (core program.now)) text.old text.new }
{
    push_counts(text, program);
    push_text(text, ",\"not_analysed\":");
    push_not_analysed(text, program, outcomes);
    let before = ",\"profile\":5,\"skipped\":";
    push_place_strings(text, before, program, program.skipped())
}

/// The member of the summaries.
fn push_summaries_member(text: &mut Written, program: &Program, outcomes: &Outcomes)
    requires { AreOutcomes (core program.now) outcomes.now.items }
    ensures { PutsMembers (said.with_summaries true (core program.now)) text.old text.new }
{
    push_text(text, ",\"summaries\":");
    push_summaries(text, program, outcomes)
}

/// The member of the summaries, where they are asked for.
fn push_asked(text: &mut Written, summaries: bool, program: &Program, outcomes: &Outcomes)
    requires { AreOutcomes (core program.now) outcomes.now.items }
    ensures { PutsMembers (said.with_summaries summaries (core program.now)) text.old text.new }
{
    if summaries {
        push_summaries_member(text, program, outcomes)
    }
}

/// The last member: the warnings.
fn push_last(
    text: &mut Written,
    program: &Program,
    outcomes: &Outcomes,
    found: &[Warning],
    marks: &[Mark],
)
    requires outcomes { AreOutcomes (core program.now) outcomes.now.items }
    requires marks { map said_by marks.now ≡ map (warning_mark (core program.now)) found.now }
    ensures { Puts (pieces.last_text (core program.now) found.now) text.old text.new }
{
    push_text(text, ",\"warnings\":");
    push_warnings(text, program, outcomes, found, marks);
    push_text(text, "}")
}

/// The object of a report.
pub fn push_report(
    text: &mut Written,
    summaries: bool,
    program: &Program,
    outcomes: &Outcomes,
    found: &[Warning],
    marks: &[Mark],
)
    requires outcomes { AreOutcomes (core program.now) outcomes.now.items }
    requires found { found.now ≡ pairs.warnings (core program.now) }
    requires marks { map said_by marks.now ≡ map (warning_mark (core program.now)) found.now }
    ensures { Puts (compact_text (said.report_value summaries (core program.now))) text.old text.new }
{
    push_first(text, program, outcomes);
    push_asked(text, summaries, program, outcomes);
    push_last(text, program, outcomes, found, marks)
}
