//! The lines of summaries.
ghost use Rattle.std.specs.Prelude.{◌≡◌, ◌++◌, Some, codes, map, option_map, string_bytes};
ghost use Rattle.std.specs.List.{flat_map, enumerate_from};
ghost use Rattle.core_code.specs.Core.{method_of};
ghost use Rattle.core_code.specs.Program.{core};
ghost use Rattle.access_domain.specs.Findings.{summary_from};
ghost use Rattle.access_domain.specs.Outcomes.{AreOutcomes};
ghost use Rattle.race_report_parts.specs.Sites.{AreSites};
ghost use Rattle.race_report_parts.specs.Texts.{method_text, value_text};
ghost use Rattle.race_report_parts.specs.Told as told;
ghost use Rattle.race_report_parts.specs.Written.{Puts};
ghost use Rattle.race_report_parts.specs.Report as said;

use crate::{
    Site, Written, place_at, push_access, push_end, push_method, push_space, push_text, push_value,
    sites, summary_of, wobbly_texts,
};
use access_domain::{Access, Outcomes, Summary};
use core_code::{MethodCore, Program};
use owner_domain::Value;

/// ` RECORD at LINE:COLUMN`
fn push_access_line(
    text: &mut Written,
    program: &Program,
    sites: &[Vec<Site>],
    number: usize,
    access: &Access,
)
    requires { AreSites (core program.now) sites.now }
    ensures { Puts (said.access_line (core program.now) (record { 0 = number }) access.now) text.old text.new }
{
    push_space(text);
    push_access(
        text,
        program,
        access,
        place_at(program, sites, number, access.site),
    );
    push_end(text)
}

fn push_accesses(
    text: &mut Written,
    program: &Program,
    sites: &[Vec<Site>],
    number: usize,
    accesses: &[Access],
)
    requires { AreSites (core program.now) sites.now }
    ensures { Puts
        (flat_map (said.access_line (core program.now) (record { 0 = number })) accesses.now) text.old text.new }
{
    for access in accesses {
        push_access_line(text, program, sites, number, access)
    }
}

/// ` wobbly PATH`
fn push_wobbly_line(text: &mut Written, path: &str)
    ensures { Puts (said.wobbly_line path.now) text.old text.new }
{
    push_text(text, " wobbly ");
    push_text(text, path);
    push_end(text)
}

/// ` wobbly PATH` for each
fn push_wobbly(text: &mut Written, paths: &[String])
    ensures { Puts (flat_map said.wobbly_line (map string_bytes paths.now)) text.old text.new }
{
    for path in paths {
        push_wobbly_line(text, path.as_str())
    }
}

/// `summary METHOD`
fn push_summary_head(text: &mut Written, program: &Program, method: &MethodCore)
    ensures { Puts
        (said.line (codes "summary " ++ method_text (core program.now) (method_of method.now))) text.old text.new }
{
    push_text(text, "summary ");
    push_method(text, program, method);
    push_end(text)
}

/// ` result VALUE`
fn push_result(text: &mut Written, program: &Program, value: &Value)
    ensures { Puts (said.line (codes " result " ++ value_text (core program.now) value.now)) text.old text.new }
{
    push_text(text, " result ");
    push_value(text, program, value);
    push_end(text)
}

/// The lines of a summary with these wobbly paths.
fn push_found(
    text: &mut Written,
    program: &Program,
    sites: &[Vec<Site>],
    number: usize,
    method: &MethodCore,
    summary: &Summary,
    wobbly: &[String],
)
    requires { AreSites (core program.now) sites.now }
    ensures { Puts (said.summary_text (core program.now) (number, method_of method.now) summary.now.accesses
        (map string_bytes wobbly.now) summary.now.result) text.old text.new }
{
    push_summary_head(text, program, method);
    push_accesses(text, program, sites, number, summary.accesses.as_slice());
    push_wobbly(text, wobbly);
    push_result(text, program, &summary.result)
}

/// The lines of the summary of a method.
fn push_summary(
    text: &mut Written,
    program: &Program,
    sites: &[Vec<Site>],
    number: usize,
    method: &MethodCore,
    summary: &Summary,
)
    requires sites { AreSites (core program.now) sites.now }
    requires is { option_map summary_from (told.found_of (core program.now) (record { 0 = number }))
        ≡ Some summary.now }
    ensures { Puts (said.summary_lines (core program.now) (number, method_of method.now)) text.old text.new }
{
    match wobbly_texts(text.alloc, program, number, summary) {
        Ok(wobbly) => {
            let wobbly = wobbly.as_slice();
            push_found(text, program, sites, number, method, summary, wobbly)
        }
        Err(_) => text.is_cut = true,
    }
}

/// The lines of the summary of a method that has one.
fn push_summary_of(
    text: &mut Written,
    program: &Program,
    outcomes: &Outcomes,
    sites: &[Vec<Site>],
    number: usize,
    method: &MethodCore,
)
    requires outcomes { AreOutcomes (core program.now) outcomes.now.items }
    requires sites { AreSites (core program.now) sites.now }
    ensures { Puts (said.summary_lines (core program.now) (number, method_of method.now)) text.old text.new }
{
    match summary_of(program, outcomes, number) {
        None => {}
        Some(summary) => push_summary(text, program, sites, number, method, summary),
    }
}

/// The lines of the summaries of all methods that have one.
fn push_found_summaries(
    text: &mut Written,
    program: &Program,
    outcomes: &Outcomes,
    sites: &[Vec<Site>],
)
    requires outcomes { AreOutcomes (core program.now) outcomes.now.items }
    requires sites { AreSites (core program.now) sites.now }
    ensures { Puts (flat_map (said.summary_lines (core program.now))
        (enumerate_from 0 (core program.now).methods)) text.old text.new }
{
    let methods = program.methods();
    for (number, method) in methods.iter().enumerate() {
        push_summary_of(text, program, outcomes, sites, number, method)
    }
}

/// The lines of all summaries.
pub fn push_summaries(text: &mut Written, program: &Program, outcomes: &Outcomes)
    requires { AreOutcomes (core program.now) outcomes.now.items }
    ensures { Puts (flat_map (said.summary_lines (core program.now))
        (enumerate_from 0 (core program.now).methods)) text.old text.new }
{
    match sites(text.alloc, program) {
        Ok(sites) => push_found_summaries(text, program, outcomes, sites.as_slice()),
        Err(_) => text.is_cut = true,
    }
}
