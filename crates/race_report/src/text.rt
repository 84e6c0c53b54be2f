//! The lines of warnings.
ghost use Rattle.std.specs.Prelude.{◌≡◌, Some, map};
ghost use Rattle.std.specs.List.{flat_map};
ghost use Rattle.core_code.specs.Program.{core};
ghost use Rattle.access_domain.specs.Outcomes.{AreOutcomes};
ghost use Rattle.race_report_parts.specs.Sides.{sides_told};
ghost use Rattle.race_report_parts.specs.Sites.{AreSites};
ghost use Rattle.race_report_parts.specs.Told as told;
ghost use Rattle.race_report_parts.specs.Written.{Puts};
ghost use Rattle.core_ways.specs.Marks.{said_by};
ghost use Rattle.witness_build_laws.specs.Warned.{warning_mark};
ghost use Rattle.race_report_parts.specs.Report as said;

use access_domain::Outcomes;
use core_code::Program;
use core_ways::Mark;
use race_pairs::Warning;
use race_report_parts::{
    Sides, Site, Written, mark_at, push_mark_lines, push_side, push_text, sides_of, sites,
};

/// The lines of the two records of a warning.
fn push_sides(text: &mut Written, program: &Program, sides: &Sides<'_>)
    ensures { Puts (said.sides_lines (core program.now) (Some (sides_told sides.now))) text.old text.new }
{
    push_text(text, "warning ");
    push_side(text, program, &sides.first);
    push_text(text, " with ");
    push_side(text, program, &sides.partner)
}

/// The lines of the two records of a warning, where it has them.
fn push_sides_of(
    text: &mut Written,
    program: &Program,
    outcomes: &Outcomes,
    sites: &[Vec<Site>],
    warning: Warning,
)
    requires outcomes { AreOutcomes (core program.now) outcomes.now.items }
    requires sites { AreSites (core program.now) sites.now }
    ensures { Puts
        (said.sides_lines (core program.now) (told.sides_of (core program.now) warning)) text.old text.new }
{
    match sides_of(text.alloc, program, outcomes, sites, warning) {
        Ok(None) => {}
        Ok(Some(sides)) => push_sides(text, program, &sides),
        Err(_) => text.is_cut = true,
    }
}

fn push_warning(
    text: &mut Written,
    program: &Program,
    outcomes: &Outcomes,
    sites: &[Vec<Site>],
    warning: Warning,
    mark: &Mark,
)
    requires outcomes { AreOutcomes (core program.now) outcomes.now.items }
    requires sites { AreSites (core program.now) sites.now }
    requires mark { said_by mark.now ≡ warning_mark (core program.now) warning }
    ensures { Puts (said.warning_lines (core program.now) warning) text.old text.new }
{
    push_sides_of(text, program, outcomes, sites, warning);
    push_mark_lines(text, program, mark)
}

fn push_found_warnings(
    text: &mut Written,
    program: &Program,
    outcomes: &Outcomes,
    sites: &[Vec<Site>],
    found: &[Warning],
    marks: &[Mark],
)
    requires outcomes { AreOutcomes (core program.now) outcomes.now.items }
    requires sites { AreSites (core program.now) sites.now }
    requires marks { map said_by marks.now ≡ map (warning_mark (core program.now)) found.now }
    ensures { Puts (flat_map (said.warning_lines (core program.now)) found.now) text.old text.new }
{
    for (number, warning) in found.iter().enumerate() {
        let mark = mark_at(marks, number);
        push_warning(text, program, outcomes, sites, *warning, mark)
    }
}

pub(crate) fn push_warnings(
    text: &mut Written,
    program: &Program,
    outcomes: &Outcomes,
    found: &[Warning],
    marks: &[Mark],
)
    requires outcomes { AreOutcomes (core program.now) outcomes.now.items }
    requires marks { map said_by marks.now ≡ map (warning_mark (core program.now)) found.now }
    ensures { Puts (flat_map (said.warning_lines (core program.now)) found.now) text.old text.new }
{
    if found.is_empty() {
        return;
    }
    match sites(text.alloc, program) {
        Ok(sites) => push_found_warnings(text, program, outcomes, sites.as_slice(), found, marks),
        Err(_) => text.is_cut = true,
    }
}
