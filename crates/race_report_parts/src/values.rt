//! The objects of a report's object, put behind a text.
ghost use Rattle.std.specs.Prelude.{◌≡◌, map, string_bytes};
ghost use Rattle.core_code.specs.Core.{method_of};
ghost use Rattle.core_code.specs.Program.{core};
ghost use Rattle.core_ways.specs.Marks.{said_by};
ghost use Rattle.race_report_parts.specs.Sides.{side_told, sides_told};
ghost use Rattle.race_report_parts.specs.Sites.{AreSites};
ghost use Rattle.race_report_parts.specs.Written.{Puts};
ghost use Rattle.race_report_parts.specs.Pieces as pieces;

use crate::strings::{
    push_access_strings, push_flag, push_method_string, push_path_string, push_place_string,
    push_place_strings, push_result_string, push_string, push_strings,
};
use crate::witness::push_witness_member;
use crate::{Side, Sides, Site, Written, mark_word, push_number, push_text, touch_text};
use access_domain::Summary;
use access_paths::Path;
use core_code::{MethodCore, Program};
use core_ways::Mark;
use racer_base::Place;

/// The object of a method that has no summary.
pub(crate) fn push_reason(text: &mut Written, program: &Program, method: &MethodCore, reason: &str)
    ensures { Puts (pieces.reason_object (core program.now) (method_of method.now) reason.now) text.old text.new }
{
    push_method_string(text, "{\"method\":", program, method);
    push_place_string(text, ",\"place\":", program, method.place);
    push_string(text, ",\"reason\":", reason);
    push_text(text, "}")
}

/// The object of a summary with these wobbly paths.
pub(crate) fn push_found(
    text: &mut Written,
    program: &Program,
    sites: &[Vec<Site>],
    number: usize,
    method: &MethodCore,
    summary: &Summary,
    wobbly: &[String],
)
    requires { AreSites (core program.now) sites.now }
    ensures { Puts (pieces.summary_object (core program.now) (number, method_of method.now) summary.now.accesses
        (map string_bytes wobbly.now) summary.now.result) text.old text.new }
{
    push_access_strings(
        text,
        "{\"accesses\":",
        program,
        sites,
        number,
        summary.accesses.as_slice(),
    );
    push_method_string(text, ",\"method\":", program, method);
    push_result_string(text, ",\"result\":", program, &summary.result);
    push_strings(text, ",\"wobbly\":", wobbly);
    push_text(text, "}")
}

/// The members of one of the two records of a warning that stand before its mark.
fn push_side_first(text: &mut Written, program: &Program, side: &Side<'_>)
    ensures { Puts (pieces.side_first (core program.now) (side_told side.now)) text.old text.new }
{
    push_place_strings(text, "{\"at\":", program, side.places.as_slice());
    push_string(text, ",\"kind\":", touch_text(side.access.kind));
    push_flag(text, ",\"locked\":", side.access.locked);
    push_flag(text, ",\"main\":", side.access.main)
}

/// The members of one of the two records of a warning that stand behind its mark.
fn push_side_last(text: &mut Written, program: &Program, side: &Side<'_>)
    ensures { Puts (pieces.side_last (core program.now) (side_told side.now)) text.old text.new }
{
    push_method_string(text, ",\"method\":", program, side.method);
    push_path_string(text, ",\"path\":", program, &side.access.path)
}

/// The path of a mark.
fn push_mark_path(text: &mut Written, program: &Program, path: &Path)
    ensures { Puts (pieces.path_member (core program.now) path.now) text.old text.new }
{
    push_path_string(text, "\"path\":", program, path);
    push_text(text, ",")
}

/// The place of a mark.
fn push_mark_place(text: &mut Written, program: &Program, place: Place)
    ensures { Puts (pieces.place_member (core program.now) place) text.old text.new }
{
    push_place_string(text, "\"place\":", program, place);
    push_text(text, ",")
}

/// A member of this name that is a number.
fn push_mark_number(text: &mut Written, name: &str, number: u32)
    ensures { Puts (pieces.number_member name.now number) text.old text.new }
{
    push_text(text, name);
    push_number(text, number);
    push_text(text, ",")
}

/// The members of a mark before its word.
fn push_detail(text: &mut Written, program: &Program, sides: &Sides<'_>, mark: &Mark)
    ensures { Puts (pieces.detail_text (core program.now) (sides_told sides.now) (said_by mark.now))
        text.old text.new }
{
    match mark {
        Mark::Unnamed => {}
        Mark::Confirmed(witness) => push_witness_member(text, program, sides, witness),
        Mark::Unstable(before) => push_mark_path(text, program, before),
        Mark::Unread(at) => push_mark_place(text, program, *at),
        Mark::Long(steps) => push_mark_number(text, "\"steps\":", *steps),
        Mark::Blocked(thread, at) => {
            push_mark_place(text, program, *at);
            push_mark_number(text, "\"thread\":", *thread)
        }
    }
}

/// The mark of a warning.
fn push_mark(text: &mut Written, program: &Program, sides: &Sides<'_>, mark: &Mark)
    ensures { Puts (pieces.mark_member (core program.now) (sides_told sides.now) (said_by mark.now))
        text.old text.new }
{
    push_text(text, ",\"mark\":{");
    push_detail(text, program, sides, mark);
    push_string(text, "\"word\":", mark_word(mark));
    push_text(text, "}")
}

/// The partner of a warning, and the end of its object.
fn push_partner(text: &mut Written, program: &Program, side: &Side<'_>)
    ensures { Puts (pieces.partner_member (core program.now) (side_told side.now)) text.old text.new }
{
    push_text(text, ",\"with\":");
    push_side_first(text, program, side);
    push_side_last(text, program, side);
    push_text(text, "}}")
}

/// The object of a warning with this mark.
pub(crate) fn push_marked(text: &mut Written, program: &Program, sides: &Sides<'_>, mark: &Mark)
    ensures { Puts (pieces.warning_object (core program.now) (said_by mark.now) (sides_told sides.now))
        text.old text.new }
{
    push_side_first(text, program, &sides.first);
    push_mark(text, program, sides, mark);
    push_side_last(text, program, &sides.first);
    push_partner(text, program, &sides.partner)
}
