//! How many warnings are confirmed.
ghost use Rattle.std.specs.Prelude.{◌≡◌, count_by, map};
ghost use Rattle.core_code.specs.Program.{core};
ghost use Rattle.core_ways.specs.Marks.{said_by};
ghost use Rattle.witness_build_laws.specs.Warned.{warning_mark};
ghost use Rattle.race_report_parts.specs.Written.{Puts};
ghost use Rattle.race_report_parts.specs.Report as said;

use core_code::Program;
use core_ways::Mark;
use race_pairs::Warning;
use race_report_parts::{Written, push_count, push_end, push_text};

fn is_confirmed(mark: &Mark) -> bool
    ensures { result ≡ said.is_confirmed (said_by mark.now) }
{
    matches!(mark, Mark::Confirmed(_))
}

/// How many of these marks are of confirmed warnings.
fn count_confirmed(marks: &[Mark]) -> usize
    ensures { result ≡ count_by (λ mark. said.is_confirmed (said_by mark)) marks.now }
{
    marks.iter().filter(|mark| is_confirmed(mark)).count()
}

/// How many of these warnings with these marks are confirmed.
fn confirmed(program: &Program, found: &[Warning], marks: &[Mark]) -> usize
    requires { map said_by marks.now ≡ map (warning_mark (core program.now)) found.now }
    ensures { result ≡ said.confirmed (core program.now) found.now }
{
    count_confirmed(marks)
}

/// `warnings N confirmed N`
pub(crate) fn push_last(text: &mut Written, program: &Program, found: &[Warning], marks: &[Mark])
    requires { map said_by marks.now ≡ map (warning_mark (core program.now)) found.now }
    ensures { Puts (said.last_line (core program.now) found.now) text.old text.new }
{
    push_text(text, "warnings ");
    push_count(text, found.len());
    push_text(text, " confirmed ");
    push_count(text, confirmed(program, found, marks));
    push_end(text)
}
