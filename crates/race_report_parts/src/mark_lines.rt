//! The lines of marks.
ghost use Rattle.std.specs.Prelude.{◌∷◌, [], ◌++◌};
ghost use Rattle.std.specs.List.{flat_map};
ghost use Rattle.core_code.specs.Program.{core};
ghost use Rattle.core_ways.specs.Marks.{Confirmed, leg_of, said_by};
ghost use Rattle.race_report_parts.specs.Marks.{leg_text};
ghost use Rattle.race_report_parts.specs.Written.{Puts};
ghost use Rattle.race_report_parts.specs.Report as said;

use crate::{Written, push_end, push_leg, push_mark, push_start, push_text};
use core_code::Program;
use core_semantics::StartPath;
use core_ways::{Leg, Mark, Witness};

/// ` mark MARK`
fn push_mark_line(text: &mut Written, program: &Program, mark: &Mark)
    ensures { Puts (said.mark_line (core program.now) (said_by mark.now)) text.old text.new }
{
    push_text(text, " mark ");
    push_mark(text, program, mark);
    push_end(text)
}

/// ` object PATH`
fn push_object(text: &mut Written, program: &Program, start: &StartPath)
    ensures { Puts (said.object_line (core program.now) start.now) text.old text.new }
{
    push_text(text, " object ");
    push_start(text, program, start);
    push_end(text)
}

fn push_objects(text: &mut Written, program: &Program, objects: &[StartPath])
    ensures { Puts (flat_map (said.object_line (core program.now)) objects.now) text.old text.new }
{
    for start in objects {
        push_object(text, program, start)
    }
}

/// A leg behind these words.
fn push_leg_line(text: &mut Written, words: &str, leg: &Leg)
    ensures { Puts (said.line (words.now ++ leg_text (leg_of leg.now))) text.old text.new }
{
    push_text(text, words);
    push_leg(text, leg);
    push_end(text)
}

/// The objects and the legs of a run.
fn push_witness(text: &mut Written, program: &Program, witness: &Witness)
    ensures { Puts (said.run_lines (core program.now) (Confirmed witness.now.objects
        (leg_of witness.now.first ∷ leg_of witness.now.second ∷ []))) text.old text.new }
{
    push_objects(text, program, witness.objects.as_slice());
    push_leg_line(text, " first ", &witness.first);
    push_leg_line(text, " second ", &witness.second)
}

/// What confirms a warning, where it is confirmed.
fn push_run(text: &mut Written, program: &Program, mark: &Mark)
    ensures { Puts (said.run_lines (core program.now) (said_by mark.now)) text.old text.new }
{
    match mark {
        Mark::Confirmed(witness) => push_witness(text, program, witness),
        _ => {}
    }
}

/// The lines of the mark of a warning.
pub fn push_mark_lines(text: &mut Written, program: &Program, mark: &Mark)
    ensures { Puts (said.mark_lines (core program.now) (said_by mark.now)) text.old text.new }
{
    push_mark_line(text, program, mark);
    push_run(text, program, mark)
}
