//! The texts of the mark of a warning, put behind a text.
ghost use Rattle.std.specs.Prelude.{◌≡◌, ◌++◌, codes};
ghost use Rattle.std.specs.Fmt.{decimal};
ghost use Rattle.std.specs.List.{flat_map};
ghost use Rattle.core_code.specs.Program.{core};
ghost use Rattle.core_ways.specs.Marks.{leg_of, said_by};
ghost use Rattle.race_report_parts.specs.Marks as said;
ghost use Rattle.race_report_parts.specs.Texts.{path_text, place_text};
ghost use Rattle.race_report_parts.specs.Written.{Puts};

use crate::texts::{class_name, push_fields, push_formal, push_path, push_place};
use crate::written::{Written, push_number, push_space, push_text};
use access_paths::Path;
use core_code::Program;
use core_semantics::{StartPath, StartRoot, Turn};
use core_ways::{Leg, Mark};
use racer_base::Place;

/// The word that a mark begins with.
pub fn mark_word(mark: &Mark) -> &'static str
    ensures { result.now ≡ said.mark_word (said_by mark.now) }
{
    match mark {
        Mark::Unnamed => "unnamed",
        Mark::Unstable(_) => "unstable",
        Mark::Unread(_) => "unread",
        Mark::Long(_) => "long",
        Mark::Blocked(_, _) => "blocked",
        Mark::Confirmed(_) => "confirmed",
    }
}

/// Puts a space and a path behind a text.
fn push_unstable(text: &mut Written, program: &Program, path: &Path)
    ensures { Puts (codes " " ++ path_text (core program.now) path.now) text.old text.new }
{
    push_space(text);
    push_path(text, program, path)
}

/// Puts a space and a place behind a text.
fn push_at(text: &mut Written, program: &Program, place: Place)
    ensures { Puts (codes " " ++ place_text (core program.now) place) text.old text.new }
{
    push_space(text);
    push_place(text, program, place)
}

/// Puts a space and a number behind a text.
fn push_spaced(text: &mut Written, number: u32)
    ensures { Puts (codes " " ++ decimal number) text.old text.new }
{
    push_space(text);
    push_number(text, number)
}

/// Puts what stands behind the word of a mark behind a text.
fn push_detail(text: &mut Written, program: &Program, mark: &Mark)
    ensures { Puts (said.detail_text (core program.now) (said_by mark.now)) text.old text.new }
{
    match mark {
        Mark::Unnamed | Mark::Confirmed(_) => {}
        Mark::Unstable(before) => push_unstable(text, program, before),
        Mark::Unread(at) => push_at(text, program, *at),
        Mark::Long(steps) => push_spaced(text, *steps),
        Mark::Blocked(thread, at) => {
            push_spaced(text, *thread);
            push_at(text, program, *at)
        }
    }
}

/// Puts a mark behind a text.
pub fn push_mark(text: &mut Written, program: &Program, mark: &Mark)
    ensures { Puts (said.mark_text (core program.now) (said_by mark.now)) text.old text.new }
{
    push_text(text, mark_word(mark));
    push_detail(text, program, mark)
}

/// Puts `this`, a class's name or `t#i` behind a text.
fn push_start_root(text: &mut Written, program: &Program, root: StartRoot)
    ensures { Puts (said.start_root_text (core program.now) root) text.old text.new }
{
    match root {
        StartRoot::This => push_text(text, "this"),
        StartRoot::Class(class) => push_text(text, class_name(program, class)),
        StartRoot::Param(thread, number) => {
            push_number(text, thread);
            push_formal(text, number)
        }
    }
}

/// Puts a start path behind a text: its root, and `.f` for each field.
pub fn push_start(text: &mut Written, program: &Program, start: &StartPath)
    ensures { Puts (said.start_text (core program.now) start.now) text.old text.new }
{
    push_start_root(text, program, start.root);
    push_fields(text, program, start.fields.as_slice())
}

fn turn_text(turn: Turn) -> &'static str
    ensures { result.now ≡ said.turn_text turn }
{
    match turn {
        Turn::Left => "L",
        Turn::Right => "R",
    }
}

/// Puts `L` and `R` behind a text.
pub(crate) fn push_letters(text: &mut Written, turns: &[Turn])
    ensures { Puts (flat_map said.turn_text turns.now) text.old text.new }
{
    for turn in turns {
        push_text(text, turn_text(*turn))
    }
}

/// Puts `L` and `R`, or `-` for no turn, behind a text.
fn push_turns(text: &mut Written, turns: &[Turn])
    ensures { Puts (said.turns_text turns.now) text.old text.new }
{
    if turns.is_empty() {
        push_text(text, "-")
    } else {
        push_letters(text, turns)
    }
}

/// Puts `THREAD turns TURNS steps N` behind a text.
pub fn push_leg(text: &mut Written, leg: &Leg)
    ensures { Puts (said.leg_text (leg_of leg.now)) text.old text.new }
{
    push_number(text, leg.thread);
    push_text(text, " turns ");
    push_turns(text, leg.turns.as_slice());
    push_text(text, " steps ");
    push_number(text, leg.steps)
}
