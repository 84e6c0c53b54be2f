//! The witness file of a run, put behind a text start path by start path.
ghost use Rattle.std.specs.Prelude.{◌≡◌, ◌++◌};
ghost use Rattle.serde_json.specs.Data.{string};
ghost use Rattle.serde_json.specs.Written.{compact_text};
ghost use Rattle.std.specs.List.{flat_map};
ghost use Rattle.core_code.specs.Core.{method_of};
ghost use Rattle.core_code.specs.Program.{core};
ghost use Rattle.core_ways.specs.Marks.{leg_of};
ghost use Rattle.witness_text_files.specs.Written.{data_of};
ghost use Rattle.race_report_parts.specs.Marks as said;
ghost use Rattle.race_report_parts.specs.Sides.{sides_told};
ghost use Rattle.race_report_parts.specs.WitnessFiles.{entry_text, file_of_run};
ghost use Rattle.race_report_parts.specs.Written.{Puts};
ghost use Rattle.race_report_parts.specs.Pieces as pieces;

use crate::marks::push_letters;
use crate::strings::{comma, push_class_string, push_path_string, push_written};
use crate::{Sides, Written, push_count, push_number, push_start, push_text};
use core_code::{MethodCore, Program};
use core_semantics::{StartPath, Turn};
use core_ways::{Leg, Witness};

/// Puts `NAME/PARAMETERS` behind a text.
pub fn push_entry(text: &mut Written, method: &MethodCore)
    ensures { Puts (entry_text (method_of method.now)) text.old text.new }
{
    push_text(text, method.name.as_str());
    push_text(text, "/");
    push_count(text, method.parameters.len())
}

/// `NAME/PARAMETERS`
fn push_entry_string(text: &mut Written, before: &str, method: &MethodCore)
    ensures { Puts (before.now ++ pieces.entry_string (method_of method.now)) text.old text.new }
{
    let mut inner = Written::new(text.alloc);
    push_entry(&mut inner, method);
    push_written(text, before, &inner)
}

/// `L` and `R`
fn push_letters_string(text: &mut Written, before: &str, turns: &[Turn])
    ensures { Puts (before.now ++ compact_text (string (flat_map said.turn_text turns.now))) text.old text.new }
{
    let mut inner = Written::new(text.alloc);
    push_letters(&mut inner, turns);
    push_written(text, before, &inner)
}

/// A start path: its root, and `.f` for each field.
fn push_start_string(text: &mut Written, before: &str, program: &Program, start: &StartPath)
    ensures { Puts (before.now ++ compact_text (string (said.start_text (core program.now) start.now)))
        text.old text.new }
{
    let mut inner = Written::new(text.alloc);
    push_start(&mut inner, program, start);
    push_written(text, before, &inner)
}

/// An array of start paths.
fn push_start_strings(text: &mut Written, before: &str, program: &Program, objects: &[StartPath])
    ensures { Puts (before.now ++ pieces.starts_strings (core program.now) objects.now) text.old text.new }
{
    push_text(text, before);
    push_text(text, "[");
    let mut later = false;
    for start in objects {
        push_start_string(text, comma(later), program, start);
        later = true;
    }
    push_text(text, "]")
}

/// The numbers of a leg: its steps and its thread.
fn push_leg_numbers(text: &mut Written, leg: &Leg)
    ensures { Puts (pieces.leg_numbers (leg_of leg.now)) text.old text.new }
{
    push_text(text, "{\"steps\":");
    push_number(text, leg.steps);
    push_text(text, ",\"thread\":");
    push_number(text, leg.thread)
}

/// The object of a leg.
fn push_leg_object(text: &mut Written, before: &str, leg: &Leg)
    ensures { Puts (before.now ++ pieces.leg_object (leg_of leg.now)) text.old text.new }
{
    push_text(text, before);
    push_leg_numbers(text, leg);
    push_letters_string(text, ",\"turns\":", leg.turns.as_slice());
    push_text(text, "}")
}

/// The entries of thread 0 and of thread 1.
fn push_entries(text: &mut Written, first: &MethodCore, second: &MethodCore)
    ensures { Puts (pieces.entries_member (method_of first.now) (method_of second.now)) text.old text.new }
{
    push_entry_string(text, ",\"entries\":[", first);
    push_entry_string(text, ",", second);
    push_text(text, "]")
}

/// Two legs in running order.
fn push_legs(text: &mut Written, first: &Leg, second: &Leg)
    ensures { Puts (pieces.legs_member (leg_of first.now) (leg_of second.now)) text.old text.new }
{
    push_leg_object(text, ",\"legs\":[", first);
    push_leg_object(text, ",", second);
    push_text(text, "]")
}

/// The witness file of a run, as its compact text.
fn push_witness_file(text: &mut Written, program: &Program, sides: &Sides<'_>, witness: &Witness)
    ensures { Puts (compact_text (data_of (file_of_run (core program.now) (sides_told sides.now) witness.now.objects
        (leg_of witness.now.first) (leg_of witness.now.second)))) text.old text.new }
{
    let class = sides.first.method.class;
    push_class_string(text, "{\"class\":", program, class);
    push_entries(text, sides.first.method, sides.partner.method);
    push_legs(text, &witness.first, &witness.second);
    push_start_strings(text, ",\"objects\":", program, witness.objects.as_slice());
    push_path_string(text, ",\"path\":", program, sides.witness_path());
    push_text(text, ",\"version\":2}")
}

/// The member of a mark that is the witness file of its run.
pub(crate) fn push_witness_member(
    text: &mut Written,
    program: &Program,
    sides: &Sides<'_>,
    witness: &Witness,
)
    ensures { Puts (pieces.witness_member (core program.now) (sides_told sides.now) witness.now.objects
        (leg_of witness.now.first) (leg_of witness.now.second)) text.old text.new }
{
    push_text(text, "\"witness\":");
    push_witness_file(text, program, sides, witness);
    push_text(text, ",")
}
