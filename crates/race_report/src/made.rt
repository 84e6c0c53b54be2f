//! The report on a made folder, in numbers.
ghost use Rattle.std.specs.Prelude.{◌≡◌, IfOk, map, string_bytes};
ghost use Rattle.core_code.specs.Program.{core};
ghost use Rattle.race_pairs.specs.Warnings as pairs;
ghost use Rattle.core_ways.specs.Marks.{said_by};
ghost use Rattle.witness_build_laws.specs.Warned.{warning_mark};
ghost use Rattle.race_report_parts.specs.Written.{Puts};
ghost use Rattle.race_report.specs.Modes.{made_report};

use crate::marks::push_last;
use core_code::Program;
use core_ways::Mark;
use race_pairs::Warning;
use race_report_parts::{Written, push_counts, push_end, push_number, push_text};
use racer_base::Memory;
use std::alloc::Global;

/// Puts the lines of a folder made of so many classes behind a text.
fn push_made(text: &mut Written, number: u32, program: &Program, found: &[Warning], marks: &[Mark])
    requires found { found.now ≡ pairs.warnings (core program.now) }
    requires marks { map said_by marks.now ≡ map (warning_mark (core program.now)) found.now }
    ensures { Puts (made_report number (core program.now)) text.old text.new }
{
    push_text(text, "made ");
    push_number(text, number);
    push_end(text);
    push_counts(text, program);
    push_last(text, program, found, marks)
}

/// The report on a folder made of so many classes: their number, and then the counts of a report and its last line.
pub fn made_text(
    alloc: Global,
    number: u32,
    program: &Program,
    found: &[Warning],
    marks: &[Mark],
) -> Result<String, Memory>
    requires found { found.now ≡ pairs.warnings (core program.now) }
    requires marks { map said_by marks.now ≡ map (warning_mark (core program.now)) found.now }
    ensures { IfOk result (λ text. string_bytes text ≡ made_report number (core program.now)) }
{
    let mut text = Written::new(alloc);
    push_made(&mut text, number, program, found, marks);
    text.finished()
}
