//! The lines of verdicts.
ghost use Rattle.std.specs.Prelude.{◌≡◌, IfOk, string_bytes};
ghost use Rattle.race_report_parts.specs.Written.{Puts};
ghost use Rattle.witness_text.specs.Lines as said;

use crate::Verdict;
use race_report_parts::{Written, push_end, push_number, push_text};
use racer_base::Memory;
use std::alloc::Global;
use witness_text_files::Field;

/// The name of a member of a witness file.
pub fn field_name(field: Field) -> &'static str
    ensures { result.now ≡ said.field_name field }
{
    match field {
        Field::Version => "version",
        Field::Class => "class",
        Field::Entries => "entries",
        Field::Path => "path",
        Field::Objects => "objects",
        Field::Legs => "legs",
    }
}

/// `stops at leg L step S`
fn push_stop(text: &mut Written, leg: u32, step: u32)
    ensures { Puts (said.stop_text leg step) text.old text.new }
{
    push_text(text, "stops at leg ");
    push_number(text, leg);
    push_text(text, " step ");
    push_number(text, step)
}

/// `no such object I`
fn push_no_object(text: &mut Written, index: u32)
    ensures { Puts (said.no_object_text index) text.old text.new }
{
    push_text(text, "no such object ");
    push_number(text, index)
}

/// Puts what a verdict says behind a text.
fn push_verdict(text: &mut Written, verdict: Verdict)
    ensures { Puts (said.verdict_text verdict) text.old text.new }
{
    match verdict {
        Verdict::Races => push_text(text, "races"),
        Verdict::NoSuchEntry => push_text(text, "no such entry"),
        Verdict::NoSuchObject(index) => push_no_object(text, index),
        Verdict::NoSuchPath => push_text(text, "no such path"),
        Verdict::StopsAt(leg, step) => push_stop(text, leg, step),
        Verdict::NoConflict => push_text(text, "no conflict"),
        Verdict::OtherCell => push_text(text, "other cell"),
    }
}

/// Puts the line of a verdict behind a text.
fn push_verdict_line(text: &mut Written, verdict: Verdict)
    ensures { Puts (said.verdict_line verdict) text.old text.new }
{
    push_verdict(text, verdict);
    push_end(text)
}

/// The line of a verdict: `races`, `no such entry`, `no such object I`, `no such path`, `stops at leg L step S`,
/// `no conflict` or `other cell`, and a line feed.
pub fn verdict_line(alloc: Global, verdict: Verdict) -> Result<String, Memory>
    ensures { IfOk result (λ text. string_bytes text ≡ said.verdict_line verdict) }
{
    let mut text = Written::new(alloc);
    push_verdict_line(&mut text, verdict);
    text.finished()
}
