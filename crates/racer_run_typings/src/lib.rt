//! The lines of `--typed`: one for each class that has an entry.
#![tactic(auto)]

ghost use Rattle.std.specs.List.{flat_map};
ghost use Rattle.core_code.specs.Program.{core};
ghost use Rattle.race_report_parts.specs.Written.{Puts};
ghost use Rattle.racer_run_typings.specs.Lines as wanted;

use core_code::Program;
use race_report_parts::{Written, class_name, push_end, push_place, push_space, push_text};
use typed_core::{Answer, Typing};

/// `typed CLASS`, or `untyped CLASS PLACE`
fn push_typing(text: &mut Written, program: &Program, typing: Typing)
    ensures { Puts (wanted.typing_line (core program.now) typing) text.old text.new }
{
    match typing.answer {
        Answer::Typed => {
            push_text(text, "typed ");
            push_text(text, class_name(program, typing.class));
            push_end(text)
        }
        Answer::Untyped(place) => {
            push_text(text, "untyped ");
            push_text(text, class_name(program, typing.class));
            push_space(text);
            push_place(text, program, place);
            push_end(text)
        }
    }
}

/// Puts the lines of typings behind a text.
pub fn push_typings(text: &mut Written, program: &Program, typings: &[Typing])
    ensures { Puts (flat_map (wanted.typing_line (core program.now)) typings.now) text.old text.new }
{
    for typing in typings {
        push_typing(text, program, *typing)
    }
}
