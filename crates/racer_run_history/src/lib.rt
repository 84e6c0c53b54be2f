//! The text of a history: a line for each event of the workers.
#![tactic(auto)]

ghost use Rattle.std.specs.Fmt.{decimal};
ghost use Rattle.std.specs.List.{flat_map};
ghost use Rattle.std.specs.Prelude.{◌≡◌, ◌++◌, codes};
ghost use Rattle.core_code.specs.Program.{core};
ghost use Rattle.race_report_parts.specs.Written.{Puts};
ghost use Rattle.racer_run_history.specs.History as wanted;

use core_code::Program;
use race_report_parts::{Written, push_end, push_method, push_number, push_space, push_text};
use racer_base::MethodId;
use summary_store::Event;

/// Puts a space and `CLASS.NAME/PARAMETERS` of the method of a number behind a text.
fn push_named(text: &mut Written, program: &Program, m: MethodId)
    ensures { Puts (wanted.method_word (core program.now) m) text.old text.new }
{
    push_space(text);
    match program.methods().get(m.0 as usize) {
        Some(method) => push_method(text, program, method),
        None => {}
    }
}

/// Puts the line of an event behind a text.
fn push_event(text: &mut Written, program: &Program, event: Event)
    ensures { Puts (wanted.event_line (core program.now) event) text.old text.new }
{
    match event {
        Event::Take(worker, m) => {
            push_text(text, "take ");
            push_number(text, worker);
            push_named(text, program, m);
            push_end(text)
        }
        Event::Park(worker, m, callee) => {
            push_text(text, "park ");
            push_number(text, worker);
            push_named(text, program, m);
            push_named(text, program, callee);
            push_end(text)
        }
        Event::Publish(worker, m) => {
            push_text(text, "publish ");
            push_number(text, worker);
            push_named(text, program, m);
            push_end(text)
        }
        Event::Leave(worker) => {
            push_text(text, "leave ");
            push_number(text, worker);
            push_end(text)
        }
    }
}

/// Puts the lines of a history behind a text.
pub fn push_history(text: &mut Written, program: &Program, history: &[Event])
    ensures { Puts (wanted.history_text (core program.now) history.now) text.old text.new }
{
    for event in history {
        push_event(text, program, *event)
    }
}
