//! The forms of a command line, and what may stand beside what.
ghost use Rattle.std.specs.Prelude.{◌≡◌, map};
ghost use Rattle.std.specs.List.{list_all};
ghost use Rattle.racer_words.specs.Forms.{form_view, label_view};
ghost use Rattle.racer_words.specs.Lines.{line_view};
ghost use Rattle.racer_words.specs.Words.{form_of, is_given, is_right, may_stand, stands_right};

use crate::line::GivenLine;

/// What a command line asks for: a report, the replay of a witness, a made folder, or a session of edits.
#[derive(Clone, Copy)]
pub enum Form {
    Report,
    Replay,
    Made,
    Edits,
}

/// What can stand on a command line.
#[derive(Clone, Copy)]
pub enum Label {
    Folder,
    Workers,
    Replay,
    Made,
    Json,
    Summaries,
    History,
    Containers,
    Edits,
    Typed,
}

/// All of them.
const LABELS: &[Label] = &[
    Label::Folder,
    Label::Workers,
    Label::Replay,
    Label::Made,
    Label::Edits,
    Label::Json,
    Label::Summaries,
    Label::History,
    Label::Containers,
    Label::Typed,
];

/// The form of a line, by the option that stands there for it.
pub fn form_of(line: &GivenLine<'_>) -> Form
    ensures { form_view result ≡ form_of (line_view line.now) }
{
    match (line.made, line.replay, line.edits) {
        (Some(_), _, _) => Form::Made,
        (None, Some(_), _) => Form::Replay,
        (None, None, Some(_)) => Form::Edits,
        (None, None, None) => Form::Report,
    }
}

fn is_given(line: &GivenLine<'_>, label: Label) -> bool
    ensures { result ≡ is_given (line_view line.now) (label_view label) }
{
    match label {
        Label::Folder => line.folder.is_some(),
        Label::Workers => line.workers.is_some(),
        Label::Replay => line.replay.is_some(),
        Label::Made => line.made.is_some(),
        Label::Json => line.json,
        Label::Summaries => line.summaries,
        Label::History => line.history,
        Label::Containers => line.containers,
        Label::Edits => line.edits.is_some(),
        Label::Typed => line.typed,
    }
}

/// The table: what may stand on a command line of each form.
fn may_stand(form: Form, label: Label) -> bool
    ensures { result ≡ may_stand (form_view form) (label_view label) }
{
    match form {
        Form::Report => !matches!(label, Label::Replay | Label::Made | Label::Edits),
        Form::Replay => matches!(label, Label::Folder | Label::Replay | Label::Containers),
        Form::Made => matches!(label, Label::Made | Label::Workers),
        Form::Edits => matches!(label, Label::Folder | Label::Edits),
    }
}

/// Whether this is not given, or may stand on the line.
fn is_right(line: &GivenLine<'_>, label: Label) -> bool
    ensures { result ≡ is_right (line_view line.now) (label_view label) }
{
    !is_given(line, label) || may_stand(form_of(line), label)
}

/// Whether none of these is given that may not stand on the line.
fn are_right(line: &GivenLine<'_>, labels: &[Label]) -> bool
    ensures { result ≡ list_all (is_right (line_view line.now)) (map label_view labels.now) }
{
    for label in labels {
        if !is_right(line, *label) {
            return false;
        }
    }
    true
}

/// Whether all that stands on the line may stand there.
pub fn stands_right(line: &GivenLine<'_>) -> bool
    ensures { result ≡ stands_right (line_view line.now) }
{
    are_right(line, LABELS)
}
