//! What a run has to say.
ghost use Rattle.std.specs.Prelude.{◌≡◌, IfOk};

use crate::status::Status;
use racer_base::{Memory, Text};
use std::alloc::Global;

/// The text that a run writes, and the status that it has once the text is written.
#[derive(Drop)]
pub struct RunOutput {
    pub status: Status,
    pub text: Text,
}

/// A line with its status.
pub fn line(alloc: Global, status: Status, text: &str) -> Result<RunOutput, Memory>
    ensures { IfOk result (λ said. said ≡ record { status = status; text = text.now }) }
{
    Ok(RunOutput {
        status,
        text: Text::from_str(alloc, text)?,
    })
}
