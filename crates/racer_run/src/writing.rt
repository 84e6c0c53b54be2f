//! Writes a text to a sink.
ghost use Rattle.std.specs.Prelude.{◌≡◌, ℕ, ◌+◌, ◌<◌, ◌≤◌, length, take, OnOk, OnErr, IsOk};
ghost use Rattle.racer_base.specs.Outside.{taken_and, last_count};

use racer_base::{Failed, Sink};

/// Writes the whole text, or up to the first write that fails. It takes no memory, and makes at most as
/// many writes as the text has bytes, since each that does not fail takes at least one.
pub fn write_all<S: Sink>(sink: &mut S, text: &[u8]) -> Result<(), Failed>
    requires { S.faults sink.old < last_count }
    ensures whole { OnOk result (S.taken sink.new ≡ taken_and (S.taken sink.old) text.now) }
    ensures no_fault { OnOk result (S.faults sink.new ≡ S.faults sink.old) }
    ensures front { OnErr result ((many : ℕ) × (many < length text.now)
        × (S.taken sink.new ≡ taken_and (S.taken sink.old) (take many text.now))) }
    ensures fault { OnErr result (S.faults sink.old < S.faults sink.new) }
    ensures room { length text.now ≤ S.room sink.old → IsOk result }
{
    let mut at = 0usize;
    while at < text.len() {
        at += sink.write(&text[at..])?;
    }
    Ok(())
}
