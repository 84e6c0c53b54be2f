//! Reads witness files.
ghost use Rattle.std.specs.Prelude.{◌≡◌, IfErr, IfOk, option_map};
ghost use Rattle.serde_json.specs.View.{view};
ghost use Rattle.witness_text_files.specs.Answers.{IsFile, IsWitnessFault, Judges, seen};
ghost use Rattle.witness_text_files.specs.Files.{file_of};

use crate::WitnessFault::NotAWitness;
use crate::legs::legs;
use crate::members::{entries, objects, path, text, version};
use crate::{Field, WitnessFault, WitnessFile};
use racer_base::{Memory, Text};
use serde_json::Value;
use std::alloc::Global;

/// A text of its own, where there is one.
fn owned(alloc: Global, text: Option<&str>) -> Result<Option<Text>, Memory>
    ensures { IfOk result (λ own. own ≡ option_map (λ s. s.now) text.entry) }
{
    match text {
        Some(text) => Ok(Some(Text::from_str(alloc, text)?)),
        None => Ok(None),
    }
}

/// The witness file that a value is.
fn judged(alloc: Global, value: &Value) -> Result<WitnessFile, WitnessFault>
    ensures { Judges (file_of (view value.now)) result }
{
    let version = version(value).ok_or(NotAWitness(Field::Version))?;
    let class = text(value, "class").ok_or(NotAWitness(Field::Class))?;
    let (first_entry, second_entry) = entries(value).ok_or(NotAWitness(Field::Entries))?;
    let path = path(value, version).ok_or(NotAWitness(Field::Path))?;
    let objects = objects(alloc, value)?.ok_or(NotAWitness(Field::Objects))?;
    let (first, second) = legs(alloc, value)?.ok_or(NotAWitness(Field::Legs))?;
    Ok(WitnessFile {
        class: Text::from_str(alloc, class)?,
        first_entry: Text::from_str(alloc, first_entry)?,
        second_entry: Text::from_str(alloc, second_entry)?,
        path: owned(alloc, path)?,
        objects,
        first,
        second,
    })
}

/// Reads a witness file of version 1 or 2. `NotJson` comes first, then the first member that is missing or otherwise;
/// want of memory may come in place of any answer.
pub fn read(alloc: Global, bytes: &[u8]) -> Result<WitnessFile, WitnessFault>
    ensures ok { IfOk result (IsFile bytes.now) }
    ensures err { IfErr result (IsWitnessFault bytes.now) }
{
    match Value::from_slice(alloc, bytes) {
        Ok(value) => judged(alloc, &value),
        Err(error) if error.is_memory() => Err(WitnessFault::Memory),
        Err(_) => Err(WitnessFault::NotJson),
    }
}
