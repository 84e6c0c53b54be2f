//! Entries, by the names of their classes and their texts.
ghost use Rattle.std.specs.Prelude.{◌≡◌, IfOk, option_map, string_bytes};
ghost use Rattle.core_code.specs.Core.{method_of};
ghost use Rattle.core_code.specs.Program.{core};
ghost use Rattle.witness_text_names.specs.Indexes.{found_by};
ghost use Rattle.witness_text_names.specs.Names as named;
ghost use Rattle.race_report_parts.specs.WitnessFiles as texts;

use core_code::{MethodCore, Program};
use race_report_parts::{Written, class_name, push_entry};
use racer_base::{Memory, MethodId};
use std::alloc::Global;

/// A method with its number.
#[derive(Clone, Copy)]
pub struct Entry<'a> {
    pub number: MethodId,
    pub method: &'a MethodCore,
}

/// The number of the element at this index.
pub(crate) fn number_of(index: usize) -> Result<u32, Memory>
    ensures { IfOk result (λ number. number ≡ index) }
{
    match u32::try_from(index) {
        Ok(number) => Ok(number),
        Err(_) => Err(Memory),
    }
}

/// The text of an entry: its name, a slash and how many parameters it has.
fn entry_text(alloc: Global, method: &MethodCore) -> Result<String, Memory>
    ensures { IfOk result (λ text. string_bytes text ≡ texts.entry_text (method_of method.now)) }
{
    let mut text = Written::new(alloc);
    push_entry(&mut text, method);
    text.finished()
}

/// Whether a method is the entry of this text of the class of this name.
fn is_named(
    alloc: Global,
    program: &Program,
    class: &str,
    text: &str,
    method: &MethodCore,
) -> Result<bool, Memory>
    ensures { IfOk result (λ is. is ≡ named.is_named (core program.now) class.now text.now (method_of method.now)) }
{
    if !method.entry || class_name(program, method.class) != class {
        return Ok(false);
    }
    let own = entry_text(alloc, method)?;
    Ok(own.as_str() == text)
}

/// The entry of this text of the class of this name.
pub fn entry_named<'a>(
    alloc: Global,
    program: &'a Program,
    class: &str,
    text: &str,
) -> Result<Option<Entry<'a>>, Memory>
    ensures { IfOk result (λ e. option_map found_by e ≡ named.entry_named (core program.now) class.now text.now) }
{
    for (index, method) in program.methods().iter().enumerate() {
        let named = is_named(alloc, program, class, text, method)?;
        if named {
            let number = number_of(index)?;
            return Ok(Some(Entry {
                number: MethodId(number),
                method,
            }));
        }
    }
    Ok(None)
}
