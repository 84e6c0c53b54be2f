//! The fields that names lead along.
ghost use Rattle.std.specs.Prelude.{◌≡◌, ◌∷◌, [], ◌<◌, IfOk, MatchOption, length, option_map};
ghost use Rattle.core_code.specs.Program.{core};
ghost use Rattle.witness_text_names.specs.Indexes.{FindsFields, cell_field, ended, last_named, next_named, reached_of};
ghost use Rattle.witness_text_names.specs.Names.{names_in};

use crate::fields::{FieldIndex, field_at};
use crate::reached::Reached;
use core_code::Program;
use racer_base::{FieldId, Memory};
use std::alloc::Global;

/// The name before the first dot of a text, and what is behind it.
pub(crate) fn cut(text: &str) -> Option<(&str, &str)>
    ensures names { MatchOption result (names_in text.now ≡ text.now ∷ [])
        (λ parts. names_in text.now ≡ parts.0.now ∷ names_in parts.1.now) }
    ensures shorter { MatchOption result Unit (λ parts. length parts.1.now < length text.now) }
{
    text.split_once('.')
}

/// The field of a name behind what was reached, with what it leads to.
fn next_named(
    program: &Program,
    fields: &FieldIndex,
    reached: Reached,
    name: &str,
) -> Option<(FieldId, Reached)>
    requires { FindsFields (core program.now).fields fields.now }
    ensures { option_map (λ next. (next.0, reached_of next.1)) result
        ≡ next_named (core program.now) name.now (reached_of reached) }
{
    let number = field_at(fields, reached.class(), name)?;
    let field = program.fields().get(number.0 as usize)?;
    let next = reached.behind(field)?;
    Some((number, next))
}

/// How the last name of a text ends it.
#[derive(Clone, Copy)]
pub(crate) enum Ends {
    /// Its field leads to an object.
    AtObject,
    /// Its field is one of what was reached, of whatever kind.
    AtCell,
}

/// The field of a name of what was reached.
fn cell_field(
    program: &Program,
    fields: &FieldIndex,
    reached: Reached,
    name: &str,
) -> Option<FieldId>
    requires { FindsFields (core program.now).fields fields.now }
    ensures { result ≡ cell_field (core program.now) name.now (reached_of reached) }
{
    let number = field_at(fields, reached.class(), name)?;
    let field = program.fields().get(number.0 as usize)?;
    if reached.has(field) {
        Some(number)
    } else {
        None
    }
}

/// The field of the last name of a text.
fn last_named(
    program: &Program,
    fields: &FieldIndex,
    reached: Reached,
    name: &str,
    ends: Ends,
) -> Option<FieldId>
    requires { FindsFields (core program.now).fields fields.now }
    ensures { result ≡ last_named (core program.now) ends name.now (reached_of reached) }
{
    match ends {
        Ends::AtObject => match next_named(program, fields, reached, name) {
            Some((field, _)) => Some(field),
            None => None,
        },
        Ends::AtCell => cell_field(program, fields, reached, name),
    }
}

/// The fields that the names between the dots of a text lead along, the last apart, where each leads on.
pub(crate) fn walk(
    alloc: Global,
    program: &Program,
    fields: &FieldIndex,
    from: Reached,
    text: &str,
    ends: Ends,
) -> Result<Option<(Vec<FieldId>, FieldId)>, Memory>
    requires { FindsFields (core program.now).fields fields.now }
    ensures { IfOk result (λ found. option_map (λ p. (p.0.items, p.1)) found
        ≡ ended (core program.now) ends (names_in text.now) ([], reached_of from)) }
{
    let mut path = Vec::new(alloc);
    let mut reached = from;
    let mut rest = text;
    while let Some((name, behind)) = cut(rest) {
        let Some((field, next)) = next_named(program, fields, reached, name) else {
            return Ok(None);
        };
        path.push(field)?;
        reached = next;
        rest = behind;
    }
    let Some(field) = last_named(program, fields, reached, rest, ends) else {
        return Ok(None);
    };
    Ok(Some((path, field)))
}
