//! Members of a witness file.
ghost use Rattle.std.specs.Prelude.{◌≡◌, ◌*◌, ◌≤◌, length, codes, option_and_then, option_map, IfOk, IfSome};
ghost use Rattle.serde_json.specs.View.{items_view, view};
ghost use Rattle.serde_json.specs.Find.{as_array, as_str};
ghost use Rattle.racer_base.specs.declared.limits.TheConstants.{MAX_WAY_STEPS};
ghost use Rattle.witness_text_files.specs.Files as files;

use racer_base::{Items, MAX_WAY_STEPS, Memory, Text};
use serde_json::Value;
use std::alloc::Global;

/// The version, where it is one that is read.
pub(crate) fn version(value: &Value) -> Option<u64>
    ensures { result ≡ files.member (codes "version") files.version_of (view value.now) }
{
    match value.get("version").and_then(Value::as_u64) {
        Some(1) => Some(1),
        Some(2) => Some(2),
        _ => None,
    }
}

/// A member that is a number of decimal digits alone, up to this one.
pub(crate) fn number_up_to(value: &Value, name: &str, most: u32) -> Option<u32>
    ensures { result ≡ files.member name.now (files.number_up_to most) (view value.now) }
{
    let number = value.get(name).and_then(Value::as_u64)?;
    if number <= u64::from(most) {
        Some(number as u32)
    } else {
        None
    }
}

/// A member that is a text.
pub(crate) fn text<'v>(value: &'v Value, name: &str) -> Option<&'v str>
    ensures { option_map (λ s. s.now) result ≡ files.member name.now as_str (view value.now) }
{
    value.get(name).and_then(Value::as_str)
}

/// The path of a file of this version, which only version 2 has.
pub(crate) fn path<'v>(value: &'v Value, version: u64) -> Option<Option<&'v str>>
    ensures { option_map (λ p. option_map (λ s. s.now) p) result ≡ files.path_of version (view value.now) }
{
    if version == 2 {
        match text(value, "path") {
            Some(path) => Some(Some(path)),
            None => None,
        }
    } else {
        Some(None)
    }
}

/// A member that is an array.
fn list<'v>(value: &'v Value, name: &str) -> Option<&'v [Value]>
    ensures { option_map (λ v. items_view v.now) result ≡ files.member name.now as_array (view value.now) }
{
    let list = value.get(name).and_then(Value::as_array)?;
    Some(list.as_slice())
}

/// Just two items.
#[tactic(auto, using(crate::proofs::TwoItems::not_two, crate::proofs::TwoItems::just_two))]
fn two<'v>(values: &'v [Value]) -> Option<(&'v Value, &'v Value)>
    ensures { option_map (λ p. (view p.0.now, view p.1.now)) result ≡ files.two_items (items_view values.now) }
{
    if values.len() != 2 {
        return None;
    }
    Some((&values[0], &values[1]))
}

/// The two items of a member.
pub(crate) fn two_items<'v>(value: &'v Value, name: &str) -> Option<(&'v Value, &'v Value)>
    ensures { option_map (λ p. (view p.0.now, view p.1.now)) result
        ≡ option_and_then files.two_items (files.member name.now as_array (view value.now)) }
{
    two(list(value, name)?)
}

/// Texts alone.
fn texts(alloc: Global, values: &[Value]) -> Result<Option<Vec<Text>>, Memory>
    ensures { IfOk result (λ r. option_map (λ texts. texts.items) r ≡ files.texts_of (items_view values.now)) }
{
    let mut texts = Vec::new(alloc);
    for value in values {
        let Some(text) = value.as_str() else {
            return Ok(None);
        };
        texts.push(Text::from_str(alloc, text)?)?;
    }
    Ok(Some(texts))
}

/// The start paths, as texts.
pub(crate) fn objects(alloc: Global, value: &Value) -> Result<Option<Items<Text>>, Memory>
    ensures objects { IfOk result (λ r. r ≡ files.member (codes "objects") files.objects_of (view value.now)) }
    ensures few { IfOk result (λ r. IfSome r (λ texts. length texts ≤ MAX_WAY_STEPS * 2)) }
{
    let Some(values) = list(value, "objects") else {
        return Ok(None);
    };
    let Some(texts) = texts(alloc, values)? else {
        return Ok(None);
    };
    if texts.len() > MAX_WAY_STEPS as usize * 2 {
        return Ok(None);
    }
    Ok(Some(Items::from(texts)))
}

/// The entries of both threads.
pub(crate) fn entries<'v>(value: &'v Value) -> Option<(&'v str, &'v str)>
    ensures { option_map (λ p. (p.0.now, p.1.now)) result
        ≡ files.member (codes "entries") files.entries_of (view value.now) }
{
    let (first, second) = two_items(value, "entries")?;
    Some((first.as_str()?, second.as_str()?))
}
