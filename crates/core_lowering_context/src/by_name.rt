//! Variables found by their names.
ghost use Rattle.std.specs.Prelude.{◌≡◌, List, ℕ, [], ◌∷◌, ◌++◌, OnOk};
ghost use Rattle.core_lowering_context.specs.Seen.{seen_at, last_of, front_of, ChangesAt};

use java_resolver::VariableKind;
use racer_base::{Memory, VarId};
use std::alloc::Global;
use std::collections::BTreeMap;

/// The numbers of the variables of each name, with what is known of them, the innermost last.
pub type ByName = BTreeMap<String, Vec<(VarId, VariableKind)>>;

/// No variables.
pub fn no_names(alloc: Global) -> ByName
    ensures { (name : List ℕ) → seen_at result name ≡ [] }
{
    BTreeMap::new(alloc)
}

/// The last of these.
fn last_of(all: &[(VarId, VariableKind)]) -> Option<(VarId, VariableKind)>
    ensures { result ≡ last_of all.now }
{
    all.last().copied()
}

/// The innermost variable of a name.
pub fn last_seen(index: &ByName, name: &str) -> Option<(VarId, VariableKind)>
    ensures { result ≡ last_of (seen_at index.now name.now) }
{
    match index.get(name) {
        Some(all) => last_of(all.as_slice()),
        None => None,
    }
}

/// Puts a variable at the end.
fn push(all: &mut Vec<(VarId, VariableKind)>, id: VarId, known: VariableKind) -> Result<(), Memory>
    ensures { OnOk result (all.new.items ≡ all.old.items ++ (id, known) ∷ []) }
{
    all.push((id, known))?;
    Ok(())
}

/// Puts a variable at the end of those of its name.
pub fn add(
    alloc: Global,
    index: &mut ByName,
    name: &str,
    id: VarId,
    known: VariableKind,
) -> Result<(), Memory>
    ensures { OnOk result (ChangesAt index.old index.new name.now (seen_at index.old name.now ++ (id, known) ∷ [])) }
{
    if let Some(all) = index.get_mut(name) {
        return push(all, id, known);
    }
    let mut all = Vec::new(alloc);
    push(&mut all, id, known)?;
    index.insert(String::from_str(alloc, name)?, all)?;
    Ok(())
}

/// Takes the last one, if there is one.
fn pop(all: &mut Vec<(VarId, VariableKind)>)
    ensures { all.new.items ≡ front_of all.old.items }
{
    all.truncate(all.len().saturating_sub(1));
}

/// Takes the innermost variable of a name.
pub fn remove_last(index: &mut ByName, name: &str)
    ensures { ChangesAt index.old index.new name.now (front_of (seen_at index.old name.now)) }
{
    if let Some(all) = index.get_mut(name) {
        pop(all);
        return;
    }
}
