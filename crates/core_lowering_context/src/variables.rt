//! The variables in scope (JLS 6.3).
ghost use Rattle.std.specs.Prelude.{◌≡◌, [], ◌∷◌, ◌++◌, OnOk, take, option_map};
ghost use Rattle.java_resolver.specs.Firsts.{last_that};
ghost use Rattle.core_lowering_context.specs.Seen.{FindsAll, front_of, is_named, seen, variable};

use crate::by_name::{ByName, add, last_seen, no_names, remove_last};
use java_resolver::{ScopeVariable, VariableKind};
use racer_base::{Memory, Text, VarId};
use std::alloc::Global;
use std::marker::Model;
use std::mem;

/// Variables, the innermost last.
#[derive(Drop)]
pub struct Variables {
    list: Vec<ScopeVariable>,
    by_name: ByName,
}

impl Model for Variables {
    ghost use Rattle.std.specs.Prelude.{List};
    ghost use Rattle.java_resolver.specs.declared.scope.ScopeVariable.{ScopeVariable};
    ghost use Rattle.core_lowering_context.specs.Seen.{FindsAll};

    ghost Value = { List ScopeVariable };

    ghost view = { λ variables. variables.list.items };

    ghost invariant = { λ variables. FindsAll variables.by_name variables.list.items };
}

/// Puts a variable at the end.
fn declare(
    alloc: Global,
    list: &mut Vec<ScopeVariable>,
    by_name: &mut ByName,
    name: &str,
    id: VarId,
    known: VariableKind,
) -> Result<(), Memory>
    requires { FindsAll by_name.old list.old.items }
    ensures finds { OnOk result (FindsAll by_name.new list.new.items) }
    ensures list { OnOk result (list.new.items ≡ list.old.items ++ variable name.now id known ∷ []) }
{
    add(alloc, by_name, name, id, known)?;
    let name = Text::from_str(alloc, name)?;
    list.push(ScopeVariable {
        name,
        id,
        kind: known.kind,
        is_lock: known.is_lock,
    })?;
    Ok(())
}

/// Takes the last variable.
fn remove(list: &mut Vec<ScopeVariable>, by_name: &mut ByName)
    requires { FindsAll by_name.old list.old.items }
    ensures finds { FindsAll by_name.new list.new.items }
    ensures list { list.new.items ≡ front_of list.old.items }
{
    let Some(variable) = list.pop() else {
        return;
    };
    remove_last(by_name, variable.name.as_str());
}

/// Takes the variables from this one on.
fn leave(list: &mut Vec<ScopeVariable>, by_name: &mut ByName, at: usize)
    requires { FindsAll by_name.old list.old.items }
    ensures finds { FindsAll by_name.new list.new.items }
    ensures list { list.new.items ≡ take at list.old.items }
{
    while list.len() > at {
        remove(list, by_name);
    }
}

impl Variables {
    pub fn new(alloc: Global) -> Variables
        ensures { result ≡ [] }
    {
        Variables {
            list: Vec::new(alloc),
            by_name: no_names(alloc),
        }
    }

    pub fn as_slice(&self) -> &[ScopeVariable]
        ensures { result.now ≡ self.now }
    {
        self.list.as_slice()
    }

    /// The number of the innermost variable of this name, and what is known of it.
    pub fn named(&self, name: &str) -> Option<(VarId, VariableKind)>
        ensures { result ≡ option_map seen (last_that (is_named name.now) self.now) }
    {
        last_seen(&self.by_name, name)
    }

    /// Puts a variable at the end.
    pub fn declare(
        &mut self,
        alloc: Global,
        name: &str,
        id: VarId,
        known: VariableKind,
    ) -> Result<(), Memory>
        ensures { OnOk result (self.new ≡ self.old ++ variable name.now id known ∷ []) }
    {
        let mut list = mem::replace(&mut self.list, Vec::new(alloc));
        let mut by_name = mem::replace(&mut self.by_name, no_names(alloc));
        declare(alloc, &mut list, &mut by_name, name, id, known)?;
        self.list = list;
        self.by_name = by_name;
        Ok(())
    }

    /// Takes the variables from this one on out of scope.
    pub fn leave(&mut self, at: usize)
        ensures { self.new ≡ take at self.old }
    {
        leave(&mut self.list, &mut self.by_name, at);
    }
}
