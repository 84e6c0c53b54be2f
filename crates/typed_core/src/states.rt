//! The kinds of a method's variables, and of what is on its operand stack.
ghost use Rattle.std.specs.Prelude.{◌≡◌, ◌++◌, not, IfOk, OnOk, map, reverse, take, drop, length};
ghost use Rattle.racer_base.specs.declared.ids.Kind.{Kind as KindOf};
ghost use Rattle.core_code.specs.Calls.{taken_by};
ghost use Rattle.core_code.specs.Core.{method_of};
ghost use Rattle.typed_core.specs.declared.kinds.TypedKind.TheVariants.{Unset};
ghost use Rattle.typed_core.specs.Kinds as kinds;
ghost use Rattle.typed_core.specs.States as spec;
ghost use Rattle.typed_core.specs.Check.{next_of, rounds_of};

use crate::kinds::{TypedKind, joined_kind, kind_of, same_kind};
use core_code::MethodCore;
use racer_base::{Items, Kind, Memory, VarId};
use std::alloc::Global;
use std::marker::Model;
use std::mem;

/// The kinds of the variables, and of what is on the stack, its top first.
#[derive(Drop)]
pub struct KindState {
    pub vars: Items<TypedKind>,
    pub stack: Items<TypedKind>,
}

/// The kinds at a place of the code, which contracts see as a `KindState`.
#[derive(Drop)]
pub(crate) struct Kinds {
    vars: Vec<TypedKind>,
    /// The top stands last.
    stack: Vec<TypedKind>,
}

impl Model for Kinds {
    ghost use Rattle.std.specs.Prelude.{reverse};
    ghost use Rattle.typed_core.specs.declared.states.KindState.{KindState};
    ghost use Rattle.typed_core.specs.contracts.states.KindState as state;

    ghost Value = { KindState };

    ghost coded = { state.the_row.coded };

    ghost view = { λ here. record { vars = here.vars.items; stack = reverse here.stack.items } };
}

/// Puts the kinds of parameters behind those that there are.
fn push_parameters(vars: &mut Vec<TypedKind>, parameters: &[Kind]) -> Result<(), Memory>
    ensures { OnOk result (vars.new.items ≡ vars.old.items ++ map kinds.kind_of parameters.now) }
{
    for kind in parameters {
        vars.push(kind_of(*kind))?;
    }
    Ok(())
}

/// Puts `Unset` behind the kinds that there are, until there is one for each variable.
fn push_locals(vars: &mut Vec<TypedKind>, variables: &[Kind]) -> Result<(), Memory>
    ensures { OnOk result (vars.new.items ≡
        vars.old.items ++ map (λ (local : KindOf). Unset) (drop (length vars.old.items) variables.now)) }
{
    for _number in vars.len()..variables.len() {
        vars.push(TypedKind::Unset)?;
    }
    Ok(())
}

/// The kinds of what a method takes.
fn taken_kinds(alloc: Global, method: &MethodCore) -> Result<Vec<TypedKind>, Memory>
    ensures { IfOk result (λ vars. vars.items ≡ map kinds.kind_of (taken_by (method_of method.now))) }
{
    let mut vars = Vec::new(alloc);
    if !method.is_static {
        vars.push(TypedKind::Object(method.class))?;
    }
    push_parameters(&mut vars, method.parameters.as_slice())?;
    Ok(vars)
}

/// The kinds that a method's variables begin with.
fn first_kinds(alloc: Global, method: &MethodCore) -> Result<Vec<TypedKind>, Memory>
    ensures { IfOk result (λ vars. vars.items ≡ spec.first_kinds (method_of method.now)) }
{
    let mut vars = taken_kinds(alloc, method)?;
    push_locals(&mut vars, method.variables.as_slice())?;
    Ok(vars)
}

impl Kinds {
    /// The kinds that a method begins with.
    pub fn start(alloc: Global, method: &MethodCore) -> Result<Kinds, Memory>
        ensures { IfOk result (λ here. here ≡ spec.start_of (method_of method.now)) }
    {
        Ok(Kinds {
            vars: first_kinds(alloc, method)?,
            stack: Vec::new(alloc),
        })
    }

    /// How many kinds are on the stack.
    pub fn height(&self) -> usize
        ensures { result ≡ length self.now.stack }
    {
        self.stack.len()
    }

    /// How many rounds of a loop there are: two for each kind, and one more.
    pub fn rounds(&self) -> Result<usize, Memory>
        ensures { IfOk result (λ count. count ≡ rounds_of self.now) }
    {
        let size = self.vars.len() + self.stack.len();
        let Some(both) = size.checked_add(size) else {
            return Err(Memory);
        };
        match both.checked_add(1) {
            Some(count) => Ok(count),
            None => Err(Memory),
        }
    }

    /// Gives a variable the kind of the top, where there is one of this number.
    pub fn set(&mut self, variable: VarId)
        ensures { self.new ≡ spec.with_variable self.old variable.0 (spec.top self.old) }
    {
        let kind = self.top();
        let variable = variable.0 as usize;
        if variable < self.vars.len() {
            self.vars[variable] = kind;
        }
    }

    pub fn push(&mut self, kind: TypedKind) -> Result<(), Memory>
        ensures { OnOk result (self.new ≡ spec.pushed self.old kind) }
    {
        let Ok(()) = self.stack.push(kind) else {
            return Err(Memory);
        };
        Ok(())
    }

    /// Takes the top, or `Unset` where there is none.
    pub fn pop(&mut self) -> TypedKind
        ensures kind { result ≡ spec.top self.old }
        ensures rest { self.new ≡ spec.popped self.old 1 }
    {
        match self.stack.pop() {
            Some(kind) => kind,
            None => TypedKind::Unset,
        }
    }

    /// The top, or `Unset` where there is none.
    pub fn top(&self) -> TypedKind
        ensures { result ≡ spec.top self.now }
    {
        match self.stack.as_slice().last() {
            Some(kind) => *kind,
            None => TypedKind::Unset,
        }
    }

    /// What is below the top, or `Unset` where there is none.
    pub fn below_top(&self) -> TypedKind
        ensures { result ≡ spec.slot_of self.now 1 }
    {
        let height = self.stack.len();
        if height < 2 {
            return TypedKind::Unset;
        }
        self.stack[height - 2]
    }

    /// Pushes the kind of a variable, `Unset` where there is none of this number.
    pub fn push_variable(&mut self, variable: VarId) -> Result<(), Memory>
        ensures { OnOk result (self.new ≡ spec.pushed self.old (spec.variable_of self.old variable.0)) }
    {
        let kind = match self.vars.as_slice().get(variable.0 as usize) {
            Some(kind) => *kind,
            None => TypedKind::Unset,
        };
        self.push(kind)
    }

    /// Pushes the top once more.
    pub fn push_top(&mut self) -> Result<(), Memory>
        ensures { OnOk result (self.new ≡ spec.pushed self.old (spec.top self.old)) }
    {
        self.push(self.top())
    }

    /// So many uppermost kinds, in the order in which they were pushed.
    pub fn passed(&self, count: u32) -> &[TypedKind]
        ensures { result.now ≡ spec.passed self.now count }
    {
        let kept = self.stack.len().saturating_sub(count as usize);
        &self.stack.as_slice()[kept..]
    }

    /// Takes so many kinds, and pushes one.
    pub fn replace(&mut self, count: u32, kind: TypedKind) -> Result<(), Memory>
        ensures { OnOk result (self.new ≡ spec.replaced self.old count kind) }
    {
        let kept = self.stack.len().saturating_sub(count as usize);
        self.stack.truncate(kept);
        self.push(kind)
    }

    /// Takes the kinds of the stack that lie below so many on top.
    pub fn lift(&mut self, height: usize) -> Result<Vec<TypedKind>, Memory>
        ensures under { IfOk result (λ under. reverse under.items ≡ drop height self.old.stack) }
        ensures rest { OnOk result (self.new ≡ record { vars = self.old.vars; stack = take height self.old.stack }) }
    {
        let below = self.stack.len().saturating_sub(height);
        let top = self.stack.split_off(below)?;
        Ok(mem::replace(&mut self.stack, top))
    }

    /// Puts kinds below the stack.
    pub fn lower(&mut self, under: Vec<TypedKind>) -> Result<(), Memory>
        ensures { OnOk result (self.new ≡ spec.above (reverse under.items) self.old) }
    {
        if under.is_empty() {
            return Ok(());
        }
        let top = mem::replace(&mut self.stack, under);
        let Ok(()) = self.stack.extend_from_slice(top.as_slice()) else {
            return Err(Memory);
        };
        Ok(())
    }

    /// Equal kinds.
    pub fn copied(&self, alloc: Global) -> Result<Kinds, Memory>
        ensures { IfOk result (λ copy. copy ≡ self.now) }
    {
        let Ok(vars) = Vec::from_slice(alloc, self.vars.as_slice()) else {
            return Err(Memory);
        };
        let Ok(stack) = Vec::from_slice(alloc, self.stack.as_slice()) else {
            return Err(Memory);
        };
        Ok(Kinds { vars, stack })
    }

    /// Joins the kinds with others; whether that changed them.
    pub fn meet(&mut self, other: Kinds) -> bool
        ensures state { self.new ≡ spec.joined_state self.old other }
        ensures changed { result ≡ not (spec.same_state self.new self.old) }
    {
        let vars = meet_kinds(&mut self.vars, other.vars.as_slice());
        let stack = meet_tops(&mut self.stack, other.stack);
        vars || stack
    }

    /// Goes on from the ends of two ways, those that have one; whether there is one.
    pub fn meet_end(&mut self, goes_on: bool, other_goes_on: bool, other: Kinds) -> bool
        ensures { next_of result self.new ≡ spec.joined_next (next_of goes_on self.old) (next_of other_goes_on other) }
    {
        if !other_goes_on {
            return goes_on;
        }
        if !goes_on {
            *self = other;
            return true;
        }
        self.meet(other);
        true
    }
}

/// Joins a kind with another one; whether that changed it.
fn meet_kind(mine: &mut TypedKind, other: TypedKind) -> bool
    ensures kind { mine.new ≡ kinds.joined_kind mine.old other }
    ensures changed { result ≡ not (kinds.same_kind mine.new mine.old) }
{
    let old = *mine;
    *mine = joined_kind(old, other);
    !same_kind(*mine, old)
}

/// Joins kinds with others, place by place; whether that changed them. What has no partner falls away.
fn meet_kinds(mine: &mut Vec<TypedKind>, others: &[TypedKind]) -> bool
    ensures kinds { mine.new.items ≡ spec.joined_kinds mine.old.items others.now }
    ensures changed { result ≡ not (spec.same_kinds mine.new.items mine.old.items) }
{
    let mut changed = mine.len() > others.len();
    mine.truncate(others.len());
    for slot in 0..mine.len() {
        let one = meet_kind(&mut mine[slot], others[slot]);
        changed = changed || one;
    }
    changed
}

/// Joins a stack with another one, top with top, where tops stand last; whether that changed it.
fn meet_tops(mine: &mut Vec<TypedKind>, mut others: Vec<TypedKind>) -> bool
    ensures kinds { reverse mine.new.items ≡ spec.joined_kinds (reverse mine.old.items) (reverse others.items) }
    ensures changed { result ≡ not (spec.same_kinds (reverse mine.new.items) (reverse mine.old.items)) }
{
    if mine.len() == others.len() {
        return meet_kinds(mine, others.as_slice());
    }
    others.reverse();
    mine.reverse();
    let changed = meet_kinds(mine, others.as_slice());
    mine.reverse();
    changed
}
