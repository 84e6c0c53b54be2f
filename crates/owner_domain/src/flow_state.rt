//! The values of a method's variables, and those on its operand stack.
ghost use Rattle.std.specs.Prelude.{◌≡◌, ◌+◌, [], not, true, IfOk, OnOk, List, length, map, take, drop, reverse};
ghost use Rattle.std.specs.Prelude.{slice_index_or, slice_set};
ghost use Rattle.access_paths.specs.declared.path.Path.{Path as TablePath};
ghost use Rattle.access_paths.specs.Table.{IsTable, path_at};
ghost use Rattle.owner_domain.specs.declared.numbered.NumberedValue.TheVariants.{Unnamed as NotNamed};
ghost use Rattle.owner_domain.specs.Slots.{top_number, pushed_number, popped_numbers, replaced_numbers, passed_numbers};
ghost use Rattle.owner_domain.specs.Slots.{met_numbers, lost_by, same_numbered};
ghost use Rattle.owner_domain.specs.Values.{joined_state, lost_state};
ghost use Rattle.owner_domain.specs.Numbered.{read_state, AreInRange};
ghost use Rattle.owner_domain.specs.Slots.{numbers_above};

use crate::NumberedValue;
use crate::meeting::{lose_tops, lose_values, meet_tops, meet_values};
use racer_base::{Memory, VarId};
use std::alloc::Global;
use std::marker::Model;
use std::mem;

/// The values at a place of the code, their paths by their numbers, which contracts see as a `NumberedState`.
#[derive(Drop)]
pub struct FlowState {
    vars: Vec<NumberedValue>,
    /// The top stands last.
    stack: Vec<NumberedValue>,
}

impl Model for FlowState {
    ghost use Rattle.std.specs.Prelude.{reverse};
    ghost use Rattle.owner_domain.specs.declared.numbered.NumberedState.{NumberedState};
    ghost use Rattle.owner_domain.specs.contracts.numbered.NumberedState as state;

    ghost Value = { NumberedState };

    ghost coded = { state.the_row.coded };

    ghost view = { λ here. record { vars = here.vars.items; stack = reverse here.stack.items } };
}

impl FlowState {
    /// These variables, and nothing on the stack.
    pub fn new(alloc: Global, vars: Vec<NumberedValue>) -> FlowState
        ensures { result ≡ record { vars = vars.items; stack = [] } }
    {
        FlowState {
            vars,
            stack: Vec::new(alloc),
        }
    }

    /// How many values lie on the stack.
    pub fn height(&self) -> usize
        ensures { result ≡ length self.now.stack }
    {
        self.stack.len()
    }

    /// How many rounds of a loop there are: one more than there are values.
    pub fn rounds(&self) -> usize
        ensures { result ≡ length self.now.vars + length self.now.stack + 1 }
    {
        self.vars.len() + self.stack.len() + 1
    }

    /// The value of a variable, `Unnamed` where there is none of this number.
    fn variable(&self, variable: VarId) -> NumberedValue
        ensures { result ≡ slice_index_or self.now.vars variable.0 NotNamed }
    {
        match self.vars.as_slice().get(variable.0 as usize) {
            Some(value) => *value,
            None => NumberedValue::Unnamed,
        }
    }

    /// Gives a variable this value, where there is one of this number.
    pub fn set(&mut self, variable: VarId, value: NumberedValue)
        ensures { self.new ≡ record { vars = slice_set self.old.vars variable.0 value; stack = self.old.stack } }
    {
        let variable = variable.0 as usize;
        if variable < self.vars.len() {
            self.vars[variable] = value;
        }
    }

    pub fn push(&mut self, value: NumberedValue) -> Result<(), Memory>
        ensures { OnOk result (self.new ≡ pushed_number self.old value) }
    {
        let Ok(()) = self.stack.push(value) else {
            return Err(Memory);
        };
        Ok(())
    }

    /// Takes the top, or `Unnamed` where there is none.
    pub fn pop(&mut self) -> NumberedValue
        ensures value { result ≡ top_number self.old }
        ensures rest { self.new ≡ popped_numbers self.old 1 }
    {
        match self.stack.pop() {
            Some(value) => value,
            None => NumberedValue::Unnamed,
        }
    }

    /// Pushes the value of a variable, `Unnamed` where there is none of this number.
    pub fn push_variable(&mut self, variable: VarId) -> Result<(), Memory>
        ensures { OnOk result (self.new ≡ pushed_number self.old (slice_index_or self.old.vars variable.0 NotNamed)) }
    {
        self.push(self.variable(variable))
    }

    /// Pushes the top once more.
    pub fn push_top(&mut self) -> Result<(), Memory>
        ensures { OnOk result (self.new ≡ pushed_number self.old (top_number self.old)) }
    {
        self.push(self.top())
    }

    /// The top, or `Unnamed` where there is none.
    pub fn top(&self) -> NumberedValue
        ensures { result ≡ top_number self.now }
    {
        match self.stack.as_slice().last() {
            Some(value) => *value,
            None => NumberedValue::Unnamed,
        }
    }

    /// Takes so many values, in the order in which they were pushed.
    pub fn take(&mut self, count: u32) -> Result<Vec<NumberedValue>, Memory>
        ensures values { IfOk result (λ values. values.items ≡ passed_numbers self.old count) }
        ensures rest { OnOk result (self.new ≡ popped_numbers self.old count) }
    {
        let kept = self.stack.len().saturating_sub(count as usize);
        Ok(self.stack.split_off(kept)?)
    }

    /// Takes so many values, and pushes one.
    pub fn replace(&mut self, count: u32, value: NumberedValue) -> Result<(), Memory>
        ensures { OnOk result (self.new ≡ replaced_numbers self.old count value) }
    {
        let kept = self.stack.len().saturating_sub(count as usize);
        self.stack.truncate(kept);
        self.push(value)
    }

    /// Takes the values of the stack that lie below so many on top.
    pub fn lift(&mut self, height: usize) -> Result<Vec<NumberedValue>, Memory>
        ensures under { IfOk result (λ under. reverse under.items ≡ drop height self.old.stack) }
        ensures rest { OnOk result (self.new ≡ record { vars = self.old.vars; stack = take height self.old.stack }) }
    {
        let below = self.stack.len().saturating_sub(height);
        let top = self.stack.split_off(below)?;
        Ok(mem::replace(&mut self.stack, top))
    }

    /// Puts values below the stack.
    pub fn lower(&mut self, under: Vec<NumberedValue>) -> Result<(), Memory>
        ensures { OnOk result (self.new ≡ numbers_above (reverse under.items) self.old) }
    {
        if under.is_empty() {
            return Ok(());
        }
        let top = mem::replace(&mut self.stack, under);
        let Ok(()) = self.stack.extend_from_slice(top.as_slice()) else {
            return Err(Memory);
        };
        Ok(())
    }

    /// Equal values.
    pub fn copied(&self, alloc: Global) -> Result<FlowState, Memory>
        ensures { IfOk result (λ copy. copy ≡ self.now) }
    {
        let Ok(vars) = Vec::from_slice(alloc, self.vars.as_slice()) else {
            return Err(Memory);
        };
        let Ok(stack) = Vec::from_slice(alloc, self.stack.as_slice()) else {
            return Err(Memory);
        };
        Ok(FlowState { vars, stack })
    }

    /// Joins the values with others; whether that changed them.
    pub fn meet(&mut self, other: FlowState) -> bool
        ensures state { self.new ≡ met_numbers self.old other }
        ensures changed { result ≡ not (same_numbered self.new self.old) }
        ensures joined { (table : List TablePath) → IsTable table → AreInRange table self.old → AreInRange table other →
            read_state table self.new ≡ joined_state (read_state table self.old) (read_state table other) }
        ensures range { (table : List TablePath) → AreInRange table self.old → AreInRange table self.new }
    {
        let vars = meet_values(&mut self.vars, other.vars.as_slice());
        let stack = meet_tops(&mut self.stack, other.stack);
        vars || stack
    }

    /// Whether others are the same.
    fn is_same(&self, other: &FlowState) -> bool
        ensures { result ≡ true → other.now ≡ self.now }
    {
        self.vars.as_slice() == other.vars.as_slice()
            && self.stack.as_slice() == other.stack.as_slice()
    }

    /// Joins the values with others; whether that changed them, and the numbers that are lost, in order of slots.
    pub fn meet_losing(
        &mut self,
        alloc: Global,
        other: FlowState,
    ) -> Result<(bool, Vec<u32>), Memory>
        ensures state { OnOk result (self.new ≡ met_numbers self.old other) }
        ensures changed { IfOk result (λ made. made.0 ≡ not (same_numbered self.new self.old)) }
        ensures lost { IfOk result (λ made. made.1.items ≡ lost_by self.old other) }
        ensures joined { OnOk result ((table : List TablePath) → IsTable table → AreInRange table self.old →
            AreInRange table other →
            read_state table self.new ≡ joined_state (read_state table self.old) (read_state table other)) }
        ensures lost_paths { IfOk result (λ made. (table : List TablePath) → IsTable table → AreInRange table self.old →
            AreInRange table other →
            map (path_at table) made.1.items ≡ lost_state (read_state table self.old) (read_state table other)) }
        ensures range { OnOk result ((table : List TablePath) → AreInRange table self.old →
            AreInRange table self.new) }
    {
        let mut lost = Vec::new(alloc);
        if self.is_same(&other) {
            return Ok((false, lost));
        }
        lose_values(self.vars.as_slice(), other.vars.as_slice(), &mut lost)?;
        lose_tops(self.stack.as_slice(), other.stack.as_slice(), &mut lost)?;
        Ok((self.meet(other), lost))
    }
}
