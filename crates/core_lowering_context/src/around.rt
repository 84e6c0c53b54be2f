//! What stands around a statement: what jumps lead behind, and a `finally` behind returns.
ghost use Rattle.std.specs.Prelude.{◌≡◌, suc, IfOk, OnOk, option_copied};
ghost use Rattle.core_lowering_rules.specs.Scopes.{next_variable, with_label, in_loop, in_switch, in_labelled};
ghost use Rattle.core_lowering_rules.specs.Scopes.{break_to, continue_to, in_guard, returned_variable, after_return};
ghost use Rattle.core_lowering_context.specs.Exits.{exit_seen, sent_seen};
ghost use Rattle.core_lowering_context.specs.Restored.{left_target, left_guard, sent_to, with_exit, with_given};
ghost use Rattle.core_lowering_context.specs.Restored.{with_returned, returned_in, kept, restored};

use crate::context::Context;
use crate::numbers::number_of;
use crate::targets::{
    Guard, Kept, LoopExits, Sent, Target, copied_guards, copied_texts, innermost_going_on,
    innermost_meant, one_label,
};
use core_lowering_drafts::Exit;
use java_tree::Ident;
use racer_base::{Memory, Text, VarId};
use std::alloc::Global;
use std::mem;

impl<'a> Context<'a> {
    /// Notes a label of the loop that comes.
    pub fn note_label(&mut self, alloc: Global, x: &Ident) -> Result<(), Memory>
        ensures { OnOk result (self.new ≡ with_label self.old x.now) }
    {
        let text = Text::from_str(alloc, x.text.as_str())?;
        self.labels.push(text)?;
        Ok(())
    }

    /// An exit of its own.
    fn open_exit(&mut self) -> Result<Exit, Memory>
        ensures context { OnOk result (self.new ≡ with_exit self.old) }
        ensures exit { IfOk result (λ exit. exit.0 ≡ self.old.exits) }
    {
        let exit = Exit(self.exits);
        self.exits = self.exits.checked_add(1).ok_or(Memory)?;
        Ok(exit)
    }

    /// Goes into a loop, whose labels are those that were noted.
    pub fn enter_loop(&mut self, alloc: Global) -> Result<LoopExits, Memory>
        ensures context { OnOk result (self.new ≡ in_loop self.old) }
        ensures break_to { IfOk result (λ exits. exits.break_to.0 ≡ self.old.exits) }
        ensures continue_to { IfOk result (λ exits. exits.continue_to.0 ≡ suc self.old.exits) }
    {
        let break_to = self.open_exit()?;
        let continue_to = self.open_exit()?;
        let labels = mem::replace(&mut self.labels, Vec::new(alloc));
        self.targets.push(Target {
            labels,
            break_to,
            continue_to: Some(continue_to),
            is_unnamed: true,
        })?;
        Ok(LoopExits {
            break_to,
            continue_to,
        })
    }

    /// Goes into a `switch`.
    pub fn enter_switch(&mut self, alloc: Global) -> Result<Exit, Memory>
        ensures context { OnOk result (self.new ≡ in_switch self.old) }
        ensures exit { IfOk result (λ exit. exit.0 ≡ self.old.exits) }
    {
        let break_to = self.open_exit()?;
        self.targets.push(Target {
            labels: Vec::new(alloc),
            break_to,
            continue_to: None,
            is_unnamed: true,
        })?;
        Ok(break_to)
    }

    /// Goes into a labelled statement that is no loop.
    pub fn enter_labelled(&mut self, alloc: Global, x: &Ident) -> Result<Exit, Memory>
        ensures context { OnOk result (self.new ≡ in_labelled self.old x.now) }
        ensures exit { IfOk result (λ exit. exit.0 ≡ self.old.exits) }
    {
        let break_to = self.open_exit()?;
        let labels = one_label(alloc, x)?;
        self.targets.push(Target {
            labels,
            break_to,
            continue_to: None,
            is_unnamed: false,
        })?;
        Ok(break_to)
    }

    /// Leaves the loop, the `switch` or the labelled statement whose first exit this is.
    pub fn leave_target(&mut self, exit: Exit)
        ensures { self.new ≡ left_target exit.0 self.old }
    {
        drop(self.targets.pop());
        self.exits = exit.0;
        self.labels.clear();
    }

    /// Where a `break` leads (JLS 14.15).
    pub fn break_to(&self, x: Option<&Ident>) -> Option<Exit>
        ensures { exit_seen result ≡ break_to self.now (option_copied x.entry) }
    {
        match innermost_meant(self.targets.as_slice(), x) {
            Some(target) => Some(target.break_to),
            None => None,
        }
    }

    /// Where a `continue` leads (JLS 14.16).
    pub fn continue_to(&self, x: Option<&Ident>) -> Option<Exit>
        ensures { exit_seen result ≡ continue_to self.now (option_copied x.entry) }
    {
        match innermost_going_on(self.targets.as_slice(), x) {
            Some(target) => target.continue_to,
            None => None,
        }
    }

    /// Goes into the first part of a `try` with a `finally`.
    pub fn enter_guard(&mut self) -> Result<Exit, Memory>
        ensures context { OnOk result (self.new ≡ in_guard self.old) }
        ensures exit { IfOk result (λ exit. exit.0 ≡ self.old.exits) }
    {
        let exit = self.open_exit()?;
        self.guards.push(Guard {
            exit,
            variable: None,
        })?;
        Ok(exit)
    }

    /// Leaves the first part of the `try` whose exit this is, and gives the variable of what was returned there.
    pub fn leave_guard(&mut self, exit: Exit) -> Option<VarId>
        ensures context { self.new ≡ left_guard exit.0 self.old }
        ensures variable { result ≡ returned_variable self.old }
    {
        self.exits = exit.0;
        match self.guards.pop() {
            Some(guard) => guard.variable,
            None => None,
        }
    }

    /// One more variable, for what is returned.
    fn new_returned(&mut self) -> Result<VarId, Memory>
        ensures context { OnOk result (self.new ≡ with_given self.old) }
        ensures variable { IfOk result (λ v. v ≡ next_variable self.old) }
    {
        let v = VarId(number_of(self.kinds.len())?);
        self.kinds.push(self.given)?;
        Ok(v)
    }

    /// The variable of what is returned in the first part of a `try`, which is made where there is none.
    fn variable_in(&mut self, guard: Guard) -> Result<VarId, Memory>
        ensures context { OnOk result (self.new ≡ with_returned guard.variable self.old) }
        ensures variable { IfOk result (λ v. v ≡ returned_in guard.variable self.old) }
    {
        match guard.variable {
            Some(v) => Ok(v),
            None => self.new_returned(),
        }
    }

    /// Where a return leads from here that is behind a `finally`, and the variable of what is returned, which is made
    /// where there is none.
    pub fn send_back(&mut self) -> Result<Option<Sent>, Memory>
        ensures context { OnOk result (self.new ≡ after_return self.old) }
        ensures sent { IfOk result (λ sent. sent_seen sent ≡ sent_to self.old) }
    {
        let Some(guard) = self.guards.pop() else {
            return Ok(None);
        };
        let exit = guard.exit;
        let variable = self.variable_in(guard)?;
        self.guards.push(Guard {
            exit,
            variable: Some(variable),
        })?;
        Ok(Some(Sent { exit, variable }))
    }

    /// What is to be as before behind code that is not kept.
    pub fn kept(&self, alloc: Global) -> Result<Kept, Memory>
        ensures { IfOk result (λ before. before ≡ kept self.now) }
    {
        let labels = copied_texts(alloc, self.labels.as_slice())?;
        let guards = copied_guards(alloc, self.guards.as_slice())?;
        Ok(Kept {
            variables: self.variables.as_slice().len(),
            kinds: self.kinds.len(),
            exits: self.exits,
            labels,
            guards,
            is_apart: self.is_apart,
        })
    }

    /// Is as before behind code that is not kept, but for what is known of its locks.
    pub fn restore(&mut self, before: Kept)
        ensures { self.new ≡ restored before self.old }
    {
        self.variables.leave(before.variables);
        self.kinds.truncate(before.kinds);
        self.exits = before.exits;
        self.labels = before.labels;
        self.guards = before.guards;
        self.is_apart = before.is_apart;
    }
}
