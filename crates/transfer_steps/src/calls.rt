//! Calls.
ghost use Rattle.std.specs.Prelude.{◌≡◌, Bool, IfOk, OnOk, Some};
ghost use Rattle.racer_base.specs.declared.ids.SiteId.{SiteId as Site};
ghost use Rattle.std.specs.Option.{option_copied};
ghost use Rattle.core_code.specs.declared.code.Op.TheVariants.{Call as CallOf};
ghost use Rattle.access_paths.specs.Table.{IsTable, GoesOn};
ghost use Rattle.owner_domain.specs.Numbered.{read_state, AllInRange, AreInRange};
ghost use Rattle.access_domain.specs.Findings.{Whole};
ghost use Rattle.access_domain.specs.Operations.{op_effects, passed_from, replaced};
ghost use Rattle.access_domain.specs.Substitution.{actuals_from, substituted_value};
ghost use Rattle.transfer_steps.specs.Contexts.{given};
ghost use Rattle.transfer_steps.specs.Known.{findings_in, callee_outcome};
ghost use Rattle.transfer_steps.specs.Noting.{AreNotes, AreNoted, AreCallsNoted, IsWalk, IsWalked};
ghost use Rattle.transfer_steps.specs.Numbered.{read_call};
ghost use Rattle.owner_domain.specs.Slots.{passed_numbers};
ghost use Rattle.transfer_steps.specs.Walks.{call_marks};

use crate::found::Stop;
use crate::noted_calls::NotedCall;
use crate::notes::{Notes, Walk};
use crate::operations::MethodContext;
use access_domain::{Outcome, Summary};
use access_paths::PathTable;
use call_subst::{substitute, substitute_value};
use owner_domain::{FlowState, NumberedValue};
use racer_base::{Items, Memory, MethodId, SiteId};
use std::sync::Arc;

/// A method that may be called, with what is known of it.
#[derive(Drop)]
pub struct Callee {
    pub method: MethodId,
    pub outcome: Arc<Outcome>,
}

/// The outcome of a method, where it is among these.
fn callee_outcome<'a>(callees: &'a [Callee], method: MethodId) -> Option<&'a Outcome>
    ensures { option_copied result ≡ callee_outcome callees.now method }
{
    for callee in callees {
        if callee.method == method {
            return Some(&*callee.outcome);
        }
    }
    None
}

impl Walk {
    /// Calls a method with so many values.
    pub fn call(
        &mut self,
        context: &MethodContext,
        site: SiteId,
        method: MethodId,
        count: u32,
        state: &mut FlowState,
    ) -> Result<bool, Stop>
        requires ready { IsWalk (given context.now) self.old state.old }
        ensures { IsWalked (given context.now) (op_effects (given context.now) context.now.locked site (CallOf method
            count)) self.old state.old self.new state.new result }
    {
        match callee_outcome(context.callees, method) {
            None => {
                let Ok(()) = state.replace(count, NumberedValue::Unnamed) else {
                    return Err(Stop::Memory);
                };
                Ok(true)
            }
            Some(Outcome::Large) => Err(Stop::Large),
            Some(Outcome::Summary(summary)) => {
                let table = &mut self.notes.table;
                let Ok(made) = pass(context, method, count, summary, state, table) else {
                    return Err(Stop::Memory);
                };
                match self.note_call(context, made, site, summary) {
                    Ok(()) => Ok(true),
                    Err(stop) => Err(stop),
                }
            }
        }
    }

    /// Notes what a call of a method with this summary finds, unless one like it was noted before.
    fn note_call(
        &mut self,
        context: &MethodContext,
        made: NotedCall,
        site: SiteId,
        summary: &Summary,
    ) -> Result<(), Stop>
        requires known { (given context.now).known_of made.callee ≡ Some (Whole (findings_in summary.now)) }
        requires actuals { AllInRange self.old.notes.table made.actuals }
        requires ready { AreNotes self.old.notes }
        requires calls { AreCallsNoted (given context.now) self.old }
        ensures noted { AreNoted (call_marks (given context.now) (read_call self.old.notes.table made) (findings_in
            summary.now) site) self.old.notes self.new.notes result }
        ensures calls { OnOk result (AreCallsNoted (given context.now) self.new) }
    {
        if self.calls.contains(&made) {
            return Ok(());
        }
        match self.notes.note_callee(context, &made, site, summary) {
            Ok(()) => {}
            Err(stop) => return Err(stop),
        }
        let Ok(_) = self.calls.insert(made) else {
            return Err(Stop::Memory);
        };
        Ok(())
    }
}

/// Takes the values that a call passes, and pushes what it returns.
fn pass(
    context: &MethodContext,
    method: MethodId,
    count: u32,
    summary: &Summary,
    state: &mut FlowState,
    table: &mut PathTable,
) -> Result<NotedCall, Memory>
    requires numbers { AreInRange table.old state.old }
    requires once { IsTable table.old }
    ensures call { IfOk result (λ made. made ≡ record {
      callee = method;
      locked = context.now.locked;
      actuals = passed_numbers state.old count;
    }) }
    ensures next { OnOk result (read_state table.new state.new ≡
        replaced (read_state table.old state.old) count (substituted_value
        (actuals_from ((given context.now).is_static method) (passed_from (read_state table.old state.old) count))
        summary.now.result)) }
    ensures numbers { OnOk result (AreInRange table.new state.new) }
    ensures once { OnOk result (IsTable table.new) }
    ensures table { OnOk result (GoesOn table.old table.new) }
{
    let actuals = state.take(count)?;
    let value = substitute_value(
        context.alloc,
        context.program,
        table,
        method,
        actuals.as_slice(),
        &summary.result,
    )?;
    state.push(value)?;
    Ok(NotedCall {
        callee: method,
        locked: context.locked,
        actuals: Items::from(actuals),
    })
}

impl Notes {
    /// Notes the records and the wobbly paths of a callee, in the caller's values.
    fn note_callee(
        &mut self,
        context: &MethodContext,
        made: &NotedCall,
        site: SiteId,
        summary: &Summary,
    ) -> Result<(), Stop>
        requires actuals { AllInRange self.old.table made.now.actuals }
        requires ready { AreNotes self.old }
        ensures { AreNoted (call_marks (given context.now) (read_call self.old.table made.now) (findings_in summary.now)
            site) self.old self.new result }
    {
        let Ok(there) = substitute(
            context.alloc,
            context.program,
            &mut self.table,
            made.callee,
            summary,
            made.actuals.as_slice(),
            made.locked,
            context.main,
            site,
        ) else {
            return Err(Stop::Memory);
        };
        match self.found.note_records(there.accesses.as_slice()) {
            Ok(()) => {}
            Err(stop) => return Err(stop),
        }
        self.found.note_numbers(there.wobbly.as_slice())
    }
}

/// Takes the values that a call passes, and pushes what it returns.
pub fn move_call(
    context: &MethodContext,
    method: MethodId,
    count: u32,
    state: &mut FlowState,
    table: &mut PathTable,
) -> Result<(), Memory>
    requires numbers { AreInRange table.old state.old }
    requires once { IsTable table.old }
    ensures next { OnOk result ((locked : Bool) (site : Site) →
        (op_effects (given context.now) locked site (CallOf method count) (read_state table.old state.old)).next ≡
        Some (read_state table.new state.new)) }
    ensures numbers { OnOk result (AreInRange table.new state.new) }
    ensures once { OnOk result (IsTable table.new) }
    ensures table { OnOk result (GoesOn table.old table.new) }
{
    match callee_outcome(context.callees, method) {
        None => state.replace(count, NumberedValue::Unnamed),
        Some(Outcome::Large) => state.replace(count, NumberedValue::Unnamed),
        Some(Outcome::Summary(summary)) => {
            pass(context, method, count, summary, state, table)?;
            Ok(())
        }
    }
}
