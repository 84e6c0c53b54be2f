//! How the methods of a program are finished, level by level.
ghost use Rattle.std.specs.Prelude.{◌≡◌, ◌<◌, IfOk, IfSome, OnOk, length, map, option_map, slice_set, Some};
ghost use Rattle.std.specs.Arc.{arc_value};
ghost use Rattle.std.specs.List.{list_any};
ghost use Rattle.core_code.specs.CalleeRows.{AreRowsOf};
ghost use Rattle.core_code.specs.Program.{core};
ghost use Rattle.access_domain.specs.Outcomes.{AreOutcomes};
ghost use Rattle.transfer.specs.Callees.{AreCallees};
ghost use Rattle.transfer.specs.Tables.{finished_at};
ghost use Rattle.edit_session.specs.Levels.{levels_of};
ghost use Rattle.edit_session.specs.Lists.{level_count};
ghost use Rattle.edit_session.specs.Sessions.{IsBefore};
ghost use Rattle.edit_session.specs.Whole.{IsWhole};
ghost use Rattle.edit_session.specs.Work as spec;

use crate::before::Before;
use crate::levels::levels;
use crate::lists::{FINISHED, NOT_DUE, level_count, list_of_level, lists_by_level};
use access_domain::{Outcome, Outcomes};
use core_code::{CallRows, Program};
use racer_base::{Memory, MethodId};
use row_links::Rows;
use std::alloc::Global;
use std::sync::Arc;
use transfer::laws::what_is_as_before_has_its_outcome;
use transfer::{Finished, analyse, carried};

/// What is made of a program so far, behind another or behind none.
#[derive(Drop)]
pub(crate) struct Work<'a, 'b> {
    pub program: &'a Arc<Program>,
    pub rows: &'a CallRows,
    pub before: Option<Before<'b>>,
    /// The methods that are finished, each at its number.
    pub finished: Vec<Option<Arc<Finished>>>,
    /// Whether a method has another outcome than its partner had; so it is taken while it is not finished.
    pub differs: Vec<bool>,
    /// The methods that were analysed again, in the order in which they were.
    pub analysed: Vec<MethodId>,
}

/// What is made of a whole program.
#[derive(Drop)]
pub(crate) struct Made {
    pub finished: Vec<Option<Arc<Finished>>>,
    pub outcomes: Outcomes,
    pub analysed: Vec<MethodId>,
}

/// An empty place for each method.
fn no_methods(alloc: Global, count: usize) -> Result<Vec<Option<Arc<Finished>>>, Memory>
    ensures { IfOk result (λ made. made.items ≡ spec.no_methods count) }
{
    let Ok(mut places) = Vec::with_capacity(alloc, count) else {
        return Err(Memory);
    };
    for _place in 0..count {
        let Ok(()) = places.push(None) else {
            return Err(Memory);
        };
    }
    Ok(places)
}

/// Puts a method at its number, where there is a place for it.
fn keep(table: &mut Vec<Option<Arc<Finished>>>, method: MethodId, finished: Arc<Finished>)
    ensures { table.new.items ≡ slice_set table.old.items method.0 (Some finished) }
{
    let method = method.0 as usize;
    if method < table.len() {
        table[method] = Some(finished);
    }
}

/// Tells of a method whether its outcome is another, where there is a place for it.
fn tell(flags: &mut Vec<bool>, method: MethodId, differs: bool)
    ensures { flags.new.items ≡ slice_set flags.old.items method.0 differs }
{
    let method = method.0 as usize;
    if method < flags.len() {
        flags[method] = differs;
    }
}

/// Whether a method has another outcome than its partner had.
fn differs_at(differs: &[bool], method: MethodId) -> bool
    ensures { result ≡ spec.flag_at differs.now method }
{
    match differs.get(method.0 as usize) {
        Some(differs) => *differs,
        None => true,
    }
}

/// Whether one of these methods has another outcome than its partner had.
fn any_differs(differs: &[bool], methods: &[MethodId]) -> bool
    ensures { result ≡ list_any (spec.flag_at differs.now) methods.now }
{
    for method in methods {
        if differs_at(differs, *method) {
            return true;
        }
    }
    false
}

/// The method of a number, where it is finished.
fn found(table: &[Option<Arc<Finished>>], method: MethodId) -> Result<Option<Arc<Finished>>, Memory>
    ensures { IfOk result (λ found. option_map arc_value found ≡ finished_at table.now method) }
{
    let Some(place) = table.get(method.0 as usize) else {
        return Ok(None);
    };
    match place {
        Some(finished) => Ok(Some(finished.clone()?)),
        None => Ok(None),
    }
}

/// These methods, all of which are finished.
fn finished_of(
    alloc: Global,
    table: &[Option<Arc<Finished>>],
    methods: &[MethodId],
) -> Result<Vec<Arc<Finished>>, Memory>
    requires { spec.AreFound table.now methods.now }
    ensures { IfOk result (λ made. map spec.some_of made.items ≡ map (finished_at table.now) methods.now) }
{
    let mut made = Vec::new(alloc);
    for method in methods {
        let Ok(found) = found(table, *method) else {
            return Err(Memory);
        };
        let Some(finished) = found else {
            unreachable!()
        };
        let Ok(()) = made.push(finished) else {
            return Err(Memory);
        };
    }
    Ok(made)
}

impl<'a, 'b> Work<'a, 'b> {
    /// Nothing is finished.
    fn new(
        alloc: Global,
        program: &'a Arc<Program>,
        rows: &'a CallRows,
        before: Option<Before<'b>>,
    ) -> Result<Work<'a, 'b>, Memory>
        requires rows { AreRowsOf (core (arc_value program.now)) rows.now }
        requires before { IfSome before (IsBefore (core (arc_value program.now))) }
        ensures right { IfOk result spec.IsRight }
        ensures begun { IfOk result (spec.IsBegun (core (arc_value program.now)) before.entry) }
    {
        let count = program.methods().len();
        let finished = no_methods(alloc, count)?;
        let differs = vec![in alloc; true; count]?;
        Ok(Work {
            program,
            rows,
            before,
            finished,
            differs,
            analysed: Vec::new(alloc),
        })
    }

    /// Whether a call of the method has another outcome than the call at its place had.
    fn calls_differ(&self, method: MethodId) -> bool
        requires { spec.IsNext self.now method }
        ensures { result ≡ spec.calls_differ self.now method }
    {
        any_differs(self.differs.as_slice(), self.rows.row(method))
    }

    /// The methods that a method calls, finished.
    fn callees(&self, alloc: Global, method: MethodId) -> Result<Vec<Arc<Finished>>, Memory>
        requires { spec.IsNext self.now method }
        ensures { IfOk result (λ made. AreCallees (spec.new_core self.now) method made.items) }
    {
        let callees = finished_of(alloc, self.finished.as_slice(), self.rows.row(method))?;
        Ok(callees)
    }

    /// The method with the outcome that it had, where it is as it was.
    fn kept(&self, alloc: Global, method: MethodId) -> Result<Option<Finished>, Memory>
        requires { spec.IsNext self.now method }
        ensures { IfOk result (spec.IsKept self.now method) }
    {
        let Some(before) = &self.before else {
            return Ok(None);
        };
        let Some(old) = before.of_same_form(&**self.program, method) else {
            return Ok(None);
        };
        if self.calls_differ(method) {
            return Ok(None);
        }
        what_is_as_before_has_its_outcome();
        let kept = carried(alloc, &before.ties, &**old, self.program, method)?;
        Ok(Some(kept))
    }

    /// The method, analysed.
    fn analysed_again(&self, alloc: Global, method: MethodId) -> Result<Finished, Memory>
        requires { spec.IsNext self.now method }
        ensures { IfOk result (spec.IsFinishedFor self.now method) }
    {
        let callees = self.callees(alloc, method)?;
        let finished = analyse(alloc, self.program, method, callees.as_slice())?;
        Ok(finished)
    }

    /// Whether a method that was analysed has another outcome than its partner had.
    fn is_other(&self, alloc: Global, finished: &Finished) -> Result<bool, Memory>
        requires { IfSome self.now.before (IsBefore (spec.new_core self.now)) }
        ensures { IfOk result (spec.IsOther (spec.new_core self.now) self.now.before finished.now) }
    {
        match &self.before {
            Some(before) => before.differs(alloc, finished.method, &finished.outcome),
            None => Ok(true),
        }
    }

    /// Puts a finished method at its number.
    fn put(&mut self, alloc: Global, finished: Finished, differs: bool) -> Result<(), Memory>
        requires place { finished.method.0 < length self.old.finished.items }
        requires flag { finished.method.0 < length self.old.differs.items }
        ensures put { OnOk result (spec.IsPut self.old finished differs self.new) }
        ensures analysed { OnOk result (self.new.analysed ≡ self.old.analysed) }
    {
        let method = finished.method;
        let shared = Arc::new(alloc, finished)?;
        keep(&mut self.finished, method, shared);
        tell(&mut self.differs, method, differs);
        Ok(())
    }

    /// Analyses a method, behind those that it calls.
    fn finish_again(&mut self, alloc: Global, method: MethodId) -> Result<(), Memory>
        requires { spec.IsNext self.old method }
        ensures { OnOk result (spec.IsAnalysed self.old method self.new) }
    {
        let finished = self.analysed_again(alloc, method)?;
        let differs = self.is_other(alloc, &finished)?;
        self.put(alloc, finished, differs)?;
        self.analysed.push(method)?;
        Ok(())
    }

    /// Finishes a method, behind those that it calls, and tells the list that it goes to.
    fn finish(&mut self, alloc: Global, method: MethodId) -> Result<u32, Memory>
        requires { spec.IsNext self.old method }
        ensures { IfOk result (spec.IsDone self.old method self.new) }
    {
        if let Some(finished) = self.kept(alloc, method)? {
            self.put(alloc, finished, false)?;
            return Ok(NOT_DUE);
        }
        self.finish_again(alloc, method)?;
        Ok(FINISHED)
    }

    /// Finishes the methods of a list.
    fn finish_list(&mut self, alloc: Global, lists: &mut Rows, list: u32) -> Result<(), Memory>
        requires { spec.IsReady self.old lists.old list }
        ensures { OnOk result (spec.IsThrough self.old lists.old list self.new lists.new) }
    {
        while let Some(node) = lists.front(list) {
            let Ok(goes_to) = self.finish(alloc, MethodId(node)) else {
                return Err(Memory);
            };
            lists.move_to(node, goes_to);
        }
        Ok(())
    }

    /// Finishes the methods of so many levels, one level behind another.
    fn finish_levels(&mut self, alloc: Global, lists: &mut Rows, levels: u32) -> Result<(), Memory>
        requires { spec.AreReady self.old lists.old levels }
        ensures { OnOk result (spec.AreThrough self.old levels self.new) }
    {
        for level in 0..levels {
            let Ok(list) = list_of_level(level) else {
                return Err(Memory);
            };
            let Ok(()) = self.finish_list(alloc, lists, list) else {
                return Err(Memory);
            };
        }
        Ok(())
    }

    /// Finishes all analysed methods, which have these levels.
    fn finish_all(&mut self, alloc: Global, levels: &[Option<u32>]) -> Result<(), Memory>
        requires right { spec.IsRight self.old }
        requires levels { levels.now ≡ levels_of (spec.new_core self.old) }
        ensures { OnOk result (spec.AreThrough self.old (level_count levels.now) self.new) }
    {
        let mut lists = lists_by_level(alloc, levels)?;
        let count = level_count(levels)?;
        self.finish_levels(alloc, &mut lists, count)
    }
}

/// The outcome of what stands at a place.
fn outcome_at(table: &[Option<Arc<Finished>>], place: usize) -> Result<Option<Arc<Outcome>>, Memory>
    ensures { IfOk result (λ found. option_map arc_value found ≡ spec.outcome_found table.now place) }
{
    let Some(finished) = table.get(place) else {
        return Ok(None);
    };
    match finished {
        Some(finished) => Ok(Some(finished.outcome.clone()?)),
        None => Ok(None),
    }
}

/// The outcomes of the methods, one after another, none for those that are not analysed.
fn outcomes_of(
    alloc: Global,
    program: &Arc<Program>,
    table: &[Option<Arc<Finished>>],
) -> Result<Outcomes, Memory>
    requires { IsWhole (core (arc_value program.now)) table.now }
    ensures { IfOk result (λ found. AreOutcomes (core (arc_value program.now)) found.items) }
{
    let mut outcomes = Vec::new(alloc);
    for place in 0..program.methods().len() {
        let Ok(outcome) = outcome_at(table, place) else {
            return Err(Memory);
        };
        let Ok(()) = outcomes.push(outcome) else {
            return Err(Memory);
        };
    }
    Ok(outcomes)
}

/// What is made, where all analysed methods are finished.
fn made_of(alloc: Global, work: Work<'_, '_>) -> Result<Made, Memory>
    requires { IsWhole (spec.new_core work) work.finished.items }
    ensures { IfOk result (spec.IsMadeOf work.entry) }
{
    let outcomes = outcomes_of(alloc, work.program, work.finished.as_slice())?;
    let Work {
        finished,
        analysed,
        ..
    } = work;
    Ok(Made {
        finished,
        outcomes,
        analysed,
    })
}

/// Finishes all methods of a program, behind another or behind none.
pub(crate) fn all_finished(
    alloc: Global,
    program: &Arc<Program>,
    rows: &CallRows,
    before: Option<Before<'_>>,
) -> Result<Made, Memory>
    requires rows { AreRowsOf (core (arc_value program.now)) rows.now }
    requires before { IfSome before (IsBefore (core (arc_value program.now))) }
    ensures { IfOk result (spec.IsMade (arc_value program.now) before.entry) }
{
    let levels = levels(alloc, &**program, rows)?;
    let mut work = Work::new(alloc, program, rows, before)?;
    work.finish_all(alloc, levels.as_slice())?;
    let made = made_of(alloc, work)?;
    Ok(made)
}
