//! Operations.
ghost use Rattle.std.specs.Prelude.{◌≡◌, ◌<◌, ◌++◌, List, IfOk, OnOk, [], Bool, length, option_map, false};
ghost use Rattle.std.specs.Prelude.{if◌then◌else◌};
ghost use Rattle.racer_base.specs.declared.ids.SiteId.{SiteId as Site};
ghost use Rattle.access_paths.specs.declared.path.Path.{Path as TablePath};
ghost use Rattle.access_paths.specs.Table.{IsTable, GoesOn, path_at};
ghost use Rattle.owner_domain.specs.declared.numbered.NumberedValue.TheVariants.{Unnamed as NotNamed};
ghost use Rattle.owner_domain.specs.declared.value.Value.TheVariants.{Named as NamedBy};
ghost use Rattle.owner_domain.specs.Numbered.{read_value, read_state, IsInRange, AreInRange};
ghost use Rattle.owner_domain.specs.Values.{field_value, names_of};
ghost use Rattle.core_code.specs.declared.code.Op.TheVariants.{Get, Put};
ghost use Rattle.core_code.specs.Program.{core};
ghost use Rattle.access_domain.specs.Operations.{op_effects, popped, top};
ghost use Rattle.access_domain.specs.Reached.{reached_path};
ghost use Rattle.transfer_steps.specs.Contexts.{given, record_reached, under_lock};
ghost use Rattle.transfer_steps.specs.Marks.{IsMarked, marks, returns_of};
ghost use Rattle.transfer_steps.specs.Numbered.{read_found, AreFoundNumbers, IsBelow, IsFlowOf, named_or_unnamed};
ghost use Rattle.owner_domain.specs.Slots.{popped_numbers};
ghost use Rattle.transfer_steps.specs.Noting.{AreNotes, AreNoted, IsDone, IsWalk, IsWalked};
ghost use Rattle.transfer_steps.specs.Walks.{IsFlow, is_call, is_quiet, moved, next_of};

use crate::calls::{Callee, move_call};
use crate::found::Stop;
use crate::notes::{Notes, Walk};
use crate::numbered_found::NumberedFound;
use access_domain::{NumberedAccess, touched_field};
use access_paths::{Path, PathTable, Root};
use call_subst::number_value;
use core_code::{Op, Program};
use owner_domain::{FlowState, NumberedValue, along_path};
use racer_base::{FieldId, Memory, SiteId, Touch};
use std::alloc::Global;
use std::mem;

/// What stays the same while code of a method is gone through.
#[derive(Drop)]
pub struct MethodContext<'a> {
    pub alloc: Global,
    pub program: &'a Program,
    /// Whether the method runs on the main thread.
    pub main: bool,
    /// Whether the code runs under a lock.
    pub locked: bool,
    pub callees: &'a [Callee],
}

impl<'a> MethodContext<'a> {
    /// What it is for code under a lock.
    pub fn under_lock(&self) -> MethodContext<'a>
        ensures { result ≡ under_lock self.now }
    {
        MethodContext {
            alloc: self.alloc,
            program: self.program,
            main: self.main,
            locked: true,
            callees: self.callees,
        }
    }
}

/// Whether an operation finds nothing and goes on.
fn is_quiet(op: Op) -> bool
    ensures { result ≡ is_quiet op }
{
    !matches!(
        op,
        Op::Get(_) | Op::Put(_) | Op::Call(_, _) | Op::Ret | Op::Throw
    )
}

/// Does an operation that finds nothing and goes on.
fn move_on(
    alloc: Global,
    op: Op,
    state: &mut FlowState,
    table: &mut PathTable,
) -> Result<(), Memory>
    requires numbers { AreInRange table.old state.old }
    requires once { IsTable table.old }
    ensures next { OnOk result (read_state table.new state.new ≡ moved op (read_state table.old state.old)) }
    ensures numbers { OnOk result (AreInRange table.new state.new) }
    ensures once { OnOk result (IsTable table.new) }
    ensures table { OnOk result (GoesOn table.old table.new) }
{
    match op {
        Op::Push(variable) => state.push_variable(variable),
        Op::PushClass(class) => {
            let number = table.number_of(Path::alone(alloc, Root::Class(class)))?;
            state.push(NumberedValue::Named(number))
        }
        Op::PushPrim => state.push(NumberedValue::Unnamed),
        Op::PushNull | Op::New(_) => state.push(NumberedValue::Owned),
        Op::Dup => state.push_top(),
        Op::Drop => {
            mem::drop(state.pop());
            Ok(())
        }
        Op::Set(variable) => {
            let value = state.top();
            state.set(variable, value);
            Ok(())
        }
        Op::Prim(count) | Op::Outside(count) | Op::Unread(_, count) => {
            state.replace(count, NumberedValue::Unnamed)
        }
        Op::Get(_) | Op::Put(_) | Op::Call(_, _) | Op::Ret | Op::Throw => Ok(()),
    }
}

/// The number of the path of an access of a field that has this value: none where its object is owned.
fn number_reached(
    context: &MethodContext,
    value: NumberedValue,
    f: FieldId,
    table: &mut PathTable,
) -> Result<Option<u32>, Memory>
    requires value { IsInRange table.old value }
    requires once { IsTable table.old }
    ensures path { IfOk result (λ reached. option_map (path_at table.new) reached ≡
        reached_path (core context.now.program.now) (read_value table.old value) f) }
    ensures number { IfOk result (λ reached. IsBelow (length table.new) reached) }
    ensures once { OnOk result (IsTable table.new) }
    ensures table { OnOk result (GoesOn table.old table.new) }
{
    match value {
        NumberedValue::Owned => Ok(None),
        NumberedValue::Named(number) => Ok(Some(number)),
        NumberedValue::Unnamed => {
            let path = Path::of_some(context.alloc, touched_field(context.program, f).class, f)?;
            Ok(Some(table.number_of(path)?))
        }
    }
}

impl Notes {
    /// Notes the access of a field that has this value.
    fn note_access(
        &mut self,
        context: &MethodContext,
        kind: Touch,
        site: SiteId,
        value: NumberedValue,
        f: FieldId,
    ) -> Result<(), Stop>
        requires value { IsInRange self.old.table value }
        requires ready { AreNotes self.old }
        ensures { AreNoted (marks (record_reached context.now kind context.now.locked site
            (read_value self.old.table value) f) []) self.old self.new result }
    {
        if !touched_field(context.program, f).recorded {
            return Ok(());
        }
        let Ok(reached) = number_reached(context, value, f, &mut self.table) else {
            return Err(Stop::Memory);
        };
        let Some(path) = reached else {
            return Ok(());
        };
        self.found.note_record(NumberedAccess {
            path,
            kind,
            locked: context.locked,
            main: context.main,
            site,
            below: None,
        })
    }
}

/// What a read gives of a field that has this value.
fn value_read(plain: bool, value: NumberedValue) -> NumberedValue
    ensures { result ≡ (if plain then NotNamed else value) }
{
    if plain { NumberedValue::Unnamed } else { value }
}

/// Takes the top, and gives the value of its field.
fn pop_field(
    alloc: Global,
    state: &mut FlowState,
    f: FieldId,
    table: &mut PathTable,
) -> Result<NumberedValue, Memory>
    requires numbers { AreInRange table.old state.old }
    requires once { IsTable table.old }
    ensures value { IfOk result (λ value. read_value table.new value ≡
        field_value (top (read_state table.old state.old)) f) }
    ensures range { IfOk result (λ value. IsInRange table.new value) }
    ensures rest { state.new ≡ popped_numbers state.old 1 }
    ensures once { OnOk result (IsTable table.new) }
    ensures table { OnOk result (GoesOn table.old table.new) }
{
    match state.pop() {
        NumberedValue::Named(number) => field_of(alloc, number, f, table),
        other => Ok(other),
    }
}

/// The value of a field of the value at the path of this number.
fn field_of(
    alloc: Global,
    number: u32,
    f: FieldId,
    table: &mut PathTable,
) -> Result<NumberedValue, Memory>
    requires number { number < length table.old }
    requires once { IsTable table.old }
    ensures value { IfOk result (λ value. read_value table.new value ≡
        field_value (NamedBy (path_at table.old number)) f) }
    ensures range { IfOk result (λ value. IsInRange table.new value) }
    ensures once { OnOk result (IsTable table.new) }
    ensures table { OnOk result (GoesOn table.old table.new) }
{
    let path = table.path_of(number);
    if path.root.is_some() {
        let value = along_path(alloc, path, &[f])?;
        return number_value(table, value);
    }
    let longer = table.lengthened(number, f)?;
    Ok(named_or_unnamed(longer))
}

/// What a path of this number names: nothing where there is none.
fn named_or_unnamed(number: Option<u32>) -> NumberedValue
    ensures { result ≡ named_or_unnamed number }
{
    match number {
        Some(number) => NumberedValue::Named(number),
        None => NumberedValue::Unnamed,
    }
}

impl Notes {
    /// Reads a field of the top.
    fn get(
        &mut self,
        context: &MethodContext,
        site: SiteId,
        f: FieldId,
        state: &mut FlowState,
    ) -> Result<bool, Stop>
        requires numbers { IsFlowOf self.old.table state.old self.old.found }
        ensures { IsDone (op_effects (given context.now) context.now.locked site (Get f)) self.old state.old self.new
            state.new result }
    {
        let Ok(value) = pop_field(context.alloc, state, f, &mut self.table) else {
            return Err(Stop::Memory);
        };
        match self.note_access(context, Touch::Read, site, value, f) {
            Ok(()) => {}
            Err(stop) => return Err(stop),
        }
        let plain = touched_field(context.program, f).plain;
        let Ok(()) = state.push(value_read(plain, value)) else {
            return Err(Stop::Memory);
        };
        Ok(true)
    }

    /// Stores the top in a field of the object below it, and leaves it on the stack.
    fn put(
        &mut self,
        context: &MethodContext,
        site: SiteId,
        f: FieldId,
        state: &mut FlowState,
    ) -> Result<bool, Stop>
        requires numbers { IsFlowOf self.old.table state.old self.old.found }
        ensures { IsDone (op_effects (given context.now) context.now.locked site (Put f)) self.old state.old self.new
            state.new result }
    {
        let value = state.pop();
        let Ok(field) = pop_field(context.alloc, state, f, &mut self.table) else {
            return Err(Stop::Memory);
        };
        match self.note_access(context, Touch::Write, site, field, f) {
            Ok(()) => {}
            Err(stop) => return Err(stop),
        }
        match note_store(field, value, &mut self.found) {
            Ok(()) => {}
            Err(stop) => return Err(stop),
        }
        let Ok(()) = state.push(value) else {
            return Err(Stop::Memory);
        };
        Ok(true)
    }
}

/// Notes the names of a field that a value is stored in, and of the value.
fn note_store(
    field: NumberedValue,
    value: NumberedValue,
    found: &mut NumberedFound,
) -> Result<(), Stop>
    ensures found { (table : List TablePath) → IsTable table → AreFoundNumbers table found.old → IsInRange table
        field →
        IsInRange table value → IsMarked (read_found table found.old)
        (marks [] (names_of (read_value table field) ++ names_of (read_value table value)))
        (read_found table found.new) result }
    ensures numbers { OnOk result ((table : List TablePath) → IsTable table → AreFoundNumbers table found.old →
        IsInRange table field → IsInRange table value → AreFoundNumbers table found.new) }
{
    match found.note_name(field) {
        Ok(()) => {}
        Err(stop) => return Err(stop),
    }
    found.note_name(value)
}

/// Returns the top.
fn give_back(alloc: Global, state: &mut FlowState, found: &mut NumberedFound) -> Result<bool, Stop>
    ensures flow { (table : List TablePath) → IsFlowOf table state.old found.old →
        IsFlow (returns_of (top (read_state table state.old))) (read_state table state.new)
        (read_found table found.old) (read_found table found.new) result }
    ensures numbers { OnOk result ((table : List TablePath) → IsFlowOf table state.old found.old →
        IsFlowOf table state.new found.new) }
{
    let value = state.pop();
    found.note_result(alloc, value)?;
    Ok(false)
}

impl Notes {
    /// Does an operation that finds something, or returns.
    fn find_out(
        &mut self,
        context: &MethodContext,
        site: SiteId,
        op: Op,
        state: &mut FlowState,
    ) -> Result<bool, Stop>
        requires quiet { is_quiet op ≡ false }
        requires call { is_call op ≡ false }
        requires numbers { IsFlowOf self.old.table state.old self.old.found }
        ensures { IsDone (op_effects (given context.now) context.now.locked site op) self.old state.old self.new
            state.new result }
    {
        match op {
            Op::Get(f) => self.get(context, site, f, state),
            Op::Put(f) => self.put(context, site, f, state),
            Op::Ret => give_back(context.alloc, state, &mut self.found),
            Op::Throw => Ok(false),
            _ => unreachable!(),
        }
    }

    /// Does one operation that is no call; whether the code goes on behind it.
    fn step(
        &mut self,
        context: &MethodContext,
        site: SiteId,
        op: Op,
        state: &mut FlowState,
    ) -> Result<bool, Stop>
        requires call { is_call op ≡ false }
        requires numbers { IsFlowOf self.old.table state.old self.old.found }
        ensures { IsDone (op_effects (given context.now) context.now.locked site op) self.old state.old self.new
            state.new result }
    {
        if !is_quiet(op) {
            return self.find_out(context, site, op, state);
        }
        let Ok(()) = move_on(context.alloc, op, state, &mut self.table) else {
            return Err(Stop::Memory);
        };
        Ok(true)
    }
}

impl Walk {
    /// Does one operation; whether the code goes on behind it.
    pub fn operate(
        &mut self,
        context: &MethodContext,
        site: SiteId,
        op: Op,
        state: &mut FlowState,
    ) -> Result<bool, Stop>
        requires ready { IsWalk (given context.now) self.old state.old }
        ensures { IsWalked (given context.now) (op_effects (given context.now) context.now.locked site op) self.old
            state.old self.new state.new result }
    {
        match op {
            Op::Call(method, count) => self.call(context, site, method, count, state),
            _ => self.notes.step(context, site, op, state),
        }
    }
}

/// Does one operation for the state behind it alone; whether the code goes on behind it.
pub fn move_any(
    context: &MethodContext,
    op: Op,
    state: &mut FlowState,
    table: &mut PathTable,
) -> Result<bool, Memory>
    requires numbers { AreInRange table.old state.old }
    requires once { IsTable table.old }
    ensures next { IfOk result (λ goes_on. (locked : Bool) (site : Site) →
        (op_effects (given context.now) locked site op (read_state table.old state.old)).next ≡
        next_of goes_on (read_state table.new state.new)) }
    ensures numbers { OnOk result (AreInRange table.new state.new) }
    ensures once { OnOk result (IsTable table.new) }
    ensures table { OnOk result (GoesOn table.old table.new) }
{
    match op {
        Op::Get(f) => {
            let value = pop_field(context.alloc, state, f, table)?;
            let plain = touched_field(context.program, f).plain;
            state.push(value_read(plain, value))?;
            Ok(true)
        }
        Op::Put(_) => {
            let value = state.pop();
            mem::drop(state.pop());
            state.push(value)?;
            Ok(true)
        }
        Op::Call(method, count) => {
            move_call(context, method, count, state, table)?;
            Ok(true)
        }
        Op::Ret | Op::Throw => Ok(false),
        _ => {
            move_on(context.alloc, op, state, table)?;
            Ok(true)
        }
    }
}
