//! The levels of the methods of a program.
ghost use Rattle.std.specs.Prelude.{◌≡◌, ◌<◌, suc, max, IfOk, IsTrue, OnOk, length, slice_set, Some};
ghost use Rattle.core_code.specs.Calls.{is_analysed};
ghost use Rattle.core_code.specs.CalleeRows.{AreRowsOf};
ghost use Rattle.core_code.specs.Program.{core, methods};
ghost use Rattle.transfer_ties.specs.Again.{level_of};
ghost use Rattle.edit_session.specs.Levels as spec;

use core_code::{CallRows, Program};
use racer_base::{Memory, MethodId};
use std::alloc::Global;

/// The level that is known of a method.
fn known(levels: &[Option<u32>], method: MethodId) -> Option<u32>
    ensures { result ≡ spec.known_at levels.now method }
{
    *levels.get(method.0 as usize)?
}

/// Keeps the level of a method, where there is a place for it.
fn keep(levels: &mut Vec<Option<u32>>, method: MethodId, level: u32)
    ensures { levels.new.items ≡ slice_set levels.old.items method.0 (Some level) }
{
    let method = method.0 as usize;
    if method < levels.len() {
        levels[method] = Some(level);
    }
}

/// One more than a level.
fn above(level: u32) -> Result<u32, Memory>
    ensures { IfOk result (λ above. above ≡ suc level) }
{
    match level.checked_add(1) {
        Some(above) => Ok(above),
        None => Err(Memory),
    }
}

/// The higher one of a number and one more than a level.
pub(crate) fn raised(highest: u32, level: u32) -> Result<u32, Memory>
    ensures { IfOk result (λ raised. raised ≡ max highest (suc level)) }
{
    let above = above(level)?;
    Ok(highest.max(above))
}

/// The level of an analysed method: first those of the methods that it calls. What is known already is not found again.
fn level(
    program: &Program,
    rows: &CallRows,
    method: MethodId,
    levels: &mut Vec<Option<u32>>,
) -> Result<u32, Memory>
    requires rows { AreRowsOf (core program.now) rows.now }
    requires analysed { IsTrue (is_analysed (core program.now) method) }
    requires table { spec.AreLevels (core program.now) levels.old.items }
    ensures level { IfOk result (λ level. level ≡ level_of (core program.now) method) }
    ensures table { OnOk result (spec.AreLevels (core program.now) levels.new.items) }
{
    if let Some(level) = known(levels.as_slice(), method) {
        return Ok(level);
    }
    let mut highest = 0;
    for callee in rows.row(method) {
        let Ok(level) = level(program, rows, *callee, levels) else {
            return Err(Memory);
        };
        let Ok(raised) = raised(highest, level) else {
            return Err(Memory);
        };
        highest = raised;
    }
    keep(levels, method, highest);
    Ok(highest)
}

/// The level of a method, none where it is not analysed.
fn level_at(
    program: &Program,
    rows: &CallRows,
    method: MethodId,
    levels: &mut Vec<Option<u32>>,
) -> Result<Option<u32>, Memory>
    requires rows { AreRowsOf (core program.now) rows.now }
    requires there { method.0 < length (methods program.now) }
    requires table { spec.AreLevels (core program.now) levels.old.items }
    ensures level { IfOk result (λ level. level ≡ spec.level_in (core program.now) method) }
    ensures table { OnOk result (spec.AreLevels (core program.now) levels.new.items) }
{
    if program.methods()[method.0 as usize].status.is_some() {
        return Ok(None);
    }
    let level = level(program, rows, method, levels)?;
    Ok(Some(level))
}

/// The level of each method, none for those that are not analysed.
pub(crate) fn levels(
    alloc: Global,
    program: &Program,
    rows: &CallRows,
) -> Result<Vec<Option<u32>>, Memory>
    requires { AreRowsOf (core program.now) rows.now }
    ensures { IfOk result (λ made. made.items ≡ spec.levels_of (core program.now)) }
{
    let count = program.methods().len();
    let mut known = vec![in alloc; None; count]?;
    let mut levels = Vec::new(alloc);
    for number in 0..count {
        let Ok(method) = method_at(number) else {
            return Err(Memory);
        };
        let Ok(level) = level_at(program, rows, method, &mut known) else {
            return Err(Memory);
        };
        let Ok(()) = levels.push(level) else {
            return Err(Memory);
        };
    }
    Ok(levels)
}

/// The method of a number.
pub(crate) fn method_at(number: usize) -> Result<MethodId, Memory>
    ensures { IfOk result (λ method. method.0 ≡ number) }
{
    match u32::try_from(number) {
        Ok(number) => Ok(MethodId(number)),
        Err(_) => Err(Memory),
    }
}
