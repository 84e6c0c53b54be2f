//! The lists that the methods of a program stand in: those that are not analysed again, those that are, and those that
//! are still to be come to, by their levels.
ghost use Rattle.std.specs.Prelude.{◌≡◌, ◌+◌, ◌<◌, IfOk, OnOk, length, max};
ghost use Rattle.row_links.specs.Lists.{node_count};
ghost use Rattle.edit_session.specs.Lists as spec;

use crate::levels::{method_at, raised};
use racer_base::Memory;
use row_links::Rows;
use std::alloc::Global;

/// The list of methods that are not analysed again: not now, or not at all.
pub(crate) const NOT_DUE: u32 = 0;

/// The list of methods that were analysed again.
pub(crate) const FINISHED: u32 = 1;

/// The list of level 0, behind which those of the others stand.
const FIRST_LEVEL: u32 = 2;

/// The list of a level.
pub(crate) fn list_of_level(level: u32) -> Result<u32, Memory>
    ensures { IfOk result (λ list. list ≡ 2 + level) }
{
    match level.checked_add(FIRST_LEVEL) {
        Some(list) => Ok(list),
        None => Err(Memory),
    }
}

/// The higher one of a number and one more than a level; the number where there is none.
fn counted(count: u32, level: Option<u32>) -> Result<u32, Memory>
    ensures { IfOk result (λ counted. counted ≡ max count (spec.behind level)) }
{
    match level {
        Some(level) => raised(count, level),
        None => Ok(count),
    }
}

/// How many levels there are: one more than the highest of these, and none where there is none.
pub(crate) fn level_count(levels: &[Option<u32>]) -> Result<u32, Memory>
    ensures { IfOk result (λ count. count ≡ spec.level_count levels.now) }
{
    let mut count = 0;
    for level in levels {
        let Ok(counted) = counted(count, *level) else {
            return Err(Memory);
        };
        count = counted;
    }
    Ok(count)
}

/// Puts a node last in the list of its level, where it has one.
fn put_by_level(rows: &mut Rows, node: u32, level: Option<u32>) -> Result<(), Memory>
    requires node { node < node_count rows.old }
    requires list { 1 + spec.behind level < length rows.old }
    ensures { OnOk result (rows.new ≡ spec.put_by_level node level rows.old) }
{
    if let Some(level) = level {
        let list = list_of_level(level)?;
        rows.move_to(node, list);
    }
    Ok(())
}

/// The lists at the start: each analysed method stands in that of its level, in source order.
pub(crate) fn lists_by_level(alloc: Global, levels: &[Option<u32>]) -> Result<Rows, Memory>
    ensures { IfOk result (spec.AreByLevel levels.now) }
{
    let lists = list_of_level(level_count(levels)?)?;
    let nodes = method_at(levels.len())?.0;
    let mut rows = Rows::new(alloc, nodes, lists)?;
    for number in 0..nodes {
        let Ok(()) = put_by_level(&mut rows, number, levels[number as usize]) else {
            return Err(Memory);
        };
    }
    Ok(rows)
}
