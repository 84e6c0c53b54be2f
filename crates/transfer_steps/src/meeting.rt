//! States that meet: at the ends of two ways, and where a loop is come to again.
ghost use Rattle.std.specs.Prelude.{◌≡◌, ◌<◌, List, replicate, length, option_map, slice_index_or, IfOk, OnOk, []};
ghost use Rattle.std.specs.Prelude.{None, false};
ghost use Rattle.access_paths.specs.declared.path.Path.{Path as TablePath};
ghost use Rattle.access_paths.specs.Table.{IsTable};
ghost use Rattle.owner_domain.specs.Values.{joined_state, lost_state};
ghost use Rattle.owner_domain.specs.Numbered.{read_state, AreInRange};
ghost use Rattle.access_domain.specs.Flow.{joined_next, lost_next};
ghost use Rattle.transfer_loops.specs.Resuming.{entered};
ghost use Rattle.transfer_steps.specs.Marks.{IsMarked, marks};
ghost use Rattle.transfer_steps.specs.Numbered.{read_found, read_heads, IsHeadInRange, AreHeadsInRange, IsFlowOf};
ghost use Rattle.transfer_steps.specs.Walks.{next_of};

use crate::found::Stop;
use crate::numbered_found::NumberedFound;
use owner_domain::FlowState;
use racer_base::Memory;
use std::alloc::Global;

/// So many loops that were not come to yet.
pub fn no_heads(alloc: Global, count: u32) -> Result<Vec<Option<FlowState>>, Memory>
    ensures { IfOk result (λ heads. heads.items ≡ replicate count None) }
{
    let mut heads = Vec::new(alloc);
    for loops in 0..count {
        heads.push(None)?;
    }
    Ok(heads)
}

/// Joins the state in which the loop of this number was left, if it was, with the values here.
pub fn enter(
    alloc: Global,
    heads: &[Option<FlowState>],
    number: u32,
    state: &mut FlowState,
) -> Result<(), Memory>
    requires { number < length heads.now }
    ensures next { OnOk result ((table : List TablePath) → IsTable table → AreInRange table state.old →
        AreHeadsInRange table heads.now → read_state table state.new ≡
        entered (slice_index_or (read_heads table heads.now) number None) (read_state table state.old)) }
    ensures numbers { OnOk result ((table : List TablePath) → IsTable table → AreInRange table state.old →
        AreHeadsInRange table heads.now → AreInRange table state.new) }
{
    go_on(alloc, &heads[number as usize], state)
}

/// The state where two ways meet that each go on or not; whether there is one.
pub fn meet_ends(
    left_goes_on: bool,
    right_goes_on: bool,
    state: &mut FlowState,
    other: FlowState,
) -> bool
    ensures next { (table : List TablePath) → IsTable table → AreInRange table state.old → AreInRange table other →
        next_of result (read_state table state.new) ≡
        joined_next (next_of left_goes_on (read_state table state.old)) (next_of right_goes_on (read_state table
        other)) }
    ensures numbers { (table : List TablePath) → IsTable table → AreInRange table state.old → AreInRange table other →
        AreInRange table state.new }
{
    if !right_goes_on {
        return left_goes_on;
    }
    if left_goes_on {
        state.meet(other);
    } else {
        *state = other;
    }
    true
}

/// Joins the state in which a loop was left, if it was, with the values here.
fn go_on(alloc: Global, left: &Option<FlowState>, state: &mut FlowState) -> Result<(), Memory>
    ensures next { OnOk result ((table : List TablePath) → IsTable table → AreInRange table state.old → IsHeadInRange
        table left.now →
        read_state table state.new ≡
        entered (option_map (read_state table) left.now) (read_state table state.old)) }
    ensures numbers { OnOk result ((table : List TablePath) → IsTable table → AreInRange table state.old →
        IsHeadInRange table left.now → AreInRange table state.new) }
{
    if let Some(left) = left {
        state.meet(left.copied(alloc)?);
    }
    Ok(())
}

/// Goes on from the ends of two ways, those that have one; whether there is one.
pub fn join_ends(
    alloc: Global,
    left_goes_on: bool,
    right_goes_on: bool,
    state: &mut FlowState,
    other: FlowState,
    found: &mut NumberedFound,
) -> Result<bool, Stop>
    ensures state { IfOk result (λ goes_on. (table : List TablePath) → IsFlowOf table state.old found.old → AreInRange
        table other →
        next_of goes_on (read_state table state.new) ≡ joined_next (next_of left_goes_on (read_state table state.old))
        (next_of right_goes_on (read_state table other))) }
    ensures found { (table : List TablePath) → IsFlowOf table state.old found.old → AreInRange table other →
        IsMarked (read_found table found.old) (marks [] (lost_next (next_of left_goes_on (read_state table state.old))
        (next_of right_goes_on (read_state table other))))
        (read_found table found.new) result }
    ensures numbers { OnOk result ((table : List TablePath) → IsFlowOf table state.old found.old → AreInRange table
        other →
        IsFlowOf table state.new found.new) }
{
    if !right_goes_on {
        return Ok(left_goes_on);
    }
    if !left_goes_on {
        *state = other;
        return Ok(true);
    }
    match meet(alloc, state, other, found) {
        Ok(_) => Ok(true),
        Err(stop) => Err(stop),
    }
}

/// Joins the values here with others, and notes the paths that are lost; whether that changed the values.
pub fn meet(
    alloc: Global,
    state: &mut FlowState,
    other: FlowState,
    found: &mut NumberedFound,
) -> Result<bool, Stop>
    ensures state { OnOk result ((table : List TablePath) → IsFlowOf table state.old found.old → AreInRange table
        other →
        read_state table state.new ≡ joined_state (read_state table state.old) (read_state table other)) }
    ensures unchanged { IfOk result (λ changed. changed ≡ false → state.new ≡ state.old) }
    ensures found { (table : List TablePath) → IsFlowOf table state.old found.old → AreInRange table other →
        IsMarked (read_found table found.old)
        (marks [] (lost_state (read_state table state.old) (read_state table other)))
        (read_found table found.new) result }
    ensures numbers { OnOk result ((table : List TablePath) → IsFlowOf table state.old found.old → AreInRange table
        other →
        IsFlowOf table state.new found.new) }
{
    let Ok((changed, lost)) = state.meet_losing(alloc, other) else {
        return Err(Stop::Memory);
    };
    match found.note_numbers(lost.as_slice()) {
        Ok(()) => Ok(changed),
        Err(stop) => Err(stop),
    }
}
