//! The value behind the lock at the start.
ghost use Rattle.std.specs.Prelude.{◌≡◌, ℕ, ◌+◌, ◌^◌, ◌<◌, ◌≤◌, List, [], ◌∷◌, ◌++◌, length, replicate, None, IfSome};
ghost use Rattle.std.specs.Prelude.{IfOk, All};
ghost use Rattle.std.specs.Arc.{arc_value};
ghost use Rattle.std.specs.Prelude.{slice_index_or};
ghost use Rattle.core_code.specs.Counting.{weigh, flags_of, analysed_methods};
ghost use Rattle.core_code.specs.Chains.{row_of};
ghost use Rattle.core_code.specs.Program.{core};
ghost use Rattle.core_code.specs.CalleeRows.{rows_in, AreRowsOf};
ghost use Rattle.summary_store.specs.Kept.{pieces_of};
ghost use Rattle.summary_store.specs.Laws.{edges};
ghost use Rattle.summary_store.specs.Lists.{AreFirst};
ghost use Rattle.summary_store.specs.Setups.{setup_of};

use crate::moves::{HELD, NOT_ANALYSED};
use core_code::{CallRows, Program};
use racer_base::{Memory, MethodId};
use row_links::Rows;
use std::alloc::Global;
use std::sync::Arc;

/// How many methods there are.
pub(crate) fn count(program: &Program) -> usize
    ensures { result ≡ length (flags_of (core program.now)) }
{
    program.methods().len()
}

/// Whether the method at a place is analysed.
fn is_analysed(program: &Program, place: usize) -> bool
    requires { place < length (flags_of (core program.now)) }
    ensures { result ≡ slice_index_or (flags_of (core program.now)) place result }
{
    program.methods()[place].status.is_none()
}

/// The method of a number.
fn numbered(number: usize) -> Result<MethodId, Memory>
    ensures { IfOk result (λ m. m.0 ≡ number) }
{
    let Ok(number) = u32::try_from(number) else {
        return Err(Memory);
    };
    Ok(MethodId(number))
}

/// The analysed methods in order.
pub(crate) fn idle_methods(alloc: Global, program: &Program) -> Result<Vec<MethodId>, Memory>
    ensures { IfOk result (λ v. v.items ≡ analysed_methods (core program.now)) }
{
    let mut methods = Vec::with_capacity(alloc, count(program))?;
    for place in 0..count(program) {
        let m = numbered(place)?;
        if is_analysed(program, place) {
            methods.push_reserved(m);
        }
    }
    Ok(methods)
}

/// One more than the analysed methods and call edges together.
pub fn takes_bound(alloc: Global, program: &Program, rows: &CallRows) -> Result<usize, Memory>
    requires { AreRowsOf (core program.now) rows.now }
    ensures { IfOk result (λ n. (workers : ℕ) →
        n ≡ length (setup_of (core program.now) workers).methods + edges (setup_of (core program.now) workers) + 1) }
{
    let methods = idle_methods(alloc, program)?;
    let Some(edges) = edge_count(rows, methods.as_slice()) else {
        return Err(Memory);
    };
    let Some(both) = methods.len().checked_add(edges) else {
        return Err(Memory);
    };
    let Some(most) = both.checked_add(1) else {
        return Err(Memory);
    };
    Ok(most)
}

/// The number of call edges, if it fits.
pub(crate) fn edge_count(rows: &CallRows, methods: &[MethodId]) -> Option<usize>
    requires { All (λ m. m.0 < length (rows_in rows.now)) methods.now }
    ensures { IfSome result (λ n. n ≡ weigh (λ m. length (row_of (rows_in rows.now) m)) methods.now) }
{
    let mut count = 0usize;
    for i in 0..methods.len() {
        count = count.checked_add(rows.row(methods[i]).len())?;
    }
    Some(count)
}

/// All methods in lists: those that are analysed are idle, in order.
pub(crate) fn first_lists(alloc: Global, program: &Program, workers: u32) -> Result<Rows, Memory>
    ensures { IfOk result (λ lists. AreFirst (flags_of (core program.now)) workers lists) }
{
    let Some((methods, lists)) = sizes(count(program), workers) else {
        return Err(Memory);
    };
    let mut lists = Rows::new(alloc, methods, lists)?;
    for m in 0..methods {
        if !is_analysed(program, m as usize) {
            lists.move_to(m, NOT_ANALYSED);
        }
    }
    Ok(lists)
}

/// How many methods and lists there are, if that fits.
fn sizes(methods: usize, workers: u32) -> Option<(u32, u32)>
    ensures { IfSome result (λ s. (s.0 ≡ methods) × (s.1 ≡ 4 + workers + methods) × (s.1 < 2 ^ 32)) }
{
    let Ok(methods) = u32::try_from(methods) else {
        return None;
    };
    let lists = HELD.checked_add(workers)?.checked_add(methods)?;
    Some((methods, lists))
}

/// A table without pieces.
pub(crate) fn no_pieces<P: Drop>(
    alloc: Global,
    places: usize,
) -> Result<Vec<Option<Arc<P>>>, Memory>
    ensures { IfOk result (λ v. pieces_of arc_value v.items ≡ replicate places None) }
{
    let mut table = Vec::with_capacity(alloc, places)?;
    for _i in 0..places {
        table.push_reserved(None);
    }
    Ok(table)
}
