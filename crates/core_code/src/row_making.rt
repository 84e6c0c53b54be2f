//! The rows of a program.
ghost use Rattle.std.specs.Prelude.{◌≡◌, ◌+◌, ◌++◌, ◌<◌, IfOk, OnOk, length, map, nat_eq, slice_set};
ghost use Rattle.std.specs.Prelude.{false};
ghost use Rattle.core_code.specs.Falling.{DoFall};
ghost use Rattle.core_code.specs.Gathered.{callee_rows};
ghost use Rattle.core_code.specs.Program.{core};
ghost use Rattle.core_code.specs.CalleeRows as wanted;
ghost use Rattle.core_code.specs.Stamps.{stamp_of, pushed, AreBelow};

use crate::calls::callees;
use crate::{CallRows, MethodCore, Program, falling_numbers};
use racer_base::{Items, Memory, MethodId};
use std::alloc::Global;

/// Puts a method at the end of a row, unless it has the stamp already; it has it now.
fn push_new(
    row: &mut Items<MethodId>,
    stamps: &mut [usize],
    stamp: usize,
    m: MethodId,
) -> Result<(), Memory>
    ensures row { OnOk result (row.new ≡ pushed row.old m (nat_eq (stamp_of stamps.old m.0) stamp)) }
    ensures stamps { OnOk result (stamps.new ≡ slice_set stamps.old m.0 stamp) }
    ensures within { OnOk result (m.0 < length stamps.old) }
{
    let place = m.0 as usize;
    if place >= stamps.len() {
        return Err(Memory);
    }
    let known = stamps[place];
    stamps[place] = stamp;
    if known != stamp {
        row.push(m)?;
    }
    Ok(())
}

/// The first of these methods that are the same, in order. All stamps are smaller than the one that is given now.
fn different(
    alloc: Global,
    callees: &[MethodId],
    stamps: &mut [usize],
    stamp: usize,
) -> Result<Items<MethodId>, Memory>
    requires { AreBelow stamps.old stamp }
    ensures row { IfOk result (λ row. row ≡ wanted.different callees.now) }
    ensures stamps { OnOk result (AreBelow stamps.new (stamp + 1)) }
{
    let mut row = Items::new(alloc);
    for callee in callees {
        push_new(&mut row, stamps, stamp, *callee)?;
    }
    Ok(row)
}

/// Puts behind rows, for each of these methods, the different analysed methods that it calls.
fn push_rows(
    alloc: Global,
    methods: &[MethodCore],
    rows: &mut Vec<Items<MethodId>>,
) -> Result<(), Memory>
    ensures { OnOk result (rows.new.items ≡
        rows.old.items ++ map wanted.different (callee_rows methods.now)) }
{
    let mut stamps = vec![in alloc; 0; methods.len()]?;
    for number in 0..methods.len() {
        let callees = callees(alloc, &methods[number].code, false)?;
        let row = different(alloc, callees.as_slice(), stamps.as_mut_slice(), number + 1)?;
        rows.push(row)?;
    }
    Ok(())
}

/// Ranks of the methods of a program, which has these rows. The type of a program keeps that there are some.
fn ranks_of(alloc: Global, program: &Program, rows: &[Items<MethodId>]) -> Result<Vec<u32>, Memory>
    requires { rows.now ≡ wanted.rows_of (core program.now) }
    ensures length { IfOk result (λ ranks. length ranks.items ≡ length rows.now) }
    ensures fall { IfOk result (λ ranks. DoFall rows.now ranks.items) }
{
    let Some(ranks) = falling_numbers(alloc, rows)? else {
        unreachable!();
    };
    Ok(ranks)
}

/// For each method the different analysed methods that it calls, and its rank.
pub fn call_rows(alloc: Global, program: &Program) -> Result<CallRows, Memory>
    ensures { IfOk result (λ made. wanted.AreRowsOf (core program.now) made) }
{
    let mut rows = Vec::new(alloc);
    push_rows(alloc, program.methods(), &mut rows)?;
    let ranks = ranks_of(alloc, program, rows.as_slice())?;
    Ok(CallRows {
        rows: Items::from(rows),
        ranks: Items::from(ranks),
    })
}
