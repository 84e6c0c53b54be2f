//! How many different calls there are.
ghost use Rattle.std.specs.Prelude.{◌≡◌, ◌+◌, ◌<◌, IfOk, IsTrue, OnOk, length, nat_eq, not, slice_set};
ghost use Rattle.core_code.specs.CalleeRows.{different};
ghost use Rattle.core_code.specs.Stamps.{stamp_of, AreBelow};
ghost use Rattle.core_lowering.specs.Calls as wanted;

use racer_base::{Items, Memory, MethodId};
use std::alloc::Global;

/// Stamps a method, and tells whether it has not had the stamp.
fn stamp_new(stamps: &mut [u32], stamp: u32, m: MethodId) -> bool
    requires { m.0 < length stamps.old }
    ensures new { result ≡ not (nat_eq (stamp_of stamps.old m.0) stamp) }
    ensures stamps { stamps.new ≡ slice_set stamps.old m.0 stamp }
{
    let place = m.0 as usize;
    let known = stamps[place];
    stamps[place] = stamp;
    known != stamp
}

/// One more, where it is so.
fn counted(count: u32, is_one: bool) -> Result<u32, Memory>
    ensures { IfOk result (λ n. n ≡ wanted.counted count is_one) }
{
    if !is_one {
        return Ok(count);
    }
    count.checked_add(1).ok_or(Memory)
}

/// How many different methods these are. All stamps are smaller than the one that is given now.
fn count_different(callees: &[MethodId], stamps: &mut [u32], stamp: u32) -> Result<u32, Memory>
    requires stamps { AreBelow stamps.old stamp }
    requires callees { IsTrue (wanted.are_low (length stamps.old) callees.now) }
    ensures count { IfOk result (λ count. count ≡ length (different callees.now)) }
    ensures stamps { OnOk result (AreBelow stamps.new (stamp + 1)) }
{
    let mut count = 0;
    for callee in callees {
        let is_new = stamp_new(stamps, stamp, *callee);
        count = counted(count, is_new)?;
    }
    Ok(count)
}

/// How many different pairs of a row and a method in it there are.
pub(crate) fn count_edges(alloc: Global, rows: &[Items<MethodId>]) -> Result<u32, Memory>
    requires { IsTrue (wanted.are_rows_low rows.now) }
    ensures { IfOk result (λ count. count ≡ wanted.edges rows.now) }
{
    let mut stamps = vec![in alloc; 0; rows.len()]?;
    let mut count: u32 = 0;
    let mut stamp: u32 = 0;
    for row in rows {
        stamp = stamp.checked_add(1).ok_or(Memory)?;
        let more = count_different(row.as_slice(), stamps.as_mut_slice(), stamp)?;
        count = count.checked_add(more).ok_or(Memory)?;
    }
    Ok(count)
}
