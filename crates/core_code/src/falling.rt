//! Numbers that fall along calls.
ghost use Rattle.std.specs.Prelude.{◌≡◌, ◌<◌, ℕ, false, IfOk, IfSome, IsTrue, is_none, length};
ghost use Rattle.racer_base.specs.declared.ids.MethodId.{MethodId};
ghost use Rattle.core_code.specs.Chains.{IsOnCycle};
ghost use Rattle.core_code.specs.Falling.{DoFall};
ghost use Rattle.core_code.specs.Walks.{stays_at};

use crate::cycles::has_number;
use crate::walk::components;
use racer_base::{Items, Memory, MethodId};
use std::alloc::Global;

/// Whether a method calls one of its own number.
fn has_cycle(rows: &[Items<MethodId>], numbers: &[usize]) -> bool
    requires { length numbers.now ≡ length rows.now }
    ensures yes { IsTrue result → (k : ℕ) × (k < length rows.now) × IsTrue (stays_at rows.now numbers.now k) }
    ensures no { result ≡ false → (k : ℕ) → k < length rows.now → stays_at rows.now numbers.now k ≡ false }
{
    for place in 0..rows.len() {
        if has_number(numbers, numbers[place], rows[place].as_slice()) {
            return true;
        }
    }
    false
}

/// The same numbers, as ranks.
fn ranks(alloc: Global, numbers: &[usize]) -> Result<Vec<u32>, Memory>
    ensures { IfOk result (λ ranks. ranks.items ≡ numbers.now) }
{
    let mut ranks = Vec::new(alloc);
    for number in numbers {
        let Ok(rank) = u32::try_from(*number) else {
            return Err(Memory);
        };
        ranks.push(rank)?;
    }
    Ok(ranks)
}

/// Numbers that fall along calls: the number of each method is greater than those of the methods that it calls. There
/// are none exactly where a method lies on a cycle of calls.
///
/// A number is at most how many methods there are, so that want of memory is also the answer for 2^32 methods and more.
pub fn falling_numbers(alloc: Global, rows: &[Items<MethodId>]) -> Result<Option<Vec<u32>>, Memory>
    ensures length { IfOk result (λ found. IfSome found (λ numbers. length numbers.items ≡ length rows.now)) }
    ensures fall { IfOk result (λ found. IfSome found (λ numbers. DoFall rows.now numbers.items)) }
    ensures none { IfOk result (λ found. IsTrue (is_none found) → (m : MethodId) × IsOnCycle rows.now m) }
{
    let numbers = components(alloc, rows)?;
    if has_cycle(rows, numbers.as_slice()) {
        return Ok(None);
    }
    let ranks = ranks(alloc, numbers.as_slice())?;
    Ok(Some(ranks))
}
