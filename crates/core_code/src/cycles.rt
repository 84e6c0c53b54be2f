//! Which methods lie on a cycle of calls.
ghost use Rattle.std.specs.Prelude.{◌≡◌, IfOk, length, nat_eq};
ghost use Rattle.std.specs.List.{list_any};
ghost use Rattle.core_code.specs.Chains.{TellCycles};
ghost use Rattle.core_code.specs.Falling.{number_of};
ghost use Rattle.core_code.specs.Walks.{AreStays};

use crate::lookups::entry;
use crate::walk::components;
use racer_base::{Items, Memory, MethodId};
use std::alloc::Global;

/// Whether one of these methods has a number.
pub(crate) fn has_number(numbers: &[usize], own: usize, callees: &[MethodId]) -> bool
    ensures { result ≡ list_any (λ n. nat_eq (number_of numbers.now n) own) callees.now }
{
    for callee in callees {
        if entry(numbers, *callee) == own {
            return true;
        }
    }
    false
}

/// Which methods call one of their own number.
fn stays(alloc: Global, rows: &[Items<MethodId>], numbers: &[usize]) -> Result<Vec<bool>, Memory>
    requires { length numbers.now ≡ length rows.now }
    ensures flags { IfOk result (λ flags. AreStays rows.now numbers.now (length rows.now) flags.items) }
    ensures length { IfOk result (λ flags. length flags.items ≡ length rows.now) }
{
    let mut flags = Vec::new(alloc);
    for place in 0..rows.len() {
        flags.push(has_number(numbers, numbers[place], rows[place].as_slice()))?;
    }
    Ok(flags)
}

/// Which methods lie on a cycle: true for each from which a chain of one or more calls leads back to itself.
///
/// A method does where it calls one of its own component. Want of memory is also the answer for more than 2^32 methods,
/// which no numbers of methods are enough for.
pub fn on_cycles(alloc: Global, rows: &[Items<MethodId>]) -> Result<Vec<bool>, Memory>
    ensures length { IfOk result (λ flags. length flags.items ≡ length rows.now) }
    ensures exact { IfOk result (λ flags. TellCycles rows.now flags.items) }
{
    let numbers = components(alloc, rows)?;
    stays(alloc, rows, numbers.as_slice())
}
