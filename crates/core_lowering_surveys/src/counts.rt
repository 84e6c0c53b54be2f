//! Overloads: methods of one class with one name and one number of parameters.
ghost use Rattle.std.specs.Prelude.{◌≡◌, ℕ, ◌+◌, ◌<◌, IfOk, OnOk, Some, length, slice_get, slice_index_or, slice_set};
ghost use Rattle.java_resolver.specs.Table.{methods};
ghost use Rattle.core_lowering_rules.specs.Programs as wanted;
ghost use Rattle.core_lowering_surveys.specs.Counts.{first_of, one_at, AreCounts};
ghost use Rattle.racer_base.specs.declared.ids.MethodId.{MethodId};

use java_resolver::{MethodInfo, Table};
use racer_base::{Memory, MethodId};
use std::alloc::Global;

/// The first method that is called as this one.
fn first_of(table: &Table, info: &MethodInfo) -> Result<Option<MethodId>, Memory>
    ensures { IfOk result (λ first. first ≡ first_of (methods table.now) info.now) }
{
    let Ok(count) = u32::try_from(info.parameters.len()) else {
        return Err(Memory);
    };
    Ok(table.find_exactly(info.class, info.name.as_str(), count))
}

/// Counts one more at a method.
fn count_one(counts: &mut [u32], m: MethodId) -> Result<(), Memory>
    requires { m.0 < length counts.old }
    ensures counts { OnOk result (counts.new ≡ slice_set counts.old m.0 (slice_index_or counts.old m.0 0 + 1)) }
{
    let place = m.0 as usize;
    counts[place] = counts[place].checked_add(1).ok_or(Memory)?;
    Ok(())
}

/// Counts one more at a method, if there is one.
fn count_first(counts: &mut [u32], first: Option<MethodId>) -> Result<(), Memory>
    requires { (m : MethodId) → first ≡ Some m → m.0 < length counts.old }
    ensures { OnOk result ((n : ℕ) →
        slice_index_or counts.new n 0 ≡ one_at first n + slice_index_or counts.old n 0) }
{
    match first {
        Some(m) => count_one(counts, m),
        None => Ok(()),
    }
}

/// At the first of the methods that are called as one, how many they are.
pub fn count_methods(alloc: Global, table: &Table, infos: &[MethodInfo]) -> Result<Vec<u32>, Memory>
    requires { infos.now ≡ methods table.now }
    ensures { IfOk result (λ counts. AreCounts infos.now counts.items) }
{
    let mut counts = vec![in alloc; 0; infos.len()]?;
    for info in infos {
        let first = first_of(table, info)?;
        count_first(counts.as_mut_slice(), first)?;
    }
    Ok(counts)
}

/// Whether another method of its class has the name of a method and its number of parameters.
pub fn is_overloaded(table: &Table, counts: &[u32], info: &MethodInfo) -> Result<bool, Memory>
    requires { AreCounts (methods table.now) counts.now }
    ensures { IfOk result (λ b. b ≡ wanted.is_overloaded (methods table.now) info.now) }
{
    match first_of(table, info)? {
        Some(first) => Ok(count_at(counts, first) > 1),
        None => Ok(false),
    }
}

/// How many methods are called as this first one.
fn count_at(counts: &[u32], m: MethodId) -> u32
    ensures { result ≡ slice_index_or counts.now m.0 0 }
{
    match counts.get(m.0 as usize) {
        Some(count) => *count,
        None => 0,
    }
}
