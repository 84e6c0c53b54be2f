//! The list of warnings of a program.
ghost use Rattle.std.specs.Prelude.{◌≡◌, ◌++◌, ◌^◌, ◌≤◌, IfOk, OnOk, MatchResult};
ghost use Rattle.core_code.specs.Core.{method_of};
ghost use Rattle.core_code.specs.Program.{core};
ghost use Rattle.access_domain.specs.Outcomes.{AreOutcomes};
ghost use Rattle.race_pairs.specs.Warnings.{numbered_records, is_entry_of, records_in};
ghost use Rattle.race_pairs.specs.Warnings.{warnings_among, warnings};
ghost use Rattle.race_pairs.specs.MethodRecords.{record_of, all_records};
ghost use Rattle.race_pairs.specs.Firsts.{FindsPartners};

use crate::Warning;
use crate::method_access::MethodAccess;
use crate::partners::{Firsts, firsts_of, partner_of};
use access_domain::{Access, Outcomes, records_of};
use core_code::{MethodCore, Program};
use racer_base::{ClassId, Memory, MethodId};
use std::alloc::Global;

/// Puts the warning of each of these records behind those that there are; the groups are made of the same records.
fn push_partners(
    alloc: Global,
    found: &mut Vec<Warning>,
    class: ClassId,
    records: &[MethodAccess],
    firsts: &Firsts,
) -> Result<(), Memory>
    requires { FindsPartners firsts.now (all_records records.now) }
    ensures { OnOk result (found.new.items ≡ found.old.items ++ warnings_among class (all_records records.now)) }
{
    for first in records {
        let partner = partner_of(alloc, first.access, firsts)?;
        if let Some(partner) = partner {
            found.push(Warning {
                class,
                entry: first.method,
                access: first.index,
                partner: partner.method,
                partner_access: partner.index,
            })?;
        }
    }
    Ok(())
}

/// The same number, where it is one that warnings can hold.
fn in_32_bits(n: usize) -> Result<u32, Memory>
    ensures { MatchResult result (λ number. number ≡ n) (λ _. 2 ^ 32 ≤ n) }
{
    match u32::try_from(n) {
        Ok(number) => Ok(number),
        Err(_) => Err(Memory),
    }
}

/// Whether the method is an entry of this class.
fn is_entry_of(class: ClassId, method: &MethodCore) -> bool
    ensures { result ≡ is_entry_of class (method_of method.now) }
{
    method.entry && method.class == class
}

/// Puts the records of a method behind those that there are.
fn push_records<'a>(
    records: &mut Vec<MethodAccess<'a>>,
    method: MethodId,
    accesses: &'a [Access],
) -> Result<(), Memory>
    ensures { OnOk result (
        all_records records.new.items ≡ all_records records.old.items ++ numbered_records method accesses.now) }
{
    for (index, access) in accesses.iter().enumerate() {
        let index = in_32_bits(index)?;
        records.push(MethodAccess {
            method,
            index,
            access,
        })?;
    }
    Ok(())
}

/// The records of the entries of a class, in order of entries and records.
fn records_in<'a>(
    alloc: Global,
    program: &Program,
    outcomes: &'a Outcomes,
    class: ClassId,
) -> Result<Vec<MethodAccess<'a>>, Memory>
    requires { AreOutcomes (core program.now) outcomes.now.items }
    ensures { IfOk result (λ records. all_records records.items ≡ records_in (core program.now) class) }
{
    let mut records = Vec::new(alloc);
    for (number, method) in program.methods().iter().enumerate() {
        if is_entry_of(class, method) {
            let number = in_32_bits(number)?;
            let accesses = records_of(outcomes, MethodId(number));
            push_records(&mut records, MethodId(number), accesses)?;
        }
    }
    Ok(records)
}

/// Puts the warnings of a class behind those that there are.
fn push_warnings(
    alloc: Global,
    program: &Program,
    outcomes: &Outcomes,
    found: &mut Vec<Warning>,
    class: ClassId,
) -> Result<(), Memory>
    requires { AreOutcomes (core program.now) outcomes.now.items }
    ensures { OnOk result (
        found.new.items ≡ found.old.items ++ warnings_among class (records_in (core program.now) class)) }
{
    let records = records_in(alloc, program, outcomes, class)?;
    let firsts = firsts_of(alloc, records.as_slice())?;
    push_partners(alloc, found, class, records.as_slice(), &firsts)
}

/// The warnings of a program whose methods have these outcomes: one for each record of an entry of a checked
/// class that conflicts with such a record of its class, in order.
pub fn warnings(
    alloc: Global,
    program: &Program,
    outcomes: &Outcomes,
) -> Result<Vec<Warning>, Memory>
    requires { AreOutcomes (core program.now) outcomes.now.items }
    ensures { IfOk result (λ found. found.items ≡ warnings (core program.now)) }
{
    let mut found = Vec::new(alloc);
    for (number, class) in program.classes().iter().enumerate() {
        if class.checked {
            let number = in_32_bits(number)?;
            push_warnings(alloc, program, outcomes, &mut found, ClassId(number))?;
        }
    }
    Ok(found)
}
