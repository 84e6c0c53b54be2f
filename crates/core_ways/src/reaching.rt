//! The parts of the way to a record, through one method after another.
ghost use Rattle.std.specs.Prelude.{◌≡◌, ◌++◌, IfOk, OnOk, option_map};
ghost use Rattle.std.specs.Option.{option_copied};
ghost use Rattle.core_code.specs.Tree.{tree_of};
ghost use Rattle.core_code.specs.Program.{core};
ghost use Rattle.access_domain.specs.Outcomes.{AreOutcomes};
ghost use Rattle.core_ways.specs.Going.{IsEntered, GoesOn};
ghost use Rattle.core_ways.specs.Paths.{op_there, reached_where};
ghost use Rattle.core_ways.specs.Ways.{code_at, way_parts};

use crate::finding::find;
use crate::part::WayPart;
use crate::passing::{PathEnd, follow};
use access_domain::{Outcomes, record_of};
use core_code::{Code, Op, Program};
use racer_base::{Memory, MethodId, SiteId};
use std::alloc::Global;

/// The code of a method, where it is analysed.
pub fn code_of(program: &Program, method: MethodId) -> Option<&Code>
    ensures { option_map tree_of (option_copied result) ≡ code_at (core program.now) method }
{
    let method = program.methods().get(method.0 as usize)?;
    if method.status.is_some() {
        return None;
    }
    Some(&method.code)
}

/// Enters what an operation calls towards the callee's record of this index.
fn enter(
    parts: &mut Vec<WayPart>,
    op: Op,
    below: Option<u32>,
) -> Result<Option<(MethodId, u32)>, Memory>
    ensures { IfOk result (λ next. IsEntered op below parts.old.items parts.new.items next) }
{
    match op {
        Op::Call(callee, _) => match below {
            Some(index) => {
                parts.push(WayPart::Step)?;
                Ok(Some((callee, index)))
            }
            None => Ok(None),
        },
        _ => Ok(None),
    }
}

/// Goes through code to a site, where the code has it; the operation there.
fn follow_to(
    alloc: Global,
    parts: &mut Vec<WayPart>,
    site: SiteId,
    code: &Code,
) -> Result<Option<Op>, Memory>
    ensures there { IfOk result (λ op. op ≡ op_there (tree_of code.now) site) }
    ensures parts { OnOk result (parts.new.items ≡ parts.old.items ++ reached_where site (tree_of code.now)) }
{
    let mut path = Vec::new(alloc);
    let Some(op) = find(&mut path, site, code)? else {
        return Ok(None);
    };
    follow(parts, 0, PathEnd::Before, path.as_slice(), code)?;
    Ok(Some(op))
}

/// Goes through a method towards a record, and enters the callee that the record is of; the callee and the index there.
fn reach(
    alloc: Global,
    program: &Program,
    outcomes: &Outcomes,
    parts: &mut Vec<WayPart>,
    method: MethodId,
    access: u32,
) -> Result<Option<(MethodId, u32)>, Memory>
    requires { AreOutcomes (core program.now) outcomes.now.items }
    ensures { IfOk result (λ next. GoesOn (core program.now) method access parts.old.items parts.new.items next) }
{
    let Some(code) = code_of(program, method) else {
        return Ok(None);
    };
    let Some(record) = record_of(outcomes, method, access) else {
        return Ok(None);
    };
    let Some(op) = follow_to(alloc, parts, record.site, code)? else {
        return Ok(None);
    };
    enter(parts, op, record.below)
}

/// The parts of the way to a record of a method.
pub fn parts_to(
    alloc: Global,
    program: &Program,
    outcomes: &Outcomes,
    method: MethodId,
    access: u32,
) -> Result<Vec<WayPart>, Memory>
    requires { AreOutcomes (core program.now) outcomes.now.items }
    ensures { IfOk result (λ parts. parts.items ≡ way_parts (core program.now) method access) }
{
    let mut parts = Vec::new(alloc);
    let mut method = method;
    let mut access = access;
    while let Some((callee, below)) = reach(alloc, program, outcomes, &mut parts, method, access)? {
        method = callee;
        access = below;
    }
    Ok(parts)
}
