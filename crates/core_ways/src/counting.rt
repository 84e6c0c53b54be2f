//! The steps of the parts of a way. What is passed of a method is found and counted once, and kept.
ghost use Rattle.std.specs.Prelude.{◌≡◌, IfOk, OnOk};
ghost use Rattle.core_code.specs.Program.{core};
ghost use Rattle.core_ways.specs.Counts.{count_of};
ghost use Rattle.core_ways.specs.Passings.{IsTable};
ghost use Rattle.core_ways.specs.Ways.{parts_of, trip_of, trip_of_part, trip_along};

use crate::count::Count;
use crate::part::WayPart;
use crate::reaching::code_of;
use crate::returning::come_back;
use core_code::Program;
use racer_base::{Memory, MethodId};
use std::alloc::Global;
use std::collections::BTreeMap;

/// What is passed of a method, with its count.
#[derive(Drop)]
pub struct Passing {
    pub parts: Vec<WayPart>,
    pub count: Count,
}

/// By the numbers of methods, what is passed of them, as far as it is found.
pub type Passings = BTreeMap<u32, Passing>;

/// What is passed of a method: nothing where it is not analysed.
pub(crate) fn parts_of(
    alloc: Global,
    program: &Program,
    method: MethodId,
) -> Result<Vec<WayPart>, Memory>
    ensures { IfOk result (λ parts. parts.items ≡ parts_of (core program.now) method) }
{
    let mut parts = Vec::new(alloc);
    if let Some(code) = code_of(program, method) {
        let Ok(()) = come_back(alloc, &mut parts, code) else {
            return Err(Memory);
        };
    }
    Ok(parts)
}

/// Counts the steps of passing a method, unless that is done.
#[cycle(counting)]
fn count_method(
    alloc: Global,
    program: &Program,
    table: &mut Passings,
    method: MethodId,
) -> Result<Count, Memory>
    requires { IsTable (core program.now) table.old }
    ensures table { OnOk result (IsTable (core program.now) table.new) }
    ensures count { IfOk result (λ count. count ≡ count_of (trip_of (core program.now) method)) }
{
    if let Some(passing) = table.get(&method.0) {
        return Ok(passing.count);
    }
    let Ok(parts) = parts_of(alloc, program, method) else {
        return Err(Memory);
    };
    let Ok(count) = count_along(alloc, program, table, parts.as_slice()) else {
        return Err(Memory);
    };
    table.insert(method.0, Passing { parts, count })?;
    Ok(count)
}

/// Counts the steps of one part.
#[cycle(counting)]
fn count_part(
    alloc: Global,
    program: &Program,
    table: &mut Passings,
    part: WayPart,
) -> Result<Count, Memory>
    requires { IsTable (core program.now) table.old }
    ensures table { OnOk result (IsTable (core program.now) table.new) }
    ensures count { IfOk result (λ count.
        count ≡ count_of (trip_of_part (trip_of (core program.now)) part)) }
{
    let one = Count {
        steps: 1,
        unread: None,
    };
    match part {
        WayPart::Step => Ok(one),
        WayPart::Branched(_) => Ok(one),
        WayPart::Passed(method) => Ok(one.and(count_method(alloc, program, table, method)?)),
        WayPart::Unread(place) => Ok(Count {
            steps: 1,
            unread: Some(place),
        }),
    }
}

/// Counts the steps of parts.
#[cycle(counting)]
pub fn count_along(
    alloc: Global,
    program: &Program,
    table: &mut Passings,
    parts: &[WayPart],
) -> Result<Count, Memory>
    requires { IsTable (core program.now) table.old }
    ensures table { OnOk result (IsTable (core program.now) table.new) }
    ensures count { IfOk result (λ count.
        count ≡ count_of (trip_along (trip_of (core program.now)) parts.now)) }
{
    let mut count = Count {
        steps: 0,
        unread: None,
    };
    for part in parts {
        count = count.and(count_part(alloc, program, table, *part)?);
    }
    Ok(count)
}
