//! The sites of a method that its records name.
ghost use Rattle.std.specs.Prelude.{◌≡◌, IfOk, OnOk};
ghost use Rattle.core_code.specs.Program.{core};
ghost use Rattle.core_ways.specs.Passings.{IsTable};
ghost use Rattle.core_ways_sites.specs.Sites.{IsFound};

use crate::noting::{Reached, Sites, visit};
use access_domain::{Outcomes, record_of};
use core_code::Program;
use core_ways::{Count, Passings, code_of};
use racer_base::{MAX_SUMMARY_KEYS, Memory, MethodId};
use std::alloc::Global;
use std::collections::{BTreeMap, BTreeSet};

/// The sites that the records of a method name.
fn wanted_of(
    alloc: Global,
    outcomes: &Outcomes,
    method: MethodId,
) -> Result<BTreeSet<u32>, Memory> {
    let mut wanted = BTreeSet::new(alloc);
    for number in 0..MAX_SUMMARY_KEYS as u32 {
        let Some(record) = record_of(outcomes, method, number) else {
            return Ok(wanted);
        };
        wanted.insert(record.site.0)?;
    }
    Ok(wanted)
}

/// The ways to sites of a method.
pub(crate) fn sites_of(
    alloc: Global,
    program: &Program,
    outcomes: &Outcomes,
    table: &mut Passings,
    room: &mut usize,
    method: MethodId,
) -> Result<BTreeMap<u32, Reached>, Memory>
    requires { IsTable (core program.now) table.old }
    ensures table { OnOk result (IsTable (core program.now) table.new) }
    ensures found { IfOk result (IsFound (core program.now) method) }
{
    let mut sites = Sites {
        wanted: wanted_of(alloc, outcomes, method)?,
        found: BTreeMap::new(alloc),
        room: *room,
    };
    let Some(code) = code_of(program, method) else {
        return Ok(sites.found);
    };
    let mut turns = Vec::new(alloc);
    let none = Count {
        steps: 0,
        unread: None,
    };
    visit(alloc, program, table, &mut sites, &mut turns, 0, none, code)?;
    *room = sites.room;
    Ok(sites.found)
}
