//! The records of a warning, with their places from the site down to the access.
ghost use Rattle.std.specs.Prelude.{◌≡◌, IfOk, option_map};
ghost use Rattle.std.specs.Option.{option_copied};
ghost use Rattle.core_code.specs.Calls.{method_at};
ghost use Rattle.core_code.specs.Core.{method_of};
ghost use Rattle.core_code.specs.Program.{core};
ghost use Rattle.access_domain.specs.Outcomes.{AreOutcomes};
ghost use Rattle.race_report_parts.specs.Places as places;
ghost use Rattle.race_report_parts.specs.Told as told;
ghost use Rattle.race_report_parts.specs.Sites.{AreSites};
ghost use Rattle.race_report_parts.specs.Sides.{held_of, side_told, sides_told};

use crate::tables::{Site, site_at};
use access_domain::{Access, Outcomes, record_of};
use core_code::{MethodCore, Program};
use race_pairs::Warning;
use race_report_sides::{Side, Sides};
use racer_base::{Memory, MethodId, Place};
use std::alloc::Global;

/// A record and the method that has it.
#[derive(Clone, Copy)]
struct OwnedRecord<'a> {
    method: MethodId,
    access: &'a Access,
}

/// The record of a method that has this index.
fn owned_record_at<'a>(
    program: &Program,
    outcomes: &'a Outcomes,
    method: MethodId,
    index: u32,
) -> Option<OwnedRecord<'a>>
    requires { AreOutcomes (core program.now) outcomes.now.items }
    ensures { option_map held_of result ≡ places.owned_record_at (core program.now) method index }
{
    match record_of(outcomes, method, index) {
        None => None,
        Some(access) => Some(OwnedRecord { method, access }),
    }
}

/// The record of the called method that a record is made of: it has this index there.
fn record_below<'a>(
    program: &Program,
    outcomes: &'a Outcomes,
    callee: Option<MethodId>,
    index: Option<u32>,
) -> Option<OwnedRecord<'a>>
    requires { AreOutcomes (core program.now) outcomes.now.items }
    ensures { option_map held_of result ≡ places.record_below (core program.now) callee index }
{
    match (callee, index) {
        (Some(method), Some(index)) => owned_record_at(program, outcomes, method, index),
        _ => None,
    }
}

/// The places of a record, from its site down to its access.
fn places_of(
    alloc: Global,
    program: &Program,
    outcomes: &Outcomes,
    sites: &[Vec<Site>],
    held: OwnedRecord<'_>,
) -> Result<Vec<Place>, Memory>
    requires outcomes { AreOutcomes (core program.now) outcomes.now.items }
    requires sites { AreSites (core program.now) sites.now }
    ensures { IfOk result (λ found. found.items ≡ places.places_of (core program.now) (held_of held.entry)) }
{
    let mut places = Vec::new(alloc);
    let mut left = Some(held);
    for _turn in 0..program.methods().len() {
        let Some(here) = left else {
            break;
        };
        let Some(site) = site_at(program, sites, here.method, here.access.site) else {
            break;
        };
        places.push(site.place)?;
        left = record_below(program, outcomes, site.callee, here.access.below);
    }
    Ok(places)
}

/// The method of this number.
fn method_at(program: &Program, number: MethodId) -> Option<&MethodCore>
    ensures { option_map method_of (option_copied result) ≡ method_at (core program.now) number }
{
    program.methods().get(number.0 as usize)
}

/// The record of a method that has this index, with its places.
fn side_of<'a>(
    alloc: Global,
    program: &'a Program,
    outcomes: &'a Outcomes,
    sites: &[Vec<Site>],
    number: MethodId,
    index: u32,
) -> Result<Option<Side<'a>>, Memory>
    requires outcomes { AreOutcomes (core program.now) outcomes.now.items }
    requires sites { AreSites (core program.now) sites.now }
    ensures { IfOk result (λ side. option_map side_told side ≡ told.side_of (core program.now) number index) }
{
    let Some(method) = method_at(program, number) else {
        return Ok(None);
    };
    let Some(held) = owned_record_at(program, outcomes, number, index) else {
        return Ok(None);
    };
    let places = places_of(alloc, program, outcomes, sites, held)?;
    Ok(Some(Side {
        method,
        access: held.access,
        places,
    }))
}

/// The two records of a warning, with their places. None where it names none.
pub fn sides_of<'a>(
    alloc: Global,
    program: &'a Program,
    outcomes: &'a Outcomes,
    sites: &[Vec<Site>],
    warning: Warning,
) -> Result<Option<Sides<'a>>, Memory>
    requires outcomes { AreOutcomes (core program.now) outcomes.now.items }
    requires sites { AreSites (core program.now) sites.now }
    ensures { IfOk result (λ sides. option_map sides_told sides ≡ told.sides_of (core program.now) warning) }
{
    let Some(first) = side_of(
        alloc,
        program,
        outcomes,
        sites,
        warning.entry,
        warning.access,
    )?
    else {
        return Ok(None);
    };
    let Some(partner) = side_of(
        alloc,
        program,
        outcomes,
        sites,
        warning.partner,
        warning.partner_access,
    )?
    else {
        return Ok(None);
    };
    Ok(Some(Sides { first, partner }))
}
