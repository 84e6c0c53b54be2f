//! What is not read.
ghost use Rattle.std.specs.Prelude.{◌≡◌, ◌++◌, IfOk, OnOk};
ghost use Rattle.std.specs.List.{flat_map};
ghost use Rattle.core_lowering_rules.specs.Programs.{skipped_member, skipped_in, in_order};
ghost use Rattle.core_lowering.specs.Skipped.{skipped_class};

use java_tree::{ClassTree, Member, Unit};
use racer_base::{Items, Memory, Place};
use std::alloc::Global;

/// The places of these members that are not read, put behind those that there are.
fn push_members(members: &[Member], places: &mut Vec<Place>) -> Result<(), Memory>
    ensures { OnOk result (places.new.items ≡ places.old.items ++ flat_map skipped_member members.now) }
{
    for member in members {
        push_member(member, places)?;
    }
    Ok(())
}

/// The place of a member that is not read.
fn push_member(member: &Member, places: &mut Vec<Place>) -> Result<(), Memory>
    ensures { OnOk result (places.new.items ≡ places.old.items ++ skipped_member member.now) }
{
    match member {
        Member::Skipped(place) => {
            places.push(*place)?;
            Ok(())
        }
        Member::Field(_) => Ok(()),
        Member::Method(_) => Ok(()),
        Member::Outside(_) => Ok(()),
    }
}

/// The places of members of these classes.
fn push_classes(classes: &[ClassTree], places: &mut Vec<Place>) -> Result<(), Memory>
    ensures { OnOk result (places.new.items ≡ places.old.items ++ flat_map skipped_class classes.now) }
{
    for class in classes {
        push_members(class.members.as_slice(), places)?;
    }
    Ok(())
}

/// The places of types and members of a unit that are not read.
fn push_unit(unit: &Unit, places: &mut Vec<Place>) -> Result<(), Memory>
    ensures { OnOk result (places.new.items ≡ places.old.items ++ skipped_in unit.now) }
{
    places.extend_from_slice(unit.skipped.as_slice())?;
    push_classes(unit.classes.as_slice(), places)
}

/// The places of types and members of these units that are not read.
fn gathered(alloc: Global, units: &[Unit]) -> Result<Vec<Place>, Memory>
    ensures { IfOk result (λ places. places.items ≡ flat_map skipped_in units.now) }
{
    let mut places = Vec::new(alloc);
    for unit in units {
        push_unit(unit, &mut places)?;
    }
    Ok(places)
}

/// The same in order.
pub(crate) fn skipped_of(alloc: Global, units: &[Unit]) -> Result<Items<Place>, Memory>
    ensures { IfOk result (λ places. places ≡ in_order (flat_map skipped_in units.now)) }
{
    let mut places = gathered(alloc, units)?;
    places.sort()?;
    Ok(Items::from(places))
}
