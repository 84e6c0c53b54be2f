//! What methods are made of, in source order.
ghost use Rattle.std.specs.Prelude.{◌≡◌, ◌++◌, ◌∷◌, [], IfOk, OnOk, map};
ghost use Rattle.std.specs.List.{flat_map};
ghost use Rattle.core_lowering_context.specs.Sources.{source_of};
ghost use Rattle.core_lowering.specs.Parts as wanted;
ghost use Rattle.core_lowering.specs.Parts.{part_of};

use core_lowering_context::{Body, Source};
use java_resolver::{MethodInfo, any_is_constructor};
use java_tree::{ClassTree, Member, Unit};
use racer_base::Memory;
use std::alloc::Global;

/// The members of the class of a method, and its body.
#[derive(Clone, Copy)]
pub(crate) struct Part<'a> {
    pub members: &'a [Member],
    pub body: Body<'a>,
}

/// A body, put behind those that there are.
fn push_part<'a>(
    members: &'a [Member],
    body: Body<'a>,
    parts: &mut Vec<Part<'a>>,
) -> Result<(), Memory>
    ensures { OnOk result (map part_of parts.new.items ≡
        map part_of parts.old.items ++ wanted.part members.now body.entry ∷ []) }
{
    parts.push(Part { members, body })?;
    Ok(())
}

/// The method that a member is, put behind those that there are.
fn push_member<'a>(
    members: &'a [Member],
    member: &'a Member,
    parts: &mut Vec<Part<'a>>,
) -> Result<(), Memory>
    ensures { OnOk result (map part_of parts.new.items ≡
        map part_of parts.old.items ++ wanted.member_parts members.now member.now) }
{
    match member {
        Member::Method(m) => push_part(members, Body::Spelled(m), parts),
        Member::Outside(_) => push_part(members, Body::Unspelled, parts),
        Member::Field(_) => Ok(()),
        Member::Skipped(_) => Ok(()),
    }
}

/// The methods that a class declares.
fn push_members<'a>(members: &'a [Member], parts: &mut Vec<Part<'a>>) -> Result<(), Memory>
    ensures { OnOk result (map part_of parts.new.items ≡
        map part_of parts.old.items ++ flat_map (wanted.member_parts members.now) members.now) }
{
    for member in members {
        push_member(members, member, parts)?;
    }
    Ok(())
}

/// The constructor of a class that declares none (JLS 8.8.9).
fn push_default<'a>(members: &'a [Member], parts: &mut Vec<Part<'a>>) -> Result<(), Memory>
    ensures { OnOk result (map part_of parts.new.items ≡
        map part_of parts.old.items ++ wanted.default_parts members.now) }
{
    if any_is_constructor(members) {
        return Ok(());
    }
    push_part(members, Body::Default, parts)
}

/// The methods of a class.
fn push_class<'a>(class: &'a ClassTree, parts: &mut Vec<Part<'a>>) -> Result<(), Memory>
    ensures { OnOk result (map part_of parts.new.items ≡ map part_of parts.old.items ++ wanted.class_parts class.now) }
{
    push_default(class.members.as_slice(), parts)?;
    push_members(class.members.as_slice(), parts)
}

/// The methods of these classes.
fn push_classes<'a>(classes: &'a [ClassTree], parts: &mut Vec<Part<'a>>) -> Result<(), Memory>
    ensures { OnOk result (map part_of parts.new.items ≡
        map part_of parts.old.items ++ flat_map wanted.class_parts classes.now) }
{
    for class in classes {
        push_class(class, parts)?;
    }
    Ok(())
}

/// The methods of these units.
fn parts_of<'a>(alloc: Global, units: &'a [Unit]) -> Result<Vec<Part<'a>>, Memory>
    ensures { IfOk result (λ parts. map part_of parts.items ≡ wanted.parts_of units.now) }
{
    let mut parts = Vec::new(alloc);
    for unit in units {
        push_classes(unit.classes.as_slice(), &mut parts)?;
    }
    Ok(parts)
}

/// The methods of these units, of which this is known.
pub(crate) fn sources_of<'a>(
    alloc: Global,
    infos: &'a [MethodInfo],
    units: &'a [Unit],
) -> Result<Vec<Source<'a>>, Memory>
    ensures { IfOk result (λ sources.
        map source_of sources.items ≡ wanted.with_infos (wanted.parts_of units.now) infos.now) }
{
    let parts = parts_of(alloc, units)?;
    with_infos(alloc, infos, parts.as_slice())
}

/// The methods that these are, of which this is known.
fn with_infos<'a>(
    alloc: Global,
    infos: &'a [MethodInfo],
    parts: &[Part<'a>],
) -> Result<Vec<Source<'a>>, Memory>
    ensures { IfOk result (λ sources.
        map source_of sources.items ≡ wanted.with_infos (map part_of parts.now) infos.now) }
{
    let mut sources = Vec::new(alloc);
    for (part, info) in parts.iter().zip(infos) {
        sources.push(Source {
            info,
            members: part.members,
            body: part.body,
        })?;
    }
    Ok(sources)
}
