//! Fields by their classes and names.
ghost use Rattle.std.specs.Prelude.{◌≡◌, ◌++◌, map, IfOk, IfErr, OnOk, None, true, false};
ghost use Rattle.std.specs.List.{flat_map};
ghost use Rattle.java_resolver.specs.Declarations.{class_names, is_lock_field, field_family, field_info};
ghost use Rattle.java_resolver.specs.Declarations.{member_fields};
ghost use Rattle.java_resolver.specs.Meanings.{is_seen, field_named};
ghost use Rattle.java_resolver.specs.Firsts.{first_that};
ghost use Rattle.java_resolver.specs.Refusals.{duplicate_field};
ghost use Rattle.java_resolver.specs.Indexes.{AddsElement, FindsFirsts, field_at, fields_behind};
ghost use Rattle.java_resolver.specs.Faults.{IsFault};

use crate::classes::Classes;
use crate::fault::ResolveFault;
use crate::infos::FieldInfo;
use crate::kinds::kind_of;
use crate::words::has_word;
use container_cells::Family;
use java_resolver_parts::{family_held, is_lock, type_begun};
use java_tree::{ClassTree, FieldTree, FieldVariable, Member};
use keyed_numbers::{Named, add_number, no_numbers, number_at, number_of};
use racer_base::{ClassId, FieldId, Memory};
use std::alloc::Global;
use std::marker::Model;

/// The fields of a folder, in source order.
#[derive(Drop)]
pub struct Fields {
    list: Vec<FieldInfo>,
    numbers: Named,
    static_numbers: Named,
}

impl Model for Fields {
    ghost use Rattle.std.specs.Prelude.{List};
    ghost use Rattle.java_resolver.specs.declared.infos.FieldInfo.{FieldInfo};
    ghost use Rattle.java_resolver.specs.Indexes.{AreFieldNumbers};

    ghost Value = { List FieldInfo };

    ghost view = { λ fields. fields.list.items };

    ghost invariant = { λ fields. AreFieldNumbers fields.numbers fields.static_numbers fields.list.items };
}

/// The numbers of fields by their names and classes, unless two have the same.
fn field_numbers(alloc: Global, fields: &[FieldInfo]) -> Result<Named, ResolveFault>
    ensures found { IfOk result (λ numbers. FindsFirsts (field_at false) numbers fields.now) }
    ensures ok { IfOk result (λ _. duplicate_field fields.now ≡ None) }
    ensures err { IfErr result (IsFault (duplicate_field fields.now)) }
{
    let mut numbers = no_numbers(alloc);
    for (index, field) in fields.iter().enumerate() {
        let name = field.name.as_str();
        let key = (0, field.class.0);
        if let Some(first) = number_at(&numbers, name, key) {
            let first_place = fields[first as usize].place;
            return Err(ResolveFault::DuplicateField(field.place, first_place));
        }
        add_number(alloc, &mut numbers, name, key, index)?;
    }
    Ok(numbers)
}

/// Adds the number of the field at this index where it is static.
fn add_static(
    alloc: Global,
    numbers: &mut Named,
    field: &FieldInfo,
    index: usize,
) -> Result<(), Memory>
    ensures { OnOk result (AddsElement (field_at true) numbers.old numbers.new field.now index) }
{
    if field.is_static {
        return add_number(
            alloc,
            numbers,
            field.name.as_str(),
            (0, field.class.0),
            index,
        );
    }
    Ok(())
}

/// The numbers of static fields by their names and classes.
fn static_numbers(alloc: Global, fields: &[FieldInfo]) -> Result<Named, Memory>
    ensures { IfOk result (λ numbers. FindsFirsts (field_at true) numbers fields.now) }
{
    let mut numbers = no_numbers(alloc);
    for (index, field) in fields.iter().enumerate() {
        add_static(alloc, &mut numbers, field, index)?;
    }
    Ok(numbers)
}

impl Fields {
    pub fn as_slice(&self) -> &[FieldInfo]
        ensures { result.now ≡ self.now }
    {
        self.list.as_slice()
    }

    /// The number of the field of a class by a name, in a static method of a static one.
    fn number(&self, class: ClassId, in_static: bool, name: &str) -> Option<u32>
        ensures { result ≡ first_that (is_seen class in_static name.now) self.now }
    {
        if in_static {
            return number_at(&self.static_numbers, name, (0, class.0));
        }
        number_at(&self.numbers, name, (0, class.0))
    }

    /// The field of a class by a name, in a static method a static one.
    pub fn named(&self, class: ClassId, in_static: bool, name: &str) -> Option<FieldId>
        ensures { result ≡ field_named self.now class in_static name.now }
    {
        let number = self.number(class, in_static, name)?;
        Some(FieldId(number))
    }
}

/// Whether fields are lock fields.
fn is_lock_field(classes: &Classes, field: &FieldTree) -> bool
    ensures { result ≡ is_lock_field (class_names classes.now) field.now }
{
    let is_final = has_word(field.modifiers.as_slice(), "final");
    is_lock(is_final, kind_of(None, classes, &field.kind), &field.kind)
}

/// The family of the container that a field holds, if it holds one.
fn field_family(classes: &Classes, field: &FieldTree, variable: &FieldVariable) -> Option<Family>
    ensures { result ≡ field_family (class_names classes.now) field.now variable.now }
{
    let made = type_begun(&variable.initialiser)?;
    let is_final = has_word(field.modifiers.as_slice(), "final");
    let declared = kind_of(None, classes, &field.kind);
    family_held(is_final, declared, kind_of(None, classes, made), made)
}

/// What is known of a field.
fn field_info(
    classes: &Classes,
    class: ClassId,
    field: &FieldTree,
    variable: &FieldVariable,
) -> Result<FieldInfo, Memory>
    ensures { IfOk result (λ info. info ≡ field_info (class_names classes.now) class field.now variable.now) }
{
    let modifiers = field.modifiers.as_slice();
    Ok(FieldInfo {
        class,
        name: variable.name.text.clone()?,
        place: variable.name.place,
        kind: kind_of(None, classes, &field.kind),
        is_static: has_word(modifiers, "static"),
        is_final: has_word(modifiers, "final"),
        is_volatile: has_word(modifiers, "volatile"),
        is_lock: is_lock_field(classes, field),
        family: field_family(classes, field, variable),
    })
}

/// Adds the fields of a declaration.
fn push_variables(
    fields: &mut Vec<FieldInfo>,
    classes: &Classes,
    class: ClassId,
    field: &FieldTree,
) -> Result<(), Memory>
    ensures { OnOk result (fields.new.items ≡ fields.old.items
        ++ map (field_info (class_names classes.now) class field.now) field.now.variables) }
{
    for variable in field.variables.as_slice() {
        fields.push(field_info(classes, class, field, variable)?)?;
    }
    Ok(())
}

/// Adds the fields of a member.
fn push_member_fields(
    fields: &mut Vec<FieldInfo>,
    classes: &Classes,
    class: ClassId,
    member: &Member,
) -> Result<(), Memory>
    ensures { OnOk result (fields.new.items ≡ fields.old.items
        ++ member_fields (class_names classes.now) class member.now) }
{
    match member {
        Member::Field(field) => push_variables(fields, classes, class, field),
        Member::Method(_) => Ok(()),
        Member::Outside(_) => Ok(()),
        Member::Skipped(_) => Ok(()),
    }
}

/// Adds the fields among the members of a class.
fn push_class_fields(
    fields: &mut Vec<FieldInfo>,
    classes: &Classes,
    class: ClassId,
    members: &[Member],
) -> Result<(), Memory>
    ensures { OnOk result (fields.new.items ≡ fields.old.items
        ++ flat_map (member_fields (class_names classes.now) class) members.now) }
{
    for member in members {
        push_member_fields(fields, classes, class, member)?;
    }
    Ok(())
}

/// The fields of these classes.
fn field_infos(
    alloc: Global,
    classes: &Classes,
    trees: &[&ClassTree],
) -> Result<Vec<FieldInfo>, Memory>
    ensures { IfOk result (λ fields. fields.items ≡ fields_behind classes.now trees.now) }
{
    let mut fields = Vec::new(alloc);
    for (index, tree) in trees.iter().enumerate() {
        let class = ClassId(number_of(index)?);
        push_class_fields(&mut fields, classes, class, tree.members.as_slice())?;
    }
    Ok(fields)
}

/// The fields of these classes, unless two of a class have the same name.
pub fn fields_of(
    alloc: Global,
    classes: &Classes,
    trees: &[&ClassTree],
) -> Result<Fields, ResolveFault>
    ensures list { IfOk result (λ fields. fields ≡ fields_behind classes.now trees.now) }
    ensures ok { IfOk result (λ _. duplicate_field (fields_behind classes.now trees.now) ≡ None) }
    ensures err { IfErr result (IsFault (duplicate_field (fields_behind classes.now trees.now))) }
{
    let list = field_infos(alloc, classes, trees)?;
    let numbers = field_numbers(alloc, list.as_slice())?;
    let static_numbers = static_numbers(alloc, list.as_slice())?;
    Ok(Fields {
        list,
        numbers,
        static_numbers,
    })
}
