//! How the partners of two programs are found.
ghost use Rattle.std.specs.Prelude.{◌≡◌, IfOk, OnOk, map};
ghost use Rattle.core_code.specs.Program.{core};
ghost use Rattle.transfer_ties.specs.Names as named;
ghost use Rattle.transfer_ties.specs.Partners.{AreTies};

use crate::kinds::same_kind;
use crate::partners::{Ties, partner};
use core_code::{ClassCore, FieldCore, MethodCore, Program};
use keyed_numbers::{Named, add_number, no_numbers, number_at, number_of};
use racer_base::{ClassId, FieldId, Memory, MethodId};
use std::alloc::Global;

/// The numbers of classes, by their names.
fn class_numbers(alloc: Global, classes: &[ClassCore]) -> Result<Named, Memory>
    ensures { IfOk result (named.AreNumbers named.class_belongs classes.now) }
{
    let mut numbers = no_numbers(alloc);
    for (number, class) in classes.iter().enumerate() {
        add_number(alloc, &mut numbers, class.name.as_str(), (0, 0), number)?;
    }
    Ok(numbers)
}

/// The numbers of fields, by their names and the numbers of their classes.
fn field_numbers(alloc: Global, fields: &[FieldCore]) -> Result<Named, Memory>
    ensures { IfOk result (named.AreNumbers named.field_belongs fields.now) }
{
    let mut numbers = no_numbers(alloc);
    for (number, field) in fields.iter().enumerate() {
        add_number(
            alloc,
            &mut numbers,
            field.name.as_str(),
            (field.class.0, 0),
            number,
        )?;
    }
    Ok(numbers)
}

/// Puts the number of a method of the older program at its name, the number of its class in the newer one, and how many
/// parameters it has. One that is not analysed has no place, nor has one whose class is not in the newer program.
fn add_method(
    alloc: Global,
    numbers: &mut Named,
    method: &MethodCore,
    classes: &[Option<ClassId>],
    number: usize,
) -> Result<(), Memory>
    ensures { OnOk result
        (named.AddsOne (named.method_belongs classes.now) numbers.old numbers.new method.now number) }
{
    if method.status.is_some() {
        return Ok(());
    }
    let Some(class) = partner(classes, method.class) else {
        return Ok(());
    };
    let key = (class.0, number_of(method.parameters.len())?);
    add_number(alloc, numbers, method.name.as_str(), key, number)
}

/// The numbers of the analysed methods of the older program.
fn method_numbers(
    alloc: Global,
    methods: &[MethodCore],
    classes: &[Option<ClassId>],
) -> Result<Named, Memory>
    ensures { IfOk result (named.AreNumbers (named.method_belongs classes.now) methods.now) }
{
    let mut numbers = no_numbers(alloc);
    for (number, method) in methods.iter().enumerate() {
        add_method(alloc, &mut numbers, method, classes, number)?;
    }
    Ok(numbers)
}

/// The class of the newer program that has the name of this one.
fn class_partner(class: &ClassCore, numbers: &Named) -> Option<ClassId>
    ensures { result ≡ named.class_partner numbers.now class.now }
{
    Some(ClassId(number_at(numbers, class.name.as_str(), (0, 0))?))
}

/// Of each class the partner that the numbers of the newer program's classes give.
fn class_partners(
    alloc: Global,
    classes: &[ClassCore],
    numbers: &Named,
) -> Result<Vec<Option<ClassId>>, Memory>
    ensures { IfOk result (λ made. made.items ≡ map (named.class_partner numbers.now) classes.now) }
{
    let mut partners = Vec::new(alloc);
    for class in classes {
        partners.push(class_partner(class, numbers))?;
    }
    Ok(partners)
}

/// Of each class of the older program that of the newer.
fn classes_of(alloc: Global, old: &Program, new: &Program) -> Result<Vec<Option<ClassId>>, Memory>
    ensures { IfOk result (λ made. named.TellClasses (core old.now) (core new.now) made.items) }
{
    let numbers = class_numbers(alloc, new.classes())?;
    class_partners(alloc, old.classes(), &numbers)
}

/// Whether a field of the older program is this one of the newer, which has its class and its name.
fn same_field(old: &FieldCore, new: &FieldCore, classes: &[Option<ClassId>]) -> bool
    ensures { result ≡ named.same_field classes.now old.now new.now }
{
    same_kind(classes, old.kind, new.kind)
        && old.is_static == new.is_static
        && old.recorded == new.recorded
}

/// The field of the newer program that is this one of the older.
fn field_partner(
    field: &FieldCore,
    fields: &[FieldCore],
    numbers: &Named,
    classes: &[Option<ClassId>],
) -> Option<FieldId>
    ensures { result ≡ named.field_partner fields.now numbers.now classes.now field.now }
{
    let class = partner(classes, field.class)?;
    let number = number_at(numbers, field.name.as_str(), (class.0, 0))?;
    let found = fields.get(number as usize)?;
    if same_field(field, found, classes) {
        Some(FieldId(number))
    } else {
        None
    }
}

/// Of each field the partner that the numbers of the newer program's fields give.
fn field_partners(
    alloc: Global,
    olds: &[FieldCore],
    news: &[FieldCore],
    numbers: &Named,
    classes: &[Option<ClassId>],
) -> Result<Vec<Option<FieldId>>, Memory>
    ensures { IfOk result (λ made.
        made.items ≡ map (named.field_partner news.now numbers.now classes.now) olds.now) }
{
    let mut partners = Vec::new(alloc);
    for field in olds {
        partners.push(field_partner(field, news, numbers, classes))?;
    }
    Ok(partners)
}

/// Of each field of the older program that of the newer.
fn fields_of(
    alloc: Global,
    old: &Program,
    new: &Program,
    classes: &[Option<ClassId>],
) -> Result<Vec<Option<FieldId>>, Memory>
    requires { named.TellClasses (core old.now) (core new.now) classes.now }
    ensures { IfOk result (λ made. named.TellFields (core old.now) (core new.now) made.items) }
{
    let news = new.fields();
    let numbers = field_numbers(alloc, news)?;
    field_partners(alloc, old.fields(), news, &numbers, classes)
}

/// The analysed method of the older program that has the class, the name and as many parameters as this one.
fn method_partner(method: &MethodCore, numbers: &Named) -> Result<Option<MethodId>, Memory>
    ensures { IfOk result (λ found. found ≡ named.method_partner numbers.now method.now) }
{
    if method.status.is_some() {
        return Ok(None);
    }
    let key = (method.class.0, number_of(method.parameters.len())?);
    match number_at(numbers, method.name.as_str(), key) {
        Some(number) => Ok(Some(MethodId(number))),
        None => Ok(None),
    }
}

/// Of each method the partner that the numbers of the older program's methods give.
fn method_partners(
    alloc: Global,
    methods: &[MethodCore],
    numbers: &Named,
) -> Result<Vec<Option<MethodId>>, Memory>
    ensures { IfOk result (λ made. made.items ≡ map (named.method_partner numbers.now) methods.now) }
{
    let mut partners = Vec::new(alloc);
    for method in methods {
        partners.push(method_partner(method, numbers)?)?;
    }
    Ok(partners)
}

/// Of each analysed method of the newer program that of the older.
fn methods_of(
    alloc: Global,
    old: &Program,
    new: &Program,
    classes: &[Option<ClassId>],
) -> Result<Vec<Option<MethodId>>, Memory>
    requires { named.TellClasses (core old.now) (core new.now) classes.now }
    ensures { IfOk result (λ made. named.TellMethods (core old.now) (core new.now) made.items) }
{
    let numbers = method_numbers(alloc, old.methods(), classes)?;
    method_partners(alloc, new.methods(), &numbers)
}

/// The partners of an older program and a newer one.
pub fn ties_of(alloc: Global, old: &Program, new: &Program) -> Result<Ties, Memory>
    ensures { IfOk result (AreTies (core old.now) (core new.now)) }
{
    let classes = classes_of(alloc, old, new)?;
    let fields = fields_of(alloc, old, new, classes.as_slice())?;
    let methods = methods_of(alloc, old, new, classes.as_slice())?;
    Ok(Ties {
        classes,
        fields,
        methods,
    })
}
