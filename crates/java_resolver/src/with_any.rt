//! Methods whose last parameter takes any number of arguments (JLS 8.4.1), by their classes and names.
ghost use Rattle.std.specs.Prelude.{◌≡◌, slice_get, IfOk, OnOk, true};
ghost use Rattle.java_resolver.specs.Firsts.{only_that};
ghost use Rattle.java_resolver.specs.Indexes.{AddsElement, AreWithAny, AddsSecond, method_with_any_at};
ghost use Rattle.java_resolver.specs.Meanings.{is_called_with_any, are_enough, is_enough};

use crate::infos::MethodInfo;
use keyed_numbers::{Named, add_number, no_numbers, number_at};
use racer_base::{ClassId, Kind, Memory};
use std::alloc::Global;

/// The number of the first of each class and name, and that of the second.
#[derive(Drop)]
pub struct WithAny {
    first: Named,
    second: Named,
}

/// Adds the method at this index where it is one, unless there is a first of its class and name.
fn add_first(
    alloc: Global,
    first: &mut Named,
    method: &MethodInfo,
    index: usize,
) -> Result<(), Memory>
    ensures { OnOk result (AddsElement method_with_any_at first.old first.new method.now index) }
{
    if method.any_number {
        return add_number(
            alloc,
            first,
            method.name.as_str(),
            (0, method.class.0),
            index,
        );
    }
    Ok(())
}

/// Adds this one where there is a first of its class and name, unless there is a second.
fn add_behind(
    alloc: Global,
    first: &Named,
    second: &mut Named,
    method: &MethodInfo,
    index: usize,
) -> Result<(), Memory>
    requires { method.now.any_number ≡ true }
    ensures { OnOk result (AddsSecond first.now second.old second.new method.now index) }
{
    let name = method.name.as_str();
    let key = (0, method.class.0);
    if number_at(first, name, key).is_some() {
        return add_number(alloc, second, name, key, index);
    }
    Ok(())
}

/// Adds the method at this index where it is one and not the first of its class and name.
fn add_second(
    alloc: Global,
    first: &Named,
    second: &mut Named,
    method: &MethodInfo,
    index: usize,
) -> Result<(), Memory>
    ensures { OnOk result (AddsSecond first.now second.old second.new method.now index) }
{
    if method.any_number {
        return add_behind(alloc, first, second, method, index);
    }
    Ok(())
}

/// The numbers of those among these methods.
pub fn with_any_numbers(alloc: Global, methods: &[MethodInfo]) -> Result<WithAny, Memory>
    ensures { IfOk result (λ numbers. AreWithAny numbers.first numbers.second methods.now) }
{
    let mut first = no_numbers(alloc);
    let mut second = no_numbers(alloc);
    for (index, method) in methods.iter().enumerate() {
        add_second(alloc, &first, &mut second, method, index)?;
        add_first(alloc, &mut first, method, index)?;
    }
    Ok(WithAny { first, second })
}

/// Whether there are as many arguments as these parameters but the last.
fn are_enough(count: u32, parameters: &[Kind]) -> bool
    ensures { result ≡ are_enough count parameters.now }
{
    match parameters {
        [] => false,
        [_, others @ ..] => others.len() <= count as usize,
    }
}

/// Whether there are as many for the method of this number.
pub fn is_enough(methods: &[MethodInfo], count: u32, number: u32) -> bool
    ensures { result ≡ is_enough count (slice_get methods.now number) }
{
    match methods.get(number as usize) {
        Some(method) => are_enough(count, method.parameters.as_slice()),
        None => false,
    }
}

impl WithAny {
    ghost use Rattle.std.specs.Prelude.{List};
    ghost use Rattle.java_resolver.specs.declared.infos.MethodInfo.{MethodInfo};

    /// The number of the only one of a class and a name.
    pub fn only(&self, class: ClassId, name: &str) -> Option<u32>
        ensures { (methods : List MethodInfo) → AreWithAny self.now.first self.now.second methods →
            result ≡ only_that (is_called_with_any class name.now) methods }
    {
        let key = (0, class.0);
        if number_at(&self.second, name, key).is_some() {
            return None;
        }
        number_at(&self.first, name, key)
    }
}
