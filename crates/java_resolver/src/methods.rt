//! Methods by their classes, names and numbers of parameters.
ghost use Rattle.std.specs.Prelude.{◌≡◌, ◌++◌, length, replicate, IfOk, IfErr, OnOk, None};
ghost use Rattle.std.specs.List.{list_any, flat_map};
ghost use Rattle.racer_base.specs.declared.ids.Kind.TheVariants.{Other};
ghost use Rattle.java_resolver.specs.Declarations.{class_names, kinds_of, method_name, method_info, head_info};
ghost use Rattle.java_resolver.specs.Declarations.{takes_any_number};
ghost use Rattle.java_resolver.specs.Declarations.{default_constructor, default_constructors, constructor_name};
ghost use Rattle.java_resolver.specs.Declarations.{is_constructor, is_constructor_head, member_is_constructor};
ghost use Rattle.java_resolver.specs.Declarations.{member_methods, class_methods};
ghost use Rattle.java_resolver.specs.Meanings.{exactly_found, found, found_with_any, is_called_with_any};
ghost use Rattle.java_resolver.specs.Firsts.{only_that};
ghost use Rattle.java_resolver.specs.Indexes.{FindsFirsts, method_at, methods_behind};
ghost use Rattle.java_resolver.specs.Refusals.{too_many};
ghost use Rattle.java_resolver.specs.Faults.{IsFault};

use crate::classes::Classes;
use crate::fault::ResolveFault;
use crate::hidden::{Hidden, hidden_in};
use crate::infos::MethodInfo;
use crate::kinds::{head_kind, parameter_kind, result_kind};
use crate::with_any::{WithAny, is_enough, with_any_numbers};
use crate::words::{has_word, is_annotated};
use java_resolver_parts::method_meant;
use java_tree::{
    ClassTree, HeadResult, Member, MethodTree, OutsideHead, ParameterTree, ResultTree,
};
use keyed_numbers::{Named, add_number, no_numbers, number_at, number_of};
use racer_base::{ClassId, Items, Kind, MAX_CLASSES, MAX_METHODS, Memory, MethodId, Text};
use std::alloc::Global;
use std::marker::Model;

/// The methods of a folder, in source order.
#[derive(Drop)]
pub struct Methods {
    list: Vec<MethodInfo>,
    numbers: Named,
    with_any: WithAny,
}

impl Model for Methods {
    ghost use Rattle.std.specs.Prelude.{List};
    ghost use Rattle.java_resolver.specs.declared.infos.MethodInfo.{MethodInfo};
    ghost use Rattle.java_resolver.specs.Indexes.{AreMethodNumbers};

    ghost Value = { List MethodInfo };

    ghost view = { λ methods. methods.list.items };

    ghost invariant = { λ methods. AreMethodNumbers methods.numbers methods.with_any methods.list.items };
}

/// The numbers of methods by their names, classes and numbers of parameters, of two the first.
fn method_numbers(alloc: Global, methods: &[MethodInfo]) -> Result<Named, Memory>
    ensures { IfOk result (λ numbers. FindsFirsts method_at numbers methods.now) }
{
    let mut numbers = no_numbers(alloc);
    for (index, method) in methods.iter().enumerate() {
        let count = number_of(method.parameters.len())?;
        let key = (method.class.0, count);
        add_number(alloc, &mut numbers, method.name.as_str(), key, index)?;
    }
    Ok(numbers)
}

impl Methods {
    pub fn as_slice(&self) -> &[MethodInfo]
        ensures { result.now ≡ self.now }
    {
        self.list.as_slice()
    }

    /// The method of a class by a name and a number of parameters, of two the first.
    pub fn exactly_named(&self, class: ClassId, name: &str, count: u32) -> Option<MethodId>
        ensures { result ≡ exactly_found self.now class name.now count }
    {
        let number = number_at(&self.numbers, name, (class.0, count))?;
        Some(MethodId(number))
    }

    /// The only method of a class and a name whose last parameter takes any number of arguments.
    fn only_with_any(&self, class: ClassId, name: &str) -> Option<u32>
        ensures { result ≡ only_that (is_called_with_any class name.now) self.now }
    {
        self.with_any.only(class, name)
    }

    /// The same where so many arguments are enough for it.
    fn named_with_any(&self, class: ClassId, name: &str, count: u32) -> Option<MethodId>
        ensures { result ≡ found_with_any self.now class name.now count }
    {
        let number = self.only_with_any(class, name)?;
        if is_enough(self.list.as_slice(), count, number) {
            return Some(MethodId(number));
        }
        None
    }

    /// The method of a class that a call of a name with so many arguments means.
    pub fn named(&self, class: ClassId, name: &str, count: u32) -> Option<MethodId>
        ensures { result ≡ found self.now class name.now count }
    {
        method_meant(
            self.exactly_named(class, name, count),
            self.named_with_any(class, name, count),
        )
    }
}

/// The kinds of parameters.
fn parameter_kinds(
    alloc: Global,
    hidden: &Hidden,
    classes: &Classes,
    parameters: &[ParameterTree],
) -> Result<Items<Kind>, Memory>
    ensures { IfOk result (λ kinds. kinds ≡ kinds_of hidden.now (class_names classes.now) parameters.now) }
{
    let mut kinds = Items::new(alloc);
    for parameter in parameters {
        kinds.push(parameter_kind(Some(hidden), classes, parameter))?;
    }
    Ok(kinds)
}

/// Whether the last of these takes any number of arguments.
#[tactic(auto, using(crate::proofs::HiddenNames::takes_last))]
fn takes_any_number(parameters: &[ParameterTree]) -> bool
    ensures { result ≡ takes_any_number parameters.now }
{
    match parameters {
        [] => false,
        [.., last] => last.any_number,
    }
}

/// So many parameters of no known kind.
fn unknown_kinds(alloc: Global, count: u32) -> Result<Items<Kind>, Memory>
    ensures { IfOk result (λ kinds. kinds ≡ replicate count Other) }
{
    let kinds = vec![in alloc; Kind::Other; count as usize]?;
    Ok(Items::from(kinds))
}

fn is_constructor(tree: &ResultTree) -> bool
    ensures { result ≡ is_constructor tree.now }
{
    match tree {
        ResultTree::Constructor => true,
        ResultTree::Void => false,
        ResultTree::Of(_) => false,
    }
}

fn is_constructor_head(head: &HeadResult) -> bool
    ensures { result ≡ is_constructor_head head.now }
{
    match head {
        HeadResult::Constructor => true,
        HeadResult::Void => false,
        HeadResult::Formed(_) => false,
        HeadResult::Unknown => false,
    }
}

/// The name of constructors.
fn constructor_name(alloc: Global) -> Result<Text, Memory>
    ensures { IfOk result (λ name. name ≡ constructor_name) }
{
    Text::from_str(alloc, "<new>")
}

/// The name of a method or constructor.
fn name_of(alloc: Global, method: &MethodTree) -> Result<Text, Memory>
    ensures { IfOk result (λ name. name ≡ method_name method.now) }
{
    if is_constructor(&method.result) {
        return constructor_name(alloc);
    }
    Ok(method.name.text.clone()?)
}

/// What is known of a method that a tree spells.
fn method_info(
    alloc: Global,
    classes: &Classes,
    class: ClassId,
    method: &MethodTree,
) -> Result<MethodInfo, Memory>
    ensures { IfOk result (λ info. info ≡ method_info (class_names classes.now) class method.now) }
{
    let modifiers = method.modifiers.as_slice();
    let constructor = is_constructor(&method.result);
    let hidden = hidden_in(alloc, method)?;
    let parameters = method.parameters.as_slice();
    Ok(MethodInfo {
        class,
        name: name_of(alloc, method)?,
        place: method.name.place,
        parameters: parameter_kinds(alloc, &hidden, classes, parameters)?,
        any_number: takes_any_number(parameters),
        result: result_kind(Some(&hidden), classes, class, &method.result, method.arrays),
        is_static: has_word(modifiers, "static") && !constructor,
        is_private: has_word(modifiers, "private"),
        is_constructor: constructor,
        main: is_annotated(modifiers, "MainThread") || is_annotated(modifiers, "UiThread"),
        not_thread_safe: is_annotated(modifiers, "NotThreadSafe"),
        hidden,
    })
}

/// What is known of a method that no tree spells.
fn head_info(
    alloc: Global,
    classes: &Classes,
    class: ClassId,
    head: &OutsideHead,
) -> Result<MethodInfo, Memory>
    ensures { IfOk result (λ info. info ≡ head_info (class_names classes.now) class head.now) }
{
    let constructor = is_constructor_head(&head.result);
    let parameters = unknown_kinds(alloc, head.parameters)?;
    Ok(MethodInfo {
        class,
        name: head.name.clone()?,
        place: head.place,
        parameters,
        any_number: false,
        result: head_kind(classes, class, &head.result),
        is_static: head.is_static && !constructor,
        is_private: false,
        is_constructor: constructor,
        main: false,
        not_thread_safe: false,
        hidden: Hidden::new(alloc),
    })
}

/// The constructor of a class that declares none.
fn default_constructor(
    alloc: Global,
    class: ClassId,
    tree: &ClassTree,
) -> Result<MethodInfo, Memory>
    ensures { IfOk result (λ info. info ≡ default_constructor class tree.now) }
{
    Ok(MethodInfo {
        class,
        name: constructor_name(alloc)?,
        place: tree.place,
        parameters: Items::new(alloc),
        any_number: false,
        result: Kind::Declared(class),
        is_static: false,
        is_private: false,
        is_constructor: true,
        main: false,
        not_thread_safe: false,
        hidden: Hidden::new(alloc),
    })
}

/// Whether a member is a constructor.
fn member_is_constructor(member: &Member) -> bool
    ensures { result ≡ member_is_constructor member.now }
{
    match member {
        Member::Method(method) => is_constructor(&method.result),
        Member::Outside(head) => is_constructor_head(&head.result),
        Member::Field(_) => false,
        Member::Skipped(_) => false,
    }
}

/// Whether one of the members is a constructor.
pub fn any_is_constructor(members: &[Member]) -> bool
    ensures { result ≡ list_any member_is_constructor members.now }
{
    for member in members {
        if member_is_constructor(member) {
            return true;
        }
    }
    false
}

/// Adds a member that is a method or constructor.
fn push_member(
    alloc: Global,
    methods: &mut Vec<MethodInfo>,
    classes: &Classes,
    class: ClassId,
    member: &Member,
) -> Result<(), Memory>
    ensures { OnOk result (methods.new.items ≡ methods.old.items
        ++ member_methods (class_names classes.now) class member.now) }
{
    match member {
        Member::Method(method) => methods.push(method_info(alloc, classes, class, method)?)?,
        Member::Outside(head) => methods.push(head_info(alloc, classes, class, head)?)?,
        Member::Field(_) => {}
        Member::Skipped(_) => {}
    }
    Ok(())
}

/// Adds the methods and constructors among the members of a class.
fn push_members(
    alloc: Global,
    methods: &mut Vec<MethodInfo>,
    classes: &Classes,
    class: ClassId,
    members: &[Member],
) -> Result<(), Memory>
    ensures { OnOk result (methods.new.items ≡ methods.old.items
        ++ flat_map (member_methods (class_names classes.now) class) members.now) }
{
    for member in members {
        push_member(alloc, methods, classes, class, member)?;
    }
    Ok(())
}

/// Adds the constructor of a class that declares none.
fn push_default(
    alloc: Global,
    methods: &mut Vec<MethodInfo>,
    class: ClassId,
    tree: &ClassTree,
) -> Result<(), Memory>
    ensures { OnOk result (methods.new.items ≡ methods.old.items ++ default_constructors class tree.now) }
{
    if any_is_constructor(tree.members.as_slice()) {
        return Ok(());
    }
    methods.push(default_constructor(alloc, class, tree)?)?;
    Ok(())
}

/// Adds the methods and constructors of a class.
fn push_class(
    alloc: Global,
    methods: &mut Vec<MethodInfo>,
    classes: &Classes,
    class: ClassId,
    tree: &ClassTree,
) -> Result<(), Memory>
    ensures { OnOk result (methods.new.items ≡ methods.old.items
        ++ class_methods (class_names classes.now) class tree.now) }
{
    push_default(alloc, methods, class, tree)?;
    push_members(alloc, methods, classes, class, tree.members.as_slice())
}

/// The methods and constructors of these classes.
fn method_infos(
    alloc: Global,
    classes: &Classes,
    trees: &[&ClassTree],
) -> Result<Vec<MethodInfo>, Memory>
    ensures { IfOk result (λ methods. methods.items ≡ methods_behind classes.now trees.now) }
{
    let mut methods = Vec::new(alloc);
    for (index, tree) in trees.iter().enumerate() {
        push_class(
            alloc,
            &mut methods,
            classes,
            ClassId(number_of(index)?),
            tree,
        )?;
    }
    Ok(methods)
}

/// Refuses more classes or methods than a folder may have.
fn check_counts(classes: usize, methods: usize) -> Result<(), ResolveFault>
    ensures ok { OnOk result (too_many classes methods ≡ None) }
    ensures err { IfErr result (IsFault (too_many classes methods)) }
{
    if classes > MAX_CLASSES {
        return Err(ResolveFault::TooManyClasses(number_of(classes)?));
    }
    if methods > MAX_METHODS {
        return Err(ResolveFault::TooManyMethods(number_of(methods)?));
    }
    Ok(())
}

/// The methods and constructors of these classes, unless there are too many of either.
pub fn methods_of(
    alloc: Global,
    classes: &Classes,
    trees: &[&ClassTree],
) -> Result<Methods, ResolveFault>
    ensures list { IfOk result (λ methods. methods ≡ methods_behind classes.now trees.now) }
    ensures ok { IfOk result (λ _.
        too_many (length classes.now) (length (methods_behind classes.now trees.now)) ≡ None) }
    ensures err { IfErr result (IsFault
        (too_many (length classes.now) (length (methods_behind classes.now trees.now)))) }
{
    let list = method_infos(alloc, classes, trees)?;
    check_counts(classes.as_slice().len(), list.len())?;
    let numbers = method_numbers(alloc, list.as_slice())?;
    let with_any = with_any_numbers(alloc, list.as_slice())?;
    Ok(Methods {
        list,
        numbers,
        with_any,
    })
}
