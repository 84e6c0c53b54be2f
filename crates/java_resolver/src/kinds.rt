//! The kinds of types.
ghost use Rattle.std.specs.Prelude.{◌≡◌, map, option_copied};
ghost use Rattle.java_tree.specs.Trees.{Named, no_part, part_then, pack_parts};
ghost use Rattle.java_tree.specs.View.{ty_of, part_of};
ghost use Rattle.java_resolver.specs.Declarations.{class_names, parameter_kind, result_kind, head_kind};
ghost use Rattle.java_resolver.specs.Hidden.{is_hidden, hidden_by};
ghost use Rattle.java_resolver.specs.TypeKinds.{base_kind, class_seen, kind_of, kind_with, variable_kind};

use crate::classes::Classes;
use crate::hidden::Hidden;
use crate::scope::VariableKind;
use java_resolver_parts::is_lock;
use java_tree::{BaseType, HeadResult, ParameterTree, ResultTree, TypePart, TypeTree};
use racer_base::{ClassId, Kind};

/// Whether a name means no class, where there are names that mean none.
fn is_hidden(hidden: Option<&Hidden>, name: &str) -> bool
    ensures { result ≡ is_hidden (hidden_by (option_copied hidden.entry)) name.now }
{
    match hidden {
        Some(hidden) => hidden.has(name),
        None => false,
    }
}

/// The class of a name, where it is none of those that mean none.
pub fn class_seen(hidden: Option<&Hidden>, classes: &Classes, name: &str) -> Option<ClassId>
    ensures { result ≡ class_seen (hidden_by (option_copied hidden.entry)) (class_names classes.now) name.now }
{
    if is_hidden(hidden, name) {
        return None;
    }
    classes.named(name)
}

/// The kind of a type of this one name.
fn part_kind(hidden: Option<&Hidden>, classes: &Classes, part: &TypePart) -> Kind
    ensures { result ≡ base_kind (hidden_by (option_copied hidden.entry)) (class_names classes.now)
        (Named (part_then (part_of part.now) no_part)) }
{
    match &part.arguments {
        Some(_) => Kind::Other,
        None => match class_seen(hidden, classes, part.name.text.as_str()) {
            Some(class) => Kind::Declared(class),
            None => Kind::Other,
        },
    }
}

/// The kind of a type of these names, without `[ ]`.
fn named_kind(hidden: Option<&Hidden>, classes: &Classes, parts: &[TypePart]) -> Kind
    ensures { result ≡ base_kind (hidden_by (option_copied hidden.entry)) (class_names classes.now)
        (Named (pack_parts (map part_of parts.now))) }
{
    match parts {
        [part] => part_kind(hidden, classes, part),
        _ => Kind::Other,
    }
}

/// The kind of a type.
pub fn kind_of(hidden: Option<&Hidden>, classes: &Classes, tree: &TypeTree) -> Kind
    ensures { result ≡ kind_of (hidden_by (option_copied hidden.entry)) (class_names classes.now) (ty_of tree.now) }
{
    if tree.arrays != 0 {
        return Kind::Other;
    }
    match &tree.base {
        BaseType::Plain(_) => Kind::Plain,
        BaseType::Named(parts) => named_kind(hidden, classes, parts.as_slice()),
    }
}

/// That of a type of this kind, with so many `[ ]` behind the name of what is declared.
fn kind_with(kind: Kind, further: u32) -> Kind
    ensures { result ≡ kind_with kind further }
{
    if further == 0 { kind } else { Kind::Other }
}

/// What is known of a variable of this type, with so many `[ ]` behind its name.
pub fn variable_kind(
    hidden: Option<&Hidden>,
    classes: &Classes,
    tree: &TypeTree,
    further: u32,
) -> VariableKind
    ensures { result ≡ variable_kind (hidden_by (option_copied hidden.entry)) (class_names classes.now)
        (ty_of tree.now) further }
{
    let kind = kind_of(hidden, classes, tree);
    VariableKind {
        kind: kind_with(kind, further),
        is_lock: further == 0 && is_lock(true, kind, tree),
    }
}

/// The kind of a parameter.
pub fn parameter_kind(hidden: Option<&Hidden>, classes: &Classes, parameter: &ParameterTree) -> Kind
    ensures { result ≡ parameter_kind (hidden_by (option_copied hidden.entry)) (class_names classes.now) parameter.now }
{
    if parameter.any_number {
        return Kind::Other;
    }
    kind_with(kind_of(hidden, classes, &parameter.kind), parameter.arrays)
}

/// The kind of what a method of this class gives, with so many `[ ]` behind its parameters.
pub fn result_kind(
    hidden: Option<&Hidden>,
    classes: &Classes,
    class: ClassId,
    tree: &ResultTree,
    arrays: u32,
) -> Kind
    ensures { result ≡ result_kind (hidden_by (option_copied hidden.entry)) (class_names classes.now) class
        tree.now arrays }
{
    match tree {
        ResultTree::Constructor => Kind::Declared(class),
        ResultTree::Void => Kind::Plain,
        ResultTree::Of(kind) => kind_with(kind_of(hidden, classes, kind), arrays),
    }
}

/// The same of a method that no tree spells.
pub fn head_kind(classes: &Classes, class: ClassId, head: &HeadResult) -> Kind
    ensures { result ≡ head_kind (class_names classes.now) class head.now }
{
    match head {
        HeadResult::Void => Kind::Plain,
        HeadResult::Formed(tree) => kind_of(None, classes, tree),
        HeadResult::Constructor => Kind::Declared(class),
        HeadResult::Unknown => Kind::Other,
    }
}
