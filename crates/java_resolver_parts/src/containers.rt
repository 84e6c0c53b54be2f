//! Types of containers, and the objects that fields begin with.
ghost use Rattle.std.specs.Prelude.{◌≡◌, map, option_map};
ghost use Rattle.java_tree.specs.Trees.{pack_parts};
ghost use Rattle.java_tree.specs.View.{ty_of, part_of, expr_of, new_tree_of};
ghost use Rattle.java_resolver_parts.specs.ContainerTypes.{parts_family, type_family, family_held};
ghost use Rattle.java_resolver_parts.specs.ContainerTypes.{type_made, type_begun};

use crate::locks::is_other;
use container_cells::{Family, family_of};
use java_tree::{
    BaseType, Expression, FieldInitialiser, Initialiser, Made, NewTree, TypePart, TypeTree,
};
use racer_base::Kind;

/// The family of a type of these names.
fn parts_family(parts: &[TypePart]) -> Option<Family>
    ensures { result ≡ parts_family (pack_parts (map part_of parts.now)) }
{
    match parts {
        [] => None,
        [.., last] => family_of(last.name.text.as_str()),
    }
}

/// The family of a type, by its last name.
fn type_family(tree: &TypeTree) -> Option<Family>
    ensures { result ≡ type_family (ty_of tree.now) }
{
    match &tree.base {
        BaseType::Plain(_) => None,
        BaseType::Named(parts) => parts_family(parts.as_slice()),
    }
}

/// The family of the container that fields hold which begin with a new object of this type. They have the word `final`
/// or not; these are the kinds of their declared type and of the type of the object.
pub fn family_held(is_final: bool, declared: Kind, made: Kind, tree: &TypeTree) -> Option<Family>
    ensures { result ≡ family_held is_final declared made (ty_of tree.now) }
{
    if is_final && is_other(declared) && is_other(made) {
        type_family(tree)
    } else {
        None
    }
}

/// T, where an object is made as `new T(..)` without a class body.
fn type_new(new: &NewTree) -> Option<&TypeTree>
    ensures { option_map (λ t. ty_of t.now) result ≡ type_made (new_tree_of new.now) }
{
    match &new.made {
        Made::Object(_) => Some(&new.kind),
        Made::Anonymous(_, _) => None,
        Made::Array(_, _) => None,
        Made::Filled(_, _) => None,
    }
}

/// The same of an expression.
fn type_made(e: &Expression) -> Option<&TypeTree>
    ensures { option_map (λ t. ty_of t.now) result ≡ type_made (expr_of e.now) }
{
    match e {
        Expression::New(new) => type_new(new),
        _ => None,
    }
}

/// The type of the object that a field begins with, where it begins with one that is made there.
pub fn type_begun(initialiser: &FieldInitialiser) -> Option<&TypeTree>
    ensures { option_map (λ t. ty_of t.now) result ≡ type_begun initialiser.now }
{
    match initialiser {
        FieldInitialiser::Formed(Initialiser::Value(e)) => type_made(e),
        _ => None,
    }
}
