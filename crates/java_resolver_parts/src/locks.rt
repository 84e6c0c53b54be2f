//! Lock fields, and the types of explicit locks.
ghost use Rattle.std.specs.Prelude.{◌≡◌, ◌&&◌, map};
ghost use Rattle.java_tree.specs.Trees.{pack_parts};
ghost use Rattle.java_tree.specs.View.{ty_of, part_of};
ghost use Rattle.java_resolver_parts.specs.LockTypes.{is_other, is_bare, is_lock_part, are_lock_parts, is_lock_type};

use java_tree::{BaseType, TypePart, TypeTree};
use racer_base::Kind;

/// Whether a kind is neither that of a primitive type nor that of a class of the folder.
pub fn is_other(kind: Kind) -> bool
    ensures { result ≡ is_other kind }
{
    match kind {
        Kind::Plain => false,
        Kind::Declared(_) => false,
        Kind::Other => true,
    }
}

/// Whether a name has no arguments.
fn is_bare(part: &TypePart) -> bool
    ensures { result ≡ is_bare (part_of part.now) }
{
    match &part.arguments {
        Some(_) => false,
        None => true,
    }
}

fn is_lock_part(part: &TypePart) -> bool
    ensures { result ≡ is_lock_part (part_of part.now) }
{
    match &part.arguments {
        Some(_) => false,
        None => part.name.text.as_str() == "Lock" || part.name.text.as_str() == "ReentrantLock",
    }
}

/// Whether these names have no arguments, and the last is that of a lock type.
fn are_lock_parts(parts: &[TypePart]) -> bool
    ensures { result ≡ are_lock_parts (pack_parts (map part_of parts.now)) }
{
    let mut rest = parts;
    while let Some((part, behind)) = rest.split_first() {
        if behind.is_empty() {
            return is_lock_part(part);
        }
        if !is_bare(part) {
            return false;
        }
        rest = behind;
    }
    false
}

/// Whether it is the type of an explicit lock.
fn is_lock_type(tree: &TypeTree) -> bool
    ensures { result ≡ is_lock_type (ty_of tree.now) }
{
    match &tree.base {
        BaseType::Plain(_) => false,
        BaseType::Named(parts) => tree.arrays == 0 && are_lock_parts(parts.as_slice()),
    }
}

/// Whether fields are lock fields, which have the word `final` or not, and a type of this kind.
pub fn is_lock(is_final: bool, kind: Kind, tree: &TypeTree) -> bool
    ensures { result ≡ (is_final && is_other kind && is_lock_type (ty_of tree.now)) }
{
    is_final && is_other(kind) && is_lock_type(tree)
}
