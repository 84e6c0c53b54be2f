//! What a file is read as.
ghost use Rattle.std.specs.Prelude.{◌≡◌};
ghost use Rattle.java_tree.specs.declared.unit.ParseFault.TheVariants as fault;

use crate::methods::{AnnotationTree, FieldTree, MethodTree};
use crate::types::TypeTree;
use racer_base::{Items, Memory, Place, Text};
use std::alloc::AllocFailed;

/// A file: the classes that are read, and the places of the types that are skipped (JLS 7.3).
#[derive(Drop)]
pub struct Unit {
    pub classes: Items<ClassTree>,
    pub skipped: Items<Place>,
}

/// A class that is read, with the place of its name (JLS 8.1).
#[derive(Drop)]
pub struct ClassTree {
    pub name: Text,
    pub place: Place,
    pub annotations: Items<AnnotationTree>,
    pub members: Items<Member>,
}

/// A member of a class (JLS 8.1.6).
#[derive(Drop)]
pub enum Member {
    Field(FieldTree),
    Method(MethodTree),
    /// A method or a constructor with a body that no tree of this class spells.
    Outside(OutsideHead),
    /// Any other member, with the place of its first token.
    Skipped(Place),
}

/// What is kept of a method that no tree of its class spells. A constructor has the name `<new>`, and is an instance
/// method whatever `is_static` says.
#[derive(Drop)]
pub struct OutsideHead {
    pub name: Text,
    pub place: Place,
    pub is_static: bool,
    pub has_synchronized: bool,
    pub result: HeadResult,
    pub parameters: u32,
}

/// What the head of a method says of its result (JLS 8.4.5); `Unknown` where it is not formed, or says nothing.
#[derive(Drop)]
pub enum HeadResult {
    Void,
    Formed(TypeTree),
    Constructor,
    Unknown,
}

/// Why a file is no unit, with the place where it shows.
#[derive(Clone, Copy)]
pub enum ParseFault {
    /// The first closing bracket that does not match the innermost open one; where the file ends first, the
    /// innermost open one.
    Unbalanced(Place),
    /// The first bracket that is one more than may be open (`racer_base::MAX_BRACKET_NESTING`).
    TooDeep(Place),
    /// The first token that does not fit a unit, or the end of the file.
    NotAUnit(Place),
    /// Memory was refused.
    Memory,
}

impl<T: Drop> From<AllocFailed<T>> for ParseFault {
    ghost from_gives = { λ _ given. given ≡ fault.Memory };

    fn from(_error: AllocFailed<T>) -> ParseFault {
        ParseFault::Memory
    }
}

impl From<Memory> for ParseFault {
    ghost from_gives = { λ _ given. given ≡ fault.Memory };

    fn from(_error: Memory) -> ParseFault {
        ParseFault::Memory
    }
}
