//! The parts of a program.
use crate::{Code, Reason};
use racer_base::{ClassId, FieldId, Items, Kind, Place, Text};

/// A class.
#[derive(Drop)]
pub struct ClassCore {
    pub name: Text,
    pub place: Place,
    pub checked: bool,
}

/// A field of a class.
#[derive(Drop)]
pub struct FieldCore {
    pub class: ClassId,
    pub name: Text,
    pub kind: Kind,
    pub is_static: bool,
    /// Whether its accesses are recorded: it is neither volatile nor final.
    pub recorded: bool,
}

/// A method of a class.
#[derive(Drop)]
pub struct MethodCore {
    pub class: ClassId,
    pub name: Text,
    pub place: Place,
    pub parameters: Items<Kind>,
    pub result: Kind,
    /// The kinds of all variables: `this` of an instance method, the parameters, the locals.
    pub variables: Items<Kind>,
    pub is_static: bool,
    pub entry: bool,
    /// Whether it runs on the main thread.
    pub main: bool,
    /// Why it is not analysed. None says that it is.
    pub status: Option<Reason>,
    pub code: Code,
}

/// What a program is made of.
#[derive(Drop)]
pub struct Parts {
    /// The names of the source files, in byte order.
    pub files: Items<Text>,
    /// The places of types and members that are not read, in source order.
    pub skipped: Items<Place>,
    pub classes: Items<ClassCore>,
    pub fields: Items<FieldCore>,
    pub methods: Items<MethodCore>,
}
