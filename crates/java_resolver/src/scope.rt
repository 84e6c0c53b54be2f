//! What a simple name may mean.
use racer_base::{ClassId, FieldId, Items, Kind, Text, VarId};

/// The kind of a variable, and whether its type is that of an explicit lock.
#[derive(Clone, Copy)]
pub struct VariableKind {
    pub kind: Kind,
    pub is_lock: bool,
}

/// A local or a parameter in scope (JLS 6.3), and whether its type is that of an explicit lock.
#[derive(Drop)]
pub struct ScopeVariable {
    pub name: Text,
    pub id: VarId,
    pub kind: Kind,
    pub is_lock: bool,
}

/// Where a name stands: in which class, in a static method or not, which names mean no class there, and the variables
/// in scope, parameters first and the innermost local last.
#[derive(Drop)]
pub struct Scope {
    pub class: ClassId,
    pub is_static: bool,
    pub hidden: Items<Text>,
    pub variables: Items<ScopeVariable>,
}

/// What a simple name means (JLS 6.5); `Opaque` where it is none of the folder's.
#[derive(Clone, Copy)]
pub enum Meaning {
    Variable(VarId, Kind),
    Field(FieldId),
    Class(ClassId),
    Opaque,
}
