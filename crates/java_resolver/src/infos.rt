//! What is known of classes, fields and methods by their names.
use crate::hidden::Hidden;
use container_cells::Family;
use racer_base::{ClassId, Items, Kind, Place, Text};

/// A class, with the place of its name (JLS 8.1).
#[derive(Drop)]
pub struct ClassInfo {
    pub name: Text,
    pub place: Place,
    pub checked: bool,
}

/// A field, with the place of its name (JLS 8.3).
#[derive(Drop)]
pub struct FieldInfo {
    pub class: ClassId,
    pub name: Text,
    pub place: Place,
    pub kind: Kind,
    pub is_static: bool,
    pub is_final: bool,
    pub is_volatile: bool,
    /// Whether it is a lock field.
    pub is_lock: bool,
    /// The family of the container that it holds, where it is a container field.
    pub family: Option<Family>,
}

/// A method or a constructor, with the place of its name (JLS 8.4, 8.8). A constructor has the name `<new>`; one that
/// no class declares stands at the class's name (JLS 8.8.9).
#[derive(Drop)]
pub struct MethodInfo {
    pub class: ClassId,
    pub name: Text,
    pub place: Place,
    pub parameters: Items<Kind>,
    /// Whether the last parameter takes any number of arguments.
    pub any_number: bool,
    /// `void` counts as `Plain`.
    pub result: Kind,
    pub is_static: bool,
    pub is_private: bool,
    pub is_constructor: bool,
    /// Whether it runs on the main thread.
    pub main: bool,
    /// Whether it is annotated as not safe for threads.
    pub not_thread_safe: bool,
    /// The names that mean no class of the folder in it.
    pub hidden: Hidden,
}
