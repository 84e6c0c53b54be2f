//! What may fail in a method.
ghost use Rattle.std.specs.Prelude.{◌≡◌, option_to_list};
ghost use Rattle.typed_core.specs.Contexts.{flag_of};
ghost use Rattle.typed_core.specs.Typings.{place_failing};

use racer_base::{ClassId, Place};

/// A place at which a method may fail to be typed.
#[derive(Clone, Copy)]
pub enum Doubt {
    /// It fails whatever else is reached.
    Always(Place),
    /// An object of a class is made there, which fails where a field of such objects is read.
    IfRead(ClassId, Place),
}

impl Doubt {
    /// The place, where it fails, by the flags of the classes whose fields are read.
    pub(crate) fn failing(self, is_read: &[bool]) -> Option<Place>
        ensures { option_to_list result ≡ place_failing (flag_of is_read.now) self }
    {
        match self {
            Doubt::Always(place) => Some(place),
            Doubt::IfRead(class, place) => match is_read.get(class.0 as usize) {
                Some(true) => Some(place),
                _ => None,
            },
        }
    }
}
