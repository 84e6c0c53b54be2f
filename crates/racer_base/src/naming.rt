//! The names of what a program has.
ghost use Rattle.std.specs.Prelude.{◌≡◌, ◌<◌, ℕ, List, length, slice_get, Some};

use crate::{ClassId, FieldId};

/// What gives the names of classes and fields.
pub trait Names {
    /// The names of the classes, in order of their numbers.
    ghost class_names: { Self → List (List ℕ) };

    /// The names of the fields, in order of their numbers.
    ghost field_names: { Self → List (List ℕ) };

    fn class_name(&self, c: ClassId) -> &str
        requires { c.0 < length (class_names self.now) }
        ensures { slice_get (class_names self.now) c.0 ≡ Some result.now };

    fn field_name(&self, f: FieldId) -> &str
        requires { f.0 < length (field_names self.now) }
        ensures { slice_get (field_names self.now) f.0 ≡ Some result.now };
}
