//! Equality and an order of objects.
ghost use Rattle.std.specs.Prelude.{◌≡◌, length};
ghost use Rattle.core_semantics.specs.Order.{object_form, first_number, second_number, object_fields, object_cmp};

use crate::{Object, StartRoot};
use racer_base::FieldId;
use std::cmp::Ordering;

impl Object {
    /// The number of the form of an object, its two numbers, 0 where it has none, and how many fields it has.
    fn numbers(&self) -> (u32, u32, u32, usize)
        ensures { result ≡ (
          object_form self.now,
          first_number self.now,
          second_number self.now,
          length (object_fields self.now),
        ) }
    {
        match self {
            Object::Fresh(number) => (3, *number, 0, 0),
            Object::Start(path) => match path.root {
                StartRoot::This => (0, 0, 0, path.fields.len()),
                StartRoot::Class(class) => (1, class.0, 0, path.fields.len()),
                StartRoot::Param(thread, number) => (2, thread, number, path.fields.len()),
            },
        }
    }

    /// The fields of an object's path.
    fn fields(&self) -> &[FieldId]
        ensures { result.now ≡ object_fields self.now }
    {
        match self {
            Object::Start(path) => path.fields.as_slice(),
            Object::Fresh(_) => &[],
        }
    }
}

impl PartialEq for Object {
    ghost use Rattle.core_semantics.specs.Objects.{same_object};
    ghost use Rattle.core_semantics.specs.Same.{same_object-laws};

    ghost eq = { same_object };

    ghost laws = { same_object-laws };

    fn eq(&self, other: &Object) -> bool {
        compare(self, other).is_eq()
    }
}

impl Eq for Object {
    ghost use Rattle.core_semantics.specs.Same.{same_object-equivalence};

    ghost laws = { same_object-equivalence };
}

impl PartialOrd for Object {
    ghost use Rattle.std.specs.Ordering.{as_partial_cmp};
    ghost use Rattle.core_semantics.specs.Order.{object_cmp};
    ghost use Rattle.core_semantics.specs.Same.{object_cmp-partial};

    ghost partial_cmp = { as_partial_cmp object_cmp };

    ghost laws = { object_cmp-partial };

    fn partial_cmp(&self, other: &Object) -> Option<Ordering> {
        Some(compare(self, other))
    }
}

impl Ord for Object {
    ghost use Rattle.std.proofs.Common.{refl, sym};
    ghost use Rattle.core_semantics.specs.Order.{object_cmp};
    ghost use Rattle.core_semantics.specs.Same.{object_cmp-total, tied};

    ghost cmp = { object_cmp };

    ghost total = { object_cmp-total };

    ghost matches_partial_cmp = { λ a b. refl };

    ghost matches_eq = { λ a b. sym (tied a b) };

    fn cmp(&self, other: &Object) -> Ordering {
        compare(self, other)
    }
}

/// The order of two objects: of their forms, of their numbers, of how many fields they have, and of these in turn.
fn compare(a: &Object, b: &Object) -> Ordering
    ensures { result ≡ object_cmp a.now b.now }
{
    let numbers = a.numbers().cmp(&b.numbers());
    if numbers.is_eq() {
        a.fields().cmp(b.fields())
    } else {
        numbers
    }
}
