//! Marks by the number of their warning.
ghost use Rattle.std.specs.Prelude.{◌≡◌, ◌<◌, Some, length, slice_get};

use core_ways::Mark;

/// The mark of this number.
pub fn mark_at(marks: &[Mark], number: usize) -> &Mark
    requires { number < length marks.now }
    ensures { slice_get marks.now number ≡ Some result.now }
{
    &marks[number]
}
