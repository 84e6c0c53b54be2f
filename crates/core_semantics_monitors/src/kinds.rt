//! Kinds of monitors.
ghost use Rattle.std.specs.Prelude.{◌≡◌};
ghost use Rattle.core_semantics_monitors.specs.Kinds.{lock_kind_number};

use core_code::LockKind;

/// The number of a kind, by which monitors are in order.
pub fn lock_kind_number(kind: LockKind) -> u32
    ensures { result ≡ lock_kind_number kind }
{
    match kind {
        LockKind::Own => 0,
        LockKind::Explicit => 1,
    }
}
