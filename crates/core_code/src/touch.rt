//! What the touch of a field does.
ghost use Rattle.std.specs.Prelude.{◌≡◌};
ghost use Rattle.core_code.specs.Touches.{is_write};

use racer_base::Touch;

/// Whether a touch writes its field (JLS 17.4.1).
pub fn is_write(kind: Touch) -> bool
    ensures { result ≡ is_write kind }
{
    matches!(kind, Touch::Write)
}
