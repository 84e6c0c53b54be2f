//! Numbers of what there are.
ghost use Rattle.std.specs.Prelude.{◌≡◌, IfOk};

use racer_base::Memory;

/// How many there are.
pub fn number_of(count: usize) -> Result<u32, Memory>
    ensures { IfOk result (λ n. n ≡ count) }
{
    u32::try_from(count).map_err(|_| Memory)
}
