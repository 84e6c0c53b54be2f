//! What rows and numbers have for a method.
ghost use Rattle.std.specs.Prelude.{◌≡◌, IfOk, length, ◌<◌};
ghost use Rattle.core_code.specs.Chains.{row_of};
ghost use Rattle.core_code.specs.Falling.{number_of};

use racer_base::{Items, Memory, MethodId};

/// The methods that a method calls.
pub(crate) fn row<'a>(rows: &'a [Items<MethodId>], m: MethodId) -> &'a [MethodId]
    ensures { result.now ≡ row_of rows.now m }
{
    match rows.get(m.0 as usize) {
        Some(row) => row.as_slice(),
        None => &[],
    }
}

/// The entry of a method, or 0 where it has none.
pub(crate) fn entry(numbers: &[usize], m: MethodId) -> usize
    ensures { result ≡ number_of numbers.now m }
{
    match numbers.get(m.0 as usize) {
        Some(number) => *number,
        None => 0,
    }
}

/// The method whose row stands at this place.
pub(crate) fn method_at(place: usize) -> Result<MethodId, Memory>
    ensures { IfOk result (λ m. m.0 ≡ place) }
{
    match u32::try_from(place) {
        Ok(place) => Ok(MethodId(place)),
        Err(_) => Err(Memory),
    }
}
