//! Which method a call means.
ghost use Rattle.std.specs.Prelude.{◌≡◌};
ghost use Rattle.std.specs.Option.{option_or};

use racer_base::MethodId;

/// Of the method that takes just so many arguments and the one that takes any number, where there are such: the one
/// with just so many comes first (JLS 15.12.2).
pub fn method_meant(exactly: Option<MethodId>, with_any: Option<MethodId>) -> Option<MethodId>
    ensures { result ≡ option_or exactly with_any }
{
    exactly.or(with_any)
}
