//! The arguments of a call.
ghost use Rattle.std.specs.Prelude.{◌≡◌, drop};

use java_tree::Expression;

/// The arguments behind so many: these are converted to nothing, and are evaluated all the same (JLS 15.12.4.2).
pub fn further_arguments(arguments: &[Expression], count: usize) -> &[Expression]
    ensures { result.now ≡ drop count arguments.now }
{
    if arguments.len() < count {
        return &[];
    }
    &arguments[count..]
}
