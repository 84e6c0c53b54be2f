//! Where a lambda may stand (JLS 15.27).
ghost use Rattle.std.specs.Prelude.{◌≡◌, ℕ, true, List, map, nat_le, if◌then◌else◌};
ghost use Rattle.java_tree.specs.declared.words.Spelled.{Spelled};
ghost use Rattle.java_tree.specs.Formed.{are_plain, is_plain};
ghost use Rattle.java_tree.specs.Operators.{assignment_level};
ghost use Rattle.java_tree.specs.View.{ty_of};
ghost use Rattle.java_parser_grammar.specs.ExpressionReading.{lambda_level};
ghost use Rattle.java_parser_grammar.specs.Leads.{begins_lambda};
ghost use Rattle.java_parser_lookahead.specs.LambdaPlaces.{part_level};

use java_tree::{BaseType, TypeTree};

/// Where a lambda may stand beside the expressions of a level.
#[derive(Clone, Copy)]
pub enum Lambdas {
    /// Where an assignment may.
    AsAssignments,
    /// At every level: as the last part of a conditional expression, and behind a cast.
    Anywhere,
}

/// Whether a lambda may stand where parts of this level are read (JLS 15.27): elsewhere it is no operand.
pub fn may_stand(lambdas: Lambdas, level: u32) -> bool
    ensures { (ts : List Spelled) → begins_lambda ts ≡ true → nat_le (part_level lambdas level ts) assignment_level
        ≡ result }
{
    match lambdas {
        Lambdas::AsAssignments => level == 0,
        Lambdas::Anywhere => true,
    }
}

/// A primitive type without `[ ]`.
fn is_plain(kind: &TypeTree) -> bool
    ensures { result ≡ is_plain (ty_of kind.now) }
{
    kind.arrays == 0 && matches!(kind.base, BaseType::Plain(_))
}

/// Whether a cast is one to a primitive type alone.
fn are_plain(types: &[TypeTree]) -> bool
    ensures { result ≡ are_plain (map ty_of types.now) }
{
    match types {
        [kind] => is_plain(kind),
        _ => false,
    }
}

/// Where a lambda may stand behind a cast to these types: no primitive value is one.
pub fn lambdas_behind(types: &[TypeTree]) -> Lambdas
    ensures { (level : ℕ) (ts : List Spelled) → part_level result level ts ≡ (if are_plain (map ty_of types.now)
        then level else lambda_level level ts) }
{
    if are_plain(types) {
        Lambdas::AsAssignments
    } else {
        Lambdas::Anywhere
    }
}
