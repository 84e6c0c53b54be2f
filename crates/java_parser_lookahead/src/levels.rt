//! Levels of expressions, whether an expression goes on (JLS 15.14 to 15.26), and how deep it may be nested.
ghost use Rattle.std.specs.Prelude.{◌≡◌, ◌<◌, ◌≤◌, ◌^◌, suc, nat_le};
ghost use Rattle.java_tree.specs.Operators.{binary_level};
ghost use Rattle.java_tree.specs.Formed.{level, is_variable, makes_array};
ghost use Rattle.java_tree.specs.View.{expr_of};
ghost use Rattle.java_parser_lookahead.specs.LeadView.{lead_of};
ghost use Rattle.java_parser_lookahead.specs.GoingOn.{goes_on};
ghost use Rattle.java_parser_lookahead.specs.NearerLevels.{nearer_level};

use super::leads::{Lead, is_text};
use java_parser_types::look::is_listed;
use java_tree::{Expression, Made};

/// JLS 15.21.
const EQUALITIES: [&[u8]; 2] = [b"==", b"!="];

/// JLS 15.20.
const RELATIONS: [&[u8]; 4] = [b"<", b">", b"<=", b">="];

/// JLS 15.19.
const SHIFTS: [&[u8]; 3] = [b"<<", b">>", b">>>"];

/// JLS 15.18.
const SUMS: [&[u8]; 2] = [b"+", b"-"];

/// JLS 15.17.
const PRODUCTS: [&[u8]; 3] = [b"*", b"/", b"%"];

/// The level of a binary operator.
pub fn binary_level(operator: &str) -> u32
    ensures gives { result ≡ binary_level operator.now }
    ensures low { result ≤ 11 }
{
    if is_text(operator, "||") {
        2
    } else if is_text(operator, "&&") {
        3
    } else if is_text(operator, "|") {
        4
    } else if is_text(operator, "^") {
        5
    } else if is_text(operator, "&") {
        6
    } else {
        nearer_level(operator.as_bytes())
    }
}

/// The level of a binary operator that is no logical one.
fn nearer_level(operator: &[u8]) -> u32
    ensures gives { result ≡ nearer_level operator.now }
    ensures low { result ≤ 11 }
{
    if is_listed(&EQUALITIES, operator) {
        7
    } else if is_listed(&RELATIONS, operator) {
        8
    } else if is_listed(&SHIFTS, operator) {
        9
    } else if is_listed(&SUMS, operator) {
        10
    } else if is_listed(&PRODUCTS, operator) {
        11
    } else {
        0
    }
}

fn level(tree: &Expression) -> u32
    ensures { result ≡ level (expr_of tree.now) }
{
    match tree {
        Expression::Assign(_, _, _) | Expression::Lambda(_) => 0,
        Expression::Conditional(_, _, _) => 1,
        Expression::Binary(_, operator, _) => binary_level(operator.as_str()),
        Expression::InstanceOf(_) => 8,
        Expression::Prefix(_, _) | Expression::Cast(_) => 12,
        Expression::Postfix(_, _) => 13,
        _ => 14,
    }
}

/// What may stand left of `=` and beside `++`: a name, a field or an element (JLS 15.26).
pub fn is_variable(tree: &Expression) -> bool
    ensures { result ≡ is_variable (expr_of tree.now) }
{
    matches!(
        tree,
        Expression::Name(_) | Expression::Field(_, _) | Expression::Index(_, _)
    )
}

/// An array creation takes no `[` (JLS 15.10.3).
fn makes_array(tree: &Expression) -> bool
    ensures { result ≡ makes_array (expr_of tree.now) }
{
    let Expression::New(new) = tree else {
        return false;
    };
    match new.made {
        Made::Array(_, _) | Made::Filled(_, _) => true,
        Made::Object(_) | Made::Anonymous(_, _) => false,
    }
}

/// Whether an expression of a level of at least `least` goes on with what the first token begins.
pub fn goes_on(least: u32, tree: &Expression, lead: &Lead<'_>) -> bool
    ensures { result ≡ goes_on least (expr_of tree.now) (lead_of lead.now) }
{
    match lead {
        Lead::Assigns(_, _) => least <= 0 && is_variable(tree),
        Lead::Asks(_) => least <= 1 && level(tree) >= 2,
        Lead::Joins(operator, _) => {
            let own = binary_level(operator);
            least <= own && own <= level(tree)
        }
        Lead::Tests(_) => least <= 8 && level(tree) >= 8,
        Lead::Steps(_, _) => least <= 13 && is_variable(tree),
        Lead::Selects(_) => level(tree) >= 14,
        Lead::Indexes(_) => level(tree) >= 14 && !makes_array(tree),
        Lead::Refers(_) => level(tree) >= 14,
        Lead::Opens | Lead::Binds | Lead::Ends => false,
    }
}

/// Whether a larger expression of this nesting is not nested too deep.
pub fn is_within(limit: u32, nesting: u32) -> bool
    requires { suc (suc limit) < 2 ^ 32 }
    ensures { result ≡ nat_le nesting (suc limit) }
{
    nesting <= limit + 1
}
