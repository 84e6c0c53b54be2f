//! What is counted or looked for among the tokens of a method.
ghost use Rattle.std.specs.Prelude.{◌≡◌, ◌<◌, ◌≤◌, ◌^◌, suc, length, codes};
ghost use Rattle.std.specs.List.{list_any};
ghost use Rattle.java_parser_grammar.specs.Pieces.{items_of};
ghost use Rattle.java_parser_grammar.specs.Heads.{commas_among, parameters_among, has_static};

use super::items::next_item;
use super::tests_of_tokens::{begins_angle, begins_sign, begins_word};
use java_lexer::Token;

/// How many commas stand outside brackets, `<` and `>` among these.
fn commas(tokens: &[Token]) -> u32
    requires { length tokens.now < 2 ^ 32 }
    ensures count { result ≡ commas_among 0 (items_of tokens.now) }
    ensures few { result ≤ length tokens.now }
{
    let mut angles: u32 = 0;
    let mut count: u32 = 0;
    let mut rest = tokens;
    while let Some((item, after)) = next_item(rest) {
        if begins_sign(item, "<") {
            angles += 1;
        } else if begins_angle(item) {
            angles = angles.saturating_sub(1);
        } else if begins_sign(item, ",") && angles == 0 {
            count += 1;
        }
        rest = after;
    }
    count
}

/// The number of parameters between these parentheses: none, or one more than the commas.
pub fn parameters(inner: &[Token]) -> u32
    requires { suc (length inner.now) < 2 ^ 32 }
    ensures { result ≡ parameters_among (items_of inner.now) }
{
    match next_item(inner) {
        None => 0,
        Some(_) => commas(inner) + 1,
    }
}

/// Whether `static` stands outside brackets.
pub fn has_static(front: &[Token]) -> bool
    ensures { result ≡ has_static front.now }
{
    let mut rest = front;
    while let Some((item, after)) = next_item(rest) {
        if begins_word(item, "static") {
            return true;
        }
        rest = after;
    }
    false
}
