//! Where the members of a class end (JLS 8.1.6).
ghost use Rattle.std.specs.Prelude.{◌≡◌, ◌<◌, ◌≤◌, [], ◌∷◌, ◌++◌, length, drop, false, MatchOption, IfSome};
ghost use Rattle.java_parser_grammar.specs.Pieces.{items_of};
ghost use Rattle.java_parser_grammar.specs.Members.{ends_member, is_endless, is_lone};
ghost use Rattle.java_parser_grammar.specs.Units.{body_among};
ghost use Rattle.java_parser.specs.Members.{behind_member, cut_of};

use super::items::{inside, next_item};
use super::tests_of_tokens::begins_sign;
use java_lexer::Token;
use java_parser_types::look::is_sign;

/// Whether a member ends with the item, where an `=` stood before it or none.
fn ends_member(equals: bool, item: &[Token]) -> bool
    ensures { result ≡ ends_member equals item.now }
{
    begins_sign(item, ";") || begins_sign(item, "{") && !equals
}

/// How many tokens the first member has, its `;` or its braces included.
fn member_size(tokens: &[Token]) -> usize
    ensures behind { items_of (drop result tokens.now) ≡ behind_member false (items_of tokens.now) }
    ensures within { result ≤ length tokens.now }
{
    let mut equals = false;
    let mut size = 0;
    let mut rest = tokens;
    while let Some((item, after)) = next_item(rest) {
        size += item.len();
        if ends_member(equals, item) {
            return size;
        }
        equals = equals || begins_sign(item, "=");
        rest = after;
    }
    size
}

/// The first member or lone `;`, and the tokens behind it.
pub fn next_member(tokens: &[Token]) -> Option<(&[Token], &[Token])>
    ensures first { MatchOption result (tokens.now ≡ []) (λ x. cut_of tokens.now ≡ x.0.now ∷ cut_of x.1.now) }
    ensures shorter { IfSome result (λ x. length x.1.now < length tokens.now) }
{
    match tokens {
        [] => None,
        [_, ..] => Some(tokens.split_at(member_size(tokens))),
    }
}

/// Whether no item ends a member.
pub fn is_endless(tokens: &[Token]) -> bool
    ensures { result ≡ is_endless false (items_of tokens.now) }
{
    let mut equals = false;
    let mut rest = tokens;
    while let Some((item, after)) = next_item(rest) {
        if ends_member(equals, item) {
            return false;
        }
        equals = equals || begins_sign(item, "=");
        rest = after;
    }
    true
}

/// Whether it is a `;` alone.
pub fn is_lone(member: &[Token]) -> bool
    ensures { result ≡ is_lone member.now }
{
    match member {
        [token] => is_sign(token, ";"),
        _ => false,
    }
}

/// The tokens in the braces at the end of a type.
pub fn body(tokens: &[Token]) -> &[Token]
    ensures { result.now ≡ body_among (items_of tokens.now) }
{
    let mut last: &[Token] = &[];
    let mut rest = tokens;
    while let Some((item, after)) = next_item(rest) {
        last = item;
        rest = after;
    }
    inside(last)
}
