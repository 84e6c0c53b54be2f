//! What stands outside brackets.
ghost use Rattle.std.specs.Prelude.{◌≡◌, ◌<◌, ◌≤◌, [], ◌∷◌, ◌++◌, length, take, drop, MatchOption, IfSome};
ghost use Rattle.java_parser_grammar.specs.Pieces.{items_of, inside};
ghost use Rattle.java_parser.specs.Sizes.{item_size};

use super::balance::depth_behind;
use java_lexer::Token;

/// How many tokens the first item has.
pub fn item_size(tokens: &[Token]) -> usize
    ensures size { result ≡ item_size 0 tokens.now }
    ensures within { result ≤ length tokens.now }
{
    let mut depth = 0;
    for (index, token) in tokens.iter().enumerate() {
        depth = depth_behind(depth, token);
        if depth == 0 {
            return index + 1;
        }
    }
    tokens.len()
}

/// The first item, and the tokens behind it.
pub fn next_item(tokens: &[Token]) -> Option<(&[Token], &[Token])>
    ensures first { MatchOption result (tokens.now ≡ []) (λ x. items_of tokens.now ≡ x.0.now ∷ items_of x.1.now) }
    ensures parts { IfSome result (λ x. tokens.now ≡ x.0.now ++ x.1.now) }
    ensures shorter { IfSome result (λ x. length x.1.now < length tokens.now) }
{
    match tokens {
        [] => None,
        [_, ..] => Some(tokens.split_at(item_size(tokens))),
    }
}

/// The tokens between the first and the last.
pub fn inside(tokens: &[Token]) -> &[Token]
    ensures { result.now ≡ inside tokens.now }
{
    match tokens {
        [_, inner @ .., _] => inner,
        _ => &[],
    }
}
