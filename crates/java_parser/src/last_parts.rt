//! What may be the last part of a type at the end of tokens.
ghost use Rattle.std.specs.Prelude.{◌≡◌, ◌<◌, ◌^◌, List, suc, map, IfSome, IfNone};
ghost use Rattle.java_tree.specs.declared.words.Spelled.{Spelled};
ghost use Rattle.java_parser_types.specs.Tokens.{spelled};
ghost use Rattle.java_parser.specs.declared.last_parts.Behind.TheVariants.{Angles};
ghost use Rattle.java_parser.specs.LastParts.{open_of, found_with, scanned, Ended};

use crate::tests_of_tokens::is_angle;
use java_lexer::Token;
use java_parser_types::look::is_sign;

/// What stands behind the tokens that were not looked at yet.
#[derive(Clone, Copy)]
enum Behind {
    /// Pairs of `[ ]`, or nothing.
    Brackets,
    /// A `]`, and such pairs.
    Closing,
    /// Part of type arguments, in which so many angle brackets are open.
    Angles(usize),
    /// All of the type arguments.
    Arguments,
}

#[derive(Clone, Copy)]
enum Scanned {
    More(Behind),
    Part,
    Nothing,
}

/// What is found in angle brackets, of which so many are open.
fn found_in_angles(depth: usize, token: &Token) -> Scanned
    requires { suc depth < 2 ^ 64 }
    ensures { result ≡ found_with (Angles depth) (spelled token.now) }
{
    if is_angle(token) {
        Scanned::More(Behind::Angles(depth + 1))
    } else if !is_sign(token, "<") {
        Scanned::More(Behind::Angles(depth))
    } else if depth == 1 {
        Scanned::More(Behind::Arguments)
    } else {
        Scanned::More(Behind::Angles(depth.saturating_sub(1)))
    }
}

fn found_with(behind: Behind, token: &Token) -> Scanned
    requires { suc (open_of behind) < 2 ^ 64 }
    ensures { result ≡ found_with behind (spelled token.now) }
{
    match behind {
        Behind::Brackets => {
            if is_sign(token, "]") {
                Scanned::More(Behind::Closing)
            } else if is_angle(token) {
                Scanned::More(Behind::Angles(1))
            } else {
                Scanned::Part
            }
        }
        Behind::Closing => {
            if is_sign(token, "[") {
                Scanned::More(Behind::Brackets)
            } else {
                Scanned::Nothing
            }
        }
        Behind::Angles(depth) => found_in_angles(depth, token),
        Behind::Arguments => Scanned::Part,
    }
}

/// The name at the end, with its type arguments and its `[ ]`.
pub fn last_part(tokens: &[Token]) -> Option<&[Token]>
    ensures part { IfSome result (λ part. scanned (map spelled tokens.now) ≡ Ended (map spelled part.now)) }
    ensures none { IfNone result ((part : List Spelled) → scanned (map spelled tokens.now) ≡ Ended part → ⊥) }
{
    let mut behind = Behind::Brackets;
    let mut rest = tokens;
    while let Some((token, before)) = rest.split_last() {
        match found_with(behind, token) {
            Scanned::More(next) => behind = next,
            Scanned::Part => {
                let (_, part) = tokens.split_at(before.len());
                return Some(part);
            }
            Scanned::Nothing => return None,
        }
        rest = before;
    }
    None
}
