//! What form a member has.
ghost use Rattle.std.specs.Prelude.{◌≡◌, Some, None, map, codes, MatchOption};
ghost use Rattle.java_parser_grammar.specs.Tokens.{is_sign_token, is_keyword_of};
ghost use Rattle.java_parser_grammar.specs.Cuts.{ends};
ghost use Rattle.java_parser_grammar.specs.Pieces.{items_of, pieces_of};
ghost use Rattle.java_parser_grammar.specs.Members.{is_block, is_modifier, behind_words, begins_type};
ghost use Rattle.java_parser_grammar.specs.Members.{before_parentheses, name_at_end};
ghost use Rattle.java_parser_grammar.specs.Members.{form_by, form_of};
ghost use Rattle.java_parser.specs.FormView.{form_view};

use super::bodies::is_endless;
use super::declarations::TYPE_WORDS;
use super::items::next_item;
use super::pieces::{is_annotation, next_piece};
use super::tests_of_tokens::{begins_sign, begins_word, worded_among};
use java_lexer::Token;
use java_parser_types::look::{is_name, is_sign};

/// All words that stand before a declaration (JLS 8.1.1, 8.3.1, 8.4.3, 9.4).
const MODIFIERS: [&[u8]; 12] = [
    b"public",
    b"protected",
    b"private",
    b"static",
    b"abstract",
    b"final",
    b"strictfp",
    b"synchronized",
    b"native",
    b"transient",
    b"volatile",
    b"default",
];

/// The form of a member.
#[derive(Clone, Copy)]
pub enum Form<'a> {
    Skipped,
    /// What stands before the name of a method, the name, and its parentheses.
    Method(&'a [Token], &'a Token, &'a [Token]),
    Field,
}

/// `{ .. }` or `static { .. }` (JLS 8.6, 8.7).
fn is_block(member: &[Token]) -> bool
    ensures { result ≡ is_block (items_of member.now) }
{
    let Some((first, rest)) = next_item(member) else {
        return false;
    };
    let Some((second, rest)) = next_item(rest) else {
        return begins_sign(first, "{");
    };
    match next_item(rest) {
        Some(_) => false,
        None => begins_word(first, "static") && begins_sign(second, "{"),
    }
}

/// The tokens from the first piece on that is no annotation and none of these words.
fn behind_words<'a>(words: &[&[u8]], tokens: &'a [Token]) -> &'a [Token]
    ensures { pieces_of result.now ≡ behind_words (is_keyword_of (map (λ word. word.now) words.now))
        (pieces_of tokens.now) }
{
    let mut rest = tokens;
    while let Some((piece, after)) = next_piece(rest) {
        if !is_annotation(piece) && !worded_among(piece, words) {
            return rest;
        }
        rest = after;
    }
    rest
}

/// Whether `class`, `interface`, `enum` or `@ interface` stands first.
fn begins_type(tokens: &[Token]) -> bool
    ensures { result ≡ begins_type (pieces_of tokens.now) }
{
    let Some((first, rest)) = next_piece(tokens) else {
        return false;
    };
    match next_piece(rest) {
        Some((second, _)) => {
            worded_among(first, &TYPE_WORDS)
                || begins_sign(first, "@") && begins_word(second, "interface")
        }
        None => worded_among(first, &TYPE_WORDS),
    }
}

/// Whether a type is declared behind annotations and modifiers (JLS 8.5).
fn declares_type(member: &[Token]) -> bool
    ensures { result ≡ begins_type (behind_words is_modifier (pieces_of member.now)) }
{
    begins_type(behind_words(&MODIFIERS, member))
}

/// What stands before the first parentheses outside annotations and brackets, and these, where no `=` stands before
/// them.
fn head(member: &[Token]) -> Option<(&[Token], &[Token])>
    ensures { MatchOption result (before_parentheses (pieces_of member.now) ≡ None)
        (λ x. before_parentheses (pieces_of member.now)
        ≡ Some (x.0.now, x.1.now)) }
{
    let mut size = 0;
    let mut rest = member;
    while let Some((piece, after)) = next_piece(rest) {
        if begins_sign(piece, "(") {
            let (front, _) = member.split_at(size);
            return Some((front, piece));
        }
        if begins_sign(piece, "=") {
            return None;
        }
        size += piece.len();
        rest = after;
    }
    None
}

/// The tokens before the last, and the last where it is a name.
#[tactic(auto, using(crate::proofs::HeadSteps::name_found, crate::proofs::HeadSteps::name_lacks, crate::proofs::HeadSteps::none_at_end))]
fn name_at_end(tokens: &[Token]) -> Option<(&[Token], &Token)>
    ensures { MatchOption result (name_at_end tokens.now ≡ None) (λ x. name_at_end tokens.now
        ≡ Some (x.0.now, x.1.now)) }
{
    match tokens.split_last() {
        Some((name, before)) => {
            if is_name(name) {
                Some((before, name))
            } else {
                None
            }
        }
        None => None,
    }
}

/// Whether braces are the end of the tokens.
#[tactic(auto, using(crate::proofs::HeadSteps::ends_found, crate::proofs::HeadSteps::ends_none))]
fn ends_with_braces(tokens: &[Token]) -> bool
    ensures { result ≡ ends (is_sign_token (codes "}")) tokens.now }
{
    match tokens.split_last() {
        Some((last, _)) => is_sign(last, "}"),
        None => false,
    }
}

/// The form of a member that has parentheses behind this.
fn method_form<'a>(front: &'a [Token], parentheses: &'a [Token], braces: bool) -> Form<'a>
    ensures { form_view result ≡ form_by braces (Some (front.now, parentheses.now)) }
{
    if !braces {
        return Form::Skipped;
    }
    match name_at_end(front) {
        Some((before, name)) => Form::Method(before, name, parentheses),
        None => Form::Skipped,
    }
}

/// The form of a member, the first that fits.
pub fn form_of(member: &[Token]) -> Form
    ensures { form_view result ≡ form_of member.now }
{
    if is_endless(member) || is_block(member) || declares_type(member) {
        return Form::Skipped;
    }
    match head(member) {
        Some((front, parentheses)) => method_form(front, parentheses, ends_with_braces(member)),
        None => Form::Field,
    }
}
