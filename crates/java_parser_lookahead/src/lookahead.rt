//! Choices by the first tokens of a statement or a member.
ghost use Rattle.std.specs.Prelude.{◌≡◌, ◌<◌, ◌∷◌, true, false, codes, Some, None, MatchOption, IfSome, IfOk};
ghost use Rattle.std.specs.Prelude.{suc, length, map};
ghost use Rattle.java_lexer.specs.declared.token.TokenKind.TheVariants as kind;
ghost use Rattle.java_tree.specs.KeptPlaces.{kept, is_kept};
ghost use Rattle.java_tree.specs.Rows.{is_row};
ghost use Rattle.java_parser_grammar.specs.Lookahead.{begins_row, begins_class, Other, LabelWord};
ghost use Rattle.java_parser_types.specs.ReadAnswer.{Gives};
ghost use Rattle.java_tree.specs.Brackets.{is_class_word, is_word_name};
ghost use Rattle.java_parser_grammar.specs.Leads.{begins_with};
ghost use Rattle.java_parser_grammar.specs.Lookahead.{goes_local, looks_local, name_and_colon, statement_lead};
ghost use Rattle.java_parser_grammar.specs.Lookahead.{is_constructor};
ghost use Rattle.java_parser_lookahead.specs.StatementLeadView.{statement_lead_of, places_from, LeadIsBelow};
ghost use Rattle.java_parser_lookahead.specs.StatementLeadView.{class_or_label, row_text};
ghost use Rattle.java_parser_grammar.specs.Taking.{after_keyword, after_name, match_option};
ghost use Rattle.java_parser_types.specs.Tokens.{spelled};

use java_lexer::{Token, TokenKind};
use java_parser_types::angles::{in_arguments, is_angle_sign};
use java_parser_types::error::ReadError;
use java_parser_types::look::{after_keyword, after_sign, is_keyword, is_plain_type, is_sign};
use racer_base::Place;

/// A keyword that only one form of statements begins with.
#[derive(Clone, Copy)]
pub enum RowWord {
    While,
    Do,
    Return,
    Break,
    Continue,
    Throw,
    Synchronized,
    Switch,
    Try,
    Assert,
}

/// What a statement begins with, and the tokens behind it.
#[derive(Drop)]
pub enum StatementLead<'a> {
    /// The place is that of the word.
    Row(RowWord, Place, &'a [Token]),
    Semicolon(&'a [Token]),
    Brace(&'a [Token]),
    IfWord(&'a [Token]),
    ForWord(&'a [Token]),
    /// A name with a `:` behind it.
    Label(&'a Token, &'a [Token]),
    /// A local class, with all of its tokens.
    Class(&'a [Token]),
    Other,
}

/// Whether this sign stands in front.
pub fn begins_with(tokens: &[Token], text: &str) -> bool
    ensures { result ≡ begins_with text.now (map spelled tokens.now) }
{
    match tokens {
        [token, ..] => is_sign(token, text),
        [] => false,
    }
}

fn is_word_name(token: &Token) -> bool
    ensures { result ≡ is_word_name (spelled token.now) }
{
    matches!(token.kind, TokenKind::Name) && !token.glued
}

/// Whether a type goes on here to the name of its variable (JLS 14.4).
fn goes_local(tokens: &[Token]) -> bool
    ensures { result ≡ goes_local 0 (map spelled tokens.now) }
{
    let mut depth: usize = 0;
    let mut rest = tokens;
    while let [token, after @ ..] = rest {
        rest = after;
        if is_sign(token, "<") {
            depth += 1;
        } else if is_sign(token, ".") {
            let Some((_, behind)) = after_name(after) else {
                return false;
            };
            rest = behind;
        } else if is_sign(token, "[") {
            let Some(behind) = after_sign(after, "]") else {
                return false;
            };
            rest = behind;
        } else if depth == 0 {
            return is_word_name(token);
        } else if is_angle_sign(token) {
            depth -= 1;
        } else if !in_arguments(token) {
            return false;
        }
    }
    false
}

/// Whether a declaration of variables begins here, where it or an expression does (JLS 14.4, 14.8).
pub fn looks_local(tokens: &[Token]) -> bool
    ensures { result ≡ looks_local (map spelled tokens.now) }
{
    match tokens {
        [token, rest @ ..] => {
            is_keyword(token, "final")
                || is_sign(token, "@")
                || ((is_plain_type(token) || is_word_name(token)) && goes_local(rest))
        }
        [] => false,
    }
}

/// Whether the token is a word of a local class (JLS 14.3).
fn is_class_word(token: &Token) -> bool
    ensures { result ≡ is_class_word (spelled token.now) }
{
    is_keyword(token, "final") || is_keyword(token, "abstract")
}

/// Whether a local class begins here (JLS 14.3).
pub fn begins_class(tokens: &[Token]) -> bool
    ensures { result ≡ begins_class (map spelled tokens.now) }
{
    let mut rest = tokens;
    while let [token, after @ ..] = rest {
        if is_keyword(token, "class") {
            return true;
        }
        if !is_class_word(token) {
            return false;
        }
        rest = after;
    }
    false
}

/// The token of a name with a `:` behind it, and the tokens behind that (JLS 14.14.2).
pub fn name_and_colon(tokens: &[Token]) -> Option<(&Token, &[Token])>
    ensures gives { MatchOption result (name_and_colon (map spelled tokens.now) ≡ None) (λ x. name_and_colon
        (map spelled tokens.now) ≡ Some (x.0.now.text, map spelled x.1.now)) }
    ensures places { IfSome result (λ x. x.0.now.place ∷ kept x.1.now ≡ kept tokens.now) }
    ensures shorter { IfSome result (λ x. length x.1.now < length tokens.now) }
{
    match tokens {
        [token, rest @ ..] if is_word_name(token) => Some((token, after_sign(rest, ":")?)),
        _ => None,
    }
}

/// The tokens behind an `else`, where it stands in front (JLS 14.9.2).
pub fn behind_else(tokens: &[Token]) -> Option<&[Token]>
    ensures gives { MatchOption result (after_keyword (codes "else") (map spelled tokens.now) ≡ None) (λ rest.
        after_keyword (codes "else") (map spelled tokens.now) ≡ Some (map spelled rest.now)) }
    ensures places { IfSome result (λ rest. kept rest.now ≡ kept tokens.now) }
    ensures shorter { IfSome result (λ rest. length rest.now < length tokens.now) }
{
    after_keyword(tokens, "else")
}

/// The tokens behind this keyword, where it stands in front, and whose place no tree keeps.
pub fn after_word<'a>(tokens: &'a [Token], text: &str) -> Option<&'a [Token]>
    requires unkept { is_kept kind.Keyword text.now ≡ false }
    ensures gives { MatchOption result (after_keyword text.now (map spelled tokens.now) ≡ None) (λ rest.
        after_keyword text.now (map spelled tokens.now) ≡ Some (map spelled rest.now)) }
    ensures places { IfSome result (λ rest. kept rest.now ≡ kept tokens.now) }
    ensures shorter { IfSome result (λ rest. length rest.now < length tokens.now) }
{
    after_keyword(tokens, text)
}

/// The same of one that has to stand there.
pub fn keyword<'a>(tokens: &'a [Token], text: &str) -> Result<&'a [Token], ReadError>
    requires unkept { is_kept kind.Keyword text.now ≡ false }
    ensures gives { Gives (λ rest. map spelled rest.now) result (after_keyword text.now (map spelled tokens.now)) }
    ensures places { IfOk result (λ rest. kept rest.now ≡ kept tokens.now) }
    ensures shorter { IfOk result (λ rest. length rest.now < length tokens.now) }
{
    after_word(tokens, text).ok_or(ReadError::Unformed)
}

/// The token of a name, where one stands in front, and the tokens behind it.
pub fn after_name(tokens: &[Token]) -> Option<(&Token, &[Token])>
    ensures gives { MatchOption result (after_name (map spelled tokens.now) ≡ None) (λ x. after_name
        (map spelled tokens.now) ≡ Some (x.0.now.text, map spelled x.1.now)) }
    ensures places { IfSome result (λ x. x.0.now.place ∷ kept x.1.now ≡ kept tokens.now) }
    ensures shorter { IfSome result (λ x. length x.1.now < length tokens.now) }
{
    match tokens {
        [token, rest @ ..] if is_word_name(token) => Some((token, rest)),
        _ => None,
    }
}

/// The form that begins with this keyword.
fn row_named(text: &str) -> Option<RowWord>
    ensures { MatchOption result (is_row text.now ≡ false) (λ word. row_text word ≡ text.now) }
{
    let word = match text {
        "while" => RowWord::While,
        "do" => RowWord::Do,
        "return" => RowWord::Return,
        "break" => RowWord::Break,
        "continue" => RowWord::Continue,
        "throw" => RowWord::Throw,
        "synchronized" => RowWord::Synchronized,
        "switch" => RowWord::Switch,
        "try" => RowWord::Try,
        "assert" => RowWord::Assert,
        _ => return None,
    };
    Some(word)
}

/// The same of a token.
fn row_word(token: &Token) -> Option<RowWord>
    ensures gives { MatchOption result (begins_row (spelled token.now) ≡ false) (λ word. (begins_row
        (spelled token.now) ≡ true) × (row_text word ≡ token.now.text) × (token.now.kind ≡ kind.Keyword)) }
{
    if !matches!(token.kind, TokenKind::Keyword) || token.glued {
        return None;
    }
    row_named(token.text.as_str())
}

/// What a statement begins with that begins with no keyword and no sign of its own.
fn label_of<'a>(token: &'a Token, rest: &'a [Token]) -> StatementLead<'a>
    ensures gives { statement_lead_of result ≡ match_option (name_and_colon (spelled token.now ∷ map spelled
        rest.now)) Other (λ x. LabelWord x.0 x.1) }
    ensures places { places_from result (kept (token.now ∷ rest.now)) ≡ kept (token.now ∷ rest.now) }
    ensures shorter { LeadIsBelow result (suc (length rest.now)) }
{
    if !is_word_name(token) {
        return StatementLead::Other;
    }
    match after_sign(rest, ":") {
        Some(behind) => StatementLead::Label(token, behind),
        None => StatementLead::Other,
    }
}

/// What a statement begins with that begins with no keyword of one form and no sign.
fn class_or_label<'a>(tokens: &'a [Token], token: &'a Token, rest: &'a [Token]) -> StatementLead<'a>
    requires { tokens.now ≡ token.now ∷ rest.now }
    ensures gives { statement_lead_of result ≡ class_or_label (map spelled tokens.now) }
    ensures places { places_from result (kept tokens.now) ≡ kept tokens.now }
    ensures shorter { LeadIsBelow result (length tokens.now) }
{
    if begins_class(tokens) {
        StatementLead::Class(tokens)
    } else {
        label_of(token, rest)
    }
}

/// What a statement begins with, by its first token and those behind it.
fn lead_of<'a>(tokens: &'a [Token], token: &'a Token, rest: &'a [Token]) -> StatementLead<'a>
    requires { tokens.now ≡ token.now ∷ rest.now }
    ensures gives { statement_lead_of result ≡ statement_lead (spelled token.now ∷ map spelled rest.now) }
    ensures places { places_from result (kept (token.now ∷ rest.now)) ≡ kept (token.now ∷ rest.now) }
    ensures shorter { LeadIsBelow result (suc (length rest.now)) }
{
    if let Some(word) = row_word(token) {
        return StatementLead::Row(word, token.place, rest);
    }
    if is_sign(token, ";") {
        StatementLead::Semicolon(rest)
    } else if is_sign(token, "{") {
        StatementLead::Brace(rest)
    } else if is_keyword(token, "if") {
        StatementLead::IfWord(rest)
    } else if is_keyword(token, "for") {
        StatementLead::ForWord(rest)
    } else {
        class_or_label(tokens, token, rest)
    }
}

/// What a statement begins with.
pub fn statement_lead(tokens: &[Token]) -> StatementLead<'_>
    ensures gives { statement_lead_of result ≡ statement_lead (map spelled tokens.now) }
    ensures places { places_from result (kept tokens.now) ≡ kept tokens.now }
    ensures shorter { LeadIsBelow result (length tokens.now) }
{
    match tokens {
        [token, rest @ ..] => lead_of(tokens, token, rest),
        [] => StatementLead::Other,
    }
}

/// Whether a method's name stands here, with no result before it (JLS 8.8).
pub fn is_constructor(tokens: &[Token]) -> bool
    ensures { result ≡ is_constructor (map spelled tokens.now) }
{
    match tokens {
        [token, rest @ ..] => is_word_name(token) && begins_with(rest, "("),
        [] => false,
    }
}
