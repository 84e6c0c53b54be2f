//! What the first token does behind an expression, and the choice between a lambda, a cast and parentheses.
ghost use Rattle.std.specs.Prelude.{◌≡◌, suc, true, Some, None, ◌&&◌, ◌||◌, MatchOption, length, map, bytes_eq};
ghost use Rattle.racer_base.specs.Name.{is_listed};
ghost use Rattle.racer_base.specs.declared.ids.Place.{Place};
ghost use Rattle.java_lexer.specs.declared.token.TokenKind.TheVariants as kind;
ghost use Rattle.java_tree.specs.KeptPlaces.{kept, place_onto};
ghost use Rattle.java_tree.specs.Operators.{is_assignment, is_step, is_prefix};
ghost use Rattle.java_parser_grammar.specs.Leads.{lead_of_angle, lead_of_sign, lead_of_word, lead, one_sign_operators};
ghost use Rattle.java_parser_grammar.specs.Leads.{opens_operand, opens_signed, behind, begins_lambda, is_plain_cast};
ghost use Rattle.java_parser_grammar.specs.Leads.{binds, casts, ends_expression};
ghost use Rattle.java_parser_types.specs.Tokens.{spelled};
ghost use Rattle.java_parser_lookahead.specs.FirstParenthesis.{behind_first, nests};
ghost use Rattle.java_parser_lookahead.specs.MarkLeads.{lead_of_mark, lead_of_last_mark};
ghost use Rattle.java_parser_lookahead.specs.LeadView.{lead_of, places_behind, IsBelow};

use super::lookahead::begins_with;
use java_lexer::{Token, TokenKind};
use java_parser_types::angles::{is_signed, opens, opens_word};
use java_parser_types::look::{after_glued, after_plain, after_sign, is_listed, is_name, is_sign};

/// JLS 15.26.
const ASSIGNMENTS: [&[u8]; 12] = [
    b"=", b"+=", b"-=", b"*=", b"/=", b"&=", b"|=", b"^=", b"%=", b"<<=", b">>=", b">>>=",
];

/// The binary operators that are one token and do not begin with `>`, and `>=` (JLS 15.17 to 15.24).
const ONE_SIGN_OPERATORS: [&[u8]; 16] = [
    b"||", b"&&", b"|", b"^", b"&", b"==", b"!=", b"<", b"<=", b">=", b"<<", b"+", b"-", b"*",
    b"/", b"%",
];

/// JLS 15.14.2, 15.14.3, 15.15.1 and 15.15.2.
const STEPS: [&[u8]; 2] = [b"++", b"--"];

/// JLS 15.15.
const PREFIXES: [&[u8]; 6] = [b"+", b"-", b"!", b"~", b"++", b"--"];

/// The signs behind the parameters of a lambda and behind the arguments of an anonymous class (JLS 15.27, 15.9.5).
const BINDING: [&[u8]; 2] = [b"->", b"{"];

/// What a first token begins behind an expression, and the tokens behind it.
#[derive(Drop)]
pub enum Lead<'a> {
    Assigns(&'a str, &'a [Token]),
    Asks(&'a [Token]),
    Joins(&'a str, &'a [Token]),
    Tests(&'a [Token]),
    Steps(&'a str, &'a [Token]),
    Selects(&'a [Token]),
    Indexes(&'a [Token]),
    Refers(&'a [Token]),
    /// An operand, which goes on with no expression.
    Opens,
    /// `->` or `{`, before which no whole expression stands.
    Binds,
    Ends,
}

/// Whether two texts are one.
pub fn is_text(text: &str, other: &str) -> bool
    ensures { result ≡ bytes_eq text.now other.now }
{
    text == other
}

fn is_assignment(text: &str) -> bool
    ensures { result ≡ is_assignment text.now }
{
    is_listed(&ASSIGNMENTS, text.as_bytes())
}

fn is_one_sign_operator(text: &str) -> bool
    ensures { result ≡ is_listed one_sign_operators text.now }
{
    is_listed(&ONE_SIGN_OPERATORS, text.as_bytes())
}

pub fn is_step(text: &str) -> bool
    ensures { result ≡ is_step text.now }
{
    is_listed(&STEPS, text.as_bytes())
}

pub fn is_prefix(text: &str) -> bool
    ensures { result ≡ is_prefix text.now }
{
    is_listed(&PREFIXES, text.as_bytes())
}

fn binds(text: &str) -> bool
    ensures { result ≡ binds text.now }
{
    is_listed(&BINDING, text.as_bytes())
}

/// Behind a `>`: the shifts have one or two glued `>` there (JLS 15.19).
fn lead_of_angle(tokens: &[Token]) -> Lead<'_>
    ensures gives { lead_of result ≡ lead_of_angle (map spelled tokens.now) }
    ensures places { places_behind result (kept tokens.now) ≡ kept tokens.now }
    ensures shorter { IsBelow result (suc (length tokens.now)) }
{
    let Some(rest) = after_glued(tokens) else {
        return Lead::Joins(">", tokens);
    };
    match after_glued(rest) {
        Some(last) => Lead::Joins(">>>", last),
        None => Lead::Joins(">>", rest),
    }
}

fn lead_of_sign<'a>(text: &'a str, tokens: &'a [Token]) -> Lead<'a>
    ensures gives { lead_of result ≡ lead_of_sign text.now (map spelled tokens.now) }
    ensures places { places_behind result (kept tokens.now) ≡ kept tokens.now }
    ensures shorter { IsBelow result (suc (length tokens.now)) }
{
    if is_assignment(text) {
        Lead::Assigns(text, tokens)
    } else if is_one_sign_operator(text) {
        Lead::Joins(text, tokens)
    } else if is_step(text) {
        Lead::Steps(text, tokens)
    } else {
        lead_of_mark(text, tokens)
    }
}

/// Of a sign that is in no table of operators.
fn lead_of_mark<'a>(text: &'a str, tokens: &'a [Token]) -> Lead<'a>
    ensures gives { lead_of result ≡ lead_of_mark text.now (map spelled tokens.now) }
    ensures places { places_behind result (kept tokens.now) ≡ kept tokens.now }
    ensures shorter { IsBelow result (suc (length tokens.now)) }
{
    if is_text(text, ">") {
        lead_of_angle(tokens)
    } else if is_text(text, "?") {
        Lead::Asks(tokens)
    } else if is_text(text, ".") {
        Lead::Selects(tokens)
    } else if is_text(text, "[") {
        Lead::Indexes(tokens)
    } else {
        lead_of_last_mark(text, tokens)
    }
}

/// Of one that goes on with no names and no elements.
fn lead_of_last_mark<'a>(text: &'a str, tokens: &'a [Token]) -> Lead<'a>
    ensures gives { lead_of result ≡ lead_of_last_mark text.now (map spelled tokens.now) }
    ensures places { places_behind result (kept tokens.now) ≡ kept tokens.now }
    ensures shorter { IsBelow result (suc (length tokens.now)) }
{
    if is_text(text, "::") {
        Lead::Refers(tokens)
    } else if binds(text) {
        Lead::Binds
    } else if opens(text) {
        Lead::Opens
    } else {
        Lead::Ends
    }
}

fn lead_of_keyword<'a>(text: &'a str, tokens: &'a [Token]) -> Lead<'a>
    ensures gives { lead_of result ≡ lead_of_word kind.Keyword text.now (map spelled tokens.now) }
    ensures places { (here : Place) → places_behind result (place_onto kind.Keyword text.now here (kept tokens.now))
        ≡ place_onto kind.Keyword text.now here (kept tokens.now) }
    ensures shorter { IsBelow result (suc (length tokens.now)) }
{
    if is_text(text, "instanceof") {
        Lead::Tests(tokens)
    } else if opens_word(text) {
        Lead::Opens
    } else {
        Lead::Ends
    }
}

/// What the first token begins.
#[tactic(auto, unfolding(java_parser_grammar::specs::Leads::lead))]
pub fn lead_at(tokens: &[Token]) -> Lead<'_>
    ensures gives { lead_of result ≡ lead (map spelled tokens.now) }
    ensures places { places_behind result (kept tokens.now) ≡ kept tokens.now }
    ensures shorter { IsBelow result (length tokens.now) }
{
    match tokens {
        [token, rest @ ..] if !token.glued => {
            let text = token.text.as_str();
            match token.kind {
                TokenKind::Keyword => lead_of_keyword(text, rest),
                TokenKind::Sign => lead_of_sign(text, rest),
                _ => Lead::Opens,
            }
        }
        _ => Lead::Ends,
    }
}

/// Whether an operand begins here that goes on with no expression.
pub fn opens_operand(tokens: &[Token]) -> bool
    ensures { result ≡ opens_operand (map spelled tokens.now) }
{
    matches!(lead_at(tokens), Lead::Opens)
}

/// Whether nothing in front goes on with an expression before it.
pub fn ends_expression(tokens: &[Token]) -> bool
    ensures { result ≡ ends_expression (map spelled tokens.now) }
{
    matches!(lead_at(tokens), Lead::Ends)
}

/// Whether `+`, `-`, `++` or `--` is in front.
fn opens_signed(tokens: &[Token]) -> bool
    ensures { result ≡ opens_signed (map spelled tokens.now) }
{
    match tokens {
        [token, ..] => {
            matches!(token.kind, TokenKind::Sign) && !token.glued && is_signed(token.text.as_str())
        }
        [] => false,
    }
}

/// The tokens behind the `)` that closes a `(` before these.
#[tactic(auto, unfolding(java_parser_grammar::specs::Leads::behind))]
fn behind(tokens: &[Token]) -> &[Token]
    ensures { map spelled result.now ≡ behind 0 (map spelled tokens.now) }
{
    let mut depth: usize = 0;
    let mut rest = tokens;
    while let [token, after @ ..] = rest {
        if is_sign(token, "(") {
            depth += 1;
        } else if is_sign(token, ")") {
            if depth == 0 {
                return after;
            }
            depth -= 1;
        }
        rest = after;
    }
    rest
}

/// Whether a lambda begins here (JLS 15.27).
#[tactic(auto, unfolding(java_parser_grammar::specs::Leads::begins_lambda))]
pub fn begins_lambda(tokens: &[Token]) -> bool
    ensures { result ≡ begins_lambda (map spelled tokens.now) }
{
    match tokens {
        [token, rest @ ..] => {
            (is_name(token) && begins_with(rest, "->"))
                || (is_sign(token, "(") && begins_with(behind(rest), "->"))
        }
        [] => false,
    }
}

/// The tokens behind the first `)`, where no `(` stands before it.
#[tactic(auto, unfolding(crate::specs::FirstParenthesis::behind_first))]
fn behind_first(tokens: &[Token]) -> Option<&[Token]>
    ensures { MatchOption result (behind_first (map spelled tokens.now) ≡ None) (λ rest. behind_first
        (map spelled tokens.now) ≡ Some (map spelled rest.now)) }
{
    let mut rest = tokens;
    while let [first, after @ ..] = rest {
        if is_sign(first, "(") {
            return None;
        }
        if is_sign(first, ")") {
            return Some(after);
        }
        rest = after;
    }
    None
}

/// Whether a lambda begins here (JLS 15.27), where the first parenthesis behind a `(` tells: it does not where it is
/// another `(`, and then what stands in the first is read before it is known. So nothing is passed over twice in
/// looking ahead.
#[tactic(auto, unfolding(java_parser_grammar::specs::Leads::begins_lambda))]
pub fn seen_lambda(tokens: &[Token]) -> Option<bool>
    ensures { MatchOption result (nests (map spelled tokens.now) ≡ true) (λ begins. begins_lambda
        (map spelled tokens.now) ≡ begins) }
{
    match tokens {
        [token, rest @ ..] if is_sign(token, "(") => match behind_first(rest) {
            Some(behind) => Some(begins_with(behind, "->")),
            None => None,
        },
        [token, rest @ ..] => Some(is_name(token) && begins_with(rest, "->")),
        [] => Some(false),
    }
}

/// Whether the word of a primitive type and `)` are in front.
fn is_plain_cast(tokens: &[Token]) -> bool
    ensures { result ≡ is_plain_cast (map spelled tokens.now) }
{
    match after_plain(tokens) {
        Some((_, rest)) => after_sign(rest, ")").is_some(),
        None => false,
    }
}

/// Whether these are the tokens of a cast, where `rest` stands behind their `)`.
fn casts_before(tokens: &[Token], rest: &[Token]) -> bool
    ensures { result ≡ (opens_operand (map spelled rest.now) || (is_plain_cast (map spelled tokens.now)
        && opens_signed (map spelled rest.now))) }
{
    opens_operand(rest) || (is_plain_cast(tokens) && opens_signed(rest))
}

/// Whether the tokens behind a `(` are those of a cast (JLS 15.16), where a `)` is the first parenthesis among them.
/// With a `(` before it they are no types, and only what stands behind the `)` that closes them tells.
pub fn casts(tokens: &[Token]) -> Option<bool>
    ensures { MatchOption result (behind_first (map spelled tokens.now) ≡ None) (λ is_cast. casts
        (map spelled tokens.now) ≡ is_cast) }
{
    match behind_first(tokens) {
        Some(rest) => Some(casts_before(tokens, rest)),
        None => None,
    }
}
