//! Reading what is kept as tokens: brackets with what stands in them (JLS 3.11).
ghost use Rattle.std.specs.Prelude.{◌≡◌, ◌<◌, ◌≤◌, [], ◌∷◌, List, ℕ, Some, codes, length, map, IfOk};
ghost use Rattle.java_tree.specs.Brackets.{awaited_behind, is_closing};
ghost use Rattle.java_tree.specs.KeptPlaces.{Places, kept, no_place, no_places};
ghost use Rattle.java_parser_grammar.specs.BalancedReading.{closed_at, between_at, braces_tokens_at};
ghost use Rattle.java_parser_lookahead.specs.AwaitedBrackets.{closing, awaited_onto, stepped, first_at};
ghost use Rattle.java_parser_types.specs.Endings.{as_they_are};
ghost use Rattle.java_parser_types.specs.Finishing.{finished};
ghost use Rattle.java_parser_types.specs.LedPlaces.{Leads};
ghost use Rattle.java_parser_types.specs.ReadAnswer.{Gives};
ghost use Rattle.java_parser_types.specs.Tokens.{spelled};

use java_lexer::Token;
use java_parser_types::error::ReadError;
use java_parser_types::look::is_sign;
use java_tree::Spelled;
use racer_base::Text;
use std::alloc::Global;

/// A bracket that is open.
#[derive(Clone, Copy)]
pub enum Bracket {
    Round,
    Square,
    Curly,
}

/// What a token is among brackets.
#[derive(Clone, Copy)]
enum BracketStep {
    Opens(Bracket),
    /// It closes the innermost one.
    Closes,
    /// It closes another one.
    Wrong,
    /// It is no bracket.
    Stays,
}

fn closing(bracket: Bracket) -> &'static str
    ensures { result.now ≡ closing bracket }
{
    match bracket {
        Bracket::Round => ")",
        Bracket::Square => "]",
        Bracket::Curly => "}",
    }
}

/// Whether the token is a bracket that closes.
pub fn is_closing(token: &Token) -> bool
    ensures { result ≡ is_closing (spelled token.now) }
{
    is_sign(token, ")") || is_sign(token, "]") || is_sign(token, "}")
}

/// What the token is where this bracket is the innermost.
fn step(token: &Token, inner: Bracket) -> BracketStep
    ensures { (outer : List (List ℕ)) → stepped result (closing inner) outer ≡ awaited_behind (spelled token.now)
        (closing inner) outer }
{
    if is_sign(token, "(") {
        BracketStep::Opens(Bracket::Round)
    } else if is_sign(token, "[") {
        BracketStep::Opens(Bracket::Square)
    } else if is_sign(token, "{") {
        BracketStep::Opens(Bracket::Curly)
    } else if is_sign(token, closing(inner)) {
        BracketStep::Closes
    } else if is_closing(token) {
        BracketStep::Wrong
    } else {
        BracketStep::Stays
    }
}

/// Goes on by one token behind open brackets, of which `inner` is the innermost and the last of `outer` the
/// next.
pub fn pass(outer: &mut Vec<Bracket>, inner: Bracket, token: &Token) -> Result<(), ReadError>
    ensures { Gives (λ _. awaited_onto outer.new.items []) result (awaited_behind (spelled token.now) (closing inner)
        (awaited_onto outer.old.items [])) }
{
    match step(token, inner) {
        BracketStep::Opens(bracket) => {
            outer.push(inner)?;
            outer.push(bracket)?;
            Ok(())
        }
        BracketStep::Closes => Ok(()),
        BracketStep::Wrong => Err(ReadError::Unformed),
        BracketStep::Stays => {
            outer.push(inner)?;
            Ok(())
        }
    }
}

/// The token without its place.
pub fn copied(alloc: Global, token: &Token) -> Result<Spelled, ReadError>
    ensures { Gives (λ x. x) result (Some (spelled token.now)) }
{
    let text = Text::from_str(alloc, token.text.as_str())?;
    let kind = token.kind;
    let glued = token.glued;
    Ok(Spelled { kind, text, glued })
}

/// The token in front, which there has to be, and those behind it.
fn token(tokens: &[Token]) -> Result<(&Token, &[Token]), ReadError>
    ensures gives { Gives (λ x. (spelled x.0.now, map spelled x.1.now)) result (first_at (map spelled tokens.now)) }
    ensures places { IfOk result (λ x. x.0.now ∷ x.1.now ≡ tokens.now) }
    ensures shorter { IfOk result (λ x. length x.1.now < length tokens.now) }
{
    match tokens {
        [token, rest @ ..] => Ok((token, rest)),
        [] => Err(ReadError::Unformed),
    }
}

/// This token and those up to the one that closes the bracket.
fn closed(
    alloc: Global,
    first: Spelled,
    bracket: Bracket,
    tokens: &[Token],
) -> Result<(Vec<Spelled>, &[Token]), ReadError>
    ensures gives { Gives (λ x. (x.0.items, map spelled x.1.now)) result (finished as_they_are (first ∷ [])
        (closed_at (closing bracket ∷ []) (map spelled tokens.now))) }
    ensures places { IfOk result (λ x. (start : Places) → Leads (no_place first) start (kept tokens.now)
        → Leads (no_places x.0.items) start (kept x.1.now)) }
    ensures shorter { IfOk result (λ x. length x.1.now ≤ length tokens.now) }
{
    let mut open = Vec::new(alloc);
    open.push(bracket)?;
    let mut items = Vec::new(alloc);
    items.push(first)?;
    let mut rest = tokens;
    while let Some(inner) = open.pop() {
        let (next, after) = token(rest)?;
        pass(&mut open, inner, next)?;
        let copy = copied(alloc, next)?;
        items.push(copy)?;
        rest = after;
    }
    Ok((items, rest))
}

/// The token in front, which opens this bracket, and those up to the one that closes it.
pub fn between(
    alloc: Global,
    bracket: Bracket,
    tokens: &[Token],
) -> Result<(Vec<Spelled>, &[Token]), ReadError>
    ensures gives { Gives (λ x. (x.0.items, map spelled x.1.now)) result (between_at (closing bracket)
        (map spelled tokens.now)) }
    ensures places { IfOk result (λ x. Leads (no_places x.0.items) (kept tokens.now) (kept x.1.now)) }
    ensures shorter { IfOk result (λ x. length x.1.now < length tokens.now) }
{
    let (first, rest) = token(tokens)?;
    let first = copied(alloc, first)?;
    closed(alloc, first, bracket, rest)
}

/// A pair of braces and the tokens in it.
pub fn braces_tokens(alloc: Global, tokens: &[Token]) -> Result<(Vec<Spelled>, &[Token]), ReadError>
    ensures gives { Gives (λ x. (x.0.items, map spelled x.1.now)) result (braces_tokens_at (map spelled tokens.now)) }
    ensures places { IfOk result (λ x. Leads (no_places x.0.items) (kept tokens.now) (kept x.1.now)) }
    ensures shorter { IfOk result (λ x. length x.1.now < length tokens.now) }
{
    match tokens {
        [first, ..] if is_sign(first, "{") => between(alloc, Bracket::Curly, tokens),
        _ => Err(ReadError::Unformed),
    }
}
