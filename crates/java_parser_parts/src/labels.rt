//! Reading the labels of a `switch` (JLS 14.11).
ghost use Rattle.std.specs.Prelude.{◌≡◌, ◌<◌, ◌≤◌, ◌^◌, ◌||◌, suc, length, map, IfOk, codes, is_some};
ghost use Rattle.java_tree.specs.KeptPlaces.{kept, each_puts, label_places};
ghost use Rattle.java_tree.specs.View.{label_of};
ghost use Rattle.java_parser_grammar.specs.Taking.{after_sign};
ghost use Rattle.java_parser_grammar.specs.StatementReading.{begins_label, label_at, labels_at};
ghost use Rattle.java_parser_grammar.specs.JavaReaders.{method_readers};
ghost use Rattle.java_parser_parts.specs.Parts.{default_at};
ghost use Rattle.java_parser_types.specs.LedPlaces.{Leads};
ghost use Rattle.java_parser_types.specs.Tokens.{spelled};
ghost use Rattle.java_parser_types.specs.ReadAnswer.{Gives};

use java_lexer::Token;
use java_parser_expressions::expressions::read_expression;
use java_parser_lookahead::lookahead::{after_word, keyword};
use java_parser_types::error::ReadError;
use java_parser_types::look::{after_sign, sign};
use java_tree::LabelTree;
use std::alloc::Global;

/// The level of a conditional, which is that of the constant of a `case`: no assignment stands there (JLS 14.11).
const CONDITIONAL_LEVEL: u32 = 1;

/// Whether a label stands here.
fn begins_label(tokens: &[Token]) -> bool
    ensures { result ≡ begins_label method_readers (map spelled tokens.now) }
{
    after_word(tokens, "case").is_some() || after_word(tokens, "default").is_some()
}

/// Whether the statements of a group end here: at a label or at the `}`.
pub fn ends_group(tokens: &[Token]) -> bool
    ensures { result ≡ (begins_label method_readers (map spelled tokens.now) || is_some (after_sign (codes "}")
        (map spelled tokens.now))) }
{
    begins_label(tokens) || after_sign(tokens, "}").is_some()
}

/// `default :`.
fn default_label(tokens: &[Token]) -> Result<(LabelTree, &[Token]), ReadError>
    ensures gives { Gives (λ x. (label_of x.0, map spelled x.1.now)) result (default_at (map spelled tokens.now)) }
    ensures places { IfOk result (λ x. Leads (label_places x.0) (kept tokens.now) (kept x.1.now)) }
    ensures shorter { IfOk result (λ x. length x.1.now ≤ length tokens.now) }
{
    let rest = keyword(tokens, "default")?;
    let rest = sign(rest, ":")?;
    Ok((LabelTree::Default, rest))
}

/// `case a :` or `default :`.
#[tactic(auto, unfolding(java_parser_grammar::specs::StatementReading::label_at))]
fn label(alloc: Global, limit: u32, tokens: &[Token]) -> Result<(LabelTree, &[Token]), ReadError>
    requires few { length tokens.now < 2 ^ 32 }
    requires room { suc (suc limit) < 2 ^ 32 }
    ensures gives { Gives (λ x. (label_of x.0, map spelled x.1.now)) result (label_at method_readers limit
        (map spelled tokens.now)) }
    ensures places { IfOk result (λ x. Leads (label_places x.0) (kept tokens.now) (kept x.1.now)) }
    ensures shorter { IfOk result (λ x. length x.1.now ≤ length tokens.now) }
{
    let Some(after) = after_word(tokens, "case") else {
        return default_label(tokens);
    };
    let (value, rest) = read_expression(alloc, limit, CONDITIONAL_LEVEL, after)?;
    let rest = sign(rest, ":")?;
    Ok((LabelTree::Case(Box::into_inner(value.tree)), rest))
}

/// Labels, as long as one stands here.
pub fn labels(
    alloc: Global,
    limit: u32,
    tokens: &[Token],
) -> Result<(Vec<LabelTree>, &[Token]), ReadError>
    requires few { length tokens.now < 2 ^ 32 }
    requires room { suc (suc limit) < 2 ^ 32 }
    ensures gives { Gives (λ x. (map label_of x.0.items, map spelled x.1.now)) result (labels_at method_readers limit
        (length (map spelled tokens.now)) (map spelled tokens.now)) }
    ensures places { IfOk result (λ x. Leads (each_puts (map label_places x.0.items)) (kept tokens.now)
        (kept x.1.now)) }
    ensures shorter { IfOk result (λ x. length x.1.now ≤ length tokens.now) }
{
    let mut items = Vec::new(alloc);
    let mut rest = tokens;
    for _ in 0..tokens.len() {
        if !begins_label(rest) {
            break;
        }
        let (next, after) = label(alloc, limit, rest)?;
        items.push(next)?;
        rest = after;
    }
    Ok((items, rest))
}
