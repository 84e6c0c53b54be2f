//! Operators and literals, by what they are lowered to.
ghost use Rattle.std.specs.Prelude.{◌≡◌, ◌++◌, OnOk, IfOk};
ghost use Rattle.core_lowering_rules.specs.TreesOf.{is_assignment, is_logical, is_count, first_type, literal};
ghost use Rattle.core_lowering_rules.specs.Context.{type_kind};
ghost use Rattle.core_lowering_rules.specs.ValueKinds.{Of};
ghost use Rattle.core_lowering_rules.specs.Expressions.{code, kind, cast};
ghost use Rattle.core_lowering_context.specs.Drafts.{code_of};
ghost use Rattle.core_lowering_context.specs.Views.{value_kind};

use core_code::Op;
use core_lowering_context::{Context, Making, ValueKind};
use java_lexer::TokenKind;
use java_tree::TypeTree;
use racer_base::{Kind, Memory};

pub fn is_assignment(op: &str) -> bool
    ensures { result ≡ is_assignment op.now }
{
    op == "="
}

pub fn is_logical(op: &str) -> bool
    ensures { result ≡ is_logical op.now }
{
    op == "&&" || op == "||"
}

pub fn is_count(op: &str) -> bool
    ensures { result ≡ is_count op.now }
{
    op == "++" || op == "--"
}

/// A literal (JLS 15.8.1).
pub fn literal(
    context: &Context,
    token: TokenKind,
    text: &str,
    draft: &mut Making,
) -> Result<ValueKind, Memory>
    ensures code { OnOk result (code_of draft.new ≡ code_of draft.old ++ code context.now (literal token text.now)) }
    ensures kind { IfOk result (λ k. value_kind k ≡ kind context.now (literal token text.now)) }
{
    match token {
        TokenKind::Text => context.value(draft, Op::Outside(0), ValueKind::Of(Kind::Other)),
        TokenKind::Fixed if text == "null" => context.value(draft, Op::PushNull, ValueKind::Null),
        _ => context.value(draft, Op::PushPrim, ValueKind::Of(Kind::Plain)),
    }
}

/// The kind of a cast to these types, which is that of the first (JLS 15.16).
pub fn cast_kind(context: &Context, types: &[TypeTree]) -> Kind
    ensures { result ≡ type_kind context.now (first_type types.now) }
{
    match types {
        [] => Kind::Other,
        [t, ..] => context.type_kind(t),
    }
}

/// A value on its way through a cast to a kind.
pub fn cast(context: &Context, kind: Kind, draft: &mut Making) -> Result<ValueKind, Memory>
    ensures code { OnOk result (code_of draft.new ≡ code_of draft.old ++ cast context.now kind) }
    ensures kind { IfOk result (λ k. value_kind k ≡ Of kind) }
{
    match kind {
        Kind::Plain => context.value(draft, Op::Prim(1), ValueKind::Of(kind)),
        Kind::Declared(_) => context.value(draft, Op::Outside(1), ValueKind::Of(kind)),
        Kind::Other => context.value(draft, Op::Outside(1), ValueKind::Of(kind)),
    }
}
