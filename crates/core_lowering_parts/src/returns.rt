//! Returns (JLS 14.17).
ghost use Rattle.std.specs.Prelude.{◌≡◌, ◌++◌, OnOk, None, option_map};
ghost use Rattle.core_lowering_rules.specs.TreesOf.{expr_of};
ghost use Rattle.core_lowering_rules.specs.Scopes.{after_return};
ghost use Rattle.core_lowering_rules.specs.Statements.{returned_nothing, returned_value, returned, sent_back};
ghost use Rattle.core_lowering_context.specs.Drafts.{code_of};
ghost use Rattle.core_lowering_context.specs.Exits.{sent_seen};
ghost use Rattle.core_lowering_parts.specs.StatementParts.{sent_by};
ghost use Rattle.core_lowering_context.specs.Views.{given_of};

use core_code::Op;
use core_lowering_context::{Context, Making, MethodResult, Sent};
use core_lowering_expressions::{lower_expression, lower_run, set};
use java_tree::{Apart, Expression};
use racer_base::{Kind, Memory};
use std::alloc::Global;

/// What a method gives that returns no value.
fn push_nothing(context: &Context, given: MethodResult, draft: &mut Making) -> Result<(), Memory>
    ensures { OnOk result (code_of draft.new ≡ code_of draft.old ++ returned_nothing context.now (given_of given)) }
{
    match given {
        MethodResult::Itself => context.push_this(draft),
        MethodResult::Nothing => context.op(draft, Op::PushPrim),
        MethodResult::Value(Kind::Plain) => context.op(draft, Op::PushPrim),
        MethodResult::Value(_) => context.op(draft, Op::Outside(0)),
    }
}

/// What a method gives that returns the value of an expression.
fn lower_given(
    alloc: Global,
    context: &Context,
    given: MethodResult,
    e: &Expression,
    draft: &mut Making,
) -> Result<(), Memory>
    ensures { OnOk result (code_of draft.new ≡ code_of draft.old
        ++ returned_value context.now (given_of given) (expr_of e.now)) }
{
    match given {
        MethodResult::Itself => {
            lower_run(alloc, context, e, draft)?;
            context.push_this(draft)
        }
        MethodResult::Nothing => {
            lower_run(alloc, context, e, draft)?;
            context.op(draft, Op::PushPrim)
        }
        MethodResult::Value(kind) => {
            let value = lower_expression(alloc, context, e, draft)?;
            context.convert(draft, kind, value)
        }
    }
}

/// Sends what is on top of the stack to a `finally` that is done first.
fn lower_sent(context: &Context, sent: Option<Sent>, draft: &mut Making) -> Result<(), Memory>
    ensures { OnOk result (code_of draft.new ≡ code_of draft.old ++ sent_by context.now (sent_seen sent)) }
{
    let Some(sent) = sent else {
        return context.op(draft, Op::Ret);
    };
    set(context, sent.variable, draft)?;
    draft.leave(sent.exit)
}

/// Returns what is on top of the stack, behind the `finally` of each `try` around.
pub fn end_return(context: &mut Context, draft: &mut Making) -> Result<(), Memory>
    ensures context { OnOk result (context.new ≡ after_return context.old) }
    ensures code { OnOk result (code_of draft.new ≡ code_of draft.old ++ sent_back context.old) }
{
    let sent = context.send_back()?;
    lower_sent(context, sent, draft)
}

/// `return;`
pub fn lower_return_nothing(context: &mut Context, draft: &mut Making) -> Result<(), Memory>
    ensures context { OnOk result (context.new ≡ after_return context.old) }
    ensures code { OnOk result (code_of draft.new ≡ code_of draft.old ++ returned context.old None) }
{
    push_nothing(context, context.given(), draft)?;
    end_return(context, draft)
}

/// `return;` or `return e;`
pub fn lower_return(
    alloc: Global,
    context: &mut Context,
    e: &Option<Apart<Expression>>,
    draft: &mut Making,
) -> Result<(), Memory>
    ensures context { OnOk result (context.new ≡ after_return context.old) }
    ensures code { OnOk result (code_of draft.new ≡ code_of draft.old
        ++ returned context.old (option_map expr_of e.now)) }
{
    let Some(e) = e else {
        return lower_return_nothing(context, draft);
    };
    lower_given(alloc, context, context.given(), e.get(), draft)?;
    end_return(context, draft)
}
