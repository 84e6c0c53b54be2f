//! What stands around the bodies of loops, and what is known of them (JLS 14.12 to 14.14).
ghost use Rattle.std.specs.Prelude.{◌≡◌, ◌++◌, OnOk, IfOk, drop, map, option_map, take};
ghost use Rattle.core_lowering_drafts.specs.Drafts.{has};
ghost use Rattle.core_lowering_drafts.specs.Drafts as path;
ghost use Rattle.core_lowering_rules.specs.Context.{ends_of, within};
ghost use Rattle.core_lowering_rules.specs.Trees.{pack_exprs};
ghost use Rattle.core_lowering_rules.specs.TreesOf.{expr_of, condition_of, start_of};
ghost use Rattle.core_lowering_rules.specs.Scopes.{started};
ghost use Rattle.core_lowering_rules.specs.Statements.{is_endless, tested};
ghost use Rattle.core_lowering_context.specs.Drafts.{code_of};
ghost use Rattle.core_lowering_context.specs.Restored.{left_target};
ghost use Rattle.core_lowering_parts.specs.StatementParts.{Becomes, entered_for, next_element, broken_at};
ghost use Rattle.core_lowering_parts.specs.StatementParts.{nothing_behind, turned, while_loop, do_loop, for_loop};
ghost use Rattle.core_lowering_parts.specs.StatementParts.{each_loop};

use crate::locals::lower_start;
use core_code::Op;
use core_lowering_context::{Context, LoopExits, Making};
use core_lowering_drafts::Exit;
use core_lowering_expressions::{lower_run, lower_run_all, set};
use java_tree::{Apart, Expression, StartTree};
use racer_base::{Memory, VarId};
use std::alloc::Global;

/// The body of a loop: the exit of a `break` from it, and whether a `break` leads there.
#[derive(Clone, Copy)]
pub struct Round {
    pub break_to: Exit,
    pub has_break: bool,
}

impl Round {
    ghost use Rattle.std.specs.Prelude.{◌≡◌, ◌&&◌};

    /// Whether a loop is left by a `break` alone, where its condition is the literal `true` or lacking.
    fn is_left_alone(self, is_endless: bool) -> bool
        ensures { result ≡ (is_endless && self.has_break) }
    {
        is_endless && self.has_break
    }
}

/// Whether a condition is the literal `true`.
fn is_true(e: &Expression) -> bool
    ensures { result ≡ (condition_of e.now).is_true }
{
    match e {
        Expression::Literal(_, text) => text.as_str() == "true",
        Expression::Assign(_, _, _) => false,
        Expression::Conditional(_, _, _) => false,
        Expression::Binary(_, _, _) => false,
        Expression::InstanceOf(_) => false,
        Expression::Prefix(_, _) => false,
        Expression::Cast(_) => false,
        Expression::Postfix(_, _) => false,
        Expression::This => false,
        Expression::Name(_) => false,
        Expression::Paren(_) => false,
        Expression::Field(_, _) => false,
        Expression::Index(_, _) => false,
        Expression::Call(_) => false,
        Expression::ClassOf(_) => false,
        Expression::New(_) => false,
        Expression::Lambda(_) => false,
        Expression::Reference(_) => false,
        Expression::PlainClass(_) => false,
        Expression::ThisOf(_) => false,
    }
}

/// Whether the condition of a `for` never ends it.
fn is_endless(e: &Option<Apart<Expression>>) -> bool
    ensures { result ≡ is_endless (option_map condition_of e.now) }
{
    match e {
        Some(e) => is_true(e.get()),
        None => true,
    }
}

/// The condition of a `for`.
fn lower_tested(
    alloc: Global,
    context: &Context,
    e: &Option<Apart<Expression>>,
    draft: &mut Making,
) -> Result<(), Memory>
    ensures { OnOk result (code_of draft.new ≡ code_of draft.old
        ++ tested context.now (option_map condition_of e.now)) }
{
    match e {
        Some(e) => lower_run(alloc, context, e.get(), draft),
        None => Ok(()),
    }
}

/// What stands before the loop of a `for`.
pub fn begin_for(
    alloc: Global,
    context: &mut Context,
    start: &StartTree,
    e: &Option<Apart<Expression>>,
    draft: &mut Making,
) -> Result<(), Memory>
    ensures context { OnOk result (context.new ≡ started context.old (start_of start.now)) }
    ensures code { OnOk result (code_of draft.new ≡ code_of draft.old
        ++ entered_for context.old (start_of start.now) (option_map condition_of e.now)) }
{
    lower_start(alloc, context, start, draft)?;
    lower_tested(alloc, context, e, draft)
}

/// The next element of what a `for` goes over.
pub fn lower_next(context: &Context, v: VarId, draft: &mut Making) -> Result<(), Memory>
    ensures { OnOk result (code_of draft.new ≡ code_of draft.old ++ next_element context.now v) }
{
    context.op(draft, Op::Outside(0))?;
    set(context, v, draft)
}

/// The end of the body of a loop, which is there from this part on: a `continue` leads there.
pub fn end_round(
    alloc: Global,
    exits: LoopExits,
    at: usize,
    draft: &mut Making,
) -> Result<Round, Memory>
    ensures code { OnOk result (code_of draft.new ≡ take at (code_of draft.old)
        ++ within exits.continue_to.0 (drop at (code_of draft.old))) }
    ensures exit { IfOk result (λ round. round.break_to.0 ≡ exits.break_to.0) }
    ensures has_break { IfOk result (λ round. round.has_break
        ≡ has (ends_of (drop at (code_of draft.old))) (path.Exit exits.break_to.0)) }
{
    let body = draft.taken(alloc, at)?;
    let has_break = body.ends().has(exits.break_to);
    draft.put_within(alloc, exits.continue_to, body)?;
    Ok(Round {
        break_to: exits.break_to,
        has_break,
    })
}

/// Nothing comes behind a loop that is left by a `break` alone.
fn end_endless(is_endless: bool, draft: &mut Making) -> Result<(), Memory>
    ensures { OnOk result (code_of draft.new ≡ code_of draft.old ++ nothing_behind is_endless) }
{
    if is_endless {
        draft.never()?;
    }
    Ok(())
}

/// The end of a loop that is there from this part on, behind which a `break` leads; an endless one is left so alone.
fn end_loop(
    alloc: Global,
    context: &mut Context,
    break_to: Exit,
    is_endless: bool,
    at: usize,
    draft: &mut Making,
) -> Result<(), Memory>
    ensures context { OnOk result (context.new ≡ left_target break_to.0 context.old) }
    ensures code { OnOk result (Becomes at (broken_at break_to.0 is_endless) (code_of draft.old) (code_of draft.new)) }
{
    end_endless(is_endless, draft)?;
    draft.come_out(alloc, break_to, at)?;
    context.leave_target(break_to);
    Ok(())
}

/// The loop of a `while`, whose body is there from this part on.
pub fn end_while(
    alloc: Global,
    context: &mut Context,
    e: &Expression,
    round: Round,
    at: usize,
    draft: &mut Making,
) -> Result<(), Memory>
    ensures context { OnOk result (context.new ≡ left_target round.break_to.0 context.old) }
    ensures code { OnOk result (Becomes at (while_loop round context.old (condition_of e.now)) (code_of draft.old)
        (code_of draft.new)) }
{
    lower_run(alloc, context, e, draft)?;
    draft.repeat(alloc, at)?;
    end_loop(
        alloc,
        context,
        round.break_to,
        round.is_left_alone(is_true(e)),
        at,
        draft,
    )
}

/// The loop of a `do`, whose body is there from this part on.
pub fn end_do(
    alloc: Global,
    context: &mut Context,
    e: &Expression,
    round: Round,
    at: usize,
    draft: &mut Making,
) -> Result<(), Memory>
    ensures context { OnOk result (context.new ≡ left_target round.break_to.0 context.old) }
    ensures code { OnOk result (Becomes at (do_loop round context.old (condition_of e.now)) (code_of draft.old)
        (code_of draft.new)) }
{
    lower_run(alloc, context, e, draft)?;
    draft.again(alloc, at)?;
    end_loop(
        alloc,
        context,
        round.break_to,
        round.is_left_alone(is_true(e)),
        at,
        draft,
    )
}

/// What stands behind the body of a `for`, in its loop.
fn lower_turn(
    alloc: Global,
    context: &Context,
    e: &Option<Apart<Expression>>,
    updates: &[Expression],
    draft: &mut Making,
) -> Result<(), Memory>
    ensures { OnOk result (code_of draft.new ≡ code_of draft.old
        ++ turned context.now (option_map condition_of e.now) (pack_exprs (map expr_of updates.now))) }
{
    lower_run_all(alloc, context, updates, draft)?;
    lower_tested(alloc, context, e, draft)
}

/// The loop of a `for`, whose body is there from this part on.
pub fn end_for(
    alloc: Global,
    context: &mut Context,
    e: &Option<Apart<Expression>>,
    updates: &[Expression],
    round: Round,
    at: usize,
    draft: &mut Making,
) -> Result<(), Memory>
    ensures context { OnOk result (context.new ≡ left_target round.break_to.0 context.old) }
    ensures code { OnOk result (Becomes at (for_loop round context.old (option_map condition_of e.now)
        (pack_exprs (map expr_of updates.now))) (code_of draft.old) (code_of draft.new)) }
{
    lower_turn(alloc, context, e, updates, draft)?;
    draft.repeat(alloc, at)?;
    end_loop(
        alloc,
        context,
        round.break_to,
        round.is_left_alone(is_endless(e)),
        at,
        draft,
    )
}

/// The loop of a `for` over elements, whose body is there from this part on.
pub fn end_for_each(
    alloc: Global,
    context: &mut Context,
    round: Round,
    at: usize,
    draft: &mut Making,
) -> Result<(), Memory>
    ensures context { OnOk result (context.new ≡ left_target round.break_to.0 context.old) }
    ensures code { OnOk result (Becomes at (each_loop round) (code_of draft.old) (code_of draft.new)) }
{
    draft.repeat(alloc, at)?;
    end_loop(alloc, context, round.break_to, false, at, draft)
}
