//! Jumps (JLS 14.15, 14.16).
ghost use Rattle.std.specs.Prelude.{◌≡◌, ◌++◌, OnOk, option_copied};
ghost use Rattle.core_lowering_rules.specs.Trees.{Break, Continue};
ghost use Rattle.core_lowering_rules.specs.Scopes.{jumped, after};
ghost use Rattle.core_lowering_rules.specs.Statements.{jump, stmt};
ghost use Rattle.core_lowering_context.specs.Drafts.{code_of};
ghost use Rattle.core_lowering_context.specs.Exits.{exit_seen};

use crate::context::Context;
use crate::making::Making;
use core_lowering_drafts::Exit;
use java_tree::{Apart, Ident};
use racer_base::Memory;

/// The name behind the word of a jump.
fn name_in(x: &Option<Apart<Ident>>) -> Option<&Ident>
    ensures { option_copied result ≡ x.now }
{
    match x {
        Some(x) => Some(x.get()),
        None => None,
    }
}

/// A jump to an exit, where it has a target.
fn lower_jump(context: &mut Context, exit: Option<Exit>, draft: &mut Making) -> Result<(), Memory>
    ensures context { OnOk result (context.new ≡ jumped context.old (exit_seen exit)) }
    ensures code { OnOk result (code_of draft.new ≡ code_of draft.old ++ jump (exit_seen exit)) }
{
    match exit {
        Some(exit) => draft.leave(exit),
        None => {
            context.note_apart();
            Ok(())
        }
    }
}

pub fn lower_break(
    context: &mut Context,
    x: &Option<Apart<Ident>>,
    draft: &mut Making,
) -> Result<(), Memory>
    ensures context { OnOk result (context.new ≡ after context.old (Break x.now)) }
    ensures code { OnOk result (code_of draft.new ≡ code_of draft.old ++ stmt context.old (Break x.now)) }
{
    let exit = context.break_to(name_in(x));
    lower_jump(context, exit, draft)
}

pub fn lower_continue(
    context: &mut Context,
    x: &Option<Apart<Ident>>,
    draft: &mut Making,
) -> Result<(), Memory>
    ensures context { OnOk result (context.new ≡ after context.old (Continue x.now)) }
    ensures code { OnOk result (code_of draft.new ≡ code_of draft.old ++ stmt context.old (Continue x.now)) }
{
    let exit = context.continue_to(name_in(x));
    lower_jump(context, exit, draft)
}
