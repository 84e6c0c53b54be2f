//! The ends of locked trys and of catch clauses (JLS 14.20).
ghost use Rattle.std.specs.Prelude.{◌≡◌, ◌++◌, OnOk, drop, map, take};
ghost use Rattle.core_code.specs.declared.code.LockKind.TheVariants.{Explicit};
ghost use Rattle.core_lowering_rules.specs.Context.{held};
ghost use Rattle.core_lowering_rules.specs.Locks.{lock_noted, is_stored_in};
ghost use Rattle.core_lowering_rules.specs.Trees.{pack_stmts};
ghost use Rattle.core_lowering_rules.specs.TreesOf.{stmt_of};
ghost use Rattle.core_lowering_locks_pairs.specs.Seen.{lock_seen};
ghost use Rattle.core_lowering_context.specs.Drafts.{code_of};
ghost use Rattle.core_lowering_context.specs.Restored.{restored};

use core_code::LockKind;
use core_lowering_context::{Context, Kept, Making, note_lock};
use core_lowering_locks::is_stored_in;
use core_lowering_locks_pairs::Lock;
use java_tree::Statement;
use racer_base::Memory;
use std::alloc::Global;

/// The end of a locked try, whose block is there from this part on: it stands under the lock.
pub fn end_locked(
    alloc: Global,
    context: &mut Context,
    lock: Lock,
    body: &[Statement],
    at: usize,
    draft: &mut Making,
) -> Result<(), Memory>
    ensures context { OnOk result (context.new ≡ lock_noted context.old (lock_seen lock.entry).1
        (is_stored_in (lock_seen lock.entry).1 (pack_stmts (map stmt_of body.now)))) }
    ensures code { OnOk result (code_of draft.new ≡ take at (code_of draft.old)
        ++ held Explicit (lock_seen lock.entry).0 (drop at (code_of draft.old))) }
{
    draft.hold(alloc, LockKind::Explicit, lock.place, at)?;
    note_lock(context, lock.on, is_stored_in(lock.on, body));
    Ok(())
}

/// The end of a catch clause whose code is there from this part on: it is not kept, and nothing else is but what is
/// known of locks.
pub fn end_clause(
    alloc: Global,
    context: &mut Context,
    before: Kept,
    at: usize,
    draft: &mut Making,
) -> Result<(), Memory>
    ensures context { OnOk result (context.new ≡ restored before context.old) }
    ensures kept { OnOk result (code_of draft.new ≡ take at (code_of draft.old)) }
{
    // A draft of its own would be let go in the cycle of statements, where a wrong body takes 50 s and a seed.
    draft.taken(alloc, at)?;
    context.restore(before);
    Ok(())
}
