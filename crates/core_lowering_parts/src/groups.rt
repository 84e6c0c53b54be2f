//! What the groups of a `switch` come to (JLS 14.11).
ghost use Rattle.std.specs.Prelude.{◌≡◌, ◌++◌, None, IfOk, OnOk, drop, map, take, is_none};
ghost use Rattle.std.specs.List.{list_any};
ghost use Rattle.core_lowering_drafts.specs.Pieces.{all_parts};
ghost use Rattle.core_lowering_rules.specs.Trees.{pack_groups};
ghost use Rattle.core_lowering_rules.specs.TreesOf.{label_of, group_of};
ghost use Rattle.core_lowering_rules.specs.Context.{choice, within};
ghost use Rattle.core_lowering_rules.specs.Statements.{entered, forked};
ghost use Rattle.core_lowering_rules.specs.Statements as wanted;
ghost use Rattle.core_lowering_context.specs.Drafts.{code_of};
ghost use Rattle.core_lowering_context.specs.Beginning.{left_at};
ghost use Rattle.core_lowering_context.specs.Restored.{left_target};
ghost use Rattle.core_lowering_parts.specs.StatementParts.{Becomes, closed_from, fallen, nothing_entered, fork_of};

use crate::blocks::end_block;
use core_lowering_context::{Context, Making};
use core_lowering_drafts::{Draft, Exit, Groups, Part, Piece};
use java_tree::{GroupTree, LabelTree};
use racer_base::Memory;
use std::alloc::Global;
use std::mem;

/// Whether a label is `default`.
fn is_default(label: &LabelTree) -> bool
    ensures { result ≡ is_none (label_of label.now) }
{
    match label {
        LabelTree::Default => true,
        LabelTree::Case(_) => false,
    }
}

/// Whether one of these labels is `default`.
fn is_any_default(labels: &[LabelTree]) -> bool
    ensures { result ≡ list_any is_none (map label_of labels.now) }
{
    for label in labels {
        if is_default(label) {
            return true;
        }
    }
    false
}

/// Whether a `default` stands before one of these groups.
fn has_default(groups: &[GroupTree]) -> bool
    ensures { result ≡ wanted.has_default (pack_groups (map group_of groups.now)) }
{
    for group in groups {
        if is_any_default(group.labels.as_slice()) {
            return true;
        }
    }
    false
}

/// What may be entered so far, and the groups behind it that go on each in the next one.
#[derive(Drop)]
pub struct Options {
    done: Vec<Draft>,
    falling: Vec<Draft>,
}

/// What goes on in a group: these groups, each of which goes on in the next one.
fn entered_pieces(alloc: Global, falling: Vec<Draft>) -> Result<Vec<Piece>, Memory>
    ensures { IfOk result (λ pieces. all_parts pieces.items ≡ entered (fallen None falling.items)) }
{
    let mut pieces = Vec::new(alloc);
    if falling.is_empty() {
        return Ok(pieces);
    }
    pieces.push(Piece::Part(Part::Entered(Groups::of(alloc, falling)?)))?;
    Ok(pieces)
}

/// Groups that go on each in the next one, and the last one.
fn option_of(alloc: Global, falling: Vec<Draft>, last: Draft) -> Result<Draft, Memory>
    ensures { IfOk result (λ draft. draft ≡ entered (fallen None falling.items) ++ last) }
{
    let mut pieces = entered_pieces(alloc, falling)?;
    let mut rest = last.into_pieces();
    pieces.append(&mut rest)?;
    Draft::of(alloc, pieces)
}

impl Options {
    ghost use Rattle.std.specs.Prelude.{◌≡◌, List, Option, None, IfOk, OnOk};
    ghost use Rattle.core_lowering_rules.specs.Trees.{Expr, Stmts, group_then};
    ghost use Rattle.core_lowering_rules.specs.Trees as tree;
    ghost use Rattle.core_lowering_rules.specs.Context.{Context};
    ghost use Rattle.core_lowering_rules.specs.Scopes.{after_all};
    ghost use Rattle.core_lowering_rules.specs.Statements.{stmts, options};
    ghost use Rattle.core_lowering_parts.specs.StatementParts.{options_with, settled};

    pub fn none(alloc: Global) -> Options
        ensures { (context : Context) (gs : tree.Groups) → options_with result context gs ≡ options context None gs }
    {
        Options {
            done: Vec::new(alloc),
            falling: Vec::new(alloc),
        }
    }

    /// Adds the draft of a group.
    pub fn add(&mut self, alloc: Global, group: Draft) -> Result<(), Memory>
        ensures { OnOk result ((context : Context) (labels : List (Option Expr)) (ss : Stmts) (gs : tree.Groups) →
            group ≡ stmts context ss →
            options_with self.old context (group_then labels ss gs) ≡ options_with self.new (after_all context ss) gs) }
    {
        if group.ends().has_normal() {
            self.falling.push(group)?;
            return Ok(());
        }
        let falling = mem::replace(&mut self.falling, Vec::new(alloc));
        self.done.push(option_of(alloc, falling, group)?)?;
        Ok(())
    }

    /// All that may be entered, where no group comes any more.
    pub fn finish(self, alloc: Global) -> Result<Vec<Draft>, Memory>
        ensures { IfOk result (λ all. all.items ≡ settled self) }
    {
        let Options {
            mut done,
            mut falling,
        } = self;
        let Some(last) = falling.pop() else {
            return Ok(done);
        };
        done.push(option_of(alloc, falling, last)?)?;
        Ok(done)
    }
}

/// One of two drafts.
fn either(alloc: Global, first: Draft, second: Draft) -> Result<Draft, Memory>
    ensures { IfOk result (λ draft. draft ≡ choice first second) }
{
    let mut pieces = Vec::new(alloc);
    let first = Box::new(alloc, first)?;
    let second = Box::new(alloc, second)?;
    pieces.push(Piece::Part(Part::Choice(first, second)))?;
    Draft::of(alloc, pieces)
}

/// One of these drafts, by halves.
#[cycle(fork)]
fn forked(alloc: Global, mut options: Vec<Draft>) -> Result<Draft, Memory>
    ensures { IfOk result (λ draft. draft ≡ forked options.items) }
{
    if options.len() <= 1 {
        return match options.pop() {
            Some(option) => Ok(option),
            None => Ok(Draft::nothing(alloc)),
        };
    }
    let rest = options.split_off(options.len() / 2)?;
    let first = forked(alloc, options)?;
    let second = forked(alloc, rest)?;
    either(alloc, first, second)
}

/// What may be entered, and nothing where no group has `default`.
fn with_nothing(
    alloc: Global,
    groups: &[GroupTree],
    mut options: Vec<Draft>,
) -> Result<Vec<Draft>, Memory>
    ensures { IfOk result (λ all. all.items
        ≡ options.items ++ nothing_entered (pack_groups (map group_of groups.now))) }
{
    if has_default(groups) {
        return Ok(options);
    }
    options.push(Draft::nothing(alloc))?;
    Ok(options)
}

/// Puts one of these at the end, or nothing where no group has `default`.
pub fn lower_fork(
    alloc: Global,
    groups: &[GroupTree],
    options: Vec<Draft>,
    draft: &mut Making,
) -> Result<(), Memory>
    ensures { OnOk result (code_of draft.new ≡ code_of draft.old
        ++ fork_of (pack_groups (map group_of groups.now)) options.items) }
{
    let fork = forked(alloc, with_nothing(alloc, groups, options)?)?;
    draft.put(fork)
}

/// The end of a group that is there from this part on: it is taken from the draft, and its variables stay in scope in
/// the next one (JLS 6.3).
pub fn end_group(
    alloc: Global,
    context: &mut Context,
    at: usize,
    draft: &mut Making,
) -> Result<Draft, Memory>
    ensures context { context.new ≡ context.old }
    ensures kept { OnOk result (code_of draft.new ≡ take at (code_of draft.old)) }
    ensures taken { IfOk result (λ made. made ≡ drop at (code_of draft.old)) }
{
    // The context is lent for its clause: a wrong body takes 30 s here, in the cycle of statements 50 and a seed.
    draft.taken(alloc, at)
}

/// The end of a `switch` whose groups begin at this part, with this exit, and with so many variables in scope before.
pub fn end_switch(
    alloc: Global,
    context: &mut Context,
    exit: Exit,
    before: usize,
    at: usize,
    draft: &mut Making,
) -> Result<(), Memory>
    ensures context { OnOk result (context.new ≡ left_at before (left_target exit.0 context.old)) }
    ensures code { OnOk result (Becomes at (λ body. closed_from before context.old (within exit.0 body))
        (code_of draft.old) (code_of draft.new)) }
{
    draft.come_out(alloc, exit, at)?;
    context.leave_target(exit);
    end_block(alloc, context, draft, before, at)
}
