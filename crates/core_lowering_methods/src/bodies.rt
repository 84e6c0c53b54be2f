//! The code of methods and constructors (JLS 8.3.2, 8.4, 8.8, 12.5).
ghost use Rattle.std.specs.Prelude.{◌≡◌, [], ◌++◌, OnOk, IfOk, None, codes, false, not};
ghost use Rattle.java_resolver.specs.Words.{has_word};
ghost use Rattle.core_code.specs.Tree.{tree_of, in_sequence};
ghost use Rattle.core_lowering_drafts.specs.Sizes.{is_small};
ghost use Rattle.core_lowering_drafts.specs.Written.{code_of};
ghost use Rattle.core_lowering_context.specs.Drafts as path;
ghost use Rattle.core_lowering_rules.specs.Context.{made};
ghost use Rattle.core_lowering_rules.specs.Scopes.{after_all, back_in};
ghost use Rattle.core_lowering_rules.specs.Statements.{closed, returned, stmts};
ghost use Rattle.core_lowering_rules.specs.Methods as wanted;
ghost use Rattle.core_lowering_rules.specs.Methods.{Default, Spelled, Unspelled, entered};
ghost use Rattle.core_lowering_rules.specs.Methods.{body_of, code_in, kinds_in, end_of, outside_methods};
ghost use Rattle.core_lowering_rules.specs.Methods.{has_other_lock, is_apart, is_past_limit, method_code, method_kinds};
ghost use Rattle.core_lowering_drafts.specs.Sites.{numbered};
ghost use Rattle.core_lowering_context.specs.Beginning.{inside};
ghost use Rattle.core_lowering_methods.specs.Bodies.{object_begun, owner_pushed, under_lock, with_end};
ghost use Rattle.core_lowering_methods.specs.Bodies.{whole_code, kept_code, Tells};
ghost use Rattle.core_lowering_methods.specs.Extents.{is_past};
ghost use Rattle.core_lowering_context.specs.Sources.{source_of};
ghost use Rattle.core_lowering_context.specs.Views.{folder_of};

use crate::beginnings::{default_fields, fields_of};
use crate::statements::lower_block;
use container_cells::Cell;
use core_code::{Code, LockKind, Reason};
use core_lowering_context::{Body, Context, Making, Source, enter, enter_spelled};
use core_lowering_drafts::{Asked, Draft, Stop, Written};
use core_lowering_drafts_code::{write, write_small};
use core_lowering_parts::lower_return_nothing;
use java_resolver::{Table, has_word};
use java_tree::MethodTree;
use racer_base::{Items, Kind, Memory, Place};
use std::alloc::Global;

/// Whether the code of a method's block, as it is where no method is analysed, is within the limit.
#[derive(Clone, Copy)]
pub enum Extent {
    Within,
    Past,
}

/// The code of a method and the kinds of its variables.
#[derive(Drop)]
pub struct Lowered {
    pub code: Code,
    pub kinds: Items<Kind>,
}

/// What is known of a method before it is known which methods are analysed: its code and the kinds of its variables,
/// where none is; whether a `finally` of it unlocks what is locked by no lock field before its `try`; whether a jump of
/// it has no target, or a resource of it is closed by a method of the folder; and how large its code is.
#[derive(Drop)]
pub struct Survey {
    pub lowered: Lowered,
    pub has_other_lock: bool,
    pub is_apart: bool,
    pub extent: Extent,
}

// ---- code that no limit is told of

/// Writes a draft, of whatever size its code is.
fn write_all(alloc: Global, draft: &Draft, written: &mut Written) -> Result<(), Memory>
    ensures { OnOk result (code_of written.new ≡ code_of written.old ++ made draft.now) }
{
    match write(alloc, draft, Asked::all(), written) {
        Ok(()) => Ok(()),
        Err(_) => Err(Memory),
    }
}

// ---- what the code is made of

/// The object or the class that a synchronized method is locked by (JLS 8.4.3.6).
fn owner_of(alloc: Global, context: &Context, m: &MethodTree) -> Result<Draft, Memory>
    ensures { IfOk result (λ owner. owner ≡ owner_pushed context.now m.now) }
{
    let mut making = Making::new(alloc);
    if has_word(m.modifiers.as_slice(), "synchronized") {
        context.push_owner(&mut making)?;
    }
    making.taken(alloc, 0)
}

/// `return;`, before anything is lowered.
fn last_of(alloc: Global, context: &mut Context) -> Result<Draft, Memory>
    requires { context.old.guards ≡ [] }
    ensures context { OnOk result (context.new ≡ context.old) }
    ensures code { IfOk result (λ last. last ≡ returned context.old None) }
{
    let mut making = Making::new(alloc);
    lower_return_nothing(context, &mut making)?;
    making.taken(alloc, 0)
}

fn block_of(alloc: Global, context: &mut Context, m: &MethodTree) -> Result<Draft, Memory>
    ensures context { OnOk result (context.new
        ≡ back_in context.old (after_all context.old (body_of m.now))) }
    ensures code { IfOk result (λ block. block ≡ closed context.old (after_all context.old (body_of m.now))
        (stmts context.old (body_of m.now))) }
{
    let mut making = Making::new(alloc);
    lower_block(alloc, context, m.body.as_slice(), &mut making)?;
    making.taken(alloc, 0)
}

/// What the code of a method is made of: the fields of its object, what it is locked by, its block, and what is done at
/// its end.
#[derive(Drop)]
struct Parts {
    fields: Draft,
    owner: Draft,
    block: Draft,
    last: Draft,
}

fn parts_of(
    alloc: Global,
    table: &Table,
    cells: &[Option<Cell>],
    statuses: &[Option<Reason>],
    source: &Source,
    m: &MethodTree,
    context: &mut Context,
) -> Result<Parts, Memory>
    requires { context.old ≡ inside (folder_of table.now cells.now statuses.now) (source_of source.now) m.now }
    ensures context { OnOk result (context.new
        ≡ back_in context.old (after_all context.old (body_of m.now))) }
    ensures fields { IfOk result (λ parts. parts.fields
        ≡ object_begun (outside_methods context.old) source.now.members.now m.now) }
    ensures owner { IfOk result (λ parts. parts.owner ≡ owner_pushed context.old m.now) }
    ensures block { IfOk result (λ parts. parts.block ≡ closed context.old (after_all context.old (body_of m.now))
        (stmts context.old (body_of m.now))) }
    ensures last { IfOk result (λ parts. parts.last ≡ returned context.old None) }
{
    let fields = fields_of(alloc, table, cells, statuses, source, m)?;
    let owner = owner_of(alloc, context, m)?;
    let last = last_of(alloc, context)?;
    let block = block_of(alloc, context, m)?;
    Ok(Parts {
        fields,
        owner,
        block,
        last,
    })
}

// ---- code

/// What the code of a block is written in: the room of so many tokens, or as much as it takes.
#[derive(Clone, Copy)]
enum Limit {
    Tokens(u32),
    Free,
}

fn write_block(
    alloc: Global,
    block: &Draft,
    limit: Limit,
    written: &mut Written,
) -> Result<(), Stop>
    ensures code { OnOk result (code_of written.new ≡ code_of written.old ++ made block.now) }
    ensures size { Tells limit block.now result }
{
    match limit {
        Limit::Tokens(tokens) => write_small(alloc, block, tokens, written),
        Limit::Free => Ok(write_all(alloc, block, written)?),
    }
}

/// What is written next stands under a lock.
fn enter_lock(written: &mut Written) -> Result<(), Memory>
    ensures { OnOk result (code_of written.new ≡ code_of written.old) }
{
    match written.enter() {
        Ok(()) => Ok(()),
        Err(_) => Err(Memory),
    }
}

/// The block, under a lock where the method is synchronized (JLS 8.4.3.6).
fn write_body(
    alloc: Global,
    place: Place,
    m: &MethodTree,
    block: &Draft,
    limit: Limit,
    written: &mut Written,
) -> Result<(), Stop>
    ensures code { OnOk result (code_of written.new ≡ code_of written.old
        ++ under_lock place (has_word (codes "synchronized") m.now.modifiers) (made block.now)) }
    ensures size { Tells limit block.now result }
{
    if !has_word(m.modifiers.as_slice(), "synchronized") {
        return write_block(alloc, block, limit, written);
    }
    enter_lock(written)?;
    let at = written.len();
    write_block(alloc, block, limit, written)?;
    written.hold(alloc, LockKind::Own, place, at)?;
    Ok(())
}

/// An end that can be reached.
fn write_end(alloc: Global, last: &Draft, written: &mut Written) -> Result<(), Memory>
    ensures { OnOk result (code_of written.new ≡ with_end last.now (code_of written.old)) }
{
    if written.can_end() {
        write_all(alloc, last, written)
    } else {
        Ok(())
    }
}

fn whole(
    alloc: Global,
    place: Place,
    m: &MethodTree,
    parts: &Parts,
    limit: Limit,
) -> Result<Code, Stop>
    ensures code { IfOk result (λ code. tree_of code ≡ numbered 0 (in_sequence (whole_code parts.now.fields
        parts.now.owner place (has_word (codes "synchronized") m.now.modifiers) parts.now.block parts.now.last))) }
    ensures size { Tells limit parts.now.block result }
{
    let mut written = Written::new(alloc);
    write_all(alloc, &parts.fields, &mut written)?;
    write_all(alloc, &parts.owner, &mut written)?;
    write_body(alloc, place, m, &parts.block, limit, &mut written)?;
    write_end(alloc, &parts.last, &mut written)?;
    Ok(written.into_code())
}

fn no_code(alloc: Global) -> Code
    ensures { tree_of result ≡ numbered 0 (in_sequence []) }
{
    Written::new(alloc).into_code()
}

/// Code that is within the limit, or none, and which.
#[derive(Drop)]
struct Measured {
    code: Code,
    extent: Extent,
}

fn measure(alloc: Global, place: Place, m: &MethodTree, parts: &Parts) -> Result<Measured, Memory>
    ensures code { IfOk result (λ measured. tree_of measured.code ≡ numbered 0 (in_sequence
        (kept_code (is_past measured.extent) (whole_code parts.now.fields parts.now.owner place
        (has_word (codes "synchronized") m.now.modifiers) parts.now.block parts.now.last)))) }
    ensures extent { IfOk result (λ measured. is_past measured.extent
        ≡ not (is_small m.now.tokens (in_sequence (made parts.now.block)))) }
{
    match whole(alloc, place, m, parts, Limit::Tokens(m.tokens)) {
        Ok(code) => Ok(Measured {
            code,
            extent: Extent::Within,
        }),
        Err(Stop::TooLarge) => Ok(Measured {
            code: no_code(alloc),
            extent: Extent::Past,
        }),
        Err(Stop::Memory) => Err(Memory),
    }
}

/// Code of which it is known whether it is within the limit.
fn known_code(
    alloc: Global,
    place: Place,
    m: &MethodTree,
    parts: &Parts,
    extent: Extent,
) -> Result<Code, Memory>
    ensures { IfOk result (λ code. tree_of code ≡ numbered 0 (in_sequence
        (kept_code (is_past extent) (whole_code parts.now.fields parts.now.owner place
        (has_word (codes "synchronized") m.now.modifiers) parts.now.block parts.now.last)))) }
{
    if matches!(extent, Extent::Past) {
        return Ok(no_code(alloc));
    }
    match whole(alloc, place, m, parts, Limit::Free) {
        Ok(code) => Ok(code),
        Err(_) => Err(Memory),
    }
}

// ---- methods

/// The constructor that a class has without declaring it.
fn lower_default(
    alloc: Global,
    table: &Table,
    cells: &[Option<Cell>],
    statuses: &[Option<Reason>],
    source: &Source,
) -> Result<Lowered, Memory>
    ensures code { IfOk result (λ lowered. tree_of lowered.code ≡ numbered 0 (in_sequence (code_in
        (entered (folder_of table.now cells.now statuses.now) (source_of source.now))
        (source_of source.now) Default))) }
    ensures kinds { IfOk result (λ lowered. lowered.kinds ≡ kinds_in
        (entered (folder_of table.now cells.now statuses.now) (source_of source.now))
        (source_of source.now) Default) }
{
    let fields = default_fields(alloc, table, cells, statuses, source)?;
    let mut context = enter(alloc, table, cells, statuses, source)?;
    let last = last_of(alloc, &mut context)?;
    let mut written = Written::new(alloc);
    write_all(alloc, &fields, &mut written)?;
    write_end(alloc, &last, &mut written)?;
    Ok(Lowered {
        code: written.into_code(),
        kinds: context.into_kinds(),
    })
}

/// A method that a tree spells.
fn lower_spelled(
    alloc: Global,
    table: &Table,
    cells: &[Option<Cell>],
    statuses: &[Option<Reason>],
    source: &Source,
    m: &MethodTree,
    extent: Extent,
) -> Result<Lowered, Memory>
    requires { is_past extent
        ≡ wanted.is_past (entered (folder_of table.now cells.now []) (source_of source.now)) (Spelled m.now) }
    ensures code { IfOk result (λ lowered. tree_of lowered.code ≡ numbered 0 (in_sequence (code_in
        (entered (folder_of table.now cells.now statuses.now) (source_of source.now))
        (source_of source.now) (Spelled m.now)))) }
    ensures kinds { IfOk result (λ lowered. lowered.kinds ≡ kinds_in
        (entered (folder_of table.now cells.now statuses.now) (source_of source.now))
        (source_of source.now) (Spelled m.now)) }
{
    let mut context = enter_spelled(alloc, table, cells, statuses, source, m)?;
    let parts = parts_of(alloc, table, cells, statuses, source, m, &mut context)?;
    let code = known_code(alloc, source.info.place, m, &parts, extent)?;
    Ok(Lowered {
        code,
        kinds: context.into_kinds(),
    })
}

/// A method that no tree spells has no code.
fn lower_unspelled(
    alloc: Global,
    table: &Table,
    cells: &[Option<Cell>],
    statuses: &[Option<Reason>],
    source: &Source,
) -> Result<Lowered, Memory>
    ensures code { IfOk result (λ lowered. tree_of lowered.code ≡ numbered 0 (in_sequence (code_in
        (entered (folder_of table.now cells.now statuses.now) (source_of source.now))
        (source_of source.now) Unspelled))) }
    ensures kinds { IfOk result (λ lowered. lowered.kinds ≡ kinds_in
        (entered (folder_of table.now cells.now statuses.now) (source_of source.now))
        (source_of source.now) Unspelled) }
{
    let entered = enter(alloc, table, cells, statuses, source)?;
    let mut kinds = entered.into_kinds().into_vec();
    kinds.extend_from_slice(source.info.parameters.as_slice())?;
    Ok(Lowered {
        code: no_code(alloc),
        kinds: Items::from(kinds),
    })
}

/// The code of a method and the kinds of its variables, where these are the reasons why methods are not analysed.
pub fn lower_method(
    alloc: Global,
    table: &Table,
    cells: &[Option<Cell>],
    statuses: &[Option<Reason>],
    source: &Source,
    extent: Extent,
) -> Result<Lowered, Memory>
    requires { is_past extent ≡ is_past_limit (folder_of table.now cells.now []) (source_of source.now) }
    ensures code { IfOk result (λ lowered. tree_of lowered.code ≡ numbered 0 (in_sequence
        (method_code (folder_of table.now cells.now statuses.now) (source_of source.now)))) }
    ensures kinds { IfOk result (λ lowered. lowered.kinds
        ≡ method_kinds (folder_of table.now cells.now statuses.now) (source_of source.now)) }
{
    match &source.body {
        Body::Default => lower_default(alloc, table, cells, statuses, source),
        Body::Spelled(m) => lower_spelled(alloc, table, cells, statuses, source, m, extent),
        Body::Unspelled => lower_unspelled(alloc, table, cells, statuses, source),
    }
}

// ---- before it is known which methods are analysed

/// A method in which there are no jumps and no locks.
fn plain(lowered: Lowered) -> Survey
    ensures lowered { result.lowered ≡ lowered }
    ensures locks { result.has_other_lock ≡ false }
    ensures apart { result.is_apart ≡ false }
    ensures extent { is_past result.extent ≡ false }
{
    Survey {
        lowered,
        has_other_lock: false,
        is_apart: false,
        extent: Extent::Within,
    }
}

fn survey_spelled(
    alloc: Global,
    table: &Table,
    cells: &[Option<Cell>],
    source: &Source,
    m: &MethodTree,
) -> Result<Survey, Memory>
    ensures code { IfOk result (λ survey. tree_of survey.lowered.code ≡ numbered 0 (in_sequence (code_in
        (entered (folder_of table.now cells.now []) (source_of source.now)) (source_of source.now) (Spelled m.now)))) }
    ensures kinds { IfOk result (λ survey. survey.lowered.kinds ≡ kinds_in
        (entered (folder_of table.now cells.now []) (source_of source.now)) (source_of source.now) (Spelled m.now)) }
    ensures locks { IfOk result (λ survey. survey.has_other_lock
        ≡ (end_of (entered (folder_of table.now cells.now []) (source_of source.now)) (Spelled m.now)).other_lock) }
    ensures apart { IfOk result (λ survey. survey.is_apart
        ≡ (end_of (entered (folder_of table.now cells.now []) (source_of source.now)) (Spelled m.now)).is_apart) }
    ensures extent { IfOk result (λ survey. is_past survey.extent
        ≡ wanted.is_past (entered (folder_of table.now cells.now []) (source_of source.now)) (Spelled m.now)) }
{
    let mut context = enter_spelled(alloc, table, cells, &[], source, m)?;
    let parts = parts_of(alloc, table, cells, &[], source, m, &mut context)?;
    let measured = measure(alloc, source.info.place, m, &parts)?;
    let has_other_lock = context.other_lock();
    let is_apart = context.is_apart();
    Ok(Survey {
        lowered: Lowered {
            code: measured.code,
            kinds: context.into_kinds(),
        },
        has_other_lock,
        is_apart,
        extent: measured.extent,
    })
}

/// What is known of a method before it is known which methods are analysed.
pub fn survey_method(
    alloc: Global,
    table: &Table,
    cells: &[Option<Cell>],
    source: &Source,
) -> Result<Survey, Memory>
    ensures code { IfOk result (λ survey. tree_of survey.lowered.code ≡ numbered 0 (in_sequence
        (method_code (folder_of table.now cells.now []) (source_of source.now)))) }
    ensures kinds { IfOk result (λ survey. survey.lowered.kinds
        ≡ method_kinds (folder_of table.now cells.now []) (source_of source.now)) }
    ensures locks { IfOk result (λ survey. survey.has_other_lock
        ≡ has_other_lock (folder_of table.now cells.now []) (source_of source.now)) }
    ensures apart { IfOk result (λ survey. survey.is_apart
        ≡ is_apart (folder_of table.now cells.now []) (source_of source.now)) }
    ensures extent { IfOk result (λ survey. is_past survey.extent
        ≡ is_past_limit (folder_of table.now cells.now []) (source_of source.now)) }
{
    match &source.body {
        Body::Default => Ok(plain(lower_default(alloc, table, cells, &[], source)?)),
        Body::Spelled(m) => survey_spelled(alloc, table, cells, source, m),
        Body::Unspelled => Ok(plain(lower_unspelled(alloc, table, cells, &[], source)?)),
    }
}
