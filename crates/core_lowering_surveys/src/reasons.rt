//! Why methods are not analysed.
ghost use Rattle.std.specs.Prelude.{◌≡◌, ◌||◌, ◌-◌, IfOk, length};
ghost use Rattle.core_code.specs.Chains.{flag_of};
ghost use Rattle.java_resolver.specs.Table.{methods};
ghost use Rattle.core_lowering_rules.specs.Methods.{this_kinds};
ghost use Rattle.core_lowering_rules.specs.Programs.{is_unspelled};
ghost use Rattle.core_lowering_rules.specs.Programs as wanted_program;
ghost use Rattle.core_lowering_methods.specs.Extents as seen;
ghost use Rattle.core_lowering_context.specs.Sources.{body_of};
ghost use Rattle.core_lowering_surveys.specs.Counts.{AreCounts};
ghost use Rattle.core_lowering_surveys.specs.Reasons as wanted;

use crate::counts::is_overloaded;
use core_code::Reason;
use core_lowering_context::{Body, Source};
use core_lowering_methods::{Extent, Survey};
use java_resolver::{MethodInfo, Table};
use racer_base::{MAX_LOCALS, MAX_PARAMETERS, Memory};
use std::alloc::Global;

/// Whether no tree spells a body.
fn is_unspelled(body: &Body) -> bool
    ensures { result ≡ is_unspelled (body_of body.now) }
{
    match body {
        Body::Default => false,
        Body::Spelled(_) => false,
        Body::Unspelled => true,
    }
}

fn is_past(extent: Extent) -> bool
    ensures { result ≡ seen.is_past extent }
{
    match extent {
        Extent::Within => false,
        Extent::Past => true,
    }
}

/// How many of so many variables are neither `this` nor parameters.
fn local_count(info: &MethodInfo, variables: usize) -> usize
    ensures { result ≡ variables - length (this_kinds info.now) - length info.now.parameters }
{
    let own = if info.is_static { 0 } else { 1 };
    variables
        .saturating_sub(own)
        .saturating_sub(info.parameters.len())
}

/// The first of these reasons that applies.
fn first_of(
    is_overload: bool,
    is_outside: bool,
    parameters: usize,
    locals: usize,
    is_past: bool,
) -> Option<Reason>
    ensures { result ≡ wanted.first_of is_overload is_outside parameters locals is_past }
{
    if is_overload {
        return Some(Reason::Overload);
    }
    if is_outside {
        return Some(Reason::Outside);
    }
    if parameters > MAX_PARAMETERS {
        return Some(Reason::Parameters);
    }
    if locals > MAX_LOCALS {
        return Some(Reason::Locals);
    }
    if is_past {
        return Some(Reason::Operations);
    }
    None
}

/// The first reason that applies to a method, apart from recursion, where this is known of it.
pub fn first_reason(
    table: &Table,
    counts: &[u32],
    source: &Source,
    survey: &Survey,
) -> Result<Option<Reason>, Memory>
    requires counts { AreCounts (methods table.now) counts.now }
    ensures { IfOk result (λ reason. reason ≡ wanted.first_of
        (wanted_program.is_overloaded (methods table.now) source.now.info.now)
        (is_unspelled (body_of source.now.body) || survey.now.has_other_lock || survey.now.is_apart)
        (length source.now.info.now.parameters)
        (length survey.now.lowered.kinds - length (this_kinds source.now.info.now)
        - length source.now.info.now.parameters)
        (seen.is_past survey.now.extent)) }
{
    let is_overload = is_overloaded(table, counts, source.info)?;
    let is_outside = is_unspelled(&source.body) || survey.has_other_lock || survey.is_apart;
    let parameters = source.info.parameters.len();
    let locals = local_count(source.info, survey.lowered.kinds.len());
    let is_past = is_past(survey.extent);
    Ok(first_of(is_overload, is_outside, parameters, locals, is_past))
}

/// A reason, or else recursion.
fn with_recursion(reason: Option<Reason>, is_recursive: bool) -> Option<Reason>
    ensures { result ≡ wanted.with_recursion reason is_recursive }
{
    match reason {
        Some(reason) => Some(reason),
        None if is_recursive => Some(Reason::Recursive),
        None => None,
    }
}

/// The flag of a method.
fn flag_at(flags: &[bool], index: usize) -> bool
    ensures { result ≡ flag_of flags.now (record { 0 = index }) }
{
    match flags.get(index) {
        Some(flag) => *flag,
        None => false,
    }
}

/// Why methods are not analysed where those of these flags are recursive.
pub fn statuses(
    alloc: Global,
    reasons: &[Option<Reason>],
    recursive: &[bool],
) -> Result<Vec<Option<Reason>>, Memory>
    ensures { IfOk result (λ made. made.items ≡ wanted.with_recursive (flag_of recursive.now) 0 reasons.now) }
{
    let mut made = Vec::new(alloc);
    for (index, reason) in reasons.iter().enumerate() {
        made.push(with_recursion(*reason, flag_at(recursive, index)))?;
    }
    Ok(made)
}
