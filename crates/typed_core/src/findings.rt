//! What is found of each method, once for all classes that reach it.
ghost use Rattle.std.specs.Prelude.{◌≡◌, ◌&&◌, not, ◌||◌, option_to_list, map, true, None, IfOk, OnOk};
ghost use Rattle.std.specs.List.{list_all};
ghost use Rattle.racer_base.specs.declared.ids.ClassId.{ClassId as Id};
ghost use Rattle.core_code.specs.Core.{method_of};
ghost use Rattle.core_code.specs.Facts.{is_stack_enough};
ghost use Rattle.core_code.specs.Program.{core, methods};
ghost use Rattle.core_code.specs.Tree.{in_sequence, tree_of};
ghost use Rattle.typed_core.specs.Check as check;
ghost use Rattle.typed_core.specs.Contexts.{are_returns};
ghost use Rattle.typed_core.specs.Reaching.{has_class, AreFound, AreRead, IsClassRead, IsEven, IsFound};
ghost use Rattle.typed_core.specs.Typings.{is_plain};
ghost use Rattle.typed_core.specs.Walks.{IsRight};

use crate::check::check_code;
use crate::context::{CheckContext, all_returns, field_at};
use crate::doubts::Doubt;
use crate::loops::Walk;
use crate::states::Kinds;
use core_code::{Code, FieldCore, MethodCore, Op, Program};
use racer_base::{ClassId, Kind, Memory};
use std::alloc::Global;

/// What may fail in a method, and the classes whose fields it reads that are null at first.
#[derive(Drop)]
pub(crate) struct Findings {
    pub doubts: Vec<Doubt>,
    pub reads: Vec<ClassId>,
}

/// Whether a field of an object is null until it is stored.
fn is_null_at_first(field: &FieldCore) -> bool
    ensures { result ≡ (not field.now.is_static && not (is_plain field.now.kind)) }
{
    !field.is_static && !matches!(field.kind, Kind::Plain)
}

/// The class whose field an operation reads, where the field is null at first.
fn class_read(program: &Program, op: Op) -> Option<ClassId>
    ensures { IsClassRead (core program.now) op result }
{
    let Op::Get(f) = op else {
        return None;
    };
    match field_at(program, f) {
        Some(field) if is_null_at_first(field) => Some(field.class),
        _ => None,
    }
}

/// Puts the classes whose fields code reads behind those that there are.
#[cycle(reads)]
fn push_reads(program: &Program, code: &Code, reads: &mut Vec<ClassId>) -> Result<(), Memory>
    ensures { OnOk result (AreRead (core program.now) (tree_of code.now) reads.old.items reads.new.items) }
{
    match code {
        Code::Op(_, _, op) => push_read(class_read(program, *op), reads),
        Code::Seq(parts) => push_all_reads(program, parts.as_slice(), reads),
        Code::Choice(left, right) => {
            push_reads(program, left, reads)?;
            push_reads(program, right, reads)
        }
        Code::Loop(body) => push_reads(program, body, reads),
        Code::Sync(_, _, body) => push_reads(program, body, reads),
    }
}

/// Puts the classes whose fields parts of code read behind those that there are.
#[cycle(reads)]
fn push_all_reads(program: &Program, parts: &[Code], reads: &mut Vec<ClassId>) -> Result<(), Memory>
    ensures { OnOk result (AreRead (core program.now) (in_sequence (map tree_of parts.now)) reads.old.items
        reads.new.items) }
{
    for part in parts {
        push_reads(program, part, reads)?;
    }
    Ok(())
}

/// Puts a class behind others, unless it stands there last.
fn push_read(class: Option<ClassId>, reads: &mut Vec<ClassId>) -> Result<(), Memory>
    ensures { OnOk result ((c : Id) → has_class reads.new.items c ≡
        (has_class reads.old.items c || has_class (option_to_list class) c)) }
{
    let Some(class) = class else {
        return Ok(());
    };
    if let Some(last) = reads.as_slice().last() {
        if *last == class {
            return Ok(());
        }
    }
    Ok(reads.push(class)?)
}

/// What may fail in the method of a context.
fn doubts_of(context: &CheckContext) -> Result<Vec<Doubt>, Memory>
    requires right { IsRight context.now }
    requires even { IsEven (method_of context.now.method.now) }
    ensures { IfOk result (λ doubts. doubts.items ≡
        check.doubts_of (core context.now.program.now) (method_of context.now.method.now)) }
{
    let mut walk = Walk::new(context.alloc);
    let mut here = Kinds::start(context.alloc, context.method)?;
    check_code(&mut walk, context, &context.method.code, true, &mut here)?;
    let Walk { doubts, .. } = walk;
    Ok(doubts)
}

/// What is found of a method: nothing of one that is not analysed.
fn findings_of(context: &CheckContext) -> Result<Findings, Memory>
    requires right { IsRight context.now }
    requires even { IsEven (method_of context.now.method.now) }
    ensures { IfOk result (λ found. (method_of context.now.method.now).status ≡ None →
        IsFound (core context.now.program.now) (method_of context.now.method.now) found) }
{
    let mut reads = Vec::new(context.alloc);
    if context.method.status.is_some() {
        return Ok(Findings {
            doubts: Vec::new(context.alloc),
            reads,
        });
    }
    push_reads(context.program, &context.method.code, &mut reads)?;
    let doubts = doubts_of(context)?;
    Ok(Findings { doubts, reads })
}

/// What is found of each of these methods of a program.
fn findings_of_all(
    alloc: Global,
    program: &Program,
    methods: &[MethodCore],
    returns: &[bool],
) -> Result<Vec<Findings>, Memory>
    requires right { returns.now ≡ are_returns (core program.now) }
    requires even { list_all is_stack_enough (map method_of methods.now) ≡ true }
    ensures { IfOk result (λ all. AreFound (core program.now) (map method_of methods.now) all.items) }
{
    let mut all = Vec::new(alloc);
    for method in methods {
        let context = CheckContext {
            alloc,
            program,
            method,
            returns,
        };
        all.push(findings_of(&context)?)?;
    }
    Ok(all)
}

/// What is found of each method of a program.
pub(crate) fn all_findings(alloc: Global, program: &Program) -> Result<Vec<Findings>, Memory>
    ensures { IfOk result (λ all. AreFound (core program.now) (methods program.now) all.items) }
{
    let returns = all_returns(alloc, program)?;
    findings_of_all(alloc, program, program.methods(), returns.as_slice())
}
