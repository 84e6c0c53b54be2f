//! The calls of code, in reading order.
ghost use Rattle.std.specs.Prelude.{◌≡◌, ◌++◌, OnOk, IfOk, map, option_to_list, true};
ghost use Rattle.core_code.specs.Tree.{tree_of, in_sequence};
ghost use Rattle.core_code.specs.Recursion.{all_calls_in};
ghost use Rattle.core_code.specs.Gathered.{callees_of_op, callees_of};

use crate::{Code, Op};
use racer_base::{Items, Memory, MethodId};
use std::alloc::Global;

/// The method that an operation calls: also one that is not analysed, where all are asked for.
fn callee(op: Op, all: bool) -> Option<MethodId>
    ensures { option_to_list result ≡ callees_of_op all op }
{
    match op {
        Op::Call(m, _) => Some(m),
        Op::Unread(m, _) if all => Some(m),
        _ => None,
    }
}

/// Puts the methods that code calls behind those that there are.
#[cycle(calls)]
fn push_callees(code: &Code, all: bool, callees: &mut Vec<MethodId>) -> Result<(), Memory>
    ensures { OnOk result (callees.new.items ≡ callees.old.items ++ callees_of all (tree_of code.now)) }
{
    match code {
        Code::Op(_, _, op) => push_callee(*op, all, callees),
        Code::Seq(parts) => push_all_callees(parts.as_slice(), all, callees),
        Code::Choice(left, right) => {
            push_callees(left, all, callees)?;
            push_callees(right, all, callees)
        }
        Code::Loop(body) => push_callees(body, all, callees),
        Code::Sync(_, _, body) => push_callees(body, all, callees),
    }
}

/// Puts the methods that parts of code call behind those that there are.
#[cycle(calls)]
fn push_all_callees(parts: &[Code], all: bool, callees: &mut Vec<MethodId>) -> Result<(), Memory>
    ensures { OnOk result (callees.new.items ≡
        callees.old.items ++ callees_of all (in_sequence (map tree_of parts.now))) }
{
    for part in parts {
        push_callees(part, all, callees)?;
    }
    Ok(())
}

/// Puts the method that an operation calls behind those that there are.
fn push_callee(op: Op, all: bool, callees: &mut Vec<MethodId>) -> Result<(), Memory>
    ensures { OnOk result (callees.new.items ≡ callees.old.items ++ callees_of_op all op) }
{
    if let Some(m) = callee(op, all) {
        callees.push(m)?;
    }
    Ok(())
}

/// The methods that code calls.
pub(crate) fn callees(alloc: Global, code: &Code, all: bool) -> Result<Vec<MethodId>, Memory>
    ensures { IfOk result (λ made. made.items ≡ callees_of all (tree_of code.now)) }
{
    let mut callees = Vec::new(alloc);
    push_callees(code, all, &mut callees)?;
    Ok(callees)
}

/// The methods that code calls, in reading order: also those that are not analysed.
#[tactic(auto, using(crate::proofs::Gathering::all_callees))]
pub fn all_callees(alloc: Global, code: &Code) -> Result<Vec<MethodId>, Memory>
    ensures { IfOk result (λ made. made.items ≡ all_calls_in (tree_of code.now)) }
{
    callees(alloc, code, true)
}
