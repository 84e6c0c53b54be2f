//! Members of a class (JLS 8.1.6).
ghost use Rattle.std.specs.Prelude.{◌≡◌, ◌<◌, ◌^◌, ◌↔◌, List, ℕ, IsTrue, length, map, IfOk, IsErrOf};
ghost use Rattle.std.specs.List.{AllZip};
ghost use Rattle.java_tree.specs.KeptPlaces.{kept};
ghost use Rattle.java_tree.specs.KeptPlaces.{AreAt};
ghost use Rattle.java_tree.specs.MethodPlaces.{method_marks};
ghost use Rattle.java_tree.specs.Trees.{Method};
ghost use Rattle.java_tree.specs.View.{method_of};
ghost use Rattle.java_parser_grammar.specs.Heads.{IsMethod, has_synchronized};
ghost use Rattle.java_parser_grammar.specs.Members.{members_of, MethodForm, FieldForm};
ghost use Rattle.java_parser_grammar.specs.Units.{BeginsAt, HasForm, IsMember};
ghost use Rattle.java_parser_types.specs.declared.error.ReadError.TheVariants.{Unformed};
ghost use Rattle.java_parser.specs.ResultParts.{IsOfClass};

use super::fields::fields;
use super::heads::outside;
use crate::forms::{Form, form_of};
use crate::tests_of_tokens::first_place;
use crate::types::members as parts;
use java_lexer::Token;
use java_parser_methods::read_method;
use java_parser_types::ReadError;
use java_tree::{Member, MethodTree, ResultTree};
use racer_base::{Items, MAX_NESTING, Memory, Place};
use std::alloc::Global;

/// Whether a method without a result has the name of its class.
fn is_of(class: &str, tree: &MethodTree) -> bool
    ensures { IsTrue result ↔ IsOfClass class.now (method_of tree.now) }
{
    match tree.result {
        ResultTree::Constructor => tree.name.text.as_str() == class,
        _ => true,
    }
}

/// The tree, where it is of this class.
fn kept_of(class: &str, tree: MethodTree) -> Result<MethodTree, ReadError>
    ensures same { IfOk result (λ kept. kept ≡ tree) }
    ensures of { IfOk result (λ kept. IsOfClass class.now (method_of kept)) }
    ensures none { IsErrOf result Unformed → IsOfClass class.now (method_of tree) → ⊥ }
{
    if is_of(class, &tree) {
        Ok(tree)
    } else {
        Err(ReadError::Unformed)
    }
}

/// The method of this class that the tokens are, where a tree spells them.
fn method(alloc: Global, class: &str, member: &[Token]) -> Result<MethodTree, ReadError>
    requires { length member.now < 2 ^ 32 }
    ensures read { IfOk result (λ tree. IsMethod class.now member.now (method_of tree)) }
    ensures places { IfOk result (λ tree. AreAt (method_marks tree) (kept member.now)) }
    ensures synchronized { IfOk result (λ tree. tree.has_synchronized ≡ has_synchronized member.now) }
    ensures tokens { IfOk result (λ tree. tree.tokens ≡ length member.now) }
    ensures none { IsErrOf result Unformed → (m : Method) → IsMethod class.now member.now m → ⊥ }
{
    let tree = read_method(alloc, MAX_NESTING, member)?;
    kept_of(class, tree)
}

/// A member with a body behind the parentheses of this name.
fn headed(
    alloc: Global,
    class: &str,
    front: &[Token],
    name: &Token,
    parentheses: &[Token],
    member: &[Token],
) -> Result<Member, Memory>
    requires { length member.now < 2 ^ 32 }
    ensures { IfOk result (λ m. HasForm class.now member.now (MethodForm front.now name.now parentheses.now) m) }
{
    match method(alloc, class, member) {
        Ok(tree) => Ok(Member::Method(tree)),
        Err(ReadError::Unformed) => {
            let head = outside(alloc, class, front, name, parentheses, member)?;
            Ok(Member::Outside(head))
        }
        Err(ReadError::Memory) => Err(Memory),
    }
}

/// A member that may declare fields, whose first token stands here.
fn declared(alloc: Global, place: Place, member: &[Token]) -> Result<Member, Memory>
    requires few { length member.now < 2 ^ 32 }
    requires begins { BeginsAt member.now place }
    ensures { IfOk result (λ m. (class : List ℕ) → HasForm class member.now FieldForm m) }
{
    match fields(alloc, member) {
        Ok(tree) => Ok(Member::Field(tree)),
        Err(ReadError::Unformed) => Ok(Member::Skipped(place)),
        Err(ReadError::Memory) => Err(Memory),
    }
}

/// A member of this class, whose first token stands here.
fn member(alloc: Global, class: &str, place: Place, tokens: &[Token]) -> Result<Member, Memory>
    requires { BeginsAt tokens.now place }
    ensures { IfOk result (λ m. IsMember class.now tokens.now m) }
{
    if tokens.len() >= u32::MAX as usize {
        return Err(Memory);
    }
    match form_of(tokens) {
        Form::Skipped => Ok(Member::Skipped(place)),
        Form::Method(front, name, parentheses) => {
            headed(alloc, class, front, name, parentheses, tokens)
        }
        Form::Field => declared(alloc, place, tokens),
    }
}

/// The members of this class, which has this body.
pub fn members(alloc: Global, class: &str, body: &[Token]) -> Result<Items<Member>, Memory>
    ensures { IfOk result (λ members. AllZip (IsMember class.now) (members_of body.now) members) }
{
    let mut members = Items::new(alloc);
    let parts = parts(alloc, body)?;
    for tokens in parts.as_slice() {
        let next = member(alloc, class, first_place(tokens), tokens)?;
        members.push(next)?;
    }
    Ok(members)
}
