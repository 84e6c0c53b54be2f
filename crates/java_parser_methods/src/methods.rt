//! Reading methods and constructors (JLS 8.4, 8.8).
ghost use Rattle.std.specs.Prelude.{◌≡◌, ◌++◌, []};
ghost use Rattle.std.specs.Prelude.{◌<◌, ◌≤◌, ◌^◌, suc, length, map, IfOk};
ghost use Rattle.java_tree.specs.KeptPlaces.{Places, kept, each_puts, stmt_places, AreAt};
ghost use Rattle.java_tree.specs.MethodPlaces.{result_places, method_marks};
ghost use Rattle.java_tree.specs.Trees.{pack_stmts};
ghost use Rattle.java_tree.specs.View.{stmt_of, result_of, method_of};
ghost use Rattle.java_parser_grammar.specs.Heads.{has_synchronized};
ghost use Rattle.java_parser_grammar.specs.JavaReaders.{method_readers};
ghost use Rattle.java_parser_grammar.specs.MethodReading.{result_at};
ghost use Rattle.java_parser_methods.specs.SignatureReading.{front_of, front_marks, front_at, signature_of};
ghost use Rattle.java_parser_methods.specs.SignatureReading.{signature_marks, method_with, last_block_at};
ghost use Rattle.java_parser_methods.specs.SignatureReading.{whole_named_at, whole_method_at};
ghost use Rattle.java_parser_types.specs.LedPlaces.{Leads};
ghost use Rattle.java_parser_types.specs.Tokens.{spelled};
ghost use Rattle.java_parser_types.specs.ReadAnswer.{Gives};

use super::modifiers::modifiers;
use super::signatures::{Signature, read_signature};
use super::statements::read_block;
use super::type_parameters::type_parameters;
use super::words::has_synchronized;
use java_lexer::Token;
use java_parser_lookahead::lookahead::is_constructor;
use java_parser_types::error::ReadError;
use java_parser_types::look::after_keyword;
use java_parser_types::types::read_type;
use java_tree::{Apart, MethodTree, ModifierTree, ResultTree, Statement, TypeParametersTree};
use racer_base::Items;
use std::alloc::Global;

/// What stands before the name of a method.
#[derive(Drop)]
pub struct Front {
    pub modifiers: Items<ModifierTree>,
    pub type_parameters: Option<Apart<TypeParametersTree>>,
    pub given: ResultTree,
}

/// What a method gives, and nothing before a constructor (JLS 8.4.5).
#[tactic(auto, unfolding(java_parser_grammar::specs::MethodReading::result_at))]
fn result_tree(
    alloc: Global,
    limit: u32,
    tokens: &[Token],
) -> Result<(ResultTree, &[Token]), ReadError>
    requires { length tokens.now < 2 ^ 32 }
    ensures gives { Gives (λ x. (result_of x.0, map spelled x.1.now)) result (result_at method_readers limit
        (map spelled tokens.now)) }
    ensures places { IfOk result (λ x. result_places x.0 ++ kept x.1.now ≡ kept tokens.now) }
    ensures shorter { IfOk result (λ x. length x.1.now ≤ length tokens.now) }
{
    if is_constructor(tokens) {
        return Ok((ResultTree::Constructor, tokens));
    }
    if let Some(rest) = after_keyword(tokens, "void") {
        return Ok((ResultTree::Void, rest));
    }
    let (kind, rest) = read_type(alloc, limit, tokens)?;
    Ok((ResultTree::Of(kind.tree), rest))
}

/// The modifiers of a method, its type parameters and what it gives (JLS 8.4.3 to 8.4.5).
#[tactic(auto, unfolding(crate::specs::SignatureReading::front_at))]
fn read_front(alloc: Global, limit: u32, tokens: &[Token]) -> Result<(Front, &[Token]), ReadError>
    requires { length tokens.now < 2 ^ 32 }
    ensures gives { Gives (λ x. (front_of x.0, map spelled x.1.now)) result (front_at method_readers limit
        (map spelled tokens.now)) }
    ensures places { IfOk result (λ x. Leads (front_marks x.0) (kept tokens.now) (kept x.1.now)) }
    ensures shorter { IfOk result (λ x. length x.1.now ≤ length tokens.now) }
{
    let (modifiers, rest) = modifiers(alloc, tokens)?;
    let (type_parameters, rest) = type_parameters(alloc, limit, rest)?;
    let (given, rest) = result_tree(alloc, limit, rest)?;
    let front = Front {
        modifiers: Items::from(modifiers),
        type_parameters,
        given,
    };
    Ok((front, rest))
}

/// The statements of a block with no tokens behind it.
#[tactic(auto, unfolding(crate::specs::SignatureReading::last_block_at))]
fn last_block(alloc: Global, limit: u32, tokens: &[Token]) -> Result<Vec<Statement>, ReadError>
    requires few { length tokens.now < 2 ^ 32 }
    requires room { suc (suc limit) < 2 ^ 32 }
    ensures gives { Gives (λ x. pack_stmts (map stmt_of x.items)) result (last_block_at method_readers limit
        (map spelled tokens.now)) }
    ensures places { IfOk result (λ x. AreAt (each_puts (map stmt_places x.items) []) (kept tokens.now)) }
{
    let (statements, rest) = read_block(alloc, limit, tokens)?;
    if !rest.is_empty() {
        return Err(ReadError::Unformed);
    }
    Ok(statements)
}

/// The method of these parts.
fn method(
    front: Front,
    signature: Signature,
    body: Vec<Statement>,
    has_synchronized: bool,
    count: u32,
) -> MethodTree
    ensures gives { method_of result ≡ method_with (front_of front) (signature_of signature)
        (pack_stmts (map stmt_of body.items)) }
    ensures places { method_marks result ≡ front_marks front (signature_marks signature
        (each_puts (map stmt_places body.items) [])) }
    ensures synchronized { result.has_synchronized ≡ has_synchronized }
    ensures tokens { result.tokens ≡ count }
{
    MethodTree {
        modifiers: front.modifiers,
        type_parameters: front.type_parameters,
        result: front.given,
        name: signature.name,
        parameters: Items::from(signature.parameters),
        arrays: signature.arrays,
        throws: Items::from(signature.throws),
        body: Items::from(body),
        has_synchronized,
        tokens: count,
    }
}

/// The method that these tokens are from its name on, behind this front; whether it has the word `synchronized` is
/// known, and the count of all its tokens.
#[tactic(auto, unfolding(crate::specs::SignatureReading::whole_named_at))]
fn method_from_name(
    alloc: Global,
    limit: u32,
    front: Front,
    has_synchronized: bool,
    count: u32,
    tokens: &[Token],
) -> Result<MethodTree, ReadError>
    requires few { length tokens.now < 2 ^ 32 }
    requires room { suc (suc limit) < 2 ^ 32 }
    ensures gives { Gives method_of result (whole_named_at method_readers limit (front_of front)
        (map spelled tokens.now)) }
    ensures places { IfOk result (λ tree. (start : Places) → Leads (front_marks front) start (kept tokens.now)
        → AreAt (method_marks tree) start) }
    ensures synchronized { IfOk result (λ tree. tree.has_synchronized ≡ has_synchronized) }
    ensures tokens { IfOk result (λ tree. tree.tokens ≡ count) }
{
    let (signature, rest) = read_signature(alloc, limit, &front.given, tokens)?;
    let body = last_block(alloc, limit, rest)?;
    Ok(method(front, signature, body, has_synchronized, count))
}

/// The method that all these tokens are.
#[tactic(auto, unfolding(crate::specs::SignatureReading::whole_method_at))]
pub fn read_method(alloc: Global, limit: u32, tokens: &[Token]) -> Result<MethodTree, ReadError>
    requires few { length tokens.now < 2 ^ 32 }
    requires room { suc (suc limit) < 2 ^ 32 }
    ensures gives { Gives method_of result (whole_method_at method_readers limit (map spelled tokens.now)) }
    ensures places { IfOk result (λ tree. AreAt (method_marks tree) (kept tokens.now)) }
    ensures synchronized { IfOk result (λ tree. tree.has_synchronized ≡ has_synchronized tokens.now) }
    ensures tokens { IfOk result (λ tree. tree.tokens ≡ length tokens.now) }
{
    let locks = has_synchronized(tokens);
    let count = tokens.len() as u32;
    let (front, rest) = read_front(alloc, limit, tokens)?;
    method_from_name(alloc, limit, front, locks, count, rest)
}
