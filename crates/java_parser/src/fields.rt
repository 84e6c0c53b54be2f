//! Declarations of fields (JLS 8.3).
ghost use Rattle.std.specs.Prelude.{◌<◌, ◌≤◌, ◌^◌, map, length, IfOk, IsErrOf};
ghost use Rattle.java_tree.specs.declared.methods.FieldTree.{FieldTree};
ghost use Rattle.java_tree.specs.View.{modifier_of};
ghost use Rattle.java_parser_grammar.specs.FieldDivisions.{AreDeclared, AreFields};
ghost use Rattle.java_parser_types.specs.declared.error.ReadError.TheVariants.{Unformed};
ghost use Rattle.java_parser_types.specs.Tokens.{spelled};
ghost use Rattle.java_parser.specs.FieldModifiers.{AreModifiers, SkipsModifiers, NoModifiers};
ghost use Rattle.java_parser.specs.Fronts.{EndsWith};

use super::fronts::{cut, front_type};
use super::variables::variables;
use java_lexer::Token;
use java_parser_methods::modifiers::{ModifierWords, modifier};
use java_parser_types::ReadError;
use java_parser_types::look::is_sign;
use java_tree::{FieldTree, ModifierTree};
use racer_base::Items;
use std::alloc::Global;

/// Words of a field and annotations, as long as they come, and the tokens left behind them.
fn read_modifiers(
    alloc: Global,
    tokens: &[Token],
) -> Result<(Vec<ModifierTree>, &[Token]), ReadError>
    ensures read { IfOk result (λ x. AreModifiers (map modifier_of x.0.items) (map spelled tokens.now)
        (map spelled x.1.now)) }
    ensures none { IsErrOf result Unformed → NoModifiers (map spelled tokens.now) }
    ensures shorter { IfOk result (λ x. length x.1.now ≤ length tokens.now) }
{
    let mut items = Vec::new(alloc);
    let mut rest = tokens;
    while let Some((next, after)) = modifier(alloc, ModifierWords::Field, rest)? {
        items.push(next)?;
        rest = after;
    }
    Ok((items, rest))
}

/// The same, and the tokens behind them.
fn modifiers(alloc: Global, tokens: &[Token]) -> Result<(Vec<ModifierTree>, &[Token]), ReadError>
    ensures read { IfOk result (λ x. AreModifiers (map modifier_of x.0.items) (map spelled tokens.now)
        (map spelled x.1.now)) }
    ensures front { IfOk result (λ x. EndsWith tokens.now x.1.now) }
    ensures none { IsErrOf result Unformed → NoModifiers (map spelled tokens.now) }
    ensures shorter { IfOk result (λ x. length x.1.now ≤ length tokens.now) }
{
    let (items, left) = read_modifiers(alloc, tokens)?;
    let (_, rest) = cut(tokens, left);
    Ok((items, rest))
}

/// The fields that these tokens without their `;` declare.
fn declared(alloc: Global, tokens: &[Token]) -> Result<FieldTree, ReadError>
    requires { length tokens.now < 2 ^ 32 }
    ensures read { IfOk result (λ tree. AreDeclared tokens.now tree) }
    ensures none { IsErrOf result Unformed → (tree : FieldTree) → AreDeclared tokens.now tree → ⊥ }
{
    let (modifiers, rest) = match modifiers(alloc, tokens) {
        Ok(read) => read,
        Err(error) => return Err(error),
    };
    let (kind, rest) = match front_type(alloc, rest) {
        Ok(read) => read,
        Err(error) => return Err(error),
    };
    let variables = match variables(alloc, rest) {
        Ok(read) => read,
        Err(error) => return Err(error),
    };
    Ok(FieldTree {
        modifiers: Items::from(modifiers),
        kind,
        variables: Items::from(variables),
    })
}

/// The fields that the member declares, where it does.
pub fn fields(alloc: Global, member: &[Token]) -> Result<FieldTree, ReadError>
    requires { length member.now < 2 ^ 32 }
    ensures read { IfOk result (λ tree. AreFields member.now tree) }
    ensures none { IsErrOf result Unformed → (tree : FieldTree) → AreFields member.now tree → ⊥ }
{
    let Some((last, declaration)) = member.split_last() else {
        return Err(ReadError::Unformed);
    };
    if !is_sign(last, ";") {
        return Err(ReadError::Unformed);
    }
    declared(alloc, declaration)
}
