//! Files (JLS 7.3).
ghost use Rattle.std.specs.Prelude.{◌≡◌, ◌∷◌, ◌++◌, [], map, IsTrue, IfOk, IfErr, OnOk, OnErr};
ghost use Rattle.java_tree.specs.FormedModifiers.{has_some};
ghost use Rattle.java_parser_grammar.specs.Units.{AreTypes, IsUnit, IsFault};
ghost use Rattle.java_parser.specs.ReadTypes.{HaveTokens, AddsType};

use super::classes::{class, class_head};
use crate::balance::check_brackets;
use crate::tests_of_tokens::first_place;
use crate::types::types;
use java_lexer::{Lexed, Token};
use java_tree::{ClassTree, ParseFault, Unit};
use racer_base::{Items, Memory};
use std::alloc::Global;

/// Puts a class behind others. It is let go where memory is refused.
fn put_class(classes: &mut Items<ClassTree>, class: ClassTree) -> Result<(), Memory>
    ensures { OnOk result (classes.new ≡ classes.old ++ class ∷ []) }
{
    classes.push(class)
}

/// One more type.
fn add_type(alloc: Global, unit: &mut Unit, tokens: &[Token]) -> Result<(), Memory>
    requires { IsTrue (has_some tokens.now) }
    ensures { IfOk result (λ _. AddsType tokens.now unit.old unit.new) }
{
    match class_head(alloc, tokens)? {
        Some((modifiers, name)) => {
            let next = class(alloc, modifiers, name, tokens)?;
            put_class(&mut unit.classes, next)?;
        }
        None => unit.skipped.push(first_place(tokens))?,
    }
    Ok(())
}

/// The unit that these types are.
fn unit(alloc: Global, types: &[&[Token]]) -> Result<Unit, Memory>
    requires { HaveTokens (map (λ t. t.now) types.now) }
    ensures { IfOk result (λ unit. AreTypes (map (λ t. t.now) types.now) unit.classes unit.skipped) }
{
    let mut unit = Unit {
        classes: Items::new(alloc),
        skipped: Items::new(alloc),
    };
    for tokens in types {
        if let Err(memory) = add_type(alloc, &mut unit, tokens) {
            let_go(unit);
            return Err(memory);
        }
    }
    Ok(unit)
}

/// The unit that a file is, or its first fault: a bracket that does not match, or else one that stands too deep, or
/// else what does not fit.
pub fn parse_unit(alloc: Global, lexed: &Lexed) -> Result<Unit, ParseFault>
    ensures unit { IfOk result (λ unit. IsUnit lexed.now.tokens unit) }
    ensures fault { IfErr result (λ fault. IsFault lexed.now.tokens lexed.now.end fault) }
{
    let tokens = lexed.tokens.as_slice();
    check_brackets(alloc, tokens)?;
    let types = types(alloc, tokens, lexed.end)?;
    Ok(unit(alloc, types.as_slice())?)
}

/// Lets a unit go. Each type of tree is taken apart here, so a crate that looks at units need not show how.
pub fn let_go(_unit: Unit) {}

/// Lets units go.
pub fn let_all_go(_units: Vec<Unit>) {}

/// Puts a unit behind others. It is let go where memory is refused.
pub fn put_unit(units: &mut Vec<Unit>, unit: Unit) -> Result<(), Memory>
    ensures ok { OnOk result (units.new.items ≡ units.old.items ++ unit ∷ []) }
    ensures err { OnErr result (units.new.items ≡ units.old.items) }
{
    Ok(units.push(unit)?)
}
