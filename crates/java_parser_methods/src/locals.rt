//! Reading declarations of local variables (JLS 14.4).
ghost use Rattle.std.specs.Prelude.{◌≡◌, ◌<◌, ◌≤◌, ◌^◌, suc, Some, None, [], ◌∷◌, length, map, IfOk};
ghost use Rattle.java_tree.specs.KeptPlaces.{Marks, kept, each_puts, init_places, variable_places, locals_places};
ghost use Rattle.java_tree.specs.View.{init_of, variable_of, locals_of};
ghost use Rattle.java_parser_expressions.specs.Closings.{as_read};
ghost use Rattle.java_parser_grammar.specs.JavaReaders.{method_readers};
ghost use Rattle.java_parser_grammar.specs.StatementReading.{variable_at, locals_at};
ghost use Rattle.java_parser_grammar.specs.Taking.{commas};
ghost use Rattle.java_parser_methods.specs.LocalReading.{declared_name_at, declared_of, variable_with, locals_with};
ghost use Rattle.java_parser_methods.specs.LocalReading.{variables_with};
ghost use Rattle.java_parser_methods.specs.TypedReading.{typed_of, typed_places};
ghost use Rattle.java_parser_types.specs.LedPlaces.{Leads, LeadsOn};
ghost use Rattle.java_parser_types.specs.Tokens.{spelled};
ghost use Rattle.java_parser_types.specs.Finishing.{finished};
ghost use Rattle.java_parser_types.specs.Endings.{as_they_are};
ghost use Rattle.java_parser_types.specs.ReadAnswer.{Gives};

use super::typed::{TypedFront, typed};
use java_lexer::Token;
use java_parser_expressions::initialisers::read_initialiser;
use java_parser_expressions::nested::push_tree;
use java_parser_types::error::ReadError;
use java_parser_types::look::{after_sign, brackets, name};
use java_tree::{Ident, Initialiser, LocalsTree, VariableTree};
use racer_base::Items;
use std::alloc::Global;

/// The name of a variable, and the number of the `[ ]` behind it (JLS 14.4).
#[derive(Drop)]
pub struct DeclaredName {
    pub name: Ident,
    pub arrays: u32,
}

/// The name in front, with the `[ ]` behind it.
fn declared_name(alloc: Global, tokens: &[Token]) -> Result<(DeclaredName, &[Token]), ReadError>
    requires { length tokens.now < 2 ^ 32 }
    ensures gives { Gives (λ x. (declared_of x.0, map spelled x.1.now)) result (declared_name_at
        (map spelled tokens.now)) }
    ensures places { IfOk result (λ x. x.0.name.place ∷ kept x.1.now ≡ kept tokens.now) }
    ensures shorter { IfOk result (λ x. length x.1.now < length tokens.now) }
{
    let (name, rest) = name(alloc, tokens)?;
    let (arrays, rest) = brackets(rest);
    Ok((DeclaredName { name, arrays }, rest))
}

/// A variable that begins with nothing.
fn bare(
    alloc: Global,
    declared: DeclaredName,
    tokens: &[Token],
) -> Result<(Box<VariableTree>, &[Token]), ReadError>
    ensures gives { Gives (λ x. (variable_of x.0.value, map spelled x.1.now)) result (as_read
        (variable_with (declared_of declared) None) (map spelled tokens.now)) }
    ensures places { IfOk result (λ x. (marks : Marks) → variable_places x.0.value marks ≡ Some declared.name.place ∷
        marks) }
    ensures behind { IfOk result (λ x. kept x.1.now ≡ kept tokens.now) }
    ensures shorter { IfOk result (λ x. length x.1.now ≤ length tokens.now) }
{
    let variable = VariableTree {
        name: declared.name,
        arrays: declared.arrays,
        initialiser: None,
    };
    Ok((Box::new(alloc, variable)?, tokens))
}

/// A variable that begins with this.
fn begun(
    alloc: Global,
    declared: DeclaredName,
    value: Box<Initialiser>,
    tokens: &[Token],
) -> Result<(Box<VariableTree>, &[Token]), ReadError>
    ensures gives { Gives (λ x. (variable_of x.0.value, map spelled x.1.now)) result (as_read
        (variable_with (declared_of declared) (Some (init_of value.value))) (map spelled tokens.now)) }
    ensures places { IfOk result (λ x. (marks : Marks) → variable_places x.0.value marks ≡ Some declared.name.place ∷
        init_places value.value marks) }
    ensures behind { IfOk result (λ x. kept x.1.now ≡ kept tokens.now) }
    ensures shorter { IfOk result (λ x. length x.1.now ≤ length tokens.now) }
{
    let variable = VariableTree {
        name: declared.name,
        arrays: declared.arrays,
        initialiser: Some(Box::into_inner(value)),
    };
    Ok((Box::new(alloc, variable)?, tokens))
}

/// A variable, with what it begins with.
#[tactic(auto, unfolding(java_parser_grammar::specs::StatementReading::variable_at))]
fn variable(
    alloc: Global,
    limit: u32,
    tokens: &[Token],
) -> Result<(Box<VariableTree>, &[Token]), ReadError>
    requires few { length tokens.now < 2 ^ 32 }
    requires room { suc (suc limit) < 2 ^ 32 }
    ensures gives { Gives (λ x. (variable_of x.0.value, map spelled x.1.now)) result (variable_at method_readers limit
        (map spelled tokens.now)) }
    ensures places { IfOk result (λ x. Leads (variable_places x.0.value) (kept tokens.now) (kept x.1.now)) }
    ensures shorter { IfOk result (λ x. length x.1.now < length tokens.now) }
{
    let (declared, rest) = declared_name(alloc, tokens)?;
    let Some(after) = after_sign(rest, "=") else {
        return bare(alloc, declared, rest);
    };
    let (value, rest) = read_initialiser(alloc, limit, after)?;
    begun(alloc, declared, value.tree, rest)
}

/// This variable and others, each behind a comma.
fn more_variables(
    alloc: Global,
    limit: u32,
    first: Box<VariableTree>,
    tokens: &[Token],
) -> Result<(Vec<VariableTree>, &[Token]), ReadError>
    requires few { length tokens.now < 2 ^ 32 }
    requires room { suc (suc limit) < 2 ^ 32 }
    ensures gives { Gives (λ x. (map variable_of x.0.items, map spelled x.1.now)) result (finished as_they_are
        (variable_of first.value ∷ []) (commas (variable_at method_readers limit) (length (map spelled tokens.now))
        (map spelled tokens.now))) }
    ensures places { IfOk result (λ x. LeadsOn (variable_places first.value) (each_puts (map variable_places
        x.0.items)) (kept tokens.now) (kept x.1.now)) }
    ensures shorter { IfOk result (λ x. length x.1.now ≤ length tokens.now) }
{
    let mut items = Vec::new(alloc);
    push_tree(&mut items, first)?;
    let mut rest = tokens;
    for _ in 0..tokens.len() {
        let Some(after) = after_sign(rest, ",") else {
            break;
        };
        let (next, after) = variable(alloc, limit, after)?;
        push_tree(&mut items, next)?;
        rest = after;
    }
    Ok((items, rest))
}

/// A declaration of these variables behind this type.
fn declaration(
    alloc: Global,
    front: TypedFront,
    items: Vec<VariableTree>,
    tokens: &[Token],
) -> Result<(Box<LocalsTree>, &[Token]), ReadError>
    ensures gives { Gives (λ x. (locals_of x.0.value, map spelled x.1.now)) result (as_read
        (locals_with (typed_of front) (map variable_of items.items)) (map spelled tokens.now)) }
    ensures places { IfOk result (λ x. (marks : Marks) → locals_places x.0.value marks ≡ typed_places front (each_puts
        (map variable_places items.items) marks)) }
    ensures behind { IfOk result (λ x. kept x.1.now ≡ kept tokens.now) }
    ensures shorter { IfOk result (λ x. length x.1.now ≤ length tokens.now) }
{
    let locals = LocalsTree {
        modifiers: front.modifiers,
        kind: Box::into_inner(front.kind),
        variables: Items::from(items),
    };
    Ok((Box::new(alloc, locals)?, tokens))
}

/// The variables of a declaration behind this type.
#[tactic(auto, unfolding(java_parser_grammar::specs::StatementReading::variables_at))]
pub fn variables(
    alloc: Global,
    limit: u32,
    front: TypedFront,
    tokens: &[Token],
) -> Result<(Box<LocalsTree>, &[Token]), ReadError>
    requires few { length tokens.now < 2 ^ 32 }
    requires room { suc (suc limit) < 2 ^ 32 }
    ensures gives { Gives (λ x. (locals_of x.0.value, map spelled x.1.now)) result (variables_with method_readers
        limit (typed_of front) (map spelled tokens.now)) }
    ensures places { IfOk result (λ x. LeadsOn (typed_places front) (locals_places x.0.value) (kept tokens.now)
        (kept x.1.now)) }
    ensures shorter { IfOk result (λ x. length x.1.now < length tokens.now) }
{
    let (first, rest) = variable(alloc, limit, tokens)?;
    let (items, rest) = more_variables(alloc, limit, first, rest)?;
    declaration(alloc, front, items, rest)
}

/// A declaration without its `;`.
#[tactic(auto, unfolding(java_parser_grammar::specs::StatementReading::locals_at))]
pub fn locals(
    alloc: Global,
    limit: u32,
    tokens: &[Token],
) -> Result<(Box<LocalsTree>, &[Token]), ReadError>
    requires few { length tokens.now < 2 ^ 32 }
    requires room { suc (suc limit) < 2 ^ 32 }
    ensures gives { Gives (λ x. (locals_of x.0.value, map spelled x.1.now)) result (locals_at method_readers limit
        (map spelled tokens.now)) }
    ensures places { IfOk result (λ x. Leads (locals_places x.0.value) (kept tokens.now) (kept x.1.now)) }
    ensures shorter { IfOk result (λ x. length x.1.now < length tokens.now) }
{
    let (front, rest) = typed(alloc, limit, tokens)?;
    variables(alloc, limit, front, rest)
}
