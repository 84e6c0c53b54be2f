//! Methods and constructors (JLS 8.4, 8.8) and fields (JLS 8.3).
use crate::apart::Apart;
use crate::expressions::Initialiser;
use crate::statements::Statement;
use crate::types::TypeTree;
use crate::words::{Ident, Spelled};
use racer_base::{Items, Text};

/// `@` and names joined by `.`, with the tokens of its parentheses, these included (JLS 9.7). It has no
/// such tokens where it has no parentheses.
#[derive(Drop)]
pub struct AnnotationTree {
    pub names: Items<Text>,
    pub arguments: Items<Spelled>,
}

/// A modifier's word, or an annotation among the modifiers (JLS 8.3.1, 8.4.3).
#[derive(Drop)]
pub enum ModifierTree {
    Word(Text),
    Annotated(AnnotationTree),
}

/// What stands before the name of a method: nothing for a constructor, `void`, or a type (JLS 8.4.5).
#[derive(Drop)]
pub enum ResultTree {
    Constructor,
    Void,
    Of(TypeTree),
}

/// A formal parameter, whether `...` stands before its name, and the number of the `[ ]` behind it (JLS 8.4.1).
#[derive(Drop)]
pub struct ParameterTree {
    pub modifiers: Items<ModifierTree>,
    pub kind: TypeTree,
    pub any_number: bool,
    pub name: Ident,
    pub arrays: u32,
}

/// A type parameter with its bounds, of which it may have none (JLS 4.4).
#[derive(Drop)]
pub struct TypeParameterTree {
    pub annotations: Items<AnnotationTree>,
    pub name: Ident,
    pub bounds: Items<TypeTree>,
}

/// Type parameters, whether the `>` behind them is glued to the `>` before it, and the modifiers behind that (JLS
/// 8.4.4).
#[derive(Drop)]
pub struct TypeParametersTree {
    pub items: Items<TypeParameterTree>,
    pub glued: bool,
    pub modifiers: Items<ModifierTree>,
}

/// A method or a constructor with its body, and the number of the `[ ]` behind its parameters. Whether `synchronized`
/// stands among its tokens, and how many these are, is kept by who reads them, and is no part of what trees are compared
/// by.
#[derive(Drop)]
pub struct MethodTree {
    pub modifiers: Items<ModifierTree>,
    pub type_parameters: Option<Apart<TypeParametersTree>>,
    pub result: ResultTree,
    pub name: Ident,
    pub parameters: Items<ParameterTree>,
    pub arrays: u32,
    pub throws: Items<TypeTree>,
    pub body: Items<Statement>,
    pub has_synchronized: bool,
    pub tokens: u32,
}

/// A declaration of fields.
#[derive(Drop)]
pub struct FieldTree {
    pub modifiers: Items<ModifierTree>,
    pub kind: TypeTree,
    pub variables: Items<FieldVariable>,
}

/// A field, with what it begins with.
#[derive(Drop)]
pub struct FieldVariable {
    pub name: Ident,
    pub initialiser: FieldInitialiser,
}

/// What a field begins with: nothing, what has a tree, or tokens that have none.
#[derive(Drop)]
pub enum FieldInitialiser {
    Absent,
    Formed(Initialiser),
    Unread,
}
