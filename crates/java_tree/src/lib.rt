//! Trees of Java's methods and fields, and what a file is read as.
//!
//! A formed tree is stated form by form, with levels as numbers and every condition that is no level as a named fact.
//! Each text and each emptiness in a tree is pinned, or one spelling had two trees; what the grammar's letter says is
//! formed, also where a compiler would refuse it later. A tree without places has the name of the code's type without
//! `Tree` or `Type`, cut short where it is long. The pieces of a row carry their tokens, so that each fold is a
//! recursion over them alone, and a row of pieces that no table has is not formed. The larger expressions stand in a
//! plain `Box`, since in their cycle of types no type with a model can stand; and what a proof lists for a cycle grows
//! with each type outside of it that one inside names, so these are few.
#![tactic(auto)]

mod apart;
mod expressions;
pub mod laws;
mod methods;
mod statements;
mod types;
mod unit;
mod words;

pub use apart::Apart;
pub use expressions::{
    ArrayTree, CallTree, CastTree, Expression, Initialiser, InstanceTree, LambdaBody, LambdaTree,
    Made, NewTree, ReferenceTree, Referred,
};
pub use methods::{
    AnnotationTree, FieldInitialiser, FieldTree, FieldVariable, MethodTree, ModifierTree,
    ParameterTree, ResultTree, TypeParameterTree, TypeParametersTree,
};
pub use statements::{
    CatchParameterTree, CatchTree, EachTree, GroupTree, LabelTree, LocalsTree, ResourceTree,
    ResourcesTree, StartTree, Statement, TryTree, VariableTree,
};
pub use types::{BaseType, TypeArgument, TypeArguments, TypePart, TypeTree};
pub use unit::{ClassTree, HeadResult, Member, OutsideHead, ParseFault, Unit};
pub use words::{Ident, Spelled};
