//! Statements (JLS 14).
use crate::apart::Apart;
use crate::expressions::{Expression, Initialiser};
use crate::methods::ModifierTree;
use crate::types::TypeTree;
use crate::words::{Ident, Spelled};
use racer_base::{Items, Place};
use std::mem::size_of;

/// A declaration of local variables, without its `;` (JLS 14.4).
#[derive(Drop)]
pub struct LocalsTree {
    pub modifiers: Items<ModifierTree>,
    pub kind: TypeTree,
    pub variables: Items<VariableTree>,
}

/// A variable, with the number of the `[ ]` behind its name, and what it begins with.
#[derive(Drop)]
pub struct VariableTree {
    pub name: Ident,
    pub arrays: u32,
    pub initialiser: Option<Initialiser>,
}

/// `final T x` in the head of a `for` over the elements of something (JLS 14.14.2).
#[derive(Drop)]
pub struct EachTree {
    pub modifiers: Items<ModifierTree>,
    pub kind: TypeTree,
    pub name: Ident,
}

/// What stands before the first `;` of a `for`; no expressions where nothing does (JLS 14.14.1).
#[derive(Drop)]
pub enum StartTree {
    Local(LocalsTree),
    Expressions(Items<Expression>),
}

/// `final T x = a` in the parentheses of a `try` (JLS 14.20.3).
#[derive(Drop)]
pub struct ResourceTree {
    pub modifiers: Items<ModifierTree>,
    pub kind: TypeTree,
    pub name: Ident,
    pub value: Expression,
}

/// The parentheses of a `try`, and whether a `;` stands behind the last resource (JLS 14.20.3).
#[derive(Drop)]
pub struct ResourcesTree {
    pub items: Items<ResourceTree>,
    pub last_semicolon: bool,
}

/// `final T | U x` in the parentheses of a `catch` (JLS 14.20).
#[derive(Drop)]
pub struct CatchParameterTree {
    pub modifiers: Items<ModifierTree>,
    pub types: Items<TypeTree>,
    pub name: Ident,
}

/// What stands before statements of a `switch` (JLS 14.11).
#[derive(Drop)]
pub enum LabelTree {
    Case(Expression),
    Default,
}

/// A statement, with one variant for each form.
#[derive(Drop)]
#[cycle(statements)]
pub enum Statement {
    /// `{ .. }` (JLS 14.2).
    Block(Vec<Statement>),
    /// `final T x = a, ..;` (JLS 14.4).
    Local(Apart<LocalsTree>),
    /// `a;` (JLS 14.8).
    Expr(Expression),
    /// `if (a) s` and `if (a) s else t` (JLS 14.9).
    If(Apart<Expression>, Box<Statement>, Option<Box<Statement>>),
    /// `while (a) s` (JLS 14.12).
    While(Apart<Expression>, Box<Statement>),
    /// `for (i; a; u, ..) s` (JLS 14.14.1).
    For(Apart<StartTree>, Option<Apart<Expression>>, Vec<Expression>, Box<Statement>),
    /// `for (final T x : a) s` (JLS 14.14.2).
    ForEach(Apart<EachTree>, Apart<Expression>, Box<Statement>),
    /// `synchronized (a) { .. }` (JLS 14.19).
    Sync(Place, Apart<Expression>, Vec<Statement>),
    /// `return;` and `return a;` (JLS 14.17).
    Return(Option<Apart<Expression>>),
    /// `;` (JLS 14.6).
    Empty,
    /// `do s while (a);` (JLS 14.13).
    Do(Box<Statement>, Apart<Expression>),
    /// `throw a;` (JLS 14.18).
    Throw(Place, Apart<Expression>),
    /// `break;` and `break x;` (JLS 14.15).
    Break(Option<Apart<Ident>>),
    /// `continue;` and `continue x;` (JLS 14.16).
    Continue(Option<Apart<Ident>>),
    /// `x: s` (JLS 14.7).
    Labelled(Apart<Ident>, Box<Statement>),
    /// `assert a;` and `assert a : b;` (JLS 14.10).
    Assert(Apart<Expression>, Option<Apart<Expression>>),
    /// `final class x .. { .. }`, as its tokens (JLS 14.3).
    LocalClass(Apart<Ident>, Apart<Items<Spelled>>),
    /// `switch (a) { .. }` (JLS 14.11).
    Switch(Apart<Expression>, Vec<GroupTree>),
    /// `try (..) { .. } catch (..) { .. } .. finally { .. }` (JLS 14.20).
    Try(Box<TryTree>),
}

/// The parts of a `try`, of which the first, the clauses or the last stand (JLS 14.20).
#[derive(Drop)]
#[cycle(statements)]
pub struct TryTree {
    pub resources: Option<Apart<ResourcesTree>>,
    pub body: Vec<Statement>,
    pub clauses: Vec<CatchTree>,
    pub finally: Option<Vec<Statement>>,
}

/// `catch (..) { .. }` (JLS 14.20).
#[derive(Drop)]
#[cycle(statements)]
pub struct CatchTree {
    pub parameter: CatchParameterTree,
    pub body: Vec<Statement>,
}

/// Labels and the statements behind them (JLS 14.11).
#[derive(Drop)]
#[cycle(statements)]
pub struct GroupTree {
    pub labels: Items<LabelTree>,
    pub body: Vec<Statement>,
}

/// So that 32 MiB of the smallest statements are held in less than 3,000 MiB, with their code.
const _: () = prove!(size_of::<Expression>() <= 64 && size_of::<Statement>() <= 72);
