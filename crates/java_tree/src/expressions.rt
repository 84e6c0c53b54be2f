//! Expressions (JLS 15) and array initialisers (JLS 10.6).
use crate::types::TypeTree;
use crate::words::{Ident, Spelled};
use java_lexer::TokenKind;
use racer_base::{Items, Place, Text};

/// An expression, with one variant for each form. Parentheses are kept.
#[derive(Drop)]
#[cycle(expressions)]
pub enum Expression {
    /// `a = b`, and with the other assignment operators (JLS 15.26).
    Assign(Box<Expression>, Text, Box<Expression>),
    /// `a ? b : c` (JLS 15.25).
    Conditional(Box<Expression>, Box<Expression>, Box<Expression>),
    /// `a + b`, and with the other binary operators (JLS 15.17 to 15.24).
    Binary(Box<Expression>, Text, Box<Expression>),
    /// `a instanceof T` (JLS 15.20.2).
    InstanceOf(Box<InstanceTree>),
    /// `-a`, and with the other prefix operators (JLS 15.15).
    Prefix(Text, Box<Expression>),
    /// `(T) a` and `(T & U) a` (JLS 15.16).
    Cast(Box<CastTree>),
    /// `a++` and `a--` (JLS 15.14).
    Postfix(Box<Expression>, Text),
    /// A number, a character, a text, `true`, `false` or `null` (JLS 15.8.1).
    Literal(TokenKind, Text),
    /// `this` (JLS 15.8.3).
    This,
    /// A name (JLS 15.14.1).
    Name(Ident),
    /// `(a)` (JLS 15.8.5).
    Paren(Box<Expression>),
    /// `a.x` (JLS 15.11).
    Field(Box<Expression>, Ident),
    /// `a[b]` (JLS 15.10.3).
    Index(Box<Expression>, Box<Expression>),
    /// `x(a, ..)`, `e.x(a, ..)` and `e.<T>x(a, ..)` (JLS 15.12).
    Call(Box<CallTree>),
    /// `a.b.class` (JLS 15.8.2).
    ClassOf(Vec<Ident>),
    /// `new T(a, ..)`, `new T(a, ..) { .. }`, `new T[a]..` and `new T[ ].. { .. }` (JLS 15.9, 15.10.1).
    New(Box<NewTree>),
    /// `x -> a` and `(..) -> { .. }` (JLS 15.27).
    Lambda(Box<LambdaTree>),
    /// `a::<T>x` and `T::new` (JLS 15.13).
    Reference(Box<ReferenceTree>),
    /// `int.class`, `void.class` and `A[].class`; `void` is a primitive type here (JLS 15.8.2).
    PlainClass(TypeTree),
    /// `A.this` (JLS 15.8.4).
    ThisOf(Vec<Ident>),
}

/// The value that is tested, and the type that it may be an instance of (JLS 15.20.2).
#[derive(Drop)]
#[cycle(expressions)]
pub struct InstanceTree {
    pub value: Expression,
    pub kind: TypeTree,
}

/// The types of a cast, and the value behind them (JLS 15.16).
#[derive(Drop)]
#[cycle(expressions)]
pub struct CastTree {
    pub types: Items<TypeTree>,
    pub value: Expression,
}

/// A call: what the method is called on, the types before its name, its name and its arguments (JLS 15.12). The types
/// mean nothing where it is called on nothing; whether the `>` behind them is glued to the `>` before it, where there are
/// none.
#[derive(Drop)]
#[cycle(expressions)]
pub struct CallTree {
    pub receiver: Option<Box<Expression>>,
    pub types: Items<TypeTree>,
    pub glued: bool,
    pub name: Ident,
    pub arguments: Vec<Expression>,
}

/// `new`, its place, the type behind it, and what stands behind that (JLS 15.9, 15.10.1).
#[derive(Drop)]
#[cycle(expressions)]
pub struct NewTree {
    pub place: Place,
    pub kind: TypeTree,
    pub made: Made,
}

/// What a `new` makes of its type.
#[derive(Drop)]
#[cycle(expressions)]
pub enum Made {
    /// An object, with its arguments (JLS 15.9).
    Object(Vec<Expression>),
    /// An object of a class without a name, with its braces and what stands in them as tokens (JLS 15.9.5).
    Anonymous(Vec<Expression>, Items<Spelled>),
    /// An array of these lengths, with the number of its empty `[ ]` (JLS 15.10.1).
    Array(Vec<Expression>, u32),
    /// An array of these elements, with the number of its `[ ]` (JLS 15.10.1).
    Filled(u32, ArrayTree),
}

/// The tokens before the arrow of a lambda, and what stands behind it (JLS 15.27).
#[derive(Drop)]
#[cycle(expressions)]
pub struct LambdaTree {
    pub parameters: Items<Spelled>,
    pub body: LambdaBody,
}

/// What stands behind the arrow of a lambda: an expression, or braces and what stands in them as tokens (JLS 15.27.2).
#[derive(Drop)]
#[cycle(expressions)]
pub enum LambdaBody {
    Gives(Expression),
    Block(Items<Spelled>),
}

/// A method reference: what stands before its `::`, the types behind it, and its name, none where `new` stands (JLS
/// 15.13). Whether the `>` behind the types is glued to the `>` before it means nothing where there are none.
#[derive(Drop)]
#[cycle(expressions)]
pub struct ReferenceTree {
    pub of: Referred,
    pub types: Items<TypeTree>,
    pub glued: bool,
    pub name: Option<Ident>,
}

/// What stands before the `::` of a method reference (JLS 15.13).
#[derive(Drop)]
#[cycle(expressions)]
pub enum Referred {
    Of(Expression),
    Type(TypeTree),
    Super,
}

/// What a variable or an element of an array begins with.
#[derive(Drop)]
#[cycle(expressions)]
pub enum Initialiser {
    Value(Expression),
    Items(ArrayTree),
}

/// An array initialiser, and whether a comma stands behind its last item (JLS 10.6).
#[derive(Drop)]
#[cycle(expressions)]
pub struct ArrayTree {
    pub items: Vec<Initialiser>,
    pub last_comma: bool,
}
