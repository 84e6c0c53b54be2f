//! The names by which explicit locks are locked.
ghost use Rattle.std.specs.Prelude.{◌≡◌, option_copied};
ghost use Rattle.core_lowering_rules.specs.Trees as wanted;
ghost use Rattle.core_lowering_rules.specs.TreesOf.{expr_of};

use java_tree::{Expression, Ident};

/// Whether an expression is `this`.
#[tactic(auto, using(crate::proofs::Operators::binary_is_no_this, crate::proofs::Operators::prefix_is_no_this, crate::proofs::Operators::assignment_is_no_this, crate::proofs::Operators::literal_is_no_this))]
fn is_this(e: &Expression) -> bool
    ensures { result ≡ wanted.is_this (expr_of e.now) }
{
    match e {
        Expression::This => true,
        Expression::Assign(_, _, _) => false,
        Expression::Conditional(_, _, _) => false,
        Expression::Binary(_, _, _) => false,
        Expression::InstanceOf(_) => false,
        Expression::Prefix(_, _) => false,
        Expression::Cast(_) => false,
        Expression::Postfix(_, _) => false,
        Expression::Literal(_, _) => false,
        Expression::Name(_) => false,
        Expression::Field(_, _) => false,
        Expression::Paren(_) => false,
        Expression::Index(_, _) => false,
        Expression::Call(_) => false,
        Expression::ClassOf(_) => false,
        Expression::New(_) => false,
        Expression::Lambda(_) => false,
        Expression::Reference(_) => false,
        Expression::PlainClass(_) => false,
        Expression::ThisOf(_) => false,
    }
}

/// x, of the expression x.
#[tactic(auto, using(crate::proofs::Operators::binary_is_no_name, crate::proofs::Operators::prefix_is_no_name, crate::proofs::Operators::assignment_is_no_name, crate::proofs::Operators::literal_is_no_name))]
pub fn simple_name(e: &Expression) -> Option<&Ident>
    ensures { option_copied result ≡ wanted.simple_name (expr_of e.now) }
{
    match e {
        Expression::Name(x) => Some(x),
        Expression::This => None,
        Expression::Assign(_, _, _) => None,
        Expression::Conditional(_, _, _) => None,
        Expression::Binary(_, _, _) => None,
        Expression::InstanceOf(_) => None,
        Expression::Prefix(_, _) => None,
        Expression::Cast(_) => None,
        Expression::Postfix(_, _) => None,
        Expression::Literal(_, _) => None,
        Expression::Field(_, _) => None,
        Expression::Paren(_) => None,
        Expression::Index(_, _) => None,
        Expression::Call(_) => None,
        Expression::ClassOf(_) => None,
        Expression::New(_) => None,
        Expression::Lambda(_) => None,
        Expression::Reference(_) => None,
        Expression::PlainClass(_) => None,
        Expression::ThisOf(_) => None,
    }
}

/// x, behind `this`.
fn if_this<'a>(base: &Expression, x: &'a Ident) -> Option<&'a Ident>
    ensures { option_copied result ≡ wanted.own_name (wanted.Read (wanted.Selected (expr_of base.now) x.now)) }
{
    if is_this(base) { Some(x) } else { None }
}

/// x, of the expression `this.x`.
#[tactic(auto, using(crate::proofs::Operators::binary_is_no_own, crate::proofs::Operators::prefix_is_no_own, crate::proofs::Operators::assignment_is_no_own, crate::proofs::Operators::literal_is_no_own))]
pub fn own_name(e: &Expression) -> Option<&Ident>
    ensures { option_copied result ≡ wanted.own_name (expr_of e.now) }
{
    match e {
        Expression::Field(base, x) => if_this(base, x),
        Expression::This => None,
        Expression::Assign(_, _, _) => None,
        Expression::Conditional(_, _, _) => None,
        Expression::Binary(_, _, _) => None,
        Expression::InstanceOf(_) => None,
        Expression::Prefix(_, _) => None,
        Expression::Cast(_) => None,
        Expression::Postfix(_, _) => None,
        Expression::Literal(_, _) => None,
        Expression::Name(_) => None,
        Expression::Paren(_) => None,
        Expression::Index(_, _) => None,
        Expression::Call(_) => None,
        Expression::ClassOf(_) => None,
        Expression::New(_) => None,
        Expression::Lambda(_) => None,
        Expression::Reference(_) => None,
        Expression::PlainClass(_) => None,
        Expression::ThisOf(_) => None,
    }
}

/// Whether these are one name.
fn is_same_name(x: Option<&Ident>, y: Option<&Ident>) -> bool
    ensures { result ≡ wanted.is_same_name (option_copied x.entry) (option_copied y.entry) }
{
    match (x, y) {
        (Some(x), Some(y)) => x.text.as_str() == y.text.as_str(),
        _ => false,
    }
}

/// Whether two expressions are both x, or both `this.x`.
pub(crate) fn is_same_lock(e: &Expression, f: &Expression) -> bool
    ensures { result ≡ wanted.is_same_lock (expr_of e.now) (expr_of f.now) }
{
    is_same_name(simple_name(e), simple_name(f)) || is_same_name(own_name(e), own_name(f))
}
