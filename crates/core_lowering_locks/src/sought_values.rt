//! What is sought in statements, and whether it stands in expressions and in what variables begin with.
ghost use Rattle.std.specs.Prelude.{◌≡◌, ◌||◌, map, option_map};
ghost use Rattle.core_lowering_rules.specs.Trees.{CallOn, Refer, pack_exprs, pack_inits};
ghost use Rattle.core_lowering_rules.specs.TreesOf.{access_of, expr_of, init_of, items_of, variable_of, is_count};
ghost use Rattle.core_lowering_rules.specs.Sought as wanted;
ghost use Rattle.core_lowering_rules.specs.TreesOf.{call_tree_of, new_tree_of, referred_of};
ghost use Rattle.core_lowering_locks.specs.Seen.{sought_seen};

use java_tree::{
    Apart, ArrayTree, CallTree, Expression, Ident, Initialiser, Made, NewTree, Referred,
    VariableTree,
};

/// A call of `unlock` without arguments, or a store to the variable of a name.
#[derive(Clone, Copy)]
pub(crate) enum Sought<'a> {
    Unlocking,
    Storing(&'a Ident),
}

/// Whether a call of this name with these arguments is one.
fn is_unlock(x: &Ident, arguments: &[Expression]) -> bool
    ensures { result ≡ wanted.is_unlock x.now (pack_exprs (map expr_of arguments.now)) }
{
    match arguments {
        [] => x.text.as_str() == "unlock",
        [_, ..] => false,
    }
}

/// Whether a call of this name with these arguments is sought.
fn is_call_sought(sought: Sought, x: &Ident, arguments: &[Expression]) -> bool
    ensures { result
        ≡ wanted.is_call_sought (sought_seen sought.entry) x.now (pack_exprs (map expr_of arguments.now)) }
{
    match sought {
        Sought::Unlocking => is_unlock(x, arguments),
        Sought::Storing(_) => false,
    }
}

/// Whether a store to this name is sought.
fn is_store_sought(sought: Sought, x: &Ident) -> bool
    ensures { result ≡ wanted.is_store_sought (sought_seen sought.entry) x.now }
{
    match sought {
        Sought::Unlocking => false,
        Sought::Storing(name) => x.text.as_str() == name.text.as_str(),
    }
}

fn is_count(op: &str) -> bool
    ensures { result ≡ is_count op.now }
{
    op == "++" || op == "--"
}

/// What stands on the left of an assignment; what may not stand there is not lowered.
#[cycle(sought_values)]
#[tactic(auto, using(crate::proofs::Standing::assignment_is_no_access, crate::proofs::Standing::literal_is_no_access))]
fn does_left_stand(sought: Sought, e: &Expression) -> bool
    ensures { result ≡ wanted.does_left_stand (sought_seen sought.entry) (access_of (expr_of e.now)) }
{
    match e {
        Expression::Field(a, _) => does_stand(sought, a),
        Expression::Index(a, b) => does_stand(sought, a) || does_stand(sought, b),
        Expression::Name(x) => is_store_sought(sought, x),
        Expression::Assign(_, _, _) => false,
        Expression::Conditional(_, _, _) => false,
        Expression::Binary(_, _, _) => false,
        Expression::InstanceOf(_) => false,
        Expression::Prefix(_, _) => false,
        Expression::Cast(_) => false,
        Expression::Postfix(_, _) => false,
        Expression::Literal(_, _) => false,
        Expression::This => false,
        Expression::Paren(_) => false,
        Expression::Call(_) => false,
        Expression::ClassOf(_) => false,
        Expression::New(_) => false,
        Expression::Lambda(_) => false,
        Expression::Reference(_) => false,
        Expression::PlainClass(_) => false,
        Expression::ThisOf(_) => false,
    }
}

#[cycle(sought_values)]
fn does_assignment_stand(sought: Sought, a: &Expression, b: &Expression) -> bool
    ensures { result ≡ (wanted.does_left_stand (sought_seen sought.entry) (access_of (expr_of a.now))
        || wanted.does_stand (sought_seen sought.entry) (expr_of b.now)) }
{
    does_left_stand(sought, a) || does_stand(sought, b)
}

#[cycle(sought_values)]
fn does_either_stand(sought: Sought, a: &Expression, b: &Expression) -> bool
    ensures { result ≡ (wanted.does_stand (sought_seen sought.entry) (expr_of a.now)
        || wanted.does_stand (sought_seen sought.entry) (expr_of b.now)) }
{
    does_stand(sought, a) || does_stand(sought, b)
}

/// `e.x(..)`
#[cycle(sought_values)]
fn does_call_on_stand(sought: Sought, e: &Expression, x: &Ident, all: &[Expression]) -> bool
    ensures { result
        ≡ wanted.does_stand (sought_seen sought.entry)
        (CallOn (expr_of e.now) x.now (pack_exprs (map expr_of all.now))) }
{
    is_call_sought(sought, x, all) || does_stand(sought, e) || do_exprs_stand(sought, all)
}

#[cycle(sought_values)]
fn does_call_stand(sought: Sought, call: &CallTree) -> bool
    ensures { result ≡ wanted.does_stand (sought_seen sought.entry) (call_tree_of call.now) }
{
    match &call.receiver {
        Some(e) => does_call_on_stand(sought, e, &call.name, &call.arguments),
        None => is_call_sought(sought, &call.name, &call.arguments)
            || do_exprs_stand(sought, &call.arguments),
    }
}

/// In the arguments, the lengths or the elements.
#[cycle(sought_values)]
fn does_new_stand(sought: Sought, new: &NewTree) -> bool
    ensures { result ≡ wanted.does_stand (sought_seen sought.entry) (new_tree_of new.now) }
{
    match &new.made {
        Made::Object(all) => do_exprs_stand(sought, all),
        Made::Anonymous(all, _) => do_exprs_stand(sought, all),
        Made::Array(all, _) => do_exprs_stand(sought, all),
        Made::Filled(_, items) => do_items_stand(sought, items),
    }
}

#[cycle(sought_values)]
#[tactic(auto, using(crate::proofs::Standing::binary_in, crate::proofs::Standing::assignment_in, crate::proofs::Standing::literal_stands, crate::proofs::Standing::count_stands, crate::proofs::Standing::unary_stands))]
pub(crate) fn does_stand(sought: Sought, e: &Expression) -> bool
    ensures { result ≡ wanted.does_stand (sought_seen sought.entry) (expr_of e.now) }
{
    match e {
        Expression::Assign(a, _, b) => does_assignment_stand(sought, a, b),
        Expression::Conditional(c, a, b) => does_stand(sought, c)
            || does_stand(sought, a)
            || does_stand(sought, b),
        Expression::Binary(a, _, b) => does_either_stand(sought, a, b),
        Expression::InstanceOf(a) => does_stand(sought, &a.value),
        Expression::Prefix(op, a) if is_count(op.as_str()) => does_left_stand(sought, a),
        Expression::Prefix(_, a) => does_stand(sought, a),
        Expression::Cast(a) => does_stand(sought, &a.value),
        Expression::Postfix(a, _) => does_left_stand(sought, a),
        Expression::Literal(_, _) => false,
        Expression::This => false,
        Expression::Name(_) => false,
        Expression::Paren(a) => does_stand(sought, a),
        Expression::Field(a, _) => does_stand(sought, a),
        Expression::Index(a, b) => does_stand(sought, a) || does_stand(sought, b),
        Expression::Call(call) => does_call_stand(sought, call),
        Expression::ClassOf(_) => false,
        Expression::New(new) => does_new_stand(sought, new),
        Expression::Lambda(_) => false,
        Expression::Reference(reference) => does_referred_stand(sought, &reference.of),
        Expression::PlainClass(_) => false,
        Expression::ThisOf(_) => false,
    }
}

/// What a method reference refers to.
#[cycle(sought_values)]
fn does_referred_stand(sought: Sought, to: &Referred) -> bool
    ensures { result ≡ wanted.does_stand (sought_seen sought.entry) (Refer (referred_of to.now)) }
{
    match to {
        Referred::Of(e) => does_stand(sought, e),
        Referred::Type(_) => false,
        Referred::Super => false,
    }
}

#[cycle(sought_values)]
pub(crate) fn do_exprs_stand(sought: Sought, all: &[Expression]) -> bool
    ensures { result ≡ wanted.do_exprs_stand (sought_seen sought.entry) (pack_exprs (map expr_of all.now)) }
{
    for e in all {
        if does_stand(sought, e) {
            return true;
        }
    }
    false
}

#[cycle(sought_values)]
fn does_init_stand(sought: Sought, i: &Initialiser) -> bool
    ensures { result ≡ wanted.does_init_stand (sought_seen sought.entry) (init_of i.now) }
{
    match i {
        Initialiser::Value(e) => does_stand(sought, e),
        Initialiser::Items(items) => do_items_stand(sought, items),
    }
}

#[cycle(sought_values)]
fn do_items_stand(sought: Sought, array: &ArrayTree) -> bool
    ensures { result ≡ wanted.do_items_stand (sought_seen sought.entry) (items_of array.now) }
{
    do_inits_stand(sought, array.items.as_slice())
}

#[cycle(sought_values)]
fn do_inits_stand(sought: Sought, items: &[Initialiser]) -> bool
    ensures { result ≡ wanted.do_items_stand (sought_seen sought.entry) (pack_inits (map init_of items.now)) }
{
    for item in items {
        if does_init_stand(sought, item) {
            return true;
        }
    }
    false
}

pub(crate) fn does_some_stand(sought: Sought, e: &Option<Apart<Expression>>) -> bool
    ensures { result ≡ wanted.does_some_stand (sought_seen sought.entry) (option_map expr_of e.now) }
{
    match e {
        Some(e) => does_stand(sought, e.get()),
        None => false,
    }
}

fn does_begin_stand(sought: Sought, initialiser: &Option<Initialiser>) -> bool
    ensures { result ≡ wanted.does_begin_stand (sought_seen sought.entry) (option_map init_of initialiser.now) }
{
    match initialiser {
        Some(i) => does_init_stand(sought, i),
        None => false,
    }
}

pub(crate) fn do_variables_stand(sought: Sought, variables: &[VariableTree]) -> bool
    ensures { result ≡ wanted.do_variables_stand (sought_seen sought.entry) (map variable_of variables.now) }
{
    for variable in variables {
        if does_begin_stand(sought, &variable.initialiser) {
            return true;
        }
    }
    false
}
