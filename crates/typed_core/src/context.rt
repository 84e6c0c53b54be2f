//! What stays the same while a method is checked.
ghost use Rattle.std.specs.Prelude.{◌≡◌, map, option_map, IfOk};
ghost use Rattle.core_code.specs.Core.{method_of};
ghost use Rattle.core_code.specs.Tree.{can_return, tree_of};
ghost use Rattle.core_code.specs.Program.{core, methods};
ghost use Rattle.core_code.specs.Calls.{method_at};
ghost use Rattle.core_code.specs.KindCheck.{field_at};
ghost use Rattle.typed_core.specs.Needs as spec;
ghost use Rattle.typed_core.specs.Contexts.{are_returns, returns_in};

use crate::kinds::{TypedKind, kind_of};
use core_code::{FieldCore, MethodCore, Program, exits_of};
use racer_base::{FieldId, Memory, MethodId};
use std::alloc::Global;

/// The program, the method whose code is gone through, and for each method whether it can return.
#[derive(Clone, Copy)]
pub(crate) struct CheckContext<'a> {
    pub alloc: Global,
    pub program: &'a Program,
    pub method: &'a MethodCore,
    pub returns: &'a [bool],
}

/// For each of these methods whether it can return.
fn returns_of(alloc: Global, methods: &[MethodCore]) -> Result<Vec<bool>, Memory>
    ensures { IfOk result (λ returns. returns.items ≡ map returns_in (map method_of methods.now)) }
{
    let mut returns = Vec::new(alloc);
    for method in methods {
        returns.push(exits_of(&method.code).returns)?;
    }
    Ok(returns)
}

/// For each method whether it can return.
pub(crate) fn all_returns(alloc: Global, program: &Program) -> Result<Vec<bool>, Memory>
    ensures { IfOk result (λ returns. returns.items ≡ are_returns (core program.now)) }
{
    returns_of(alloc, program.methods())
}

/// The field of this number.
pub(crate) fn field_at<'a>(program: &'a Program, f: FieldId) -> Option<&'a FieldCore>
    ensures { option_map (λ field. field.now) result ≡ field_at (core program.now) f }
{
    program.fields().get(f.0 as usize)
}

impl<'a> CheckContext<'a> {
    /// The field of this number.
    pub fn field(&self, f: FieldId) -> Option<&'a FieldCore>
        ensures { option_map (λ field. field.now) result ≡ field_at (core self.now.program.now) f }
    {
        field_at(self.program, f)
    }

    /// The method of this number.
    pub fn callee(&self, m: MethodId) -> Option<&'a MethodCore>
        ensures { option_map (λ callee. method_of callee.now) result ≡ method_at (core self.now.program.now) m }
    {
        self.program.methods().get(m.0 as usize)
    }

    /// The kind of the value of a field.
    pub fn field_kind(&self, f: FieldId) -> TypedKind
        ensures { result ≡ spec.field_kind (core self.now.program.now) f }
    {
        match self.field(f) {
            Some(field) => kind_of(field.kind),
            None => TypedKind::Other,
        }
    }

    /// The kind of what a method returns.
    pub fn result_kind(&self, m: MethodId) -> TypedKind
        ensures { result ≡ spec.result_kind (core self.now.program.now) m }
    {
        match self.callee(m) {
            Some(callee) => kind_of(callee.result),
            None => TypedKind::Other,
        }
    }

    /// Whether a method cannot return.
    pub fn cannot_return(&self, m: MethodId) -> bool
        requires { self.now.returns.now ≡ are_returns (core self.now.program.now) }
        ensures { result ≡ spec.cannot_return (method_at (core self.now.program.now) m) }
    {
        !matches!(self.returns.get(m.0 as usize), Some(true))
    }
}
