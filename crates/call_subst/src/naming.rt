//! What the paths of a callee name at a call.
ghost use Rattle.std.specs.Prelude.{◌≡◌, ◌+◌, IfOk, if◌then◌else◌, slice_index_or};
ghost use Rattle.owner_domain.specs.declared.value.Value.TheVariants.{Unnamed as NotNamed};
ghost use Rattle.owner_domain.specs.Values.{along};
ghost use Rattle.core_code.specs.Program.{core};
ghost use Rattle.access_domain.specs.FlowContext.{is_static_method};
ghost use Rattle.access_domain.specs.Substitution.{value_named, substituted_path};
ghost use Rattle.call_subst.specs.Calls.{given, actuals};

use access_domain::path_reached;
use access_paths::{Path, Root};
use core_code::Program;
use owner_domain::Value;
use racer_base::{FieldId, Memory, MethodId, SiteId};
use std::alloc::Global;

/// A call: its place among those of its caller, and the values that it passes.
#[derive(Drop)]
pub struct Call<'a> {
    pub program: &'a Program,
    /// Whether the callee is static.
    pub is_static: bool,
    pub actuals: &'a [Value],
    pub locked: bool,
    pub main: bool,
    pub site: SiteId,
}

/// Whether the method of a number is static; also where there is none.
pub fn is_static(program: &Program, method: MethodId) -> bool
    ensures { result ≡ is_static_method (core program.now) method }
{
    match program.methods().get(method.0 as usize) {
        Some(method) => method.is_static,
        None => true,
    }
}

/// What is reached by fields from the value of an index.
fn along_passed(
    alloc: Global,
    values: &[Value],
    index: usize,
    fields: &[FieldId],
) -> Result<Value, Memory>
    ensures { IfOk result (λ value. value ≡ along (slice_index_or values.now index NotNamed) fields.now) }
{
    match values.get(index) {
        Some(value) => value.along(alloc, fields),
        None => Ok(Value::Unnamed),
    }
}

/// The index of the value of a parameter among those that are passed.
fn index_of(is_static: bool, parameter: u32) -> usize
    ensures { result ≡ (if is_static then parameter else parameter + 1) }
{
    if is_static {
        parameter as usize
    } else {
        parameter as usize + 1
    }
}

/// What a path of the callee names in the caller.
pub fn value_named(alloc: Global, call: &Call, path: &Path) -> Result<Value, Memory>
    ensures { IfOk result (λ value. value ≡ value_named (actuals call.now) path.now) }
{
    let fields = path.fields.as_slice();
    match path.root {
        Root::This => along_passed(alloc, call.actuals, 0, fields),
        Root::Formal(number) => {
            along_passed(
                alloc,
                call.actuals,
                index_of(call.is_static, number),
                fields,
            )
        }
        Root::Class(_) => Value::Named(Path::alone(alloc, path.root)).along(alloc, fields),
        Root::Some(_) => Ok(Value::Unnamed),
    }
}

/// The path of a record of the callee, in the caller.
pub fn path_there(alloc: Global, call: &Call, path: &Path) -> Result<Option<Path>, Memory>
    ensures { IfOk result (λ found. found ≡ substituted_path (given call.now)
        (actuals call.now) path.now) }
{
    if path.root.is_some() {
        return Ok(Some(path.copied(alloc)?));
    }
    match path.fields.as_slice().last() {
        None => Ok(None),
        Some(field) => {
            let value = value_named(alloc, call, path)?;
            path_reached(alloc, call.program, value, *field)
        }
    }
}
