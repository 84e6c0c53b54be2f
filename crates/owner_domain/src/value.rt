//! Values and states.
ghost use Rattle.std.specs.Prelude.{◌≡◌, IfOk};
ghost use Rattle.owner_domain.specs.declared.value.Value.TheVariants.{Named as NamedBy};
ghost use Rattle.owner_domain.specs.Values.{along};

use access_paths::{Path, PathFields};
use racer_base::{FieldId, Items, MAX_PATH_FIELDS, Memory};
use std::alloc::Global;

/// What is known of a value.
#[derive(Drop)]
pub enum Value {
    /// Null, an object that was made in this method, or one reached from such an object.
    Owned,
    /// The value at this path, whose root is not `Some`.
    Named(Path),
    Unnamed,
}

/// The values of the variables, and those on the stack, its top first.
#[derive(Drop)]
pub struct State {
    pub vars: Items<Value>,
    pub stack: Items<Value>,
}

impl Value {
    /// The value that is reached from this one by these fields in turn.
    pub fn along(&self, alloc: Global, fields: &[FieldId]) -> Result<Value, Memory>
        ensures { IfOk result (λ value. value ≡ along self.now fields.now) }
    {
        match self {
            Value::Owned => Ok(Value::Owned),
            Value::Named(path) => along_path(alloc, path, fields),
            Value::Unnamed => Ok(Value::Unnamed),
        }
    }
}

/// The value that is reached by these fields in turn from one that is named by this path.
pub fn along_path(alloc: Global, path: &Path, fields: &[FieldId]) -> Result<Value, Memory>
    ensures { IfOk result (λ value. value ≡ along (NamedBy path.now) fields.now) }
{
    if fields.is_empty() {
        return Ok(Value::Named(path.copied(alloc)?));
    }
    let room = MAX_PATH_FIELDS.saturating_sub(path.fields.len());
    if fields.len() > room {
        return Ok(Value::Unnamed);
    }
    let mut longer = Vec::with_capacity(alloc, path.fields.len() + fields.len())?;
    longer.extend_from_slice(path.fields.as_slice())?;
    longer.extend_from_slice(fields)?;
    Ok(Value::Named(Path {
        root: path.root,
        fields: PathFields::from_vec(longer),
    }))
}
