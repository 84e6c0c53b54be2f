//! Fields of a program, and the paths of accesses of them.
ghost use Rattle.std.specs.Prelude.{◌≡◌, IfOk};
ghost use Rattle.core_code.specs.Program.{core};
ghost use Rattle.access_domain.specs.FlowContext.{field_at, is_plain};
ghost use Rattle.access_domain.specs.Reached.{reached_path};

use access_paths::Path;
use core_code::Program;
use owner_domain::Value;
use racer_base::{ClassId, FieldId, Kind, Memory};
use std::alloc::Global;

/// What the analysis asks of a field.
#[derive(Clone, Copy)]
pub struct Touched {
    /// The class that declares it.
    pub class: ClassId,
    /// Whether its accesses are recorded.
    pub recorded: bool,
    /// Whether its type is primitive.
    pub plain: bool,
}

/// What the analysis asks of the field of a number.
pub fn touched_field(program: &Program, f: FieldId) -> Touched
    ensures class { result.class ≡ (field_at (core program.now) f).class }
    ensures recorded { result.recorded ≡ (field_at (core program.now) f).recorded }
    ensures plain { result.plain ≡ is_plain (field_at (core program.now) f).kind }
{
    match program.fields().get(f.0 as usize) {
        Some(field) => Touched {
            class: field.class,
            recorded: field.recorded,
            plain: is_primitive(field.kind),
        },
        None => Touched {
            class: ClassId(0),
            recorded: false,
            plain: false,
        },
    }
}

/// Whether a kind is that of a primitive type.
fn is_primitive(kind: Kind) -> bool
    ensures { result ≡ is_plain kind }
{
    matches!(kind, Kind::Plain)
}

/// The path of an access of a field that has this value: none where its object is owned.
pub fn path_reached(
    alloc: Global,
    program: &Program,
    value: Value,
    f: FieldId,
) -> Result<Option<Path>, Memory>
    ensures { IfOk result (λ found. found ≡ reached_path (core program.now) value f) }
{
    match value {
        Value::Owned => Ok(None),
        Value::Named(path) => Ok(Some(path)),
        Value::Unnamed => Ok(Some(Path::of_some(alloc, touched_field(program, f).class, f)?)),
    }
}
