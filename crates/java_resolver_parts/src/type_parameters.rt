//! The names of type parameters (JLS 8.4.4).
ghost use Rattle.std.specs.Prelude.{◌≡◌, ◌++◌, map, OnOk};
ghost use Rattle.java_resolver_parts.specs.TypeParameters.{parameter_name, parameter_names};

use java_tree::{Apart, TypeParameterTree, TypeParametersTree};
use racer_base::{Memory, Text};

fn push_listed(names: &mut Vec<Text>, parameters: &[TypeParameterTree]) -> Result<(), Memory>
    ensures { OnOk result (names.new.items ≡ names.old.items ++ map parameter_name parameters.now) }
{
    for parameter in parameters {
        names.push(parameter.name.text.clone()?)?;
    }
    Ok(())
}

/// Adds the names of a method's type parameters, where it has some.
pub fn push_type_parameters(
    names: &mut Vec<Text>,
    parameters: &Option<Apart<TypeParametersTree>>,
) -> Result<(), Memory>
    ensures { OnOk result (names.new.items ≡ names.old.items ++ parameter_names parameters.now) }
{
    match parameters {
        Some(parameters) => push_listed(names, parameters.get().items.as_slice()),
        None => Ok(()),
    }
}
