//! The start paths that texts are.
ghost use Rattle.std.specs.Prelude.{◌≡◌, IfOk};
ghost use Rattle.core_code.specs.Core.{method_of};
ghost use Rattle.core_code.specs.Program.{core};
ghost use Rattle.witness_text_names.specs.Indexes.{FindsFields, FindsRoots};
ghost use Rattle.witness_text_names.specs.Names.{all_roots};
ghost use Rattle.witness_text_names.specs.Objects as said;

use crate::entries::number_of;
use crate::fields::FieldIndex;
use crate::reached::root_reached;
use crate::roots::{RootIndex, root_at};
use crate::walk::{Ends, cut, walk};
use core_code::{MethodCore, Program};
use core_semantics::StartPath;
use racer_base::{Items, Memory, Text};
use std::alloc::Global;

/// The start paths that texts are.
#[derive(Drop)]
pub enum Named {
    All(Items<StartPath>),
    /// The text of this number, from 0, is none, and it is the first such text.
    NoneAt(u32),
}

/// The right start path that a text is, where it is one.
fn object_named(
    alloc: Global,
    program: &Program,
    first: &MethodCore,
    second: &MethodCore,
    roots: &RootIndex,
    fields: &FieldIndex,
    text: &str,
) -> Result<Option<StartPath>, Memory>
    requires roots { FindsRoots (core program.now)
        (all_roots (core program.now) (method_of first.now) (method_of second.now)) roots.now }
    requires fields { FindsFields (core program.now).fields fields.now }
    ensures { IfOk result (λ path. path
        ≡ said.object_named (core program.now) (method_of first.now) (method_of second.now) text.now) }
{
    let Some((name, names)) = cut(text) else {
        return Ok(None);
    };
    let Some(root) = root_at(roots, name) else {
        return Ok(None);
    };
    let Some(from) = root_reached(first, second, root) else {
        return Ok(None);
    };
    let path = walk(alloc, program, fields, from, names, Ends::AtObject)?;
    let Some((mut path, field)) = path else {
        return Ok(None);
    };
    path.push(field)?;
    Ok(Some(StartPath {
        root,
        fields: Items::from(path),
    }))
}

/// The start paths that these texts are, by these indexes.
pub(crate) fn all_named(
    alloc: Global,
    program: &Program,
    first: &MethodCore,
    second: &MethodCore,
    texts: &[Text],
    roots: &RootIndex,
    fields: &FieldIndex,
) -> Result<Named, Memory>
    requires roots { FindsRoots (core program.now)
        (all_roots (core program.now) (method_of first.now) (method_of second.now)) roots.now }
    requires fields { FindsFields (core program.now).fields fields.now }
    ensures { IfOk result (λ named. named
        ≡ said.objects_named (core program.now) (method_of first.now) (method_of second.now) texts.now) }
{
    let mut paths = Vec::new(alloc);
    for (index, text) in texts.iter().enumerate() {
        let text = text.as_str();
        let path = object_named(alloc, program, first, second, roots, fields, text)?;
        let Some(path) = path else {
            let number = number_of(index)?;
            return Ok(Named::NoneAt(number));
        };
        paths.push(path)?;
    }
    Ok(Named::All(Items::from(paths)))
}
