//! What the texts of a witness file are for two entries, by indexes that are made once for all of them.
ghost use Rattle.std.specs.Prelude.{◌≡◌, IfOk, option_map};
ghost use Rattle.core_code.specs.Core.{method_of};
ghost use Rattle.core_code.specs.Program.{core};
ghost use Rattle.witness_text_names.specs.Objects as said;

use crate::cells::{NamedPath, path_cell};
use crate::fields::field_index;
use crate::objects::{Named, all_named};
use crate::roots::root_index;
use core_code::{MethodCore, Program};
use racer_base::{Memory, Text};
use std::alloc::Global;

/// What the texts of a witness file are.
#[derive(Drop)]
pub struct NamedTexts {
    pub objects: Named,
    pub path: NamedPath,
}

/// The start paths that these texts are for two entries, and what the path of their file is.
pub fn texts_named(
    alloc: Global,
    program: &Program,
    first: &MethodCore,
    second: &MethodCore,
    texts: &[Text],
    path: Option<&str>,
) -> Result<NamedTexts, Memory>
    ensures objects { IfOk result (λ named. named.objects
        ≡ said.objects_named (core program.now) (method_of first.now) (method_of second.now) texts.now) }
    ensures path { IfOk result (λ named. named.path ≡ said.path_cell (core program.now) (method_of first.now)
        (method_of second.now) (option_map (λ text. text.now) path.entry)) }
{
    let roots = root_index(alloc, program, first, second)?;
    let fields = field_index(alloc, program)?;
    let path = path_cell(alloc, program, first, second, &roots, &fields, path)?;
    let objects = all_named(alloc, program, first, second, texts, &roots, &fields)?;
    Ok(NamedTexts { objects, path })
}
