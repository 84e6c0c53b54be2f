//! Roots of start paths, by their texts.
ghost use Rattle.std.specs.Prelude.{◌≡◌, ◌∷◌, [], IfOk, OnOk, List, ℕ, None, string_bytes};
ghost use Rattle.core_code.specs.Core.{method_of};
ghost use Rattle.core_code.specs.Program.{core};
ghost use Rattle.race_report_parts.specs.Marks.{start_root_text};
ghost use Rattle.witness_text_names.specs.Indexes.{AddsRoots, FindsRoots, root_at};
ghost use Rattle.witness_text_names.specs.Names.{all_roots, class_roots, parameters_of};

use crate::entries::number_of;
use core_code::{MethodCore, Program};
use core_semantics::{StartPath, StartRoot};
use race_report_parts::{Written, push_start};
use racer_base::{ClassId, Memory};
use std::alloc::Global;
use std::collections::BTreeMap;

/// Roots by their texts.
pub(crate) type RootIndex = BTreeMap<String, StartRoot>;

/// No roots.
fn no_roots(alloc: Global) -> RootIndex
    ensures { (text : List ℕ) → root_at result text ≡ None }
{
    BTreeMap::new(alloc)
}

/// The root of a text.
pub(crate) fn root_at(roots: &RootIndex, text: &str) -> Option<StartRoot>
    ensures { result ≡ root_at roots.now text.now }
{
    roots.get(text).copied()
}

fn root_text(alloc: Global, program: &Program, root: StartRoot) -> Result<String, Memory>
    ensures { IfOk result (λ text. string_bytes text ≡ start_root_text (core program.now) root) }
{
    let start = StartPath::alone(alloc, root);
    let mut text = Written::new(alloc);
    push_start(&mut text, program, &start);
    text.finished()
}

/// Puts a root at its text, unless there is one.
fn add_root(
    alloc: Global,
    program: &Program,
    roots: &mut RootIndex,
    root: StartRoot,
) -> Result<(), Memory>
    ensures { OnOk result (AddsRoots (core program.now) (root ∷ []) roots.old roots.new) }
{
    let text = root_text(alloc, program, root)?;
    if let Some(_) = root_at(roots, text.as_str()) {
        return Ok(());
    }
    roots.insert(text, root)?;
    Ok(())
}

/// Puts each class at its name, unless there is a root.
fn add_classes(alloc: Global, program: &Program, roots: &mut RootIndex) -> Result<(), Memory>
    ensures { OnOk result (AddsRoots (core program.now) (class_roots (core program.now)) roots.old roots.new) }
{
    for index in 0..program.classes().len() {
        let class = ClassId(number_of(index)?);
        add_root(alloc, program, roots, StartRoot::Class(class))?;
    }
    Ok(())
}

/// Puts each parameter of the entry of a thread at its text, unless there is a root.
fn add_parameters(
    alloc: Global,
    program: &Program,
    roots: &mut RootIndex,
    thread: u32,
    method: &MethodCore,
) -> Result<(), Memory>
    ensures { OnOk result (
        AddsRoots (core program.now) (parameters_of thread (method_of method.now)) roots.old roots.new) }
{
    for index in 0..method.parameters.len() {
        let number = number_of(index)?;
        add_root(alloc, program, roots, StartRoot::Param(thread, number))?;
    }
    Ok(())
}

/// The roots of two entries.
pub(crate) fn root_index(
    alloc: Global,
    program: &Program,
    first: &MethodCore,
    second: &MethodCore,
) -> Result<RootIndex, Memory>
    ensures { IfOk result (FindsRoots (core program.now)
        (all_roots (core program.now) (method_of first.now) (method_of second.now))) }
{
    let mut roots = no_roots(alloc);
    add_root(alloc, program, &mut roots, StartRoot::This)?;
    add_classes(alloc, program, &mut roots)?;
    add_parameters(alloc, program, &mut roots, 0, first)?;
    add_parameters(alloc, program, &mut roots, 1, second)?;
    Ok(roots)
}
