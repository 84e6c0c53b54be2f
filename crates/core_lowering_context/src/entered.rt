//! Where the code of a method begins.
ghost use Rattle.std.specs.Prelude.{◌≡◌, OnOk, IfOk};
ghost use Rattle.java_tree.specs.View.{ty_of};
ghost use Rattle.java_resolver.specs.Declarations.{further_arrays};
ghost use Rattle.core_lowering_rules.specs.Scopes.{of_type};
ghost use Rattle.core_lowering_rules.specs.Methods.{entered, parameters_declared, result_of, result_of_tree};
ghost use Rattle.core_lowering_context.specs.Beginning.{inside};
ghost use Rattle.core_lowering_context.specs.Sources.{body_of, source_of};
ghost use Rattle.core_lowering_context.specs.Views.{given_of, folder_of};

use crate::context::Context;
use crate::given::MethodResult;
use crate::sources::{Body, Source};
use container_cells::Cell;
use core_code::Reason;
use java_resolver::{MethodInfo, Table};
use java_tree::{MethodTree, ParameterTree, ResultTree};
use racer_base::{Kind, Memory};
use std::alloc::Global;

/// What a method of a tree gives, where a value of it has this kind.
fn given_by_tree(kind: Kind, tree: &ResultTree) -> MethodResult
    ensures { given_of result ≡ result_of_tree kind tree.now }
{
    match tree {
        ResultTree::Constructor => MethodResult::Itself,
        ResultTree::Void => MethodResult::Nothing,
        ResultTree::Of(_) => MethodResult::Value(kind),
    }
}

/// What a method gives.
fn given_by(info: &MethodInfo, body: &Body) -> MethodResult
    ensures { given_of result ≡ result_of info.now.result (body_of body.now) }
{
    match body {
        Body::Default => MethodResult::Itself,
        Body::Spelled(m) => given_by_tree(info.result, &m.result),
        Body::Unspelled => MethodResult::Value(info.result),
    }
}

/// Before the parameters.
pub fn enter<'a>(
    alloc: Global,
    table: &'a Table,
    cells: &'a [Option<Cell>],
    statuses: &'a [Option<Reason>],
    source: &Source<'a>,
) -> Result<Context<'a>, Memory>
    ensures { IfOk result (λ context. context
        ≡ entered (folder_of table.now cells.now statuses.now) (source_of source.now)) }
{
    let info = source.info;
    let given = given_by(info, &source.body);
    Context::new(
        alloc,
        table,
        cells,
        statuses,
        info.place,
        given,
        info.result,
        info.class,
        info.is_static,
        &info.hidden,
    )
}

/// How many `[ ]` a parameter has besides those of its type, `...` being one of them.
fn further_arrays(parameter: &ParameterTree) -> Result<u32, Memory>
    ensures { IfOk result (λ further. further ≡ further_arrays parameter.now) }
{
    if parameter.any_number {
        parameter.arrays.checked_add(1).ok_or(Memory)
    } else {
        Ok(parameter.arrays)
    }
}

fn declare_parameter(
    alloc: Global,
    context: &mut Context,
    parameter: &ParameterTree,
) -> Result<(), Memory>
    ensures { OnOk result (context.new
        ≡ of_type context.old (ty_of parameter.now.kind) (further_arrays parameter.now) parameter.now.name) }
{
    let further = further_arrays(parameter)?;
    let known = context.variable_kind(&parameter.kind, further);
    context.declare(alloc, known, &parameter.name)?;
    Ok(())
}

fn declare_parameters(
    alloc: Global,
    context: &mut Context,
    parameters: &[ParameterTree],
) -> Result<(), Memory>
    ensures { OnOk result (context.new ≡ parameters_declared context.old parameters.now) }
{
    for parameter in parameters {
        declare_parameter(alloc, context, parameter)?;
    }
    Ok(())
}

/// Behind the parameters.
pub fn enter_spelled<'a>(
    alloc: Global,
    table: &'a Table,
    cells: &'a [Option<Cell>],
    statuses: &'a [Option<Reason>],
    source: &Source<'a>,
    m: &MethodTree,
) -> Result<Context<'a>, Memory>
    ensures { IfOk result (λ context. context
        ≡ inside (folder_of table.now cells.now statuses.now) (source_of source.now) m.now) }
{
    let mut context = enter(alloc, table, cells, statuses, source)?;
    declare_parameters(alloc, &mut context, m.parameters.as_slice())?;
    Ok(context)
}
