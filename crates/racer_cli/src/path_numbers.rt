//! Tests of paths by their numbers and of what is known over them: with ample memory each call answers.
use crate::store_alone::{TEN, program};
use access_domain::{Access, Accesses, Summary};
use access_paths::{Path, PathFields, PathTable, Root};
use call_subst::{substitute, substitute_value};
use core_code::Program;
use owner_domain::{FlowState, NumberedValue, Value};
use racer_base::{FieldId, Memory, MethodId, SiteId, Touch, VarId};
use std::alloc::Global;
use std::test::Fail;
use wobbly_paths::{Adding, Wobbly};

/// Whether paths get the next numbers, and one that is there keeps its own.
fn numbers_are_given(alloc: Global) -> Result<bool, Memory> {
    let parameter = Path::alone(alloc, Root::Formal(1));
    let mut table = PathTable::new(alloc);
    let first = table.number_of(Path::alone(alloc, Root::This))?;
    let second = table.number_of(parameter.copied(alloc)?)?;
    let is_kept = *table.path_of(second) == parameter;
    let again = table.number_of(Path::alone(alloc, Root::This))?;
    let longer = table.lengthened(again, FieldId(7))?;
    let twice = table.number_of(parameter)?;
    Ok(first == 0 && second == 1 && is_kept && again == 0 && longer == Some(2) && twice == 1)
}

/// Whether a path of sixteen fields has a number, and no longer one.
fn paths_end_at_sixteen_fields(alloc: Global) -> Result<bool, Memory> {
    let fields = PathFields::from_vec(Vec::from_slice(alloc, &[FieldId(0); 16])?);
    let long = Path {
        root: Root::This,
        fields,
    };
    let mut table = PathTable::new(alloc);
    let number = table.number_of(long)?;
    let longer = table.lengthened(number, FieldId(1))?;
    Ok(number == 0 && longer.is_none())
}

/// These variables, and nothing on the stack.
fn state(alloc: Global, values: &[NumberedValue]) -> Result<FlowState, Memory> {
    Ok(FlowState::new(alloc, Vec::from_slice(alloc, values)?))
}

/// The value of a variable.
fn variable(state: &mut FlowState, number: u32) -> Result<NumberedValue, Memory> {
    state.push_variable(VarId(number))?;
    Ok(state.pop())
}

/// Whether a join keeps what is the same, and loses both names of what is not.
fn names_are_lost(alloc: Global) -> Result<bool, Memory> {
    let mut a = state(
        alloc,
        &[
            NumberedValue::Named(4),
            NumberedValue::Named(5),
            NumberedValue::Owned,
            NumberedValue::Named(8),
        ],
    )?;
    let b = state(
        alloc,
        &[
            NumberedValue::Named(4),
            NumberedValue::Named(6),
            NumberedValue::Named(7),
            NumberedValue::Unnamed,
        ],
    )?;
    let (changed, lost) = a.meet_losing(alloc, b)?;
    let values = [
        variable(&mut a, 0)?,
        variable(&mut a, 1)?,
        variable(&mut a, 2)?,
        variable(&mut a, 3)?,
    ];
    let joined = [
        NumberedValue::Named(4),
        NumberedValue::Unnamed,
        NumberedValue::Unnamed,
        NumberedValue::Unnamed,
    ];
    Ok(
        changed
            && values.as_slice() == joined.as_slice()
            && lost.as_slice() == [5, 6, 7, 8].as_slice(),
    )
}

/// A read of a field of the first parameter, under some lock.
fn access(alloc: Global) -> Result<Access, Memory> {
    let parameter = Path::alone(alloc, Root::Formal(0));
    let Some(path) = parameter.extended(alloc, FieldId(0))? else {
        return Err(Memory);
    };
    Ok(Access {
        path,
        kind: Touch::Read,
        locked: true,
        main: false,
        site: SiteId(0),
        below: None,
    })
}

/// Such a read under a lock, of a method that loses its first parameter and returns it.
fn summary(alloc: Global) -> Result<Summary, Memory> {
    let mut records = Vec::new(alloc);
    records.push(access(alloc)?)?;
    let mut wobbly = Wobbly::new(alloc);
    match wobbly.add(Path::alone(alloc, Root::Formal(0))) {
        Adding::Added => Ok(Summary {
            accesses: Accesses::from_vec(records),
            wobbly,
            result: Value::Named(Path::alone(alloc, Root::Formal(0))),
        }),
        _ => Err(Memory),
    }
}

/// Whether records, wobbly paths and the result get the numbers of what an instance method's first parameter is given.
fn numbers_are_put_in(alloc: Global, program: &Program, callee: MethodId) -> Result<bool, Memory> {
    let mut table = PathTable::new(alloc);
    let passed = table.number_of(Path::alone(alloc, Root::Formal(5)))?;
    let actuals = [NumberedValue::Owned, NumberedValue::Named(passed)];
    let summary = summary(alloc)?;
    let made = substitute(
        alloc,
        program,
        &mut table,
        callee,
        &summary,
        actuals.as_slice(),
        false,
        false,
        SiteId(4),
    )?;
    let returned = substitute_value(
        alloc,
        program,
        &mut table,
        callee,
        actuals.as_slice(),
        &summary.result,
    )?;
    let [record] = made.accesses.as_slice() else {
        return Ok(false);
    };
    Ok(
        record.path == 1
            && record.locked
            && made.wobbly.as_slice() == [passed].as_slice()
            && returned == NumberedValue::Named(passed),
    )
}

#[test]
fn path_numbers(rt: HostRuntime) -> Result<(), Fail> {
    assert!(rt; matches!(numbers_are_given(rt.alloc()), Ok(true)));
    assert!(rt; matches!(paths_end_at_sixteen_fields(rt.alloc()), Ok(true)));
    assert!(rt; matches!(names_are_lost(rt.alloc()), Ok(true)));
    Ok(())
}

#[test]
fn substitution_over_numbers(rt: HostRuntime) -> Result<(), Fail> {
    let program = program(rt.alloc(), &TEN)?;
    assert!(rt;
        matches!(
            numbers_are_put_in(rt.alloc(), &program, MethodId(3)),
            Ok(true)
        )
    );
    Ok(())
}
