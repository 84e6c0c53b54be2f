//! The answers.
ghost use Rattle.std.specs.Prelude.{◌≡◌, ◌++◌, [], ◌∷◌, IfOk, OnOk, length};
ghost use Rattle.std.specs.List.{flat_map};
ghost use Rattle.racer_base.specs.declared.ids.ClassId.{ClassId as Id};
ghost use Rattle.core_code.specs.CalleeRows.{AreRowsOf};
ghost use Rattle.core_code.specs.Program.{core, methods};
ghost use Rattle.typed_core.specs.Contexts.{flag_of};
ghost use Rattle.typed_core.specs.Reaching.{first_of, places_where, reached_places, reads_in, reads_where, typings_at};
ghost use Rattle.typed_core.specs.Reaching.{AreFlagged, AreFound, IsInRange};
ghost use Rattle.typed_core.specs.Typings.{answer_of, place_failing, typing_of, typings};

use crate::answers::{Answer, Typing};
use crate::doubts::Doubt;
use crate::findings::{Findings, all_findings};
use crate::reaching::{has_entry, reached_from};
use core_code::{CallRows, Program, call_rows};
use racer_base::{ClassId, Memory, Place};
use std::alloc::Global;

/// Flags a class, where there is one of this number.
fn flag(class: ClassId, flags: &mut [bool])
    ensures { AreFlagged (class ∷ []) flags.old flags.new }
{
    let number = class.0 as usize;
    if number >= flags.len() {
        return;
    }
    flags[number] = true;
}

/// Flags these classes.
fn flag_all(classes: &[ClassId], flags: &mut [bool])
    ensures { AreFlagged classes.now flags.old flags.new }
{
    for class in classes {
        flag(*class, flags);
    }
}

/// Flags the classes whose fields a method reads that are null at first, where it is reached.
fn flag_reads(is_reached: bool, found: &Findings, flags: &mut [bool])
    ensures { AreFlagged (reads_where is_reached found.now) flags.old flags.new }
{
    if !is_reached {
        return;
    }
    flag_all(found.reads.as_slice(), flags)
}

/// For each of so many classes whether the methods that are reached read a field of it that is null at first.
fn all_read(
    alloc: Global,
    count: usize,
    reached: &[bool],
    all: &[Findings],
) -> Result<Vec<bool>, Memory>
    ensures flags { IfOk result (λ flags. (c : Id) → IsInRange count c → flag_of flags.items c ≡
        reads_in reached.now all.now c) }
    ensures size { IfOk result (λ flags. length flags.items ≡ count) }
{
    let mut flags = vec![in alloc; false; count]?;
    let methods = reached.len().min(all.len());
    for number in 0..methods {
        flag_reads(reached[number], &all[number], flags.as_mut_slice());
    }
    Ok(flags)
}

/// The first place that fails, by the flags of the classes that are read.
fn first_failing(doubts: &[Doubt], is_read: &[bool]) -> Option<Place>
    ensures { result ≡ first_of (flat_map (place_failing (flag_of is_read.now)) doubts.now) }
{
    for doubt in doubts {
        match doubt.failing(is_read) {
            Some(place) => return Some(place),
            None => {}
        }
    }
    None
}

/// The first place that fails in a method, where it is reached.
fn failing_in(is_reached: bool, found: &Findings, is_read: &[bool]) -> Option<Place>
    ensures { result ≡ first_of (places_where is_reached (flag_of is_read.now) found.now) }
{
    if !is_reached {
        return None;
    }
    first_failing(found.doubts.as_slice(), is_read)
}

/// The answer, by the flags of the methods that are reached and of the classes that are read.
fn answer_of(reached: &[bool], all: &[Findings], is_read: &[bool]) -> Answer
    ensures { result ≡ answer_of (reached_places (flag_of is_read.now) reached.now all.now) }
{
    for number in 0..reached.len().min(all.len()) {
        match failing_in(reached[number], &all[number], is_read) {
            Some(place) => return Answer::Untyped(place),
            None => {}
        }
    }
    Answer::Typed
}

/// What is said of a class that has an entry.
fn typing_of(
    alloc: Global,
    program: &Program,
    rows: &CallRows,
    all: &[Findings],
    class: ClassId,
) -> Result<Typing, Memory>
    requires rows { AreRowsOf (core program.now) rows.now }
    requires found { AreFound (core program.now) (methods program.now) all.now }
    ensures { IfOk result (λ typing. typing ≡ typing_of (core program.now) class) }
{
    let reached = reached_from(alloc, class, program, rows)?;
    let is_read = all_read(alloc, program.classes().len(), reached.as_slice(), all)?;
    let answer = answer_of(reached.as_slice(), all, is_read.as_slice());
    Ok(Typing { class, answer })
}

/// Puts behind others what is said of a class, where it has an entry.
fn push_typing(
    alloc: Global,
    program: &Program,
    rows: &CallRows,
    all: &[Findings],
    class: ClassId,
    made: &mut Vec<Typing>,
) -> Result<(), Memory>
    requires rows { AreRowsOf (core program.now) rows.now }
    requires found { AreFound (core program.now) (methods program.now) all.now }
    ensures { OnOk result (made.new.items ≡ made.old.items ++ typings_at (core program.now) class) }
{
    if has_entry(class, program.methods()) {
        made.push(typing_of(alloc, program, rows, all, class)?)?;
    }
    Ok(())
}

/// For each class that has an entry whether it is typed, in order; for one that is not the first place that fails in
/// the methods that calls lead to from its entries, by method and then in reading order.
pub fn typings(alloc: Global, program: &Program) -> Result<Vec<Typing>, Memory>
    ensures { IfOk result (λ made. made.items ≡ typings (core program.now)) }
{
    let rows = call_rows(alloc, program)?;
    let all = all_findings(alloc, program)?;
    let mut made = Vec::new(alloc);
    for number in 0..program.classes().len() {
        let Ok(number) = u32::try_from(number) else {
            return Err(Memory);
        };
        push_typing(
            alloc,
            program,
            &rows,
            all.as_slice(),
            ClassId(number),
            &mut made,
        )?;
    }
    Ok(made)
}
