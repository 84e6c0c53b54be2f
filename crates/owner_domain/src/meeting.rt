//! Lists of values that meet others, in place.
ghost use Rattle.std.specs.Prelude.{◌≡◌, ◌++◌, OnErr, OnOk, length, not, reverse, take};
ghost use Rattle.owner_domain.specs.Numbered.{joined_number, joined_numbers, lost_number, lost_numbers, numbers_of};
ghost use Rattle.owner_domain.specs.Numbered.{same_number};
ghost use Rattle.owner_domain.specs.Slots.{same_numbers};

use crate::NumberedValue;
use racer_base::Memory;

/// Joins values with others, slot by slot; whether that changed them. What has no partner falls away.
pub fn meet_values(mine: &mut Vec<NumberedValue>, others: &[NumberedValue]) -> bool
    ensures values { mine.new.items ≡ joined_numbers mine.old.items others.now }
    ensures changed { result ≡ not (same_numbers mine.new.items mine.old.items) }
{
    let mut changed = mine.len() > others.len();
    mine.truncate(others.len());
    for slot in 0..mine.len() {
        let one = meet_value(&mut mine[slot], others[slot]);
        changed = changed || one;
    }
    changed
}

/// Joins a stack with another one, top with top, where tops stand last; whether that changed it.
pub fn meet_tops(mine: &mut Vec<NumberedValue>, mut others: Vec<NumberedValue>) -> bool
    ensures values { reverse mine.new.items ≡ joined_numbers (reverse mine.old.items) (reverse others.items) }
    ensures changed { result ≡ not (same_numbers (reverse mine.new.items) (reverse mine.old.items)) }
{
    if mine.len() == others.len() {
        return meet_values(mine, others.as_slice());
    }
    others.reverse();
    mine.reverse();
    let changed = meet_values(mine, others.as_slice());
    mine.reverse();
    changed
}

/// Joins a value with another one; whether that changed it.
fn meet_value(mine: &mut NumberedValue, other: NumberedValue) -> bool
    ensures value { mine.new ≡ joined_number mine.old other }
    ensures changed { result ≡ not (same_number mine.new mine.old) }
{
    if *mine == other {
        return false;
    }
    let changed = !matches!(mine, NumberedValue::Unnamed);
    *mine = NumberedValue::Unnamed;
    changed
}

/// Puts the numbers that values lose where they meet others at the end, slot by slot.
pub fn lose_values(
    mine: &[NumberedValue],
    others: &[NumberedValue],
    lost: &mut Vec<u32>,
) -> Result<(), Memory>
    ensures { OnOk result (lost.new.items ≡ lost.old.items ++ lost_numbers mine.now others.now) }
{
    for slot in 0..mine.len().min(others.len()) {
        lose_both(mine[slot], others[slot], lost)?;
    }
    Ok(())
}

/// The same of two stacks, top with top, where tops stand last.
pub fn lose_tops(
    mine: &[NumberedValue],
    others: &[NumberedValue],
    lost: &mut Vec<u32>,
) -> Result<(), Memory>
    ensures { OnOk result (lost.new.items ≡
        lost.old.items ++ lost_numbers (reverse mine.now) (reverse others.now)) }
{
    for slot in 0..mine.len().min(others.len()) {
        let one = mine[mine.len() - 1 - slot];
        let other = others[others.len() - 1 - slot];
        lose_both(one, other, lost)?;
    }
    Ok(())
}

/// Puts the numbers that are lost where two values meet at the end. After a refusal what was there is a front of what
/// is there.
pub fn lose_both(
    mine: NumberedValue,
    other: NumberedValue,
    lost: &mut Vec<u32>,
) -> Result<(), Memory>
    ensures lost { OnOk result (lost.new.items ≡ lost.old.items ++ lost_number mine other) }
    ensures err { OnErr result (take (length lost.old.items) lost.new.items ≡ lost.old.items) }
{
    if mine == other {
        return Ok(());
    }
    lose(mine, lost)?;
    lose(other, lost)
}

/// Puts the number of a named value at the end.
fn lose(value: NumberedValue, lost: &mut Vec<u32>) -> Result<(), Memory>
    ensures lost { OnOk result (lost.new.items ≡ lost.old.items ++ numbers_of value) }
    ensures err { OnErr result (lost.new.items ≡ lost.old.items) }
{
    match value {
        NumberedValue::Named(number) => Ok(lost.push(number)?),
        _ => Ok(()),
    }
}
