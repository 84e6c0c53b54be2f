//! Numbers by a name and a key, the first of each.
ghost use Rattle.std.specs.Prelude.{◌≡◌, List, ℕ, None, IfOk, OnOk};
ghost use Rattle.keyed_numbers.specs.Numbers.{Key, keyed_at, number_at, AddsKeyed, AddsNumber};

use racer_base::Memory;
use std::alloc::Global;
use std::collections::BTreeMap;

/// The number of a class, and one more.
pub type Key = (u32, u32);

/// Numbers by keys, and these by names.
pub type Named = BTreeMap<String, BTreeMap<Key, u32>>;

/// The number of the element at this index.
pub fn number_of(index: usize) -> Result<u32, Memory>
    ensures { IfOk result (λ number. number ≡ index) }
{
    match u32::try_from(index) {
        Ok(number) => Ok(number),
        Err(_) => Err(Memory),
    }
}

/// No numbers.
pub fn no_numbers(alloc: Global) -> Named
    ensures { (name : List ℕ) (key : Key) → number_at result name key ≡ None }
{
    BTreeMap::new(alloc)
}

/// The number at a name and a key.
pub fn number_at(numbers: &Named, name: &str, key: Key) -> Option<u32>
    ensures { result ≡ number_at numbers.now name.now key }
{
    let keyed = numbers.get(name)?;
    keyed.get(&key).copied()
}

/// Puts the number of the element at this index at a key, unless there is one.
fn add_keyed(keyed: &mut BTreeMap<Key, u32>, key: Key, index: usize) -> Result<(), Memory>
    ensures { OnOk result (AddsKeyed keyed.old keyed.new key index) }
{
    if keyed.get(&key).is_none() {
        keyed.insert(key, number_of(index)?)?;
    }
    Ok(())
}

/// Puts the number of the element at this index at a name and a key, unless there is one.
pub fn add_number(
    alloc: Global,
    numbers: &mut Named,
    name: &str,
    key: Key,
    index: usize,
) -> Result<(), Memory>
    ensures { OnOk result (AddsNumber numbers.old numbers.new name.now key index) }
{
    if let Some(keyed) = numbers.get_mut(name) {
        return add_keyed(keyed, key, index);
    }
    let mut keyed = BTreeMap::new(alloc);
    add_keyed(&mut keyed, key, index)?;
    numbers.insert(String::from_str(alloc, name)?, keyed)?;
    Ok(())
}
