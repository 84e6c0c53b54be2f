//! Names that mean no class of the folder in a method (JLS 6.4.1).
ghost use Rattle.std.specs.Prelude.{◌≡◌, [], IfOk};
ghost use Rattle.java_resolver.specs.NameNumbers.{FindsNames};
ghost use Rattle.java_resolver.specs.Hidden.{is_hidden, hidden_in};

use crate::local_classes::names_in;
use java_tree::MethodTree;
use keyed_numbers::{Key, Named, add_number, no_numbers, number_at};
use racer_base::{Memory, Text};
use std::alloc::Global;
use std::marker::Model;

/// The one key of all names.
const NAMES: Key = (0, 0);

/// Names, of which each is found.
#[derive(Drop)]
pub struct Hidden {
    list: Vec<Text>,
    numbers: Named,
}

impl Model for Hidden {
    ghost use Rattle.std.specs.Prelude.{List, ℕ};
    ghost use Rattle.java_resolver.specs.NameNumbers.{FindsNames};

    ghost Value = { List (List ℕ) };

    ghost view = { λ hidden. hidden.list.items };

    ghost invariant = { λ hidden. FindsNames hidden.numbers hidden.list.items };
}

/// The numbers of names.
fn name_numbers(alloc: Global, names: &[Text]) -> Result<Named, Memory>
    ensures { IfOk result (λ numbers. FindsNames numbers names.now) }
{
    let mut numbers = no_numbers(alloc);
    for (index, name) in names.iter().enumerate() {
        add_number(alloc, &mut numbers, name.as_str(), NAMES, index)?;
    }
    Ok(numbers)
}

impl Hidden {
    /// No names.
    pub fn new(alloc: Global) -> Hidden
        ensures { result ≡ [] }
    {
        Hidden {
            list: Vec::new(alloc),
            numbers: no_numbers(alloc),
        }
    }

    pub fn has(&self, name: &str) -> bool
        ensures { result ≡ is_hidden self.now name.now }
    {
        number_at(&self.numbers, name, NAMES).is_some()
    }
}

/// Those of the type parameters of a method and of the local classes in its block.
pub fn hidden_in(alloc: Global, method: &MethodTree) -> Result<Hidden, Memory>
    ensures { IfOk result (λ hidden. hidden ≡ hidden_in method.now) }
{
    let list = names_in(alloc, method)?;
    let numbers = name_numbers(alloc, list.as_slice())?;
    Ok(Hidden { list, numbers })
}
