//! A stack, which grows and shrinks at its top.
ghost use Rattle.std.specs.Prelude.{◌≡◌, ◌<◌, [], ◌∷◌, ◌++◌, drop, length, reverse, slice_get, take, OnOk, OnErr};
ghost use Rattle.std.specs.Option.{option_copied};

use racer_base::Memory;
use std::alloc::Global;
use std::marker::Model;

/// A stack, which contracts see as the list of its elements with the top first.
#[derive(Drop)]
pub(crate) struct Stack<T> {
    /// The top stands last.
    items: Vec<T>,
}

impl<T> Model for Stack<T> {
    ghost use Rattle.std.specs.Prelude.{List, reverse};
    ghost use Rattle.std.specs.Coded.{coded_list};

    ghost Value = { List T };

    ghost coded = { coded_list T.code };

    ghost view = { λ stack. reverse stack.items.items };
}

impl<T> Stack<T> {
    pub(crate) fn new(alloc: Global) -> Stack<T>
        ensures { result ≡ [] }
    {
        Stack {
            items: Vec::new(alloc),
        }
    }

    /// A stack of these elements, of which the top stands last.
    pub(crate) fn of(items: Vec<T>) -> Stack<T>
        ensures { result ≡ reverse items.items }
    {
        Stack { items }
    }

    /// The elements, with the top last.
    pub(crate) fn as_slice(&self) -> &[T]
        ensures { result.now ≡ reverse self.now }
    {
        self.items.as_slice()
    }

    pub(crate) fn len(&self) -> usize
        ensures { result ≡ length self.now }
    {
        self.items.len()
    }

    /// The element of this number, counted from the top.
    pub(crate) fn get(&self, number: usize) -> Option<&T>
        ensures { option_copied result ≡ slice_get self.now number }
    {
        if number < self.items.len() {
            self.items.get(self.items.len() - 1 - number)
        } else {
            None
        }
    }

    /// Takes so many elements from the top.
    pub(crate) fn cut(&mut self, count: usize)
    where
        T: Drop,
        ensures { self.new ≡ drop count self.old }
    {
        self.items.truncate(self.items.len().saturating_sub(count));
    }

    /// Puts one element in the place of so many at the top.
    pub(crate) fn replace(&mut self, count: usize, item: T) -> Result<(), Memory>
    where
        T: Drop,
        ensures ok { OnOk result (self.new ≡ item ∷ drop count self.old) }
        ensures err { OnErr result (self.new ≡ self.old) }
    {
        let kept = self.items.len().saturating_sub(count);
        if kept == self.items.len() {
            let Ok(()) = self.items.push(item) else {
                return Err(Memory);
            };
        } else {
            self.items[kept] = item;
            self.items.truncate(kept + 1);
        }
        Ok(())
    }

    /// Puts two elements in the place of the top, where there is one.
    pub(crate) fn replace_by_two(&mut self, first: T, second: T) -> Result<(), Memory>
    where
        T: Drop,
        requires { 0 < length self.old }
        ensures ok { OnOk result (self.new ≡ first ∷ second ∷ drop 1 self.old) }
        ensures err { OnErr result (self.new ≡ self.old) }
    {
        let last = self.items.len() - 1;
        let Ok(()) = self.items.push(first) else {
            return Err(Memory);
        };
        self.items[last] = second;
        Ok(())
    }

    /// Takes the element under the top, where there is one.
    pub(crate) fn pull(&mut self)
    where
        T: Drop,
        ensures { self.new ≡ take 1 self.old ++ drop 2 self.old }
    {
        if self.items.len() > 1 {
            self.items.remove(self.items.len() - 2);
        }
    }
}
