//! What is kept while code is gone through: what may fail, and the kinds in which loops were left.
ghost use Rattle.std.specs.Prelude.{◌≡◌, ◌++◌, ◌<◌, IfOk, OnOk, option_to_list, None, [], length, slice_index_or, take};
ghost use Rattle.typed_core.specs.Resuming.{entered, no_heads};
ghost use Rattle.typed_core.specs.Walks.{HasRoom, IsBack, IsEntered, IsLeft, IsPassed, SameHeads, heads_of};

use crate::doubts::Doubt;
use crate::states::Kinds;
use racer_base::Memory;
use std::alloc::Global;

/// What was found so far in a method's code.
#[derive(Drop)]
pub(crate) struct Walk {
    /// The number of the next loop.
    pub next: usize,
    /// The kinds in which loops were left whose first round changed something, by their numbers.
    pub heads: Vec<Option<Kinds>>,
    pub doubts: Vec<Doubt>,
}

/// Where a walk stands.
#[derive(Clone, Copy)]
pub(crate) struct Mark {
    pub next: usize,
    pub doubts: usize,
}

/// Joins kinds with those in which the loop of this number was left, if it was.
fn go_on(
    alloc: Global,
    heads: &[Option<Kinds>],
    number: usize,
    here: &mut Kinds,
) -> Result<(), Memory>
    requires { number < length heads.now }
    ensures { OnOk result (here.new ≡ entered (slice_index_or heads.now number None) here.old) }
{
    let Some(left) = &heads[number] else {
        return Ok(());
    };
    let Ok(left) = left.copied(alloc) else {
        return Err(Memory);
    };
    here.meet(left);
    Ok(())
}

impl Walk {
    pub fn new(alloc: Global) -> Walk
        ensures number { result.next ≡ 0 }
        ensures heads { SameHeads (heads_of result) no_heads }
        ensures doubts { result.doubts.items ≡ [] }
    {
        Walk {
            next: 0,
            heads: Vec::new(alloc),
            doubts: Vec::new(alloc),
        }
    }

    /// Puts what may fail behind what was found.
    pub fn note(&mut self, doubt: Option<Doubt>) -> Result<(), Memory>
        ensures doubts { OnOk result (self.new.doubts.items ≡ self.old.doubts.items ++ option_to_list doubt) }
        ensures heads { self.new.heads ≡ self.old.heads }
        ensures number { self.new.next ≡ self.old.next }
    {
        if let Some(doubt) = doubt {
            self.doubts.push(doubt)?;
        }
        Ok(())
    }

    /// Comes to a loop, whether it is reached or not: sees that there is a place for it. Gives its number.
    pub fn pass(&mut self) -> Result<usize, Memory>
        requires { HasRoom self.old.next self.old }
        ensures { IfOk result (λ number. IsPassed number self.old self.new) }
    {
        let number = self.next;
        self.next = number + 1;
        if number < self.heads.len() {
            return Ok(number);
        }
        let Ok(()) = self.heads.push(None) else {
            return Err(Memory);
        };
        Ok(number)
    }

    /// Comes to a loop that is reached with these kinds: joins them with those in which it was left, if it was. Gives
    /// its number.
    pub fn enter(&mut self, alloc: Global, here: &mut Kinds) -> Result<usize, Memory>
        requires { HasRoom self.old.next self.old }
        ensures { IfOk result (λ number. IsEntered number here.old here.new self.old self.new) }
    {
        let Ok(number) = self.pass() else {
            return Err(Memory);
        };
        let Ok(()) = go_on(alloc, self.heads.as_slice(), number, here) else {
            return Err(Memory);
        };
        Ok(number)
    }

    /// Keeps the kinds in which a loop is left.
    pub fn leave(&mut self, alloc: Global, number: usize, here: &Kinds) -> Result<(), Memory>
        requires { number < length self.old.heads.items }
        ensures { OnOk result (IsLeft number here.now self.old self.new) }
    {
        let left = here.copied(alloc)?;
        self.heads[number] = Some(left);
        Ok(())
    }

    /// Where the walk stands.
    pub fn mark(&self) -> Mark
        ensures number { result.next ≡ self.now.next }
        ensures doubts { result.doubts ≡ length self.now.doubts.items }
    {
        Mark {
            next: self.next,
            doubts: self.doubts.len(),
        }
    }

    /// Drops what was found since a mark.
    pub fn forget(&mut self, mark: Mark)
        ensures doubts { self.new.doubts.items ≡ take mark.doubts self.old.doubts.items }
        ensures heads { self.new.heads ≡ self.old.heads }
        ensures number { self.new.next ≡ self.old.next }
    {
        self.doubts.truncate(mark.doubts);
    }

    /// Goes back to a mark: what was found since is dropped.
    pub fn back_to(&mut self, mark: Mark)
        ensures { IsBack mark self.old self.new }
    {
        self.next = mark.next;
        self.doubts.truncate(mark.doubts);
    }
}
