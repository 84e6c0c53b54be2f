//! A walk along calls, which gathers the components of a graph: the methods of a component lead to one another.
ghost use Rattle.std.specs.Prelude.{◌≡◌, ◌<◌, ◌≤◌, List, [], ◌∷◌, ◌++◌, false, Some, IfOk, OnOk, IsTrue, length};
ghost use Rattle.std.specs.Prelude.{slice_set};
ghost use Rattle.racer_base.specs.declared.ids.MethodId.{MethodId};
ghost use Rattle.core_code.specs.Falling.{number_of};
ghost use Rattle.core_code.specs.declared.walk.Group.{Group};
ghost use Rattle.core_code.specs.declared.walk.Turn.TheVariants.{Look};
ghost use Rattle.core_code.specs.Walks.{From, IsLast, IsTurn, IsKept, AreNumbered, AreComponents, AreBefore, work};
ghost use Rattle.core_code.specs.Walks.{IsDone, IsLookedAt, IsJoined, IsClosed, IsEntered, IsMerged};

use crate::lookups::{entry, method_at, row};
use racer_base::{Items, Memory, MethodId};
use std::alloc::Global;

/// Methods on the path, from one place on to the first one of the next group. They lead to one another.
#[derive(Clone, Copy)]
pub(crate) struct Group {
    /// The place of the first of them on the path.
    pub first: usize,
    /// The place of their first call among those that are still to be looked at.
    pub base: usize,
}

/// What a walk does next.
#[derive(Clone, Copy)]
pub(crate) enum Turn {
    /// No call of the last group is left: its methods get a number.
    Close(Group),
    /// A method is looked at.
    Look(MethodId),
}

/// A walk that meets each method once, and puts groups of methods together where a call leads back to the path.
#[derive(Drop)]
pub(crate) struct Walk {
    /// For each method its place on the path when it was met, counted from 1; 0 before.
    pub places: Vec<usize>,
    /// For each method the number of its component, or 0 where that is not known yet.
    pub numbers: Vec<usize>,
    /// The methods that were met and have no number yet.
    pub path: Vec<MethodId>,
    /// The methods that are still to be looked at, the next at the end.
    pub todo: Vec<MethodId>,
    pub groups: Vec<Group>,
    /// How many components have a number.
    pub count: usize,
}

/// Gives a method an entry.
fn set_entry(numbers: &mut [usize], m: MethodId, number: usize)
    ensures { numbers.new ≡ slice_set numbers.old m.0 number }
{
    let place = m.0 as usize;
    if place < numbers.len() {
        numbers[place] = number;
    }
}

/// Gives each of these methods the same entry.
fn set_entries(numbers: &mut [usize], methods: &[MethodId], number: usize)
    ensures { AreNumbered methods.now number numbers.old numbers.new }
{
    for m in methods {
        set_entry(numbers, *m, number);
    }
}

/// The numbers of all methods.
fn all_methods(alloc: Global, count: usize) -> Result<Vec<MethodId>, Memory>
    ensures { IfOk result (λ methods. (m : MethodId) → m.0 < count → From methods.items 0 m) }
{
    let mut methods = Vec::new(alloc);
    for place in 0..count {
        methods.push(method_at(place)?)?;
    }
    Ok(methods)
}

impl Walk {
    /// A walk that is to look at each method.
    fn start(alloc: Global, rows: &[Items<MethodId>]) -> Result<Walk, Memory>
        ensures { IfOk result (λ walk. IsKept rows.now walk) }
    {
        let todo = all_methods(alloc, rows.len())?;
        let places = vec![in alloc; 0; rows.len()]?;
        let numbers = vec![in alloc; 0; rows.len()]?;
        Ok(Walk {
            places,
            numbers,
            path: Vec::new(alloc),
            todo,
            groups: Vec::new(alloc),
            count: 0,
        })
    }

    /// The last group.
    fn last_group(&self) -> Option<Group>
        ensures { IsLast self.now.groups.items result }
    {
        self.groups.last().copied()
    }

    /// The next method to look at.
    fn last_method(&self) -> Option<MethodId>
        ensures { IsLast self.now.todo.items result }
    {
        self.todo.last().copied()
    }

    /// What is to be done next.
    fn next(&self) -> Option<Turn>
        ensures { (rows : List (List MethodId)) → IsKept rows self.now →
            IsTurn self.now.todo.items self.now.groups.items result }
    {
        match self.last_group() {
            Some(group) if group.base == self.todo.len() => Some(Turn::Close(group)),
            _ => match self.last_method() {
                Some(m) => Some(Turn::Look(m)),
                None => None,
            },
        }
    }

    /// The next method was looked at.
    fn pop_method(&mut self)
        ensures { IsLookedAt self.old self.new }
    {
        self.todo.pop();
    }

    /// The last group belongs to the one before it.
    fn pop_group(&mut self)
        ensures { IsJoined self.old self.new }
    {
        self.groups.pop();
    }

    /// Gives the methods of the last group, which begins at a place of the path, the next number.
    fn close(&mut self, first: usize)
        requires room { self.old.count < length self.old.numbers.items }
        requires first { first ≤ length self.old.path.items }
        ensures { IsClosed first self.old self.new }
    {
        self.count += 1;
        set_entries(
            self.numbers.as_mut_slice(),
            &self.path.as_slice()[first..],
            self.count,
        );
        self.path.truncate(first);
        self.groups.pop();
    }

    /// Meets the next method, which is a group of its own, and has its calls looked at.
    fn enter(&mut self, m: MethodId, calls: &[MethodId]) -> Result<(), Memory>
        ensures { OnOk result (IsEntered m calls.now self.old self.new) }
    {
        self.todo.pop();
        self.groups.push(Group {
            first: self.path.len(),
            base: self.todo.len(),
        })?;
        self.path.push(m)?;
        set_entry(self.places.as_mut_slice(), m, self.path.len());
        self.todo.extend_from_slice(calls)?;
        Ok(())
    }

    /// Whether the last group begins behind a place of the path.
    fn begins_behind(&self, place: usize) -> bool
        ensures yes { IsTrue result → (front : List Group) × (g : Group) ×
            (self.now.groups.items ≡ front ++ g ∷ []) × (place < g.first) }
        ensures no { result ≡ false → (front : List Group) (g : Group) → self.now.groups.items ≡ front ++ g ∷ [] →
            g.first ≤ place }
    {
        match self.last_group() {
            Some(group) => group.first > place,
            None => false,
        }
    }

    /// Puts the last groups together, up to the one to which the method at this place of the path belongs.
    fn merge(&mut self, place: usize)
        ensures merged { IsMerged place self.old self.new }
        ensures before { (rows : List (List MethodId)) → IsKept rows self.new → AreBefore place self.new }
    {
        while self.begins_behind(place) {
            self.pop_group();
        }
    }

    /// Whether nothing is left to find out of a method: it has a number, or no row.
    fn is_done(&self, rows: &[Items<MethodId>], m: MethodId) -> bool
        ensures yes { IsTrue result → IsDone rows.now self.now.numbers.items m }
        ensures no { result ≡ false → (m.0 < length rows.now) × (number_of self.now.numbers.items m ≡ 0) }
    {
        m.0 as usize >= rows.len() || entry(self.numbers.as_slice(), m) > 0
    }

    /// Looks at the next method.
    fn look(&mut self, rows: &[Items<MethodId>], m: MethodId) -> Result<(), Memory>
        requires kept { IsKept rows.now self.old }
        requires next { IsTurn self.old.todo.items self.old.groups.items (Some (Look m)) }
        ensures kept { OnOk result (IsKept rows.now self.new) }
        ensures less { OnOk result (work rows.now self.new < work rows.now self.old) }
    {
        if self.is_done(rows, m) {
            self.pop_method();
            return Ok(());
        }
        let place = entry(self.places.as_slice(), m);
        if place == 0 {
            return self.enter(m, row(rows, m));
        }
        self.merge(place - 1);
        self.pop_method();
        Ok(())
    }

    /// Does what is to be done next.
    fn step(&mut self, rows: &[Items<MethodId>], turn: Turn) -> Result<(), Memory>
        requires kept { IsKept rows.now self.old }
        requires next { IsTurn self.old.todo.items self.old.groups.items (Some turn) }
        ensures kept { OnOk result (IsKept rows.now self.new) }
        ensures less { OnOk result (work rows.now self.new < work rows.now self.old) }
    {
        match turn {
            Turn::Close(group) => {
                self.close(group.first);
                Ok(())
            }
            Turn::Look(m) => self.look(rows, m),
        }
    }
}

/// For each method the number of its component.
pub(crate) fn components(alloc: Global, rows: &[Items<MethodId>]) -> Result<Vec<usize>, Memory>
    ensures { IfOk result (λ numbers. AreComponents rows.now numbers.items) }
{
    let mut walk = Walk::start(alloc, rows)?;
    while let Some(turn) = walk.next() {
        let Ok(()) = walk.step(rows, turn) else {
            return Err(Memory);
        };
    }
    Ok(walk.numbers)
}
