//! How the paths of drafts end.
ghost use Rattle.std.specs.Prelude.{◌≡◌, ℕ, ◌&&◌, ◌||◌, not, IfOk, OnOk};
ghost use Rattle.std.specs.List.{list_any};
ghost use Rattle.std.specs.Ordering.{nat_cmp, eq_by_cmp};
ghost use Rattle.std.specs.BTreeSet.{contains};
ghost use Rattle.core_lowering_drafts.specs.EndSets.{exits_asked, is_nil};

use core_code::Op;
use racer_base::Memory;
use std::alloc::Global;
use std::collections::BTreeSet;

/// An exit, by how many exits were open where it was made.
#[derive(Clone, Copy)]
pub struct Exit(pub u32);

/// A set of ends: whether paths end normally, by a return, by an exception, and for which exits.
#[derive(Drop)]
pub struct Ends {
    pub normal: bool,
    pub returns: bool,
    pub throws: bool,
    exits: BTreeSet<u32>,
}

/// A set of ends that is asked for.
#[derive(Clone, Copy)]
pub struct Asked<'a> {
    pub normal: bool,
    pub returns: bool,
    pub throws: bool,
    exits: Option<&'a BTreeSet<u32>>,
}

/// The numbers that are asked for, once more.
fn copied_exits(alloc: Global, asked: Option<&BTreeSet<u32>>) -> Result<BTreeSet<u32>, Memory>
    ensures { IfOk result (λ copy. copy.keys ≡ exits_asked asked.entry) }
{
    match asked {
        None => Ok(BTreeSet::new(alloc)),
        Some(exits) => Ok(exits.clone()?),
    }
}

impl<'a> Asked<'a> {
    ghost use Rattle.std.specs.Prelude.{◌≡◌, [], ◌∷◌, IfOk};
    ghost use Rattle.core_lowering_drafts.specs.Drafts.{Normal, has, without, final_ends, exits, on};
    ghost use Rattle.core_lowering_drafts.specs.Drafts as path;
    ghost use Rattle.core_lowering_drafts.specs.EndSets.{seen, seen_asked};
    ghost use Rattle.core_lowering_drafts.specs.Drafts.{SameEnds};
    ghost use Rattle.core_lowering_drafts.specs.Only.{all_ends, thrown};

    pub fn all() -> Asked<'a>
        ensures { seen_asked result ≡ all_ends }
    {
        Asked {
            normal: true,
            returns: true,
            throws: true,
            exits: None,
        }
    }

    /// Normal, and the ends that nothing stands behind.
    pub fn on(self) -> Asked<'a>
        ensures { seen_asked result ≡ on (seen_asked self.entry) }
    {
        Asked {
            normal: true,
            returns: self.returns,
            throws: self.throws,
            exits: None,
        }
    }

    /// The exits alone.
    pub fn exits_alone(self) -> Asked<'a>
        ensures { seen_asked result ≡ exits (seen_asked self.entry) }
    {
        Asked {
            normal: false,
            returns: false,
            throws: false,
            exits: self.exits,
        }
    }

    /// The ends that nothing stands behind.
    pub fn final_ends(self) -> Asked<'a>
        ensures { seen_asked result ≡ final_ends (seen_asked self.entry) }
    {
        Asked {
            normal: false,
            returns: self.returns,
            throws: self.throws,
            exits: None,
        }
    }

    pub fn normal_alone() -> Asked<'a>
        ensures { seen_asked result ≡ Normal ∷ [] }
    {
        Asked {
            normal: true,
            returns: false,
            throws: false,
            exits: None,
        }
    }

    pub fn without_normal(self) -> Asked<'a>
        ensures { seen_asked result ≡ without Normal (seen_asked self.entry) }
    {
        Asked {
            normal: false,
            returns: self.returns,
            throws: self.throws,
            exits: self.exits,
        }
    }

    pub(crate) fn with_normal(self) -> Asked<'a>
        ensures { SameEnds (seen_asked result) (Normal ∷ seen_asked self.entry) }
    {
        Asked {
            normal: true,
            returns: self.returns,
            throws: self.throws,
            exits: self.exits,
        }
    }

    /// The exception alone.
    pub fn thrown(self) -> Asked<'a>
        ensures { seen_asked result ≡ thrown (seen_asked self.entry) }
    {
        Asked {
            normal: false,
            returns: false,
            throws: self.throws,
            exits: None,
        }
    }

    /// The same ends, as a set of its own.
    pub fn copied(self, alloc: Global) -> Result<Ends, Memory>
        ensures { IfOk result (λ ends. seen ends ≡ seen_asked self.entry) }
    {
        let exits = copied_exits(alloc, self.exits)?;
        Ok(Ends {
            normal: self.normal,
            returns: self.returns,
            throws: self.throws,
            exits,
        })
    }

    pub fn has_normal(self) -> bool
        ensures { result ≡ has (seen_asked self.entry) Normal }
    {
        self.normal
    }

    pub fn has(self, exit: Exit) -> bool
        ensures { result ≡ has (seen_asked self.entry) (path.Exit exit.0) }
    {
        match self.exits {
            None => false,
            Some(exits) => exits.contains(&exit.0),
        }
    }
}

pub(crate) fn either(first: bool, second: bool) -> bool
    ensures { result ≡ (first || second) }
{
    first || second
}

pub(crate) fn both(first: bool, second: bool) -> bool
    ensures { result ≡ (first && second) }
{
    first && second
}

/// Puts numbers into a set.
fn add_exits(exits: &mut BTreeSet<u32>, others: &BTreeSet<u32>) -> Result<(), Memory>
    ensures { OnOk result ((k : ℕ) → contains nat_cmp exits.new k
        ≡ (contains nat_cmp exits.old k || contains nat_cmp others.now k)) }
{
    for exit in others {
        exits.insert(*exit)?;
    }
    Ok(())
}

/// Takes numbers out of a set.
fn remove_exits(exits: &mut BTreeSet<u32>, others: &BTreeSet<u32>)
    ensures { (k : ℕ) → contains nat_cmp exits.new k
        ≡ (contains nat_cmp exits.old k && not (contains nat_cmp others.now k)) }
{
    for exit in others {
        exits.remove(exit);
    }
}

/// Takes the numbers that are asked for out of a set.
fn remove_asked(exits: &mut BTreeSet<u32>, asked: Option<&BTreeSet<u32>>)
    ensures { (k : ℕ) → contains nat_cmp exits.new k
        ≡ (contains nat_cmp exits.old k && not (list_any (eq_by_cmp nat_cmp k) (exits_asked asked.entry))) }
{
    if let Some(others) = asked {
        remove_exits(exits, others);
    }
}

/// Whether there are no numbers.
fn is_empty(exits: &BTreeSet<u32>) -> bool
    ensures { result ≡ is_nil exits.now.keys }
{
    exits.is_empty()
}

/// Whether one of the numbers is asked for.
fn have_common(exits: &BTreeSet<u32>, asked: Option<&BTreeSet<u32>>) -> bool
    ensures { result ≡ list_any (λ k. list_any (eq_by_cmp nat_cmp k) (exits_asked asked.entry)) exits.now.keys }
{
    match asked {
        None => false,
        Some(others) => exits.iter().any(|exit| others.contains(exit)),
    }
}

impl Ends {
    ghost use Rattle.std.specs.Prelude.{◌≡◌, [], ◌∷◌, ◌++◌, filter, not, true, IfOk, OnOk};
    ghost use Rattle.std.specs.List.{list_any, list_all};
    ghost use Rattle.core_lowering_drafts.specs.Drafts.{Normal, Exception, SameEnds, op_end, has, is_same, without};
    ghost use Rattle.core_lowering_drafts.specs.Drafts.{do_meet, ends_then, is_kept};
    ghost use Rattle.core_lowering_drafts.specs.Only.{thrown};
    ghost use Rattle.core_lowering_drafts.specs.Drafts as path;
    ghost use Rattle.core_lowering_drafts.specs.EndSets.{seen, seen_asked};

    /// Of what no path comes to.
    pub fn none(alloc: Global) -> Ends
        ensures { seen result ≡ [] }
    {
        Ends {
            normal: false,
            returns: false,
            throws: false,
            exits: BTreeSet::new(alloc),
        }
    }

    /// Of nothing.
    pub fn of_nothing(alloc: Global) -> Ends
        ensures { seen result ≡ Normal ∷ [] }
    {
        Ends {
            normal: true,
            returns: false,
            throws: false,
            exits: BTreeSet::new(alloc),
        }
    }

    pub fn of_op(alloc: Global, op: Op) -> Ends
        ensures { seen result ≡ op_end op ∷ [] }
    {
        Ends {
            normal: !matches!(op, Op::Ret | Op::Throw),
            returns: matches!(op, Op::Ret),
            throws: matches!(op, Op::Throw),
            exits: BTreeSet::new(alloc),
        }
    }

    pub fn of_exit(alloc: Global, exit: Exit) -> Result<Ends, Memory>
        ensures { IfOk result (λ ends. seen ends ≡ path.Exit exit.0 ∷ []) }
    {
        let mut exits = BTreeSet::new(alloc);
        exits.insert(exit.0)?;
        Ok(Ends {
            normal: false,
            returns: false,
            throws: false,
            exits,
        })
    }

    pub fn has_normal(&self) -> bool
        ensures { result ≡ has (seen self.now) Normal }
    {
        self.normal
    }

    pub fn has(&self, exit: Exit) -> bool
        ensures { result ≡ has (seen self.now) (path.Exit exit.0) }
    {
        self.exits.contains(&exit.0)
    }

    pub fn copied(&self) -> Result<Ends, Memory>
        ensures { IfOk result (λ copy. seen copy ≡ seen self.now) }
    {
        Ok(Ends {
            normal: self.normal,
            returns: self.returns,
            throws: self.throws,
            exits: self.exits.clone()?,
        })
    }

    /// Whether there is an end but the exception.
    pub fn goes_on(&self) -> bool
        ensures { result ≡ list_any (λ e. not (is_same Exception e)) (seen self.now) }
    {
        either(self.normal, either(self.returns, !is_empty(&self.exits)))
    }

    /// Whether there is no end but the normal one.
    pub fn falls_through(&self) -> bool
        ensures { result ≡ list_all (is_same Normal) (seen self.now) }
    {
        !either(self.returns, either(self.throws, !is_empty(&self.exits)))
    }

    /// Takes the ends of another set in.
    pub fn add(&mut self, others: &Ends) -> Result<(), Memory>
        ensures { OnOk result (SameEnds (seen self.new) (seen self.old ++ seen others.now)) }
    {
        add_exits(&mut self.exits, &others.exits)?;
        self.normal = either(self.normal, others.normal);
        self.returns = either(self.returns, others.returns);
        self.throws = either(self.throws, others.throws);
        Ok(())
    }

    /// Without this exit.
    pub fn leave_out(&mut self, exit: Exit)
        ensures { SameEnds (seen self.new) (without (path.Exit exit.0) (seen self.old)) }
    {
        self.exits.remove(&exit.0);
    }

    /// Those that are not asked for.
    pub(crate) fn leave_out_all(&mut self, asked: Asked)
        ensures { SameEnds (seen self.new) (filter (λ e. not (has (seen_asked asked.entry) e)) (seen self.old)) }
    {
        remove_asked(&mut self.exits, asked.exits);
        self.normal = both(self.normal, !asked.normal);
        self.returns = both(self.returns, !asked.returns);
        self.throws = both(self.throws, !asked.throws);
    }

    /// With the exception, where it is asked for.
    pub fn add_thrown(&mut self, asked: Asked)
        ensures { SameEnds (seen self.new) (seen self.old ++ thrown (seen_asked asked.entry)) }
    {
        self.throws = either(self.throws, asked.throws);
    }

    /// Whether there is one.
    pub(crate) fn is_some(&self) -> bool
        ensures { result ≡ list_any (λ e. true) (seen self.now) }
    {
        either(
            self.normal,
            either(self.returns, either(self.throws, !is_empty(&self.exits))),
        )
    }

    /// With this exit.
    pub fn put_in(&mut self, exit: Exit) -> Result<(), Memory>
        ensures { OnOk result (SameEnds (seen self.new) (path.Exit exit.0 ∷ seen self.old)) }
    {
        self.exits.insert(exit.0)?;
        Ok(())
    }

    /// With the normal end.
    pub(crate) fn put_normal(&mut self)
        ensures { SameEnds (seen self.new) (Normal ∷ seen self.old) }
    {
        self.normal = true;
    }

    /// The same but the normal end.
    pub(crate) fn without_normal(&self) -> Result<Ends, Memory>
        ensures { IfOk result (λ ends. seen ends ≡ without Normal (seen self.now)) }
    {
        let mut ends = self.copied()?;
        ends.normal = false;
        Ok(ends)
    }

    /// The exception, where it is there.
    pub(crate) fn thrown(&self, alloc: Global) -> Ends
        ensures { seen result ≡ thrown (seen self.now) }
    {
        Ends {
            normal: false,
            returns: false,
            throws: self.throws,
            exits: BTreeSet::new(alloc),
        }
    }

    /// Those that are kept behind a `finally` that ends normally.
    pub(crate) fn kept(&self, exit: Exit) -> Result<Ends, Memory>
        ensures { IfOk result (λ ends. SameEnds (seen ends) (filter (is_kept exit.0) (seen self.now))) }
    {
        let mut ends = self.copied()?;
        ends.throws = false;
        ends.leave_out(exit);
        Ok(ends)
    }

    /// What stands before takes its ends in.
    pub(crate) fn put_before(&mut self, first: &Ends) -> Result<(), Memory>
        ensures { OnOk result (SameEnds (seen self.new) (ends_then (seen first.now) (seen self.old))) }
    {
        if !first.normal {
            *self = first.copied()?;
            return Ok(());
        }
        let normal = self.normal;
        self.add(first)?;
        self.normal = normal;
        Ok(())
    }

    /// Of a group, in which these paths go on and others come.
    pub(crate) fn go_on(&mut self, group: &Ends) -> Result<(), Memory>
        ensures { OnOk result (SameEnds (seen self.new)
            (ends_then (seen self.old ++ Normal ∷ []) (seen group.now))) }
    {
        self.add(group)?;
        self.normal = group.normal;
        Ok(())
    }

    /// Whether an end is one of those that are asked for.
    pub fn meet(&self, asked: Asked) -> bool
        ensures { result ≡ do_meet (seen self.now) (seen_asked asked.entry) }
    {
        let normal = both(self.normal, asked.normal);
        let returns = both(self.returns, asked.returns);
        let throws = both(self.throws, asked.throws);
        let exits = have_common(&self.exits, asked.exits);
        either(normal, either(returns, either(throws, exits)))
    }

    /// These ends, as such that are asked for.
    pub fn asked(&self) -> Asked<'_>
        ensures { seen_asked result ≡ seen self.now }
    {
        Asked {
            normal: self.normal,
            returns: self.returns,
            throws: self.throws,
            exits: Some(&self.exits),
        }
    }
}
