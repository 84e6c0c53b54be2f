//! What is known of ways.
ghost use Rattle.std.specs.Prelude.{◌≡◌, ℕ, ◌≤◌, List, Some as SomeOf, IfOk, OnOk, length, true};
ghost use Rattle.std.specs.Option.{IfSome, option_copied};
ghost use Rattle.access_domain.specs.declared.access.Access.{Access};
ghost use Rattle.access_domain.specs.Outcomes.{AreOutcomes};
ghost use Rattle.access_domain.specs.OutcomeRecords.{record_at};
ghost use Rattle.core_code.specs.CallFacts.{has_ranks};
ghost use Rattle.core_code.specs.Core.{Core};
ghost use Rattle.core_code.specs.Program.{core};
ghost use Rattle.core_ways.specs.Answers.{IsWay};
ghost use Rattle.core_ways.specs.WayPairs.{IsWayPair};
ghost use Rattle.core_ways.specs.Going.{IsEntered};
ghost use Rattle.core_ways.specs.Ways.{Trip, joined, way_of};
ghost use Rattle.core_ways.specs.declared.part.WayPart.{WayPart};
ghost use Rattle.core_ways_sites.specs.Gone.{IsGone, LeadsOn};
ghost use Rattle.core_ways_sites.specs.Known.{Goes, IsKnown, entering};
ghost use Rattle.core_ways_sites.specs.Sites.{IsSite};

use crate::gone::{along, is_open, step};
use crate::noting::Reached;
use crate::sites::sites_of;
use access_domain::{Outcomes, record_of};
use core_code::{Op, Program};
use core_semantics::Turn;
use core_ways::{
    Count, Passings, Target, WayFault, WayPair, WayTaken, behind_long, behind_taken, parts_to,
};
use racer_base::{Items, MAX_WAY_STEPS, Memory, MethodId, SiteId};
use std::alloc::Global;
use std::collections::BTreeMap;

/// How many turns are kept, at one byte each.
const KEPT_TURNS: usize = 16_777_216;

/// The ways to the records of methods, as far as they were asked for.
#[derive(Drop)]
pub struct SiteWays {
    alloc: Global,
    passings: Passings,
    /// By the numbers of methods, the ways to their sites.
    methods: Vec<Option<BTreeMap<u32, Reached>>>,
    /// How many turns may still be kept.
    room: usize,
}

/// Lets what is known go. Each type of its parts is taken apart here, so a crate that owns it need not show how.
pub fn let_go(_ways: SiteWays) {}

/// What is gone of a way.
#[derive(Drop)]
struct Gone {
    count: Count,
    turns: Vec<Turn>,
}

/// The record of a callee that a call towards this index enters.
fn entered_by(op: Op, below: Option<u32>) -> Option<(MethodId, u32)>
    ensures { (old : List WayPart) → IsEntered op below old (entering old result) result }
{
    match op {
        Op::Call(callee, _) => match below {
            Some(index) => Some((callee, index)),
            None => None,
        },
        _ => None,
    }
}

/// Goes on by what is gone up to a site.
fn add(gone: &mut Gone, reached: &Reached) -> Result<(), Memory>
    ensures { (here rest whole : Trip) → IsGone here reached.now.count reached.now.turns.items →
        LeadsOn gone.old.count gone.old.turns.items (joined here rest) whole →
        OnOk result (LeadsOn gone.new.count gone.new.turns.items rest whole) }
{
    gone.count = gone.count.and(reached.count);
    if is_open(gone.count) {
        gone.turns.extend_from_slice(reached.turns.as_slice())?;
    }
    Ok(())
}

/// Goes on by what is gone up to a site, and into the callee that a record there is of; the callee and its record.
fn enter(
    gone: &mut Gone,
    reached: &Reached,
    below: Option<u32>,
) -> Result<Option<(MethodId, u32)>, Memory>
    ensures { (c : Core) (m : MethodId) (i : ℕ) (r : Access) (whole : Trip) → has_ranks c ≡ true →
        record_at c m i ≡ SomeOf r → r.below ≡ below → IsSite c m r.site reached.now →
        LeadsOn gone.old.count gone.old.turns.items (way_of c m i) whole →
        IfOk result (λ next. Goes c m gone.new.count gone.new.turns.items whole next) }
{
    add(gone, reached)?;
    let next = entered_by(reached.op, below);
    if next.is_some() {
        gone.count = step(gone.count);
    }
    Ok(next)
}

/// The way that is gone.
fn taken(gone: Gone) -> Result<WayTaken, WayFault>
    ensures { (whole : Trip) → IsGone whole gone.count gone.turns.items → IsWay whole result }
{
    if let Some(place) = gone.count.unread {
        return Err(WayFault::Unread(place));
    }
    if gone.count.steps > MAX_WAY_STEPS {
        return Err(WayFault::Long(gone.count.steps));
    }
    Ok(WayTaken {
        turns: Items::from(gone.turns),
        steps: gone.count.steps,
    })
}

/// Two ways in running order.
fn both(first: Gone, second: Gone) -> WayPair
    ensures { (a b : Trip) → IsGone a first.count first.turns.items → IsGone b second.count second.turns.items →
        IsWayPair a b result }
{
    match taken(first) {
        Ok(first) => behind_taken(first, taken(second)),
        Err(WayFault::Unread(place)) => WayPair::Unread(place),
        Err(WayFault::Long(steps)) => behind_long(steps, taken(second)),
    }
}

impl SiteWays {
    /// No way is known yet.
    pub fn new(alloc: Global) -> SiteWays
        ensures { (c : Core) → IsKnown c result }
    {
        SiteWays {
            alloc,
            passings: BTreeMap::new(alloc),
            methods: Vec::new(alloc),
            room: KEPT_TURNS,
        }
    }

    /// Makes room for what is known of this many methods.
    fn widen(&mut self, count: usize) -> Result<(), Memory>
        ensures wide { OnOk result (count ≤ length self.new.methods.items) }
        ensures known { (c : Core) → IsKnown c self.old → OnOk result (IsKnown c self.new) }
    {
        while self.methods.len() < count {
            self.methods.push(None)?;
        }
        Ok(())
    }

    /// Finds the ways to the sites of a method, unless that is done.
    pub fn find(
        &mut self,
        program: &Program,
        outcomes: &Outcomes,
        method: MethodId,
    ) -> Result<(), Memory>
        requires { IsKnown (core program.now) self.old }
        ensures { OnOk result (IsKnown (core program.now) self.new) }
    {
        let number = method.0 as usize;
        if number < self.methods.len() && self.methods[number].is_some() {
            return Ok(());
        }
        self.widen(number + 1)?;
        let found = sites_of(
            self.alloc,
            program,
            outcomes,
            &mut self.passings,
            &mut self.room,
            method,
        )?;
        self.methods[number] = Some(found);
        Ok(())
    }

    /// The way to a site of a method, where it was noted.
    fn reached(&self, method: MethodId, site: SiteId) -> Option<&Reached>
        ensures { (c : Core) → IsKnown c self.now → IfSome (option_copied result) (IsSite c method site) }
    {
        let Some(Some(found)) = self.methods.get(method.0 as usize) else {
            return None;
        };
        found.get(&site.0)
    }

    /// Goes on to the end of the way to a record of a method, without what is known of sites.
    fn go_to_end(
        &mut self,
        program: &Program,
        outcomes: &Outcomes,
        gone: &mut Gone,
        method: MethodId,
        access: u32,
    ) -> Result<(), Memory>
        requires outcomes { AreOutcomes (core program.now) outcomes.now.items }
        requires known { IsKnown (core program.now) self.old }
        ensures known { OnOk result (IsKnown (core program.now) self.new) }
        ensures leads { (whole : Trip) →
            LeadsOn gone.old.count gone.old.turns.items (way_of (core program.now) method access) whole →
            OnOk result (IsGone whole gone.new.count gone.new.turns.items) }
    {
        let parts = parts_to(self.alloc, program, outcomes, method, access)?;
        gone.count = along(
            self.alloc,
            program,
            &mut self.passings,
            &mut gone.turns,
            gone.count,
            parts.as_slice(),
        )?;
        Ok(())
    }

    /// Goes on through one method towards a record of it; the callee that the way enters, and its record.
    fn go_on(
        &mut self,
        program: &Program,
        outcomes: &Outcomes,
        gone: &mut Gone,
        method: MethodId,
        access: u32,
    ) -> Result<Option<(MethodId, u32)>, Memory>
        requires outcomes { AreOutcomes (core program.now) outcomes.now.items }
        requires known { IsKnown (core program.now) self.old }
        ensures known { OnOk result (IsKnown (core program.now) self.new) }
        ensures leads { (whole : Trip) →
            LeadsOn gone.old.count gone.old.turns.items (way_of (core program.now) method access) whole →
            IfOk result (λ next. Goes (core program.now) method gone.new.count gone.new.turns.items whole next) }
    {
        self.find(program, outcomes, method)?;
        if let Some(record) = record_of(outcomes, method, access) {
            if let Some(reached) = self.reached(method, record.site) {
                return enter(gone, reached, record.below);
            }
        }
        self.go_to_end(program, outcomes, gone, method, access)?;
        Ok(None)
    }

    /// Goes the way to a record.
    fn go_to_record(
        &mut self,
        program: &Program,
        outcomes: &Outcomes,
        target: Target,
    ) -> Result<Gone, Memory>
        requires outcomes { AreOutcomes (core program.now) outcomes.now.items }
        requires known { IsKnown (core program.now) self.old }
        ensures known { OnOk result (IsKnown (core program.now) self.new) }
        ensures gone { IfOk result (λ gone.
            IsGone (way_of (core program.now) target.method target.access) gone.count gone.turns.items) }
    {
        let mut gone = Gone {
            count: Count {
                steps: 0,
                unread: None,
            },
            turns: Vec::new(self.alloc),
        };
        let mut method = target.method;
        let mut access = target.access;
        while let Some((callee, below)) = self.go_on(
            program, outcomes, &mut gone, method, access,
        )? {
            method = callee;
            access = below;
        }
        Ok(gone)
    }

    /// The ways to two records, in running order.
    ///
    /// Each method is gone through once, when the first way through it is asked for.
    pub fn ways(
        &mut self,
        program: &Program,
        outcomes: &Outcomes,
        first: Target,
        second: Target,
    ) -> Result<WayPair, Memory>
        requires outcomes { AreOutcomes (core program.now) outcomes.now.items }
        requires known { IsKnown (core program.now) self.old }
        ensures known { OnOk result (IsKnown (core program.now) self.new) }
        ensures both { IfOk result (λ both. IsWayPair (way_of (core program.now) first.method first.access)
            (way_of (core program.now) second.method second.access) both) }
    {
        let first = self.go_to_record(program, outcomes, first)?;
        let second = self.go_to_record(program, outcomes, second)?;
        Ok(both(first, second))
    }
}
