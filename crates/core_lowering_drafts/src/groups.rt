//! Groups of a `switch`, each of which goes on in the next one.
ghost use Rattle.std.specs.Prelude.{◌≡◌, ◌≤◌, take, IfOk, IsTrue};
ghost use Rattle.core_lowering_drafts.specs.Drafts.{in_order};
ghost use Rattle.core_lowering_drafts.specs.EndSets.{seen_asked};
ghost use Rattle.core_lowering_drafts.specs.Falls.{IsPassed};
ghost use Rattle.core_lowering_drafts.specs.Groups.{AreEnds, fallen};
ghost use Rattle.core_lowering_drafts.specs.Only.{only};

use crate::draft::{Draft, Groups};
use crate::ends::{Asked, Ends};
use racer_base::Memory;
use std::alloc::Global;

/// How the first group ends, the first two, and so on.
fn ends_of_each(alloc: Global, drafts: &[Draft]) -> Result<Vec<Ends>, Memory>
    ensures { IfOk result (λ all. AreEnds all.items drafts.now) }
{
    let mut all = Vec::new(alloc);
    let mut ends = Ends::none(alloc);
    for draft in drafts {
        ends.go_on(draft.ends())?;
        all.push(ends.copied()?)?;
    }
    Ok(all)
}

/// How many of the first groups are to be written, and for which ends.
#[derive(Clone, Copy)]
pub struct Start<'a> {
    pub count: usize,
    pub asked: Asked<'a>,
}

/// Whether of the last of the first so many groups nothing is written, so that the code is that of the groups before.
fn is_passed(groups: &Groups, count: usize, asked: Asked) -> bool
    ensures { IsTrue result → IsPassed groups.now count (seen_asked asked.entry) }
{
    if count < 2 {
        return false;
    }
    match groups.drafts.get(count - 1) {
        Some(group) => !group.ends().meet(asked),
        None => false,
    }
}

/// Where the code of the first so many groups starts.
pub fn reached<'a>(groups: &Groups, count: usize, asked: Asked<'a>) -> Start<'a>
    ensures within { result.count ≤ count }
    ensures code { only (in_order (fallen (take result.count groups.now))) (seen_asked result.asked)
        ≡ only (in_order (fallen (take count groups.now))) (seen_asked asked.entry) }
{
    let mut start = Start { count, asked };
    while is_passed(groups, start.count, start.asked) {
        start = Start {
            count: start.count - 1,
            asked: start.asked.without_normal(),
        };
    }
    start
}

impl Groups {
    ghost use Rattle.std.specs.Prelude.{◌≡◌, [], ◌∷◌, ◌++◌, length, take, IfOk};
    ghost use Rattle.core_lowering_drafts.specs.Drafts.{Normal, SameEnds, do_meet};
    ghost use Rattle.core_lowering_drafts.specs.EndSets.{seen, seen_asked};
    ghost use Rattle.core_lowering_drafts.specs.Groups.{fallen};
    ghost use Rattle.core_lowering_drafts.specs.Lists.{ends_of};

    /// These groups, the first one first.
    pub fn of(alloc: Global, drafts: Vec<Draft>) -> Result<Groups, Memory>
        ensures { IfOk result (λ groups. groups ≡ drafts.items) }
    {
        let ends = ends_of_each(alloc, drafts.as_slice())?;
        Ok(Groups { drafts, ends })
    }

    /// How many groups there are.
    pub fn len(&self) -> usize
        ensures { result ≡ length self.now }
    {
        self.drafts.len()
    }

    /// How the first so many groups end, and nothing.
    pub(crate) fn entered_ends(&self, alloc: Global, count: usize) -> Result<Ends, Memory>
        ensures { IfOk result (λ ends. SameEnds (seen ends)
            (ends_of (fallen (take count self.now)) ++ Normal ∷ [])) }
    {
        let Some(last) = count.checked_sub(1) else {
            return Ok(Ends::of_nothing(alloc));
        };
        let Some(kept) = self.ends.get(last) else {
            return Err(Memory);
        };
        let mut ends = kept.copied()?;
        ends.put_normal();
        Ok(ends)
    }

    /// Whether the first so many groups have such an end.
    pub fn meet(&self, count: usize, asked: Asked) -> Result<bool, Memory>
        ensures { IfOk result (λ met. met
            ≡ do_meet (ends_of (fallen (take count self.now))) (seen_asked asked.entry)) }
    {
        let Some(last) = count.checked_sub(1) else {
            return Ok(asked.has_normal());
        };
        match self.ends.get(last) {
            Some(ends) => Ok(ends.meet(asked)),
            None => Err(Memory),
        }
    }
}
