//! Two walks of which the second is apart from the first.
ghost use Rattle.std.specs.Prelude.{◌≡◌, ◌+◌, [], true, IfOk};
ghost use Rattle.racer_base.specs.declared.ids.MethodId.{MethodId};
ghost use Rattle.core_code.specs.Core.{Core};
ghost use Rattle.core_semantics.specs.declared.object.Start.TheVariants.{All};
ghost use Rattle.core_semantics.specs.Runs.{begun};
ghost use Rattle.core_ways.specs.declared.mark.Leg.{Leg};
ghost use Rattle.core_ways.specs.Marks.{leg_of};
ghost use Rattle.witness_build_apart_laws.specs.Starts.{entry_of};
ghost use Rattle.witness_build_walks.specs.Told.{AreApart, IsGone, IsTold, place_at};

use crate::walk::Walk;
use crate::walks::Walked;
use core_ways::Objects;
use racer_base::{Memory, Place};

/// The place that a walk is at.
pub(crate) fn place_of(walk: &Walk) -> Option<Place>
    ensures { result ≡ place_at walk.now }
{
    walk.machine.place(walk.thread)
}

/// Whether the second of two walks reads nothing that the first stored, and finds each monitor free.
fn are_apart(first: &Walk, second: &Walk) -> bool
    ensures { result ≡ true → AreApart first.now second.now }
{
    if first.is_loud {
        return false;
    }
    if !first.machine.is_free(first.thread) {
        return false;
    }
    first.writes.is_disjoint(&second.reads)
}

/// What two walks tell, of which the first was walked as far as its leg goes, and the second where `all` says so.
pub(crate) fn told(
    first: &Walk,
    second: &Walk,
    all: bool,
    objects: &mut Objects,
) -> Result<Walked, Memory>
    requires { objects.old ≡ [] }
    ensures { (c : Core) (m n m1 m2 : MethodId) (f g : Leg) → f.thread + g.thread ≡ 1 →
        m ≡ entry_of f.thread m1 m2 → n ≡ entry_of g.thread m1 m2 →
        IsGone c m f true first.now → IsGone c n g all second.now →
        IfOk result (λ walked. IsTold c (leg_of f) (leg_of g) (begun c m1 m2 All) objects.new walked) }
{
    if !are_apart(first, second) {
        return Ok(Walked::Unknown);
    }
    if !all {
        return Ok(Walked::Stopped(second.thread, place_of(second)));
    }
    objects.add_all(&first.given)?;
    objects.add_all(&second.given)?;
    Ok(Walked::Past)
}
