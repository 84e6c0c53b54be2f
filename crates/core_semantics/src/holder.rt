//! Equality and an order of monitors.
ghost use Rattle.std.specs.Prelude.{◌≡◌, IfOk};
ghost use Rattle.core_semantics_monitors.specs.Kinds.{lock_kind_number};
ghost use Rattle.core_semantics.specs.Order.{holder_cmp, lock_kind, owner_cmp};

use crate::Holder;
use core_semantics_monitors::lock_kind_number;
use racer_base::Memory;
use std::alloc::Global;
use std::cmp::Ordering;

impl PartialEq for Holder {
    ghost use Rattle.core_semantics.specs.Objects.{same_monitor};
    ghost use Rattle.core_semantics.specs.SameMonitor.{same_monitor-laws};

    ghost eq = { same_monitor };

    ghost laws = { same_monitor-laws };

    fn eq(&self, other: &Holder) -> bool {
        compare(self, other).is_eq()
    }
}

impl Eq for Holder {
    ghost use Rattle.core_semantics.specs.SameMonitor.{same_monitor-equivalence};

    ghost laws = { same_monitor-equivalence };
}

impl PartialOrd for Holder {
    ghost use Rattle.std.specs.Ordering.{as_partial_cmp};
    ghost use Rattle.core_semantics.specs.Order.{holder_cmp};
    ghost use Rattle.core_semantics.specs.SameMonitor.{holder_cmp-partial};

    ghost partial_cmp = { as_partial_cmp holder_cmp };

    ghost laws = { holder_cmp-partial };

    fn partial_cmp(&self, other: &Holder) -> Option<Ordering> {
        Some(compare(self, other))
    }
}

impl Ord for Holder {
    ghost use Rattle.std.proofs.Common.{refl, sym};
    ghost use Rattle.core_semantics.specs.Order.{holder_cmp};
    ghost use Rattle.core_semantics.specs.SameMonitor.{holder_cmp-total, monitors_tied};

    ghost cmp = { holder_cmp };

    ghost total = { holder_cmp-total };

    ghost matches_partial_cmp = { λ a b. refl };

    ghost matches_eq = { λ a b. sym (monitors_tied a b) };

    fn cmp(&self, other: &Holder) -> Ordering {
        compare(self, other)
    }
}

/// The order of what has two monitors: all values from outside the folder, and then objects.
fn compare_owners(a: &Holder, b: &Holder) -> Ordering
    ensures { result ≡ owner_cmp a.now b.now }
{
    match (a, b) {
        (Holder::Object(_, a), Holder::Object(_, b)) => a.cmp(b),
        (Holder::Object(_, _), Holder::Outside(_)) => Ordering::Greater,
        (Holder::Outside(_), Holder::Object(_, _)) => Ordering::Less,
        (Holder::Outside(_), Holder::Outside(_)) => Ordering::Equal,
    }
}

/// The order of two monitors: of their kinds, and of what has them.
fn compare(a: &Holder, b: &Holder) -> Ordering
    ensures { result ≡ holder_cmp a.now b.now }
{
    let kinds = a.kind_number().cmp(&b.kind_number());
    if kinds.is_eq() {
        compare_owners(a, b)
    } else {
        kinds
    }
}

impl Holder {
    /// The number of its kind.
    fn kind_number(&self) -> u32
        ensures { result ≡ lock_kind_number (lock_kind self.now) }
    {
        let (Holder::Object(kind, _) | Holder::Outside(kind)) = self;
        lock_kind_number(*kind)
    }

    /// A monitor that is equal to this one.
    pub(crate) fn copied(&self, alloc: Global) -> Result<Holder, Memory>
        ensures { IfOk result (λ copy. copy ≡ self.now) }
    {
        match self {
            Holder::Object(kind, object) => Ok(Holder::Object(*kind, object.copied(alloc)?)),
            Holder::Outside(kind) => Ok(Holder::Outside(*kind)),
        }
    }
}
