//! Laws of the table of marks, of every program: which of its rows stands for which runs.
ghost use Rattle.std.specs.Prelude.{◌≡◌, ℕ, List, Some, true};
ghost use Rattle.std.specs.List.{Contains};
ghost use Rattle.racer_base.specs.declared.ids.Place.{Place};
ghost use Rattle.access_paths.specs.Paths.{is_some_root};
ghost use Rattle.core_code.specs.declared.program.Program.{Program};
ghost use Rattle.core_code.specs.Core.{Core};
ghost use Rattle.core_code.specs.Program.{core};
ghost use Rattle.access_domain.specs.declared.access.Access.{Access};
ghost use Rattle.access_domain.specs.OutcomeRecords.{record_at};
ghost use Rattle.core_semantics.specs.declared.object.StartPath.{StartPath};
ghost use Rattle.core_semantics.specs.Legs.{Leg};
ghost use Rattle.core_ways.specs.Marks.{Blocked, Confirmed, IsWhole, Said, Unnamed};
ghost use Rattle.core_ways.specs.Stable.{IsStable};
ghost use Rattle.race_pairs.specs.declared.warning.Warning.{Warning};
ghost use Rattle.race_pairs.specs.Warnings.{warnings};
ghost use Rattle.witness_build_laws.specs.Table.{IsBlocked, IsRow};
ghost use Rattle.witness_build_laws.specs.Warned.{pair_of, warning_mark};

/// A warning of the list is blocked only by a step that is stuck, at the place of the mark; never by a monitor that the
/// other thread holds, by a thread that has ended, or by turns that are missing or left over. It has no name only where
/// nothing more than the class of its object is known.
pub fn blocked_warnings_are_stuck()
    ensures blocked { (p : Program) (w : Warning) (t : ℕ) (at : Place) → Contains (warnings (core p)) w →
        warning_mark (core p) w ≡ Blocked t at → IsBlocked (core p) w t at }
    ensures unnamed { (p : Program) (w : Warning) (r : Access) → Contains (warnings (core p)) w →
        record_at (core p) w.entry w.access ≡ Some r → warning_mark (core p) w ≡ Unnamed →
        is_some_root r.path.root ≡ true }
{}

/// A warning of the list is confirmed only where its path is stable in both methods and its two ways are whole. That it
/// is confirmed there is the law `whole_warnings_are_confirmed`.
pub fn confirmed_warnings_are_whole()
    ensures { (p : Program) (w : Warning) (r : Access) (objects : List StartPath) (legs : List Leg) →
        Contains (warnings (core p)) w → record_at (core p) w.entry w.access ≡ Some r →
        warning_mark (core p) w ≡ Confirmed objects legs →
        IsStable (core p) w.entry w.partner r.path × IsWhole (core p) (pair_of w) }
{}

/// The table of marks is whole and exact: the mark of each warning of the list is of its row, and a warning to which a
/// row applies has its mark.
pub fn each_mark_has_its_row()
    ensures row { (p : Program) (w : Warning) (r : Access) → Contains (warnings (core p)) w →
        record_at (core p) w.entry w.access ≡ Some r → IsRow (core p) w r.path (warning_mark (core p) w) }
    ensures only { (c : Core) (w : Warning) (r : Access) (said : Said) → record_at c w.entry w.access ≡ Some r →
        IsRow c w r.path said → warning_mark c w ≡ said }
{}
