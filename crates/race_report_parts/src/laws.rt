//! Laws of what a report tells.
ghost use Rattle.std.specs.Prelude.{◌≡◌, List, Some, Contains};
ghost use Rattle.racer_base.specs.declared.ids.Place.{Place};
ghost use Rattle.core_code.specs.declared.program.Program.{Program};
ghost use Rattle.core_code.specs.Core.{Core};
ghost use Rattle.core_code.specs.Program.{core};
ghost use Rattle.race_pairs.specs.declared.warning.Warning.{Warning};
ghost use Rattle.race_pairs.specs.Warnings.{warnings};
ghost use Rattle.race_report_parts.specs.Places.{OwnedRecord};
ghost use Rattle.race_report_parts.specs.Reaching.{DoesReach};
ghost use Rattle.race_report_parts.specs.Told.{Sides, sides_of};

/// Each warning of a program has its two records.
pub fn each_warning_has_two_records()
    ensures { (core : Core) (w : Warning) → Contains (warnings core) w →
        (sides : Sides) × (sides_of core w ≡ Some sides) }
{}

/// The places of both records of a warning go from the record's site, call by call, down to the access itself; no other
/// list of places does.
pub fn places_reach_their_access()
    ensures reach { (p : Program) (w : Warning) (sides : Sides) → sides_of (core p) w ≡ Some sides →
        DoesReach (core p) (record { method = w.entry; access = sides.first.access }) sides.first.places
        × DoesReach (core p) (record { method = w.partner; access = sides.partner.access }) sides.partner.places }
    ensures only { (core : Core) (held : OwnedRecord) (places others : List Place) → DoesReach core held places →
        DoesReach core held others → places ≡ others }
{}
