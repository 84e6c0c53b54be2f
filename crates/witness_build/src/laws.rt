//! Laws of marks.
ghost use Rattle.std.specs.Prelude.{◌≡◌, List};
ghost use Rattle.std.specs.List.{Contains};
ghost use Rattle.core_code.specs.declared.program.Program.{Program};
ghost use Rattle.core_code.specs.Program.{core};
ghost use Rattle.core_semantics.specs.declared.object.StartPath.{StartPath};
ghost use Rattle.core_semantics.specs.Legs.{Leg};
ghost use Rattle.core_ways.specs.Marks.{Confirmed};
ghost use Rattle.race_pairs.specs.declared.warning.Warning.{Warning};
ghost use Rattle.race_pairs.specs.Warnings.{warnings};
ghost use Rattle.witness_build_laws.specs.Warned.{warning_mark};
ghost use Rattle.witness_build.specs.Replayed.{CanReplay};

/// Each warning of the list of warnings that is marked confirmed has what the file of its witness needs to be replayed:
/// its objects are right start paths for its two entries, and the run of its legs from them ends in its race.
pub fn confirmed_warnings_can_replay()
    ensures { (p : Program) (w : Warning) (objects : List StartPath) (legs : List Leg) →
        Contains (warnings (core p)) w → warning_mark (core p) w ≡ Confirmed objects legs →
        CanReplay (core p) w objects legs }
{}
