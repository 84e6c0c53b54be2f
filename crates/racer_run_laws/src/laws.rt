//! Laws of warnings on what containers hold, as functions with nothing to do.
ghost use Rattle.std.specs.Prelude.{◌≡◌, ℕ, List, Some};
ghost use Rattle.std.specs.List.{Contains};
ghost use Rattle.container_cells.specs.declared.cell.Containers.TheVariants.{WithCells};
ghost use Rattle.racer_base.specs.Outside.{Files};
ghost use Rattle.racer_base.specs.declared.ids.FieldId.{FieldId};
ghost use Rattle.java_resolver.specs.Declarations.{fields_of};
ghost use Rattle.core_code.specs.KindCheck.{field_at};
ghost use Rattle.core_code.specs.Names.{content_name};
ghost use Rattle.core_code.specs.Program.{core};
ghost use Rattle.core_code.specs.declared.parts.FieldCore.{FieldCore};
ghost use Rattle.core_code.specs.declared.program.Program.{Program};
ghost use Rattle.access_paths.specs.Paths.{last_of};
ghost use Rattle.access_domain.specs.declared.access.Access.{Access};
ghost use Rattle.access_domain.specs.OutcomeRecords.{record_at};
ghost use Rattle.core_semantics.specs.declared.object.StartPath.{StartPath};
ghost use Rattle.core_semantics.specs.Legs.{Leg};
ghost use Rattle.core_ways.specs.Marks.{Confirmed};
ghost use Rattle.race_pairs.specs.declared.warning.Warning.{Warning};
ghost use Rattle.race_pairs.specs.Warnings.{warnings};
ghost use Rattle.racer_sources.specs.Programs.{IsProgram};
ghost use Rattle.witness_build_laws.specs.Warned.{warning_mark};
ghost use Rattle.racer_run_laws.specs.Containers.{MeetAtContent};

use core_lowering_conditions::laws::read_units_are_named;
use core_lowering_rules::laws::contents_are_of_containers;
use witness_build_laws::laws::confirmed_warnings_race;

/// Each confirmed warning of a folder whose path ends in a field that is called `x[]` carries a start heap and a
/// schedule after which the next steps of both threads are at the content of one container, that of a container field
/// `x` of one object or class, and at least one of them changes it.
pub fn contents_race()
    ensures { (files : Files) (p : Program) (w : Warning) (objects : List StartPath) (legs : List Leg) (r : Access)
        (f : FieldId) (field : FieldCore) (name : List ℕ) → (is : IsProgram WithCells files (core p)) →
        Contains (warnings (core p)) w → warning_mark (core p) w ≡ Confirmed objects legs →
        record_at (core p) w.entry w.access ≡ Some r → last_of r.path.fields ≡ Some f →
        field_at (core p) f ≡ Some field → field.name ≡ content_name name →
        MeetAtContent (core p) w objects legs f (fields_of is.units) name field }
{
    confirmed_warnings_race();
    contents_are_of_containers();
    read_units_are_named();
}
