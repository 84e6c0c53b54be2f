//! Folders without containers, and what containers hold.
ghost use Rattle.std.specs.Prelude.{◌≡◌, ℕ, Bool, List, Some, IsTrue, not};
ghost use Rattle.std.specs.List.{list_any};
ghost use Rattle.container_cells.specs.declared.cell.Containers.TheVariants.{Opaque, WithCells};
ghost use Rattle.container_cells.specs.declared.cell.Containers.{Containers};
ghost use Rattle.racer_base.specs.declared.ids.FieldId.{FieldId};
ghost use Rattle.racer_base.specs.declared.ids.MethodId.{MethodId};
ghost use Rattle.java_tree.specs.declared.unit.Unit.{Unit};
ghost use Rattle.java_resolver.specs.Declarations.{fields_of};
ghost use Rattle.core_code.specs.Core.{Core};
ghost use Rattle.core_code.specs.KindCheck.{field_at};
ghost use Rattle.core_code.specs.Names.{content_name};
ghost use Rattle.core_code.specs.declared.parts.FieldCore.{FieldCore};
ghost use Rattle.core_lowering_rules.specs.Cells.{is_container};
ghost use Rattle.core_lowering_rules.specs.Conditions.{are_named};
ghost use Rattle.core_lowering_rules.specs.Contents.{IsContentOf};
ghost use Rattle.core_lowering_rules.specs.Programs.{program_of, IsLowered};

/// Where no field is a container, cells of containers change nothing.
pub fn no_container_no_change()
    ensures program { (files : List (List ℕ)) (units : List Unit) (is_recursive : MethodId → Bool) →
        IsTrue (not (list_any is_container (fields_of units))) →
        program_of WithCells files units is_recursive ≡ program_of Opaque files units is_recursive }
    ensures lowered { (files : List (List ℕ)) (units : List Unit) (core : Core) →
        IsTrue (not (list_any is_container (fields_of units))) →
        IsLowered WithCells files units core → IsLowered Opaque files units core }
{}

/// A field of a program that is called `x[]` is the content of a container field `x` of the folder, where the names of
/// the units are identifiers.
pub fn contents_are_of_containers()
    ensures { (containers : Containers) (files : List (List ℕ)) (units : List Unit) (core : Core) (f : FieldId)
        (field : FieldCore) (name : List ℕ) → IsTrue (are_named units) → IsLowered containers files units core →
        field_at core f ≡ Some field → field.name ≡ content_name name → IsContentOf (fields_of units) name field }
{}
