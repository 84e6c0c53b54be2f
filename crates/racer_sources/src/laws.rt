//! Laws of the definitions, as functions with nothing to do: files and folders have one program, as units that are the
//! same have.
ghost use Rattle.std.specs.Prelude.{◌≡◌, ℕ, List};
ghost use Rattle.std.specs.List.{AllZip};
ghost use Rattle.container_cells.specs.declared.cell.Containers.{Containers};
ghost use Rattle.java_lexer.specs.declared.token.Token.{Token};
ghost use Rattle.java_tree.specs.declared.unit.Unit as unit;
ghost use Rattle.java_parser_grammar.specs.Units.{IsUnit};
ghost use Rattle.core_code.specs.Core.{Core};
ghost use Rattle.core_lowering_rules.specs.Programs.{IsLowered};
ghost use Rattle.java_tree.specs.SameUnits.{SameUnit};
ghost use Rattle.racer_base.specs.Outside.{Files};
ghost use Rattle.racer_sources.specs.OneReading.{OneReading, OneSource};
ghost use Rattle.racer_sources.specs.Programs.{IsProgram};
ghost use Rattle.racer_sources.specs.Sources.{source_names, contents};

use core_lowering_rules::laws::one_program;
use java_parser::laws::one_unit;

/// Files with these tokens are read as units that are the same, so they have one program.
pub fn one_program_of_tokens()
    ensures same { (tokens : List (List Token)) (us vs : List unit.Unit) → AllZip IsUnit tokens us
        → AllZip IsUnit tokens vs → AllZip SameUnit us vs }
    ensures lowered { (tokens : List (List Token)) (us vs : List unit.Unit) → AllZip IsUnit tokens us
        → AllZip IsUnit tokens vs → (containers : Containers) (files : List (List ℕ)) (p q : Core)
        → IsLowered containers files us p → IsLowered containers files vs q → p ≡ q }
{
    one_unit();
    one_program();
}

/// Files are read in one way, as far as a program sees it.
pub fn one_reading()
    ensures { OneReading }
{
    one_program();
    one_program_of_tokens();
}

/// The sources of a folder are one thing: one refusal, or one program.
pub fn one_source()
    ensures { OneSource }
{
    one_reading();
}

/// Whether the sources of a folder are this program depends on their names and their bytes alone, whatever other files
/// the folder has.
pub fn other_files_are_not_seen()
    ensures { (containers : Containers) (a b : Files) (program : Core) → source_names a ≡ source_names b
        → contents a ≡ contents b → IsProgram containers a program → IsProgram containers b program }
{}
