//! Laws of units, as functions with nothing to do.
ghost use Rattle.std.specs.Prelude.{ℕ, ◌≤◌, List, length, IsTrue};
ghost use Rattle.java_tree.specs.declared.unit.Unit.{Unit};
ghost use Rattle.core_lowering_rules.specs.Conditions.{are_in_files, are_named};
ghost use Rattle.core_lowering_conditions.specs.FromTokens.{AreFromTokens};

/// Units that are read from the tokens of as many files keep places in these files alone.
pub fn read_units_are_placed()
    ensures { (files : List (List ℕ)) (units : List Unit) → AreFromTokens 0 units → length units ≤ length files
        → IsTrue (are_in_files files units) }
{}

/// The classes and fields of units that are read from tokens have identifiers for their names.
pub fn read_units_are_named()
    ensures { (units : List Unit) → AreFromTokens 0 units → IsTrue (are_named units) }
{}
