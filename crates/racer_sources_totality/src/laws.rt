//! Laws that the definitions always give something, as functions with nothing to do.
ghost use Rattle.racer_sources_totality.specs.Totality.{IsTotalOnCycles, IsTotalRecursion, DoNumbersFall};
ghost use Rattle.racer_sources_totality.specs.Totality.{IsTotalTables, IsTotalLowering};
ghost use Rattle.racer_sources_totality.specs.Sources.{IsTotalSource, HasOnlySource};

use java_parser_totality::laws::{tokens_are_few, units_are_total};
use racer_sources::laws::one_source;

/// Of all rows, and of all programs, it can be told which methods are recursive.
pub fn recursion_is_total()
    ensures rows { IsTotalOnCycles }
    ensures programs { IsTotalRecursion }
{}

/// Where no method is on a cycle there are numbers that fall along calls, as many as methods, and each below how many
/// these are: how many methods each one leads to.
pub fn numbers_fall()
    ensures { DoNumbersFall }
{}

/// All units have a table, or are refused.
pub fn tables_are_total()
    ensures { IsTotalTables }
{}

/// All units have a program, or too many calls.
pub fn lowering_is_total()
    ensures { IsTotalLowering }
{
    recursion_is_total();
}

/// The sources of every folder are something, refused with a line or a program, and one thing alone.
pub fn sources_are_total()
    ensures total { IsTotalSource }
    ensures only { HasOnlySource }
{
    units_are_total();
    tokens_are_few();
    tables_are_total();
    lowering_is_total();
    one_source();
}
