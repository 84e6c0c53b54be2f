//! Laws that the definitions always give something, as functions with nothing to do.
ghost use Rattle.java_parser_totality.specs.Totality.{AreTokensFew, IsTotalUnits};

/// All tokens are a unit, or have a fault.
pub fn units_are_total()
    ensures { IsTotalUnits }
{}

/// A file has no more tokens than bytes, so those of a file in memory fit into it.
pub fn tokens_are_few()
    ensures { AreTokensFew }
{}
