//! What a store is for.
use std::marker::Brand;
use std::sync::ledger::Ledger;

/// One run of a store: for proofs alone, the program whose methods the workers share. The run has as many parts as
/// there are workers.
pub trait StoreRun: Ledger {
    ghost use Rattle.core_code.specs.declared.program.Program.{Program};

    ghost program: { Program };
}

// A function that is generic over its run is entered with `Brand`; what the run's program is then, its caller says by
// ghosts. This one stands where nobody says it.
impl StoreRun for Brand {
    ghost use Rattle.core_code.specs.NoProgram.{no_program};

    ghost program = { no_program };
}
