//! What is left after the join, on the value that the store kept.
ghost use Rattle.std.specs.Prelude.{◌≡◌, ◌+◌, ◌<◌, length, OnOk};
ghost use Rattle.std.specs.Arc.{arc_value};
ghost use Rattle.core_code.specs.Counting.{IsIn, analysed_methods};
ghost use Rattle.core_code.specs.Program.{core};
ghost use Rattle.core_code.specs.CalleeRows.{AreRowsOf};
ghost use Rattle.summary_store.specs.declared.machine.Hand.TheVariants.{Free, Holds};
ghost use Rattle.summary_store.specs.Laws.{edges, takes};
ghost use Rattle.summary_store.specs.Machine.{HasLeft};
ghost use Rattle.summary_store.specs.Passes.{Agrees};
ghost use Rattle.summary_store.specs.Setups.{setup_of, state_after};
ghost use Rattle.demand_pool.specs.Pools.{LeftStays};

use crate::given::WorkerContext;
use racer_base::{Gate, Memory, MethodId, Moment};
use std::sync::Arc;
use summary_store::laws::{demand_at, publish_at, take_at};
use summary_store::{Demand, Hand, Locked, Pass, StoreRun};
use transfer::{Finished, analyse};

/// Lets the pass meet the value, publish or park what it then holds, and go on until it leaves.
pub(crate) fn finish<L: StoreRun, G: Gate>(
    value: &mut Locked<Finished, L>,
    given: &WorkerContext<'_, G>,
    pass: &mut Pass<L>,
) -> Result<(), Memory>
    requires program { arc_value given.now.program.now ≡ L.program }
    requires rows { AreRowsOf (core L.program) given.now.rows.now }
    requires most { length (analysed_methods (core L.program)) + edges (setup_of (core L.program) L.parts)
        < given.now.most }
    ensures number { pass.new.number ≡ pass.old.number }
    ensures left { OnOk result (HasLeft (state_after L.program L.parts value.new.0) pass.old.number) }
    ensures stays { OnOk result (LeftStays (setup_of (core L.program) L.parts) value.old.0 value.new.0) }
{
    value.law();
    value.meet(pass);
    match pass.hand() {
        Hand::Gone => return Ok(()),
        Hand::Holds(m) => turn_at(value, given, pass, m)?,
        Hand::Free => {}
    }
    for _i in 0..given.most {
        let Some(m) = take_at(value, pass) else {
            return Ok(());
        };
        given.gate.at(pass.number(), Moment::Taken(m));
        turn_at(value, given, pass, m)?;
    }
    value.law();
    unreachable!()
}

/// Demands the row of a method that the pass holds; where all of it is found, analyses the method and publishes it.
fn turn_at<L: StoreRun, G: Gate>(
    value: &mut Locked<Finished, L>,
    given: &WorkerContext<'_, G>,
    pass: &mut Pass<L>,
    m: MethodId,
) -> Result<(), Memory>
    requires program { arc_value given.now.program.now ≡ L.program }
    requires rows { AreRowsOf (core L.program) given.now.rows.now }
    requires analysed { IsIn m (analysed_methods (core L.program)) }
    requires holds { (pass.old.hand ≡ Holds m) × (pass.old.found ≡ 0) }
    requires agrees { Agrees (state_after L.program L.parts value.old.0) pass.old }
    ensures number { pass.new.number ≡ pass.old.number }
    ensures free { OnOk result (pass.new.hand ≡ Free) }
    ensures agrees { OnOk result (Agrees (state_after L.program L.parts value.new.0) pass.new) }
    ensures takes { OnOk result (takes value.new.0 ≡ takes value.old.0) }
    ensures stays { OnOk result (LeftStays (setup_of (core L.program) L.parts) value.old.0 value.new.0) }
{
    let row = given.rows.row(m);
    let mut callees = Vec::with_capacity(given.alloc, row.len())?;
    for i in 0..row.len() {
        match demand_at(value, pass, row[i]) {
            Demand::Found(piece) => callees.push_reserved(piece),
            Demand::Parked => return Ok(()),
            Demand::Memory => return Err(Memory),
        }
    }
    let finished = analyse(given.alloc, given.program, m, callees.as_slice())?;
    let Ok(piece) = Arc::new(given.alloc, finished) else {
        return Err(Memory);
    };
    given.gate.at(pass.number(), Moment::Finished(m));
    publish_at(value, pass, piece);
    Ok(())
}
