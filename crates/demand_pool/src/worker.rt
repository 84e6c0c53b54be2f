//! A worker on the store.
ghost use Rattle.std.specs.Prelude.{◌≡◌, ◌+◌, ◌<◌, ◌≤◌, false, IfOk, OnOk};
ghost use Rattle.std.specs.Arc.{arc_value};
ghost use Rattle.core_code.specs.Counting.{IsIn, analysed_methods};
ghost use Rattle.core_code.specs.Program.{core};
ghost use Rattle.core_code.specs.CalleeRows.{AreRowsOf};
ghost use Rattle.summary_store.specs.declared.machine.Hand.TheVariants.{Free, Holds};
ghost use Rattle.demand_pool.specs.Pools.{HasWorked};

use crate::given::WorkerContext;
use crate::row_pieces::{copies_of, next_piece};
use racer_base::{Gate, Memory, MethodId, Moment};
use std::sync::{Arc, Wait};
use summary_store::{Pass, Store, StoreRun};
use transfer::{Finished, analyse};

/// Takes methods and does what it can of each, until there is none to take. So it leaves, or makes an event a take.
pub(crate) fn work<L: StoreRun, R: Wait, G: Gate>(
    rt: &R,
    store: &Store<Finished, L>,
    given: &WorkerContext<'_, G>,
    mut pass: Pass<L>,
) -> Result<Pass<L>, Memory>
    requires program { arc_value given.now.program.now ≡ L.program }
    requires rows { AreRowsOf (core L.program) given.now.rows.now }
    requires free { pass.hand ≡ Free }
    ensures number { IfOk result (λ p. p.number ≡ pass.number) }
    ensures worked { IfOk result (HasWorked given.now.most) }
{
    for _i in 0..given.most {
        let Some(m) = store.take(rt, &mut pass) else {
            return Ok(pass);
        };
        given.gate.at(pass.number(), Moment::Taken(m));
        turn(rt, store, given, &mut pass, m)?;
    }
    Ok(pass)
}

/// Demands the row of a method that was taken; where all of it is found, analyses the method and publishes it.
fn turn<L: StoreRun, R: Wait, G: Gate>(
    rt: &R,
    store: &Store<Finished, L>,
    given: &WorkerContext<'_, G>,
    pass: &mut Pass<L>,
    m: MethodId,
) -> Result<(), Memory>
    requires program { arc_value given.now.program.now ≡ L.program }
    requires rows { AreRowsOf (core L.program) given.now.rows.now }
    requires analysed { IsIn m (analysed_methods (core L.program)) }
    requires holds { (pass.old.hand ≡ Holds m) × (pass.old.found ≡ 0) }
    ensures number { pass.new.number ≡ pass.old.number }
    ensures free { OnOk result (pass.new.hand ≡ Free) }
    ensures made { OnOk result (pass.old.made ≤ pass.new.made) }
{
    let row = given.rows.row(m);
    let mut found = Vec::with_capacity(given.alloc, row.len())?;
    for i in 0..row.len() {
        let Some(piece) = next_piece(rt, store, pass, row[i])? else {
            return Ok(());
        };
        found.push_reserved(piece);
    }
    let callees = copies_of(given.alloc, found.as_slice())?;
    let finished = analyse(given.alloc, given.program, m, callees.as_slice())?;
    let Ok(piece) = Arc::new(given.alloc, finished) else {
        return Err(Memory);
    };
    given.gate.at(pass.number(), Moment::Finished(m));
    store.publish(rt, pass, piece);
    Ok(())
}
