//! Tests of the store alone: real threads share it, and nothing is done for them behind their join.
ghost use Rattle.std.specs.Prelude.{◌≡◌, ◌<◌, ◌≤◌};
ghost use Rattle.std.specs.Arc.{arc_value};
ghost use Rattle.core_code.specs.Program.{core};
ghost use Rattle.core_code.specs.CalleeRows.{AreRowsOf};

use super::*;
use crate::tests::{Case, PLAIN, folder};
use access_domain::{Access, Outcome, Summary};
use container_cells::Containers;
use core_code::{CallRows, Program, call_rows};
use demand_pool::{WorkerContext, run_workers};
use owner_domain::Value;
use racer_base::Memory;
use racer_sources::{FoundProgram, folder_program};
use std::alloc::Global;
use std::marker::Brand;
use std::sync::ledger::Blank;
use std::sync::{Arc, Wait};
use std::test::Fail;
use std::thread::Threads;
use summary_store::{Closed, Store, StoreRun, takes_bound};
use transfer::{Finished, outcomes};

/// Ten methods, of which several call the same ones, and some are on the way to each other.
pub(crate) const TEN: Case = Case {
    files: &[(
        "Ten.java",
        b"class P { P f; int v; }\n\
          @ThreadSafe class Ten {\n\
          \x20 P a; P b; boolean t; int n;\n\
          \x20 void go() { left(this.a); right(this.b); last(this.a, this.b); }\n\
          \x20 void left(P p) { last(p, this.b); synchronized (this) { note(); } }\n\
          \x20 void right(P p) { if (t) { last(this.a, p); } else { note(); } deep(p); }\n\
          \x20 void last(P p, P q) { if (t) p = q; p.f = q; note(); }\n\
          \x20 void note() { n = n + 1; }\n\
          \x20 void deep(P p) { deeper(p.f); }\n\
          \x20 void deeper(P p) { p.v = 1; deepest(p.f); }\n\
          \x20 void deepest(P p) { while (t) { p.f = p; note(); } }\n\
          }\n",
    )],
    ..PLAIN
};

/// The program of a row's folder.
pub(crate) fn program(alloc: Global, row: &Case) -> Result<Arc<Program>, Fail> {
    let mut folder = folder(alloc, row)?;
    match folder_program(alloc, &mut folder, "src", Containers::Opaque) {
        Ok(FoundProgram::Accepted(program)) => Ok(Arc::new(alloc, program)?),
        _ => Err(Fail::from("no program")),
    }
}

/// What is left of a store when as many workers have worked on it.
fn shared<L: StoreRun + Send + Sync, R: Threads + Wait + Sync>(
    rt: &R,
    alloc: Global,
    program: &Arc<Program>,
    rows: &Arc<CallRows>,
    workers: u32,
    blank: Blank,
) -> Result<Closed<Finished>, Memory>
    requires program { arc_value program.now ≡ L.program }
    requires rows { AreRowsOf (core L.program) (arc_value rows.now) }
    requires workers { (0 < workers) × (workers ≡ L.parts) }
    requires blank { (blank.name ≡ L.name) × (blank.parts ≡ L.parts) }
{
    let (book, share) = blank.open::<L>();
    let given = WorkerContext {
        alloc,
        program,
        rows,
        gate: &OpenGate,
        most: takes_bound(alloc, program, rows)?,
    };
    let (store, passes) = Store::start(alloc, program, rows.clone()?, workers, book, share)?;
    let passes = run_workers(rt, &store, &given, passes)?;
    Ok(store.close(passes))
}

/// Whether these records are the same, one by one.
fn same_records(records: &[Access], others: &[Access]) -> bool {
    records.len() == others.len()
        && records.iter().zip(others).all(|(a, b)| a.has_key_of(b)
            && a.site == b.site
            && a.below == b.below)
}

/// Whether two values are the same.
fn same_value(a: &Value, b: &Value) -> bool {
    match (a, b) {
        (Value::Owned, Value::Owned) | (Value::Unnamed, Value::Unnamed) => true,
        (Value::Named(p), Value::Named(q)) => p == q,
        _ => false,
    }
}

/// Whether two summaries are the same.
fn same_summary(alloc: Global, a: &Summary, b: &Summary) -> Result<bool, Memory> {
    let wobbly = a.wobbly.paths(alloc)? == b.wobbly.paths(alloc)?;
    let records = same_records(a.accesses.as_slice(), b.accesses.as_slice());
    Ok(wobbly && records && same_value(&a.result, &b.result))
}

/// Whether two outcomes are the same.
fn same_outcome(alloc: Global, a: &Outcome, b: &Outcome) -> Result<bool, Memory> {
    match (a, b) {
        (Outcome::Large, Outcome::Large) => Ok(true),
        (Outcome::Summary(a), Outcome::Summary(b)) => same_summary(alloc, a, b),
        _ => Ok(false),
    }
}

/// How many methods have in the store what one thread found of them, before the first that has not.
fn methods_alike(
    alloc: Global,
    program: &Arc<Program>,
    closed: &Closed<Finished>,
) -> Result<usize, Memory> {
    let outcomes = outcomes(alloc, program)?;
    for (place, outcome) in outcomes.as_slice().iter().enumerate() {
        let alike = match (outcome, closed.table.as_slice().get(place)) {
            (Some(outcome), Some(Some(finished))) => same_outcome(
                alloc,
                outcome,
                &finished.outcome,
            )?,
            (None, Some(None)) => true,
            _ => false,
        };
        if !alike {
            return Ok(place);
        }
    }
    Ok(outcomes.len())
}

/// Whether so many workers leave in the store what one thread finds.
fn holds<R: Threads + Wait + Sync>(
    rt: &R,
    alloc: Global,
    program: &Arc<Program>,
    workers: u32,
) -> Result<bool, Memory>
    requires { (0 < workers) × (workers ≤ 64) }
{
    let rows = Arc::new(alloc, call_rows(alloc, program)?)?;
    let blank = Blank::new(workers as u64);
    let closed = shared::<Brand, R>(rt, alloc, program, &rows, workers, blank)?;
    Ok(methods_alike(alloc, program, &closed)? == program.methods().len())
}

/// How many runs with 1, 2 and 64 workers hold before the first that does not.
fn runs_that_hold<R: Threads + Wait + Sync>(rt: &R, alloc: Global, runs: u32) -> Result<u32, Fail> {
    let program = program(alloc, &TEN)?;
    for run in 0..runs {
        let workers = match run % 3 {
            0 => 2,
            1 => 64,
            _ => 1,
        };
        let Ok(true) = holds(rt, alloc, &program, workers) else {
            return Ok(run);
        };
    }
    Ok(runs)
}

#[test]
fn store_alone(rt: HostRuntime) -> Result<(), Fail> {
    assert!(rt; runs_that_hold(&rt, rt.alloc(), 300)? == 300);
    Ok(())
}
