//! The pool: workers, what is left after them, and what comes of it.
ghost use Rattle.std.specs.Prelude.{◌≡◌, ℕ, ◌+◌, ◌<◌, ◌≤◌, length, IfOk, OnOk, slice_index_or};
ghost use Rattle.std.specs.Arc.{arc_value};
ghost use Rattle.core_code.specs.Counting.{analysed_methods};
ghost use Rattle.core_code.specs.Program.{core};
ghost use Rattle.core_code.specs.CalleeRows.{AreRowsOf};
ghost use Rattle.access_domain.specs.Outcomes.{AreOutcomes};
ghost use Rattle.summary_store.specs.declared.machine.Hand.TheVariants.{Free};
ghost use Rattle.summary_store.specs.Laws.{edges};
ghost use Rattle.summary_store.specs.Machine.{AllGone, IsComplete, Legal};
ghost use Rattle.summary_store.specs.Passes.{first_passes};
ghost use Rattle.summary_store.specs.Setups.{setup_of, state_after};
ghost use Rattle.demand_pool.specs.Pools.{AreNumbered, HasWorked, HaveWorked};

use crate::given::WorkerContext;
use crate::outcomes::outcomes_of;
use crate::rest::finish;
use crate::worker::work;
use access_domain::Outcomes;
use core_code::{CallRows, Program};
use racer_base::{Gate, Memory};
use std::alloc::Global;
use std::marker::Brand;
use std::sync::ledger::Blank;
use std::sync::{Arc, Wait};
use std::thread;
use std::thread::Threads;
use summary_store::{Closed, Event, Locked, Pass, Store, StoreRun, takes_bound};
use transfer::Finished;

/// The history of a run, and the outcome of each analysed method.
#[derive(Drop)]
pub struct Pooled {
    pub history: Vec<Event>,
    pub outcomes: Outcomes,
}

/// Analyses a program by this many workers. The history is legal and complete, and the outcomes are the program's. A
/// worker whose thread cannot be started is done by the caller.
pub fn run_pool<G: Gate + Sync, R: Threads + Wait + Sync>(
    rt: &R,
    alloc: Global,
    program: &Arc<Program>,
    rows: &Arc<CallRows>,
    workers: u32,
    gate: &G,
) -> Result<Pooled, Memory>
    requires rows { AreRowsOf (core (arc_value program.now)) (arc_value rows.now) }
    requires workers { (0 < workers) × (workers ≤ 64) }
    ensures legal { IfOk result (λ p. Legal (setup_of (core (arc_value program.now)) workers) p.history.items) }
    ensures complete { IfOk result (λ p.
        IsComplete (setup_of (core (arc_value program.now)) workers) p.history.items) }
    ensures outcomes { IfOk result (λ p. AreOutcomes (core (arc_value program.now)) p.outcomes.items) }
{
    let blank = Blank::new(workers as u64);
    run::<Brand, G, R>(rt, alloc, program, rows, workers, gate, blank)
}

/// The same, of a run that has a name: its program and its number of workers are those of the name.
fn run<L: StoreRun + Send + Sync, G: Gate + Sync, R: Threads + Wait + Sync>(
    rt: &R,
    alloc: Global,
    program: &Arc<Program>,
    rows: &Arc<CallRows>,
    workers: u32,
    gate: &G,
    blank: Blank,
) -> Result<Pooled, Memory>
    requires program { arc_value program.now ≡ L.program }
    requires rows { AreRowsOf (core L.program) (arc_value rows.now) }
    requires workers { (0 < workers) × (workers ≡ L.parts) }
    requires blank { (blank.name ≡ L.name) × (blank.parts ≡ L.parts) }
    ensures legal { IfOk result (λ p. Legal (setup_of (core L.program) L.parts) p.history.items) }
    ensures complete { IfOk result (λ p. IsComplete (setup_of (core L.program) L.parts) p.history.items) }
    ensures outcomes { IfOk result (λ p. AreOutcomes (core L.program) p.outcomes.items) }
{
    let (book, share) = blank.open::<L>();
    let most = takes_bound(alloc, program, rows)?;
    let given = WorkerContext {
        alloc,
        program,
        rows,
        gate,
        most,
    };
    let (store, passes) = Store::start(alloc, program, rows.clone()?, workers, book, share)?;
    let mut passes = run_workers(rt, &store, &given, passes)?;
    let mut value = store.into_locked();
    finish_all(&mut value, &given, passes.as_mut_slice())?;
    let Closed { history, table } = value.close(passes);
    let outcomes = outcomes_of(alloc, program, table.as_slice())?;
    Ok(Pooled { history, outcomes })
}

/// Lets a worker a pass work on the store, each in a thread of its own where one can be started, and joins them. The
/// passes are given back in their order, each of which has left or made as many events as it was to make takes; want of
/// memory is answered where one of them met it.
pub fn run_workers<L: StoreRun + Send + Sync, G: Gate + Sync, R: Threads + Wait + Sync>(
    rt: &R,
    store: &Store<Finished, L>,
    given: &WorkerContext<'_, G>,
    passes: Vec<Pass<L>>,
) -> Result<Vec<Pass<L>>, Memory>
    requires program { arc_value given.now.program.now ≡ L.program }
    requires rows { AreRowsOf (core L.program) given.now.rows.now }
    requires passes { passes.items ≡ first_passes L.parts }
    ensures count { IfOk result (λ v. length v.items ≡ L.parts) }
    ensures numbers { IfOk result (λ v. AreNumbered v.items) }
    ensures worked { IfOk result (λ v. HaveWorked given.now.most v.items) }
{
    let worked = work_all(rt, store, given, passes)?;
    passes_of(given, worked)
}

/// What comes of each pass that worked, in their order.
fn work_all<L: StoreRun + Send + Sync, G: Gate + Sync, R: Threads + Wait + Sync>(
    rt: &R,
    store: &Store<Finished, L>,
    given: &WorkerContext<'_, G>,
    passes: Vec<Pass<L>>,
) -> Result<Vec<Result<Pass<L>, Memory>>, Memory>
    requires program { arc_value given.now.program.now ≡ L.program }
    requires rows { AreRowsOf (core L.program) given.now.rows.now }
    requires passes { passes.items ≡ first_passes L.parts }
    ensures count { IfOk result (λ v. length v.items ≡ L.parts) }
    ensures numbers { IfOk result (λ v. (k : ℕ) (d : _) → k < L.parts →
        IfOk (slice_index_or v.items k d) (λ p. p.number ≡ k)) }
    ensures worked { IfOk result (λ v. (k : ℕ) (d : _) → k < L.parts →
        IfOk (slice_index_or v.items k d) (HasWorked given.now.most)) }
{
    let one = |pass: Pass<L>| -> Result<Pass<L>, Memory>
        requires { (arc_value given.now.program.now ≡ L.program)
            × AreRowsOf (core L.program) given.now.rows.now × (pass.hand ≡ Free) }
        ensures { IfOk result (λ p. (p.number ≡ pass.number) × HasWorked given.entry.now.most p) }
    { work(rt, store, given, pass) };
    Ok(thread::map_vec(rt, passes, &one)?)
}

/// The passes, unless one met want of memory.
fn passes_of<L: StoreRun, G: Gate>(
    given: &WorkerContext<'_, G>,
    worked: Vec<Result<Pass<L>, Memory>>,
) -> Result<Vec<Pass<L>>, Memory>
    requires count { length worked.items ≡ L.parts }
    requires numbers { (k : ℕ) (d : _) → k < L.parts → IfOk (slice_index_or worked.items k d) (λ p. p.number ≡ k) }
    requires worked { (k : ℕ) (d : _) → k < L.parts →
        IfOk (slice_index_or worked.items k d) (HasWorked given.now.most) }
    ensures count { IfOk result (λ v. length v.items ≡ L.parts) }
    ensures numbers { IfOk result (λ v. AreNumbered v.items) }
    ensures worked { IfOk result (λ v. HaveWorked given.now.most v.items) }
{
    let mut worked = worked;
    let mut passes = Vec::with_capacity(given.alloc, worked.len())?;
    'each: while !worked.is_empty() {
        passes.push_reserved(worked.remove(0)?);
    }
    Ok(passes)
}

/// Lets each pass in order meet the value, and go on until it leaves.
fn finish_all<L: StoreRun, G: Gate>(
    value: &mut Locked<Finished, L>,
    given: &WorkerContext<'_, G>,
    passes: &mut [Pass<L>],
) -> Result<(), Memory>
    requires program { arc_value given.now.program.now ≡ L.program }
    requires rows { AreRowsOf (core L.program) given.now.rows.now }
    requires most { length (analysed_methods (core L.program)) + edges (setup_of (core L.program) L.parts)
        < given.now.most }
    requires count { length passes.old ≡ L.parts }
    requires numbers { AreNumbered passes.old }
    ensures count { length passes.new ≡ L.parts }
    ensures gone { OnOk result (AllGone (setup_of (core L.program) L.parts)
        (state_after L.program L.parts value.new.0)) }
{
    for place in 0..passes.len() {
        finish(value, given, &mut passes[place])?;
    }
    Ok(())
}
