//! The report on a program, as text and as JSON, with the summaries.
ghost use Rattle.core_code.specs.Program.{core};
ghost use Rattle.access_domain.specs.Outcomes.{AreOutcomes};

use crate::page::Page;
use access_domain::Outcomes;
use core_code::Program;
use race_report_modes::{Format, Mode};
use racer_base::{FolderFault, Memory};
use racer_run::said_of;
use std::alloc::Global;
use std::sync::Arc;
use std::thread::Threads;
use transfer::outcomes;

/// Puts the report in this mode.
fn put_report<R: Threads + Sync>(
    rt: &R,
    alloc: Global,
    page: &mut Page,
    format: Format,
    program: &Program,
    outcomes: &Outcomes,
)
    requires { AreOutcomes (core program.now) outcomes.now.items }
{
    let mode = Mode {
        format,
        summaries: true,
    };
    match said_of(rt, alloc, mode, program, outcomes) {
        Ok(said) => page.put(said.text.as_str()),
        Err(_) => page.note(FolderFault::Memory),
    }
}

/// Puts both reports on a program.
pub fn put_reports<R: Threads + Sync>(
    rt: &R,
    alloc: Global,
    page: &mut Page,
    program: Program,
) -> Result<(), Memory> {
    let program = Arc::new(alloc, program)?;
    let outcomes = outcomes(alloc, &program)?;
    put_report(rt, alloc, page, Format::Text, &*program, &outcomes);
    put_report(rt, alloc, page, Format::Json, &*program, &outcomes);
    Ok(())
}
