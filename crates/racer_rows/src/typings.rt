//! The typings of the classes of a program.
use crate::page::Page;
use core_code::Program;
use race_report_parts::Written;
use racer_base::Memory;
use racer_run_typings::push_typings;
use std::alloc::Global;
use typed_core::typings;

/// Puts the line of each class that has an entry.
pub fn put_typings(alloc: Global, page: &mut Page, program: &Program) -> Result<(), Memory> {
    let typings = typings(alloc, program)?;
    let mut text = Written::new(alloc);
    push_typings(&mut text, program, typings.as_slice());
    page.put(text.finished()?.as_str());
    Ok(())
}
