//! Laws of programs, as functions with nothing to do.
mod cells;
mod programs;
mod same_units;

pub use cells::{contents_are_of_containers, no_container_no_change};
pub use programs::{
    codes_of_programs, conditions_of_units, draft_edges, entries_of_programs, facts_of_programs,
    fields_by_field, ordered_places, ranks_of_programs, sites, statuses_of_programs,
};
pub use same_units::one_program;
