//! How a report is written: as the words of a command line ask for it, and as it then comes.
#![tactic(auto)]

/// The form of a report.
#[derive(Clone, Copy)]
pub enum Format {
    /// Lines.
    Text,
    /// One object.
    Json,
}

/// How a report is written.
#[derive(Clone, Copy)]
pub struct Mode {
    pub format: Format,
    /// With the summaries of all methods that have one.
    pub summaries: bool,
}
