//! How a run ends.
ghost use Rattle.std.specs.Prelude.{◌≡◌};
ghost use Rattle.std.specs.Process.{exit_status};
ghost use Rattle.racer_run.specs.Number.{number_of};

use std::process::ExitCode;

/// How a run ended.
#[derive(Clone, Copy, PartialEq, Eq)]
pub enum Status {
    /// A report without a warning was written whole, or the line that a replayed witness races.
    Clean,
    /// A report with a warning was written whole.
    Warned,
    /// The words ask for nothing that the program does.
    Usage,
    /// The folder failed.
    FolderFault,
    /// The sink failed.
    SinkFault,
    /// The sources are refused, with a line that says why.
    Refused,
    /// Memory was refused, before anything was written.
    Memory,
    /// A replayed witness does not end in a race.
    NoRace,
    /// A file that was to be replayed is no witness.
    NotAWitness,
    /// A file that was to have edits has none, with a line that says where.
    NotEdits,
}

impl Status {
    /// What the program ends with.
    pub fn exit_code(self) -> ExitCode
        ensures { exit_status result ≡ number_of self }
    {
        ExitCode::from(self.number())
    }

    /// The number of the exit status.
    pub fn number(self) -> u8
        ensures { result ≡ number_of self }
    {
        match self {
            Status::Clean => 0,
            Status::Warned => 1,
            Status::Usage => 2,
            Status::FolderFault => 3,
            Status::SinkFault => 4,
            Status::Refused => 5,
            Status::Memory => 6,
            Status::NoRace => 7,
            Status::NotAWitness => 8,
            Status::NotEdits => 9,
        }
    }
}
