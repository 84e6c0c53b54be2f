//! What can be asked for.
ghost use Rattle.std.specs.Prelude.{◌<◌, ◌≤◌};

use container_cells::Containers;
use race_report_modes::Mode;
use racer_base::Text;

/// What the words of a command line ask for.
#[derive(Drop)]
pub enum Request {
    ReportOn(WantedReport),
    ReplayOf(WantedReplay),
    MadeOf(WantedMade),
    EditsOf(WantedEdits),
}

/// A report on the folder of this name, by 1 to 64 workers, with their history or without, with the typings of its
/// classes or without, where containers are this.
#[derive(Drop)]
pub struct WantedReport {
    pub folder: Text,
    pub mode: Mode,
    pub workers: u32,
    pub history: bool,
    pub containers: Containers,
    pub typed: bool,
    pub ghost in_range: { (0 < workers) × (workers ≤ 64) },
}

/// The replay of a witness: the folder, the name of the witness's file in it, and what containers are.
#[derive(Drop)]
pub struct WantedReplay {
    pub folder: Text,
    pub witness: Text,
    pub containers: Containers,
}

/// A report in numbers on a folder made of up to 800 classes, by 1 to 64 workers.
#[derive(Drop)]
pub struct WantedMade {
    pub number: u32,
    pub workers: u32,
    pub ghost most: { number ≤ 800 },
    pub ghost in_range: { (0 < workers) × (workers ≤ 64) },
}

/// A session of edits: the folder, and the name of the file in it that has them.
#[derive(Drop)]
pub struct WantedEdits {
    pub folder: Text,
    pub edits: Text,
}
