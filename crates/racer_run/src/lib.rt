//! The call that the program makes, and the statuses that a run ends with.
//!
//! Over a folder that tells nothing, statuses 0, 1, 5, 7, 8 and 9 still say that the words make a request that can have
//! them (`Statuses.antt`), or a replay could end with 1. Words that ask for a made folder never touch the folder that
//! is handed in. A word that is no UTF-8 makes a command line that asks for nothing: `main` hands no words over then.
#![tactic(auto)]

mod answers;
pub mod laws;
mod made;
mod output;
mod replays;
mod reports;
mod sessions;
mod status;
mod whole_run;
mod writing;

pub use output::RunOutput;
pub use replays::replayed;
pub use reports::said_of;
pub use sessions::edited_on;
pub use status::Status;
pub use whole_run::run;
