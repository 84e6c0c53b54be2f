//! What is known of the methods of a folder before it is known which are recursive, and the methods, once it is.
//!
//! A method is lowered twice. The first time none is analysed, and no code is kept: its calls and the reasons apart
//! from recursion come of that, and so does the extent of its code, of which the limit is told. The second time is for
//! the program, in which a method whose code is past the limit has none. Locals are the variables of the code that are
//! neither `this` nor parameters. The fields of the program are here too, and beside them the cells of those that are
//! containers: a method is lowered with them.
#![tactic(auto)]

mod cells;
mod counts;
mod program_fields;
mod program_methods;
mod reasons;
mod surveys;

pub use cells::cells_of;
pub use program_fields::fields;
pub use program_methods::methods;
pub use reasons::statuses;
pub use surveys::{Surveyed, Surveys, find_surveys};
