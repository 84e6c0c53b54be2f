//! Core code, and programs made of it: what is left of a folder of sources once names are resolved.
//!
//! # How clauses name a program
//!
//! `specs/Program.antt` says what is seen of a `Program` p: `files p`, `skipped p`, `classes p` and
//! `fields p` are its lists, and `methods p` the list of its methods with their code as plain trees. The
//! number in a `ClassId`, `FieldId` or `MethodId` is an index into these lists. `core_of` of
//! `specs/Core.antt` gives the same of `Parts`, and `method_of` of one `MethodCore`.
//! Code is seen as a `Tree` of `specs/Tree.antt`, by `tree_of`.
//!
//! # Methods and the methods that they call, as rows
//!
//! The row of a method is the list at its number, and has what it calls. Contracts see rows as a list of lists
//! (`specs/Chains.antt`). `on_cycles` and `falling_numbers` take time linear in the methods and their calls, and call
//! no function of their own as deep as a chain of calls.
//!
//! What a program keeps is thirteen tests of a few lines, each true of the program of nothing; kinds, ends and ranks
//! are asked of analysed methods alone. Calls as a graph are lists of methods and no code, so they need no program.
//! Cycles are found by a walk that puts groups of methods together: the path has the methods that were met and have no
//! number yet, in groups whose methods lead to one another; a call to the path joins all groups from that one on, and
//! a last group without calls left is a component. It has no stack of visits: calls that are left lie on one list.
#![tactic(auto)]

mod calls;
mod code;
mod cycles;
mod exits;
mod falling;
pub mod kind_laws;
pub mod laws;
mod lookups;
mod parts;
mod piece;
mod program;
mod row_making;
mod rows;
mod touch;
mod walk;

pub use calls::all_callees;
pub use code::{Code, LockKind, Op, Reason};
pub use cycles::on_cycles;
pub use exits::{Exits, exits_of, exits_through};
pub use falling::falling_numbers;
pub use parts::{ClassCore, FieldCore, MethodCore, Parts};
pub use piece::Piece;
pub use program::Program;
pub use row_making::call_rows;
pub use rows::CallRows;
pub use touch::is_write;
