//! What expressions and statements are lowered in (a `Context`), and the draft that their code is put into (a
//! `Making`).
//!
//! `code_of` of `specs/Drafts.antt` says what is seen of a `Making`, and a `Context` is seen as that of the
//! definition.
//!
//! A `Making` is seen as its parts: each function that adds to it has one clause on plain lists, and positions count
//! parts. A change that may fail half way takes all out and puts it back, so that the empty draft is left after a
//! fault. Names of variables are looked up in an index, the innermost last. Which locks are those of lock fields, and
//! where jumps lead, the context alone says, so it is here; so is which arguments no parameter takes.
#![tactic(auto)]

mod arguments;
mod around;
mod by_name;
mod context;
mod entered;
mod given;
mod jumps;
mod locks;
mod making;
mod numbers;
mod sources;
mod targets;
mod value_kind;
mod variables;

pub use arguments::further_arguments;
pub use context::Context;
pub use entered::{enter, enter_spelled};
pub use given::MethodResult;
pub use jumps::{lower_break, lower_continue};
pub use locks::note_lock;
pub use making::Making;
pub use numbers::number_of;
pub use sources::{Body, Source};
pub use targets::{Kept, LoopExits, Sent};
pub use value_kind::{ValueKind, common_kind};
