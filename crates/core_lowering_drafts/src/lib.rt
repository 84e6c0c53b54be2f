//! Drafts of code: core code whose paths can leave for an exit, and the core code of the paths that end in given ways.
//! `core_lowering_drafts_code` writes it; what it asks on the way stands here.
#![tactic(auto)]

mod ahead;
mod behind;
mod counted;
mod draft;
mod ends;
mod groups;
mod joined;
pub mod laws;
mod meeting;
mod written;

pub use ahead::{Behind, Fork, Item, Way, look_ahead, push_groups, push_pieces, way_of};
pub use behind::{After, Branch, Tail, asked_behind, items_behind, standing};
pub use counted::{count_parts, count_piece};
pub use draft::{Draft, Groups, Part, Piece};
pub use ends::{Asked, Ends, Exit};
pub use groups::{Start, reached};
pub use meeting::meets;
pub use written::{MAX_BRANCHINGS, Room, Stop, Written};
