//! The tree type of drafts.
use crate::ends::{Ends, Exit};
use core_code::{LockKind, Op};
use racer_base::{Place, VarId};
use std::marker::Model;

/// Pieces one after another, and how their paths end.
#[derive(Drop)]
#[cycle(drafts)]
pub struct Draft {
    pub(crate) pieces: Vec<Piece>,
    pub(crate) ends: Ends,
}

impl Model for Draft {
    ghost use Rattle.core_lowering_drafts.specs.Lists.{Parts};

    ghost Value = { Parts };

    ghost use Rattle.std.specs.Coded.{codes};
    ghost use Rattle.core_lowering_drafts.specs.Told.{coded_parts};

    ghost coded = { coded_parts (Prim.hlevel codes) };

    ghost use Rattle.core_lowering_drafts.specs.Pieces.{all_parts};

    ghost view = { λ draft. all_parts draft.pieces.items };

    ghost use Rattle.core_lowering_drafts.specs.Drafts.{SameEnds};
    ghost use Rattle.core_lowering_drafts.specs.EndSets.{seen};
    ghost use Rattle.core_lowering_drafts.specs.Lists.{ends_of, size_of};

    ghost invariant = { λ draft. SameEnds (seen draft.ends) (ends_of (all_parts draft.pieces.items)) };

    ghost size = { size_of };

    ghost use Rattle.std.proofs.Common.{arith};
    ghost use Rattle.core_lowering_drafts.specs.PieceFalls.{most_le};

    ghost size_decreases = { λ a h. omega (arith, most_le a.pieces.items) };
}

/// A part of a draft.
#[derive(Drop)]
#[cycle(drafts)]
pub enum Part {
    Op(Place, Op),
    Choice(Box<Draft>, Box<Draft>),
    Loop(Box<Draft>),
    Sync(Place, LockKind, Box<Draft>),
    Leave(Exit),
    Within(Exit, Box<Draft>),
    Never,
    /// Behind the body these variables are null.
    Ending(Box<Draft>, Place, Vec<VarId>),
    /// A body with its `finally`, and what is done last for paths that left the body for the exit.
    Behind(Box<Draft>, Box<Draft>, Exit, Box<Draft>),
    /// These groups, or nothing.
    Entered(Groups),
}

/// Groups of a `switch`, each of which goes on in the next one.
#[derive(Drop)]
#[cycle(drafts)]
pub struct Groups {
    pub(crate) drafts: Vec<Draft>,
    /// How the first group ends, the first two, and so on.
    pub(crate) ends: Vec<Ends>,
}

impl Model for Groups {
    ghost use Rattle.std.specs.Prelude.{List};
    ghost use Rattle.core_lowering_drafts.specs.Lists.{Parts};

    ghost Value = { List Parts };

    ghost use Rattle.std.specs.Coded.{codes};
    ghost use Rattle.core_lowering_drafts.specs.Told.{coded_groups};

    ghost coded = { coded_groups (Prim.hlevel codes) };

    ghost view = { λ groups. groups.drafts.items };

    ghost use Rattle.core_lowering_drafts.specs.Groups.{AreEnds};

    ghost invariant = { λ groups. AreEnds groups.ends.items groups.drafts.items };

    ghost use Rattle.core_lowering_drafts.specs.Groups.{groups_size};

    ghost size = { groups_size };

    ghost use Rattle.core_lowering_drafts.specs.PieceFalls.{groups_le};

    ghost size_decreases = { λ a h. groups_le a.drafts.items };
}

/// One part, or a body and then the same any number of times.
#[derive(Drop)]
#[cycle(drafts)]
pub enum Piece {
    Part(Part),
    Again(Box<Draft>),
}
