//! How many parts drafts are.
ghost use Rattle.std.specs.Prelude.{◌≡◌, length, IfOk};
ghost use Rattle.core_lowering_drafts.specs.Pieces.{all_parts, parts_of};

use crate::draft::{Draft, Piece};
use racer_base::Memory;

/// How many parts a piece is.
#[cycle(count)]
pub fn count_piece(piece: &Piece) -> Result<usize, Memory>
    ensures { IfOk result (λ count. count ≡ length (parts_of piece.now)) }
{
    match piece {
        Piece::Part(_) => Ok(1),
        Piece::Again(body) => {
            let count = count_pieces(body.pieces())?;
            count.checked_add(1).ok_or(Memory)
        }
    }
}

/// How many parts pieces are.
#[cycle(count)]
fn count_pieces(pieces: &[Piece]) -> Result<usize, Memory>
    ensures { IfOk result (λ count. count ≡ length (all_parts pieces.now)) }
{
    let mut count: usize = 0;
    for piece in pieces {
        count = count.checked_add(count_piece(piece)?).ok_or(Memory)?;
    }
    Ok(count)
}

/// How many parts a draft is.
pub fn count_parts(draft: &Draft) -> Result<usize, Memory>
    ensures { IfOk result (λ count. count ≡ length draft.now) }
{
    count_pieces(draft.pieces())
}
