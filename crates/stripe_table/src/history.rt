//! The pieces that a pass offered, which contracts alone see: no step of a table tells of a piece.
ghost use Rattle.std.specs.Prelude.{◌≡◌, [], ◌∷◌, ◌++◌};

use crate::view::PieceList;
use ghost_value::{Determines, GhostValue};
use scope_types::Piece;

/// No pieces.
struct NoPieces;

impl Determines<(), (), PieceList> for NoPieces {
    ghost use Rattle.std.specs.Prelude.{[]};

    ghost value = { λ _ _. [] };
}

/// Pieces, and one more.
struct OneMore;

impl Determines<GhostValue<PieceList>, Piece, PieceList> for OneMore {
    ghost use Rattle.std.specs.Prelude.{[], ◌∷◌, ◌++◌};

    ghost value = { λ pieces piece. pieces.value ++ (piece.chunk, piece.stripe) ∷ [] };
}

/// Pieces, and others after them.
struct Both;

impl Determines<GhostValue<PieceList>, GhostValue<PieceList>, PieceList> for Both {
    ghost use Rattle.std.specs.Prelude.{◌++◌};

    ghost value = { λ pieces others. pieces.value ++ others.value };
}

pub(crate) fn nothing_offered() -> GhostValue<PieceList>
    ensures { result.value ≡ [] }
{
    GhostValue::of::<(), (), NoPieces>(&(), &())
}

pub(crate) fn offered_too(offered: &GhostValue<PieceList>, piece: &Piece) -> GhostValue<PieceList>
    ensures { result.value ≡ offered.now.value ++ (piece.now.chunk, piece.now.stripe) ∷ [] }
{
    GhostValue::of::<GhostValue<PieceList>, Piece, OneMore>(offered, piece)
}

pub(crate) fn offered_by_both(
    offered: &GhostValue<PieceList>,
    others: &GhostValue<PieceList>,
) -> GhostValue<PieceList>
    ensures { result.value ≡ offered.now.value ++ others.now.value }
{
    GhostValue::of::<GhostValue<PieceList>, GhostValue<PieceList>, Both>(offered, others)
}
