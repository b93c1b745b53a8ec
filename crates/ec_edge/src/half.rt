//! What a call that is set to fail adds.
ghost use Rattle.std.specs.Prelude.{◌≡◌};
ghost use Rattle.ec_edge.specs.Memory.{first_half};

// The first half of the piece, rounded down.
pub(crate) fn first_half(piece: &[u8]) -> &[u8]
    ensures { result.now ≡ first_half piece.now }
{
    &piece[..piece.len() / 2]
}
