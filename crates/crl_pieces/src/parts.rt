//! The pieces that bytes are cut into.
ghost use Rattle.std.specs.Prelude.{◌≡◌, ◌<◌, Some, length, slice_get};
ghost use Rattle.crl_pieces.specs.Pieces as pieces;

use crate::PIECE_LEN;

/// How many pieces so many bytes have. No bytes are one empty piece.
pub fn count(size: u32) -> u32
    ensures { result ≡ pieces.count size }
{
    size.saturating_sub(1) / PIECE_LEN + 1
}

/// The piece of this index, from 0.
pub fn cut(bytes: &[u8], index: u32) -> &[u8]
    requires { index < pieces.count (length bytes.now) }
    ensures piece { slice_get (pieces.cut bytes.now) index ≡ Some result.now }
    ensures size { length result.now ≡ pieces.piece_size (length bytes.now) index }
{
    let start = index as usize * PIECE_LEN as usize;
    let end = bytes.len().min(start + PIECE_LEN as usize);
    &bytes[start..end]
}
