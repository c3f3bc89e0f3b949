//! Bytes that travel in pieces: cut, gathered in any order, and joined.
#![tactic(auto)]

ghost use Rattle.std.specs.Prelude.{◌≡◌, ℕ, List, length, true};
ghost use Rattle.crl_pieces.specs.Gathering.{gathered};
ghost use Rattle.crl_pieces.specs.Pieces.{count, cut, join, slots, fresh, joined, is_complete, Cell, Came};

pub mod gather;
pub mod parts;

use crl_model::REGION_LIMIT;

/// The number of bytes of a piece that isn't the last.
pub const PIECE_LEN: u32 = 32_768;

/// The most pieces that a region's bytes have.
pub const PIECES_LIMIT: u32 = REGION_LIMIT / PIECE_LEN;

/// Joined, the pieces of bytes are the bytes; there are as many as their number of bytes gives. In whatever
/// order they come, what was gathered is the whole if none is missing.
pub fn pieces_join()
    ensures joins { (bytes : List ℕ) → join (cut bytes) ≡ bytes }
    ensures number { (bytes : List ℕ) → length (cut bytes) ≡ count (length bytes) }
    // Pieces that are put into their slots.
    ensures gathers { (bytes order : List ℕ) → is_complete (gathered bytes order) ≡ true → joined (gathered bytes order) ≡ bytes }
    // Pieces on their way that come.
    ensures any_order { (bytes order : List ℕ) (after : List Cell) → Came (fresh (cut bytes)) order after
        → is_complete (slots after) ≡ true → joined (slots after) ≡ bytes }
{}
