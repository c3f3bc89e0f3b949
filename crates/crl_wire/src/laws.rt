//! What holds of all frames.
ghost use Rattle.std.specs.Prelude.{◌≡◌, ℕ, List, [], ◌++◌, Ok, Err};
ghost use Rattle.crl_model.specs.declared.piece.Piece.{Piece};
ghost use Rattle.crl_wire.specs.declared.fault.WireFault.TheVariants.{Short, Long};
ghost use Rattle.crl_wire.specs.Frame.{frame, Fits};
ghost use Rattle.crl_wire.specs.Decoding.{decoded, BeginsFrame, ExceedsFrame};

/// The frame of a piece is read as that piece.
pub fn frame_is_read()
    ensures { (p : Piece) → Fits p → decoded (frame p) ≡ Ok p }
{}

/// A frame that lacks bytes at its end is short.
pub fn front_is_short()
    ensures { (bytes : List ℕ) → BeginsFrame bytes → decoded bytes ≡ Err Short }
{}

/// A frame with bytes behind it is long.
pub fn excess_is_long()
    ensures { (bytes : List ℕ) → ExceedsFrame bytes → decoded bytes ≡ Err Long }
{}

/// No frame begins another.
pub fn no_frame_begins_another()
    ensures { (p q : Piece) (rest : List ℕ) → Fits p → Fits q → frame q ≡ frame p ++ rest → (p ≡ q) × (rest ≡ []) }
{}
