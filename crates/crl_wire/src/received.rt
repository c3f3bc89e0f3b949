//! A piece that came in its frame.
ghost use Rattle.std.specs.Prelude.{◌≡◌};

use crl_model::piece::Piece;
use std::marker::Model;

/// A piece that was read of its frame. Nothing but `receive` makes one, from the bytes alone. A contract sees the piece.
#[derive(Drop)]
pub struct Received {
    pub(crate) piece: Piece,
    pub(crate) frame: Vec<u8>,
}

impl Model for Received {
    ghost use Rattle.std.specs.Prelude.{◌≡◌, Ok};
    ghost use Rattle.crl_model.specs.declared.piece.Piece.{Piece};
    ghost use Rattle.crl_wire.specs.Decoding.{decoded};

    ghost Value = { Piece };

    ghost view = { λ r. r.piece };

    ghost invariant = { λ r. decoded r.frame.items ≡ Ok r.piece };
}

impl Received {
    /// The piece.
    pub fn piece(&self) -> &Piece
        ensures { result.now ≡ self.now }
    {
        &self.piece
    }

    /// The piece, which is handed out; its frame is given back.
    pub fn into_piece(self) -> Piece
        ensures { result ≡ self }
    {
        self.piece
    }
}
