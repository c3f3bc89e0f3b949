//! The theorems.
ghost use Rattle.std.specs.Prelude.{ℕ, ◌≤◌, ◌^◌, List};
ghost use Rattle.crl_model.specs.declared.statement.Statement.{Statement};
ghost use Rattle.crl_wire.specs.Frame.{IsInTable, Fits};
ghost use Rattle.crl_frames.specs.Frames.{OfEachPiece, OfEachPieceOfFew, OfEachToCarry, IsReadAgain, HasByteFrame, IsTypedScript, ChosenIsTyped};

use crl_deeds::theorems::choices_make_runs;
use crl_wire::laws::frame_is_read;

/// After any run among at most 64 nodes, whatever its calls have, each piece in a box is one of the table of frames. So
/// where its numbers are of the types of their fields, as those of a piece in code are, it may be encoded.
pub fn pieces_are_in_table()
    ensures boxes { OfEachPieceOfFew IsInTable }
    // Of the piece at a place of an outbox, as a carriage finds it.
    ensures carried { OfEachToCarry IsInTable }
{}

/// After a typed run each piece in a box has a frame: its header is one of the table, and its numbers fit their fields. The
/// frame is bytes, and is read as the piece. So what is sent as frames comes as it was sent.
pub fn messages_have_frames()
    ensures fits { OfEachPiece Fits }
    ensures bytes { OfEachPiece HasByteFrame }
    ensures again { OfEachPiece IsReadAgain }
{
    frame_is_read();
}

/// What a typed script and an order choose is a typed run, in any number of turns up to 2^62: so are its drafts, which ends
/// of write sections leave.
pub fn typed_scripts_run_typed()
    ensures { (count capacity : ℕ) (blocks : List (List Statement)) (words : ℕ → ℕ) (k : ℕ) → IsTypedScript count blocks → k ≤ 2 ^ 62
        → ChosenIsTyped count capacity blocks words k }
{
    choices_make_runs();
}
