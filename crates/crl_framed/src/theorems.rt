//! The theorems, of each piece in a box of any node after any run of at most 2^62 events.
ghost use Rattle.crl_framed.specs.Framed.{InEachBox, InBoxesOfFew, FitsEnds, HomeIsAnEnd, InBoxesOfTypedRuns, NumberFits, SerialFits, SerialIsReal, SizeFits, PiecesInEachBox, PieceIsPlaced};

/// Among at most 64 nodes, the piece goes from a node to another one, and both numbers are below 64.
pub fn ends_fit()
    ensures { InBoxesOfFew FitsEnds }
{}

/// The home of the name is the end that the kind of message says, a part of a round goes to node 0, and
/// a result comes from there.
pub fn homes_are_ends()
    ensures { InEachBox HomeIsAnEnd }
{}

/// The version that the piece names, and the number of a round, are from 1 and fit a word. An ask to read names no version,
/// and one to write any that fits a word.
pub fn numbers_fit()
    ensures { InEachBox NumberFits }
{}

/// The piece is one of those into which its message is cut: their number is that of the message's bytes, its index is below
/// it, and it has the bytes of its place. A message without bytes is
/// one piece, and one with bytes has those of a region.
pub fn pieces_are_cut()
    ensures { PiecesInEachBox PieceIsPlaced }
{}

/// A size that is told is that of a region: from 1, and within the limit.
pub fn sizes_fit()
    ensures { InEachBox SizeFits }
{}

/// After a run whose calls are typed, the serial of a name is from 1 and fits 32 bits.
pub fn serials_fit()
    ensures { InBoxesOfTypedRuns SerialFits }
{}

/// The serial of a name is from 1, whatever the calls are.
pub fn serials_are_real()
    ensures { InEachBox SerialIsReal }
{}
