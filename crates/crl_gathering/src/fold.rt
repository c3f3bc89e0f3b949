//! Parts and folds that are written on paper.
ghost use Rattle.std.specs.Prelude.{◌≡◌, ◌≤◌};
ghost use Rattle.crl_gathering.specs.Lengths.{part_bytes, fold_bytes};

use crl_model::collective::{Fold, Part};
use crl_outbox::Paper;

/// The number of bytes that the fold broadcasts, 0 if it is no broadcast.
pub fn fold_len(fold: &Fold) -> usize
    ensures { result ≡ fold_bytes fold.now }
{
    match fold {
        Fold::Broadcast(bytes) => bytes.len(),
        _ => 0,
    }
}

/// An equal fold, its bytes written on this paper. This takes no memory.
pub fn copy_fold(fold: &Fold, paper: Paper) -> Fold
    requires { fold_bytes fold.now ≤ paper }
    ensures { result ≡ fold.now }
{
    match fold {
        Fold::Barrier => Fold::Barrier,
        Fold::Broadcast(bytes) => Fold::Broadcast(paper.write(bytes.as_slice())),
        Fold::Sum(value) => Fold::Sum(*value),
        Fold::Min(value) => Fold::Min(*value),
        Fold::Max(value) => Fold::Max(*value),
        Fold::Mixed => Fold::Mixed,
    }
}

/// The number of bytes that the part sends, 0 if it sends none.
pub fn part_len(part: &Part) -> usize
    ensures { result ≡ part_bytes part.now }
{
    match part {
        Part::Send(bytes) => bytes.len(),
        _ => 0,
    }
}

/// An equal part, its bytes written on this paper. This takes no memory.
pub fn copy_part(part: &Part, paper: Paper) -> Part
    requires { part_bytes part.now ≤ paper }
    ensures { result ≡ part.now }
{
    match part {
        Part::Barrier => Part::Barrier,
        Part::Send(bytes) => Part::Send(paper.write(bytes.as_slice())),
        Part::Receive => Part::Receive,
        Part::Sum(value) => Part::Sum(*value),
        Part::Min(value) => Part::Min(*value),
        Part::Max(value) => Part::Max(*value),
    }
}
