//! Tests: rounds are gathered, and parts and folds copied.
ghost use Rattle.std.specs.Prelude.{◌≡◌, ◌<◌};

use crate::{Round, copy_fold, copy_part, fold_len, part_len};
use crl_model::bytes::Bytes;
use crl_model::collective::{Fold, Part};
use crl_model::{NodeNo, OutOfMemory};
use crl_outbox::Paper;
use std::alloc::Global;

/// The part of a node comes, if the round is one of the first.
fn bring(round: &mut Round, node: NodeNo, part: Part) -> Option<Fold>
    requires { node < round.old.nodes }
    ensures { round.new.nodes ≡ round.old.nodes }
{
    if round.number() < 9 {
        round.contribute(node, part)
    } else {
        None
    }
}

/// An equal fold on paper of its own.
fn copy_of(alloc: Global, fold: &Fold) -> Result<Fold, OutOfMemory> {
    let paper = Paper::new(alloc, fold_len(fold))?;
    Ok(copy_fold(fold, paper))
}

#[test]
fn sums_are_folded(rt: HostRuntime) -> Result<(), OutOfMemory> {
    let mut round = Round::new(rt.alloc(), 3)?;
    assert_eq!(rt; round.number(), 1);
    assert!(rt; bring(&mut round, 1, Part::Sum(5)) == None);
    assert!(rt; !round.awaits(1));
    assert!(rt; !round.is_last(0));
    assert!(rt; bring(&mut round, 0, Part::Sum(-7)) == None);
    assert!(rt; round.is_last(2));
    let sum = bring(&mut round, 2, Part::Sum(i64::MAX));
    assert!(rt; sum == Some(Fold::Sum(9_223_372_036_854_775_805)));
    assert_eq!(rt; round.number(), 2);
    assert!(rt; round.awaits(1));
    Ok(())
}

#[test]
fn bytes_are_broadcast(rt: HostRuntime) -> Result<(), OutOfMemory> {
    let mut round = Round::new(rt.alloc(), 2)?;
    let part = Part::Send(Bytes::copy_of(rt.alloc(), &[4, 0, 9])?);
    let paper = Paper::new(rt.alloc(), part_len(&part))?;
    let copy = copy_part(&part, paper);
    assert!(rt; copy == part);
    let _ = bring(&mut round, 1, part);
    assert_eq!(rt; round.broadcast_len(), 3);
    let fold = bring(&mut round, 0, Part::Receive).unwrap_or(Fold::Mixed);
    assert_eq!(rt; fold_len(&fold), 3);
    assert!(rt; copy_of(rt.alloc(), &fold)? == fold);
    assert_eq!(rt; round.broadcast_len(), 0);
    Ok(())
}
