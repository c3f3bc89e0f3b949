//! What a round gives: the fold of its parts, one of each node.
ghost use Rattle.std.specs.Prelude.{◌≡◌, ◌≤◌, ◌*◌, pos, None, length, nat_le, slice_index_or, if◌then◌else◌};
ghost use Rattle.std.specs.Bool.{MatchBool};
ghost use Rattle.std.specs.List.{list_all};
ghost use Rattle.std.specs.Option.{option_map_or, option_copied};
ghost use Rattle.crl_model.specs.declared.collective.Part.{Part};
ghost use Rattle.crl_machine.specs.declared.node_row.NodeRow.{NodeRow};
ghost use Rattle.crl_model.specs.declared.TheConstants.{NODE_LIMIT};
ghost use Rattle.crl_model.specs.declared.collective.Fold.{Fold};
ghost use Rattle.crl_model.specs.FoldOf.{are_barriers, sum_from, least_from, greatest_from, sent_from, fold_of};
ghost use Rattle.crl_machine.specs.Rounds.{cames, parts_in};

use crate::node_row::NodeRow;
use crl_model::bytes::Bytes;
use crl_model::collective::{Fold, Part};

/// Whether the round with `k` before it gives this; a node that didn't come to it brings a barrier.
pub fn gives(rows: &[NodeRow], k: usize, fold: &Fold) -> bool
    requires { length rows.now ≤ NODE_LIMIT }
    ensures { MatchBool result (fold.now ≡ fold_of (parts_in Part.Barrier k (cames rows.now))) (fold.now ≡ fold_of (parts_in Part.Barrier k (cames rows.now)) → ⊥) }
{
    let Some(first) = rows.first() else {
        return *fold == Fold::Mixed;
    };
    let none = Part::Barrier;
    match part_in(first, k, &none) {
        Part::Barrier => *fold == barrier_of(rows, k, &none),
        Part::Send(_) | Part::Receive => gives_bytes(sent_of(rows, k, &none), fold),
        Part::Sum(_) => *fold == sum_of(rows, k, &none),
        Part::Min(value) => *fold == least_of(*value, rows, k, &none),
        Part::Max(value) => *fold == greatest_of(*value, rows, k, &none),
    }
}

/// Whether the bytes that one node sends give this.
fn gives_bytes(sent: Option<&Bytes>, fold: &Fold) -> bool
    ensures { MatchBool result (fold.now ≡ option_map_or Fold.Broadcast (option_copied sent.entry) Fold.Mixed) (fold.now ≡ option_map_or Fold.Broadcast (option_copied sent.entry) Fold.Mixed → ⊥) }
{
    match (sent, fold) {
        (Some(bytes), Fold::Broadcast(given)) => *bytes == *given,
        (None, Fold::Mixed) => true,
        _ => false,
    }
}

/// Whether every node came to the round.
pub fn have_come(rows: &[NodeRow], round: u64) -> bool
    ensures { result ≡ list_all (λ (row : NodeRow). nat_le round (length row.came.items)) rows.now }
{
    rows.iter().all(|row| round <= row.came.len() as u64)
}

/// The part with which the row's node came to the round.
fn part_in<'a>(row: &'a NodeRow, k: usize, last: &'a Part) -> &'a Part
    ensures { result.now ≡ slice_index_or row.now.came.items k last.now }
{
    match row.came.get(k) {
        Some(part) => part,
        None => last,
    }
}

fn barrier_of(rows: &[NodeRow], k: usize, last: &Part) -> Fold
    ensures { result ≡ (if are_barriers (parts_in last.now k (cames rows.now)) then Fold.Barrier else Fold.Mixed) }
{
    for row in rows {
        match part_in(row, k, last) {
            Part::Barrier => {}
            _ => return Fold::Mixed,
        }
    }
    Fold::Barrier
}

fn sum_of(rows: &[NodeRow], k: usize, last: &Part) -> Fold
    requires { length rows.now ≤ NODE_LIMIT }
    ensures { result ≡ option_map_or Fold.Sum (sum_from (pos 0) (parts_in last.now k (cames rows.now))) Fold.Mixed }
{
    let mut sum: i128 = 0;
    for row in rows {
        match part_in(row, k, last) {
            Part::Sum(value) => sum += i128::from(*value),
            _ => return Fold::Mixed,
        }
    }
    Fold::Sum(sum)
}

fn least_of(first: i64, rows: &[NodeRow], k: usize, last: &Part) -> Fold
    ensures { result ≡ option_map_or Fold.Min (least_from first (parts_in last.now k (cames rows.now))) Fold.Mixed }
{
    let mut least = first;
    for row in rows {
        match part_in(row, k, last) {
            Part::Min(value) => least = least.min(*value),
            _ => return Fold::Mixed,
        }
    }
    Fold::Min(least)
}

fn greatest_of(first: i64, rows: &[NodeRow], k: usize, last: &Part) -> Fold
    ensures { result ≡ option_map_or Fold.Max (greatest_from first (parts_in last.now k (cames rows.now))) Fold.Mixed }
{
    let mut greatest = first;
    for row in rows {
        match part_in(row, k, last) {
            Part::Max(value) => greatest = greatest.max(*value),
            _ => return Fold::Mixed,
        }
    }
    Fold::Max(greatest)
}

/// The bytes that one node sends, where all others receive.
fn sent_of<'a>(rows: &'a [NodeRow], k: usize, last: &'a Part) -> Option<&'a Bytes>
    ensures { option_copied result ≡ sent_from None (parts_in last.now k (cames rows.now)) }
{
    let mut sent: Option<&'a Bytes> = None;
    for row in rows {
        match part_in(row, k, last) {
            Part::Send(bytes) => {
                if sent.is_some() {
                    return None;
                }
                sent = Some(bytes);
            }
            Part::Receive => {}
            _ => return None,
        }
    }
    sent
}
