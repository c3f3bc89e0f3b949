//! What the parts of a round have given so far.
ghost use Rattle.std.specs.Prelude.{◌≡◌, ℕ, ◌+◌, ◌+ℤ◌, ◌∷◌, [], List};
ghost use Rattle.crl_model.specs.declared.collective.Part.{Part};
ghost use Rattle.crl_model.specs.FoldOf.{fold_of};
ghost use Rattle.crl_gathering.specs.Tallies.{tally_gives, IsSumOf, IsWithin};

use crl_model::bytes::Bytes;
use crl_model::collective::{Fold, Part};

/// What the parts that were looked at say of the fold.
#[derive(Debug, Drop)]
pub(crate) enum Tally {
    /// No part was looked at.
    Start,
    Barrier,
    /// All of them receive.
    Receive,
    /// One of them sends these bytes, and the others receive.
    Send(Bytes),
    Sum(i128),
    Min(i64),
    Max(i64),
    /// They don't agree.
    Mixed,
}

impl Tally {
    /// With one part more. The bytes of a part that sends are moved and not copied.
    pub(crate) fn add(self, part: Part) -> Tally
        requires { IsWithin 63 self }
        ensures gives { (parts : List Part) → tally_gives result parts ≡ tally_gives self (part ∷ parts) }
        ensures within { (n : ℕ) → IsWithin n self → IsWithin (n + 1) result }
    {
        match (self, part) {
            (Tally::Start, part) => first_tally(part),
            (Tally::Barrier, Part::Barrier) => Tally::Barrier,
            (Tally::Receive, Part::Receive) => Tally::Receive,
            (Tally::Receive, Part::Send(bytes)) => Tally::Send(bytes),
            (Tally::Send(bytes), Part::Receive) => Tally::Send(bytes),
            (Tally::Sum(sum), Part::Sum(value)) => Tally::Sum(with_number(sum, value)),
            (Tally::Min(least), Part::Min(value)) => Tally::Min(least.min(value)),
            (Tally::Max(greatest), Part::Max(value)) => Tally::Max(greatest.max(value)),
            _ => Tally::Mixed,
        }
    }

    /// What the parts give if no part is left.
    pub(crate) fn fold(self) -> Fold
        ensures { result ≡ tally_gives self [] }
    {
        match self {
            Tally::Barrier => Fold::Barrier,
            Tally::Send(bytes) => Fold::Broadcast(bytes),
            Tally::Sum(sum) => Fold::Sum(sum),
            Tally::Min(least) => Fold::Min(least),
            Tally::Max(greatest) => Fold::Max(greatest),
            Tally::Start | Tally::Receive | Tally::Mixed => Fold::Mixed,
        }
    }
}

/// What the first part says.
fn first_tally(part: Part) -> Tally
    ensures gives { (parts : List Part) → tally_gives result parts ≡ fold_of (part ∷ parts) }
    ensures within { (n : ℕ) → IsWithin (n + 1) result }
{
    match part {
        Part::Barrier => Tally::Barrier,
        Part::Send(bytes) => Tally::Send(bytes),
        Part::Receive => Tally::Receive,
        Part::Sum(value) => Tally::Sum(i128::from(value)),
        Part::Min(value) => Tally::Min(value),
        Part::Max(value) => Tally::Max(value),
    }
}

/// The sum with one number more.
fn with_number(sum: i128, value: i64) -> i128
    requires { IsSumOf 63 sum }
    ensures sum { result ≡ sum +ℤ value }
    ensures within { (n : ℕ) → IsSumOf n sum → IsSumOf (n + 1) result }
{
    sum + i128::from(value)
}
