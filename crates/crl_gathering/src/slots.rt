//! The places for the parts of a round.
ghost use Rattle.std.specs.Prelude.{◌≡◌, ℕ, ◌+◌, ◌<◌, ◌≤◌, List, IfOk, None, length};
ghost use Rattle.crl_model.specs.declared.collective.Part.{Part};
ghost use Rattle.crl_model.specs.FoldOf.{fold_of};
ghost use Rattle.crl_protocol.specs.Places.{at};
ghost use Rattle.crl_gathering.specs.Lengths.{longest_sent, slot_bytes};
ghost use Rattle.crl_gathering.specs.RoundState.{are_there, others_there, with_present, present};
ghost use Rattle.crl_gathering.specs.Tallies.{tally_gives, IsWithin};

use crate::tally::Tally;
use crl_model::OutOfMemory;
use crl_model::collective::{Fold, Part};
use std::alloc::Global;

/// So many places without a part.
pub(crate) fn empty_slots(alloc: Global, nodes: usize) -> Result<Vec<Option<Part>>, OutOfMemory>
    ensures nothing { IfOk result (λ slots. (n : ℕ) → at n slots.items ≡ None) }
    ensures places { IfOk result (λ slots. length slots.items ≡ nodes) }
{
    let mut slots = Vec::with_capacity(alloc, nodes)?;
    for _ in 0..nodes {
        slots.push(None)?;
    }
    Ok(slots)
}

/// Whether a part is in each place but perhaps this one.
pub(crate) fn others_there(slots: &[Option<Part>], place: usize) -> bool
    requires { place < length slots.now }
    ensures { result ≡ others_there place slots.now }
{
    slots_there(&slots[..place]) && slots_there(&slots[place + 1..])
}

/// Whether a part is in each place.
pub(crate) fn slots_there(slots: &[Option<Part>]) -> bool
    ensures { result ≡ are_there slots.now }
{
    slots.iter().all(|slot| slot.is_some())
}

/// The number of bytes that the part in the place sends.
fn slot_len(slot: &Option<Part>) -> usize
    ensures { result ≡ slot_bytes slot.now }
{
    match slot {
        Some(Part::Send(bytes)) => bytes.len(),
        _ => 0,
    }
}

/// The most bytes that one of the parts sends.
pub(crate) fn longest(slots: &[Option<Part>]) -> usize
    ensures { result ≡ longest_sent slots.now }
{
    let mut longest = 0;
    for slot in slots {
        longest = slot_len(slot).max(longest);
    }
    longest
}

/// Takes the part out of the place, if there is one.
fn add_slot(tally: Tally, slot: &mut Option<Part>) -> Tally
    requires { IsWithin 63 tally }
    ensures gives { (parts : List Part) → tally_gives result parts ≡ tally_gives tally (with_present slot.old parts) }
    ensures within { (n : ℕ) → IsWithin n tally → IsWithin (n + 1) result }
    ensures taken { slot.new ≡ None }
{
    match slot.take() {
        Some(part) => tally.add(part),
        None => tally,
    }
}

/// What the parts give, which are taken out of their places.
pub(crate) fn fold_slots(slots: &mut [Option<Part>]) -> Fold
    requires { length slots.old ≤ 64 }
    ensures fold { result ≡ fold_of (present slots.old) }
    ensures nothing { (n : ℕ) → at n slots.new ≡ None }
{
    let mut tally = Tally::Start;
    for place in 0..slots.len() {
        tally = add_slot(tally, &mut slots[place]);
    }
    tally.fold()
}
