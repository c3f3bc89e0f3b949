//! Which entries and lines can be read again.
ghost use Rattle.std.specs.Prelude.{◌≡◌, ◌≢◌, ◌↔◌, [], IsTrue};
ghost use Rattle.hex.specs.Hex.{IsBytes};
ghost use Rattle.crl_account.specs.Text.{IsPrintable, IsPrintableWhat, IsPrintablePart, IsPrintableFold, is_round, is_of_round};
ghost use Rattle.crl_account.specs.Account.{FitsName, FitsPlace, FitsPart, FitsFold, FitsWhat, FitsEntry, FitsLine, IsPrintableLine};

use crate::line::Line;
use crl_model::call::Refusal;
use crl_model::collective::{Fold, Part};
use crl_model::entry::{Entry, Place, What};

/// Whether there is a byte. Each is below 256.
pub(crate) fn is_filled(bytes: &[u8]) -> bool
    ensures some { IsTrue result ↔ (bytes.now ≢ []) }
    ensures fits { IsBytes bytes.now }
{
    !bytes.is_empty()
}

/// Whether the place is a round. Its numbers are in range.
fn is_place_round(place: &Place) -> bool
    ensures round { result ≡ is_round place.now }
    ensures fits { FitsPlace place.now }
{
    match place {
        Place::Region(name) => {
            let _numbers = (name.home(), name.serial());
            false
        }
        Place::Round(round) => {
            let _round = *round;
            true
        }
    }
}

/// Whether a refusal for this reason names a round.
fn is_why_of_round(why: Refusal) -> bool
    ensures { result ≡ is_of_round why }
{
    matches!(why, Refusal::WrongSize | Refusal::Mixed)
}

/// Whether the part has no empty list of bytes. Its numbers are in range.
fn is_part_printable(part: &Part) -> bool
    ensures printable { IsTrue result ↔ IsPrintablePart part.now }
    ensures fits { FitsPart part.now }
{
    match part {
        Part::Send(bytes) => is_filled(bytes.as_slice()),
        Part::Sum(value) | Part::Min(value) | Part::Max(value) => {
            let _value = *value;
            true
        }
        Part::Barrier | Part::Receive => true,
    }
}

/// Whether what a round gives is printable. Its numbers are in range.
fn is_fold_printable(fold: &Fold) -> bool
    ensures printable { IsTrue result ↔ IsPrintableFold fold.now }
    ensures fits { FitsFold fold.now }
{
    match fold {
        Fold::Broadcast(bytes) => is_filled(bytes.as_slice()),
        Fold::Sum(value) => {
            let _value = *value;
            true
        }
        Fold::Min(value) | Fold::Max(value) => {
            let _value = *value;
            true
        }
        Fold::Barrier => true,
        Fold::Mixed => false,
    }
}

/// Whether what an entry says is printable. Its numbers are in range.
fn is_what_printable(what: &What) -> bool
    ensures printable { IsTrue result ↔ IsPrintableWhat what.now }
    ensures fits { FitsWhat what.now }
{
    match what {
        What::Create { name, size } | What::Map { name, size } => {
            let _numbers = (name.home(), name.serial());
            let _size = *size;
            true
        }
        What::Read { name, seen } => {
            let _numbers = (name.home(), name.serial());
            is_filled(seen.as_slice())
        }
        What::Write {
            name,
            before,
            after,
        } => {
            let _numbers = (name.home(), name.serial());
            let begun = is_filled(before.as_slice());
            let ended = is_filled(after.as_slice());
            begun && ended
        }
        What::Unmap { name }
        | What::StartRead { name }
        | What::StartWrite { name }
        | What::Flush { name }
        | What::Deleting { name }
        | What::Deleted { name } => {
            let _numbers = (name.home(), name.serial());
            true
        }
        What::Come { part } => is_part_printable(part),
        What::Came { round, fold } => {
            let _round = *round;
            is_fold_printable(fold)
        }
        What::Refused {
            kind: _,
            place,
            why,
        } => is_place_round(place) == is_why_of_round(*why),
    }
}

/// Whether the entry can be read again from its line: no list of bytes in it is empty, what its round
/// gave isn't Mixed, and what was refused is about a round exactly where the reason is WrongSize or
/// Mixed. Its numbers are within the types of their fields, as those of each entry are.
pub fn is_printable(entry: &Entry) -> bool
    ensures printable { IsTrue result ↔ IsPrintable entry.now }
    ensures fits { FitsEntry entry.now }
{
    let _node = entry.node;
    is_what_printable(&entry.what)
}

/// Whether the line can be read again. Its numbers are in range.
pub(crate) fn is_line_printable(line: &Line) -> bool
    ensures printable { IsTrue result ↔ IsPrintableLine line.now }
    ensures fits { FitsLine line.now }
{
    match line {
        Line::Entry(entry) => is_printable(entry),
        Line::Region { name, bytes } => {
            let _numbers = (name.home(), name.serial());
            is_filled(bytes.as_slice())
        }
        Line::StuckSection { node, name, holder } => {
            let _node = *node;
            let _numbers = (name.home(), name.serial());
            let _holder = *holder;
            true
        }
        Line::StuckRound {
            node,
            round,
            absent,
        } => {
            let _node = *node;
            let _round = *round;
            let _absent = *absent;
            true
        }
        Line::Counts { events, messages } => {
            let _events = *events;
            let _messages = *messages;
            true
        }
    }
}
