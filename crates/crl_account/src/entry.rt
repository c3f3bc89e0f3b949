//! The line of an entry, word by word. After an error what was written is of no use.
ghost use Rattle.std.specs.Prelude.{◌≡◌, ◌++◌, ◌∷◌, [], codes, decimal, OnOk};
ghost use Rattle.hex.specs.Hex.{encode_lower};
ghost use Rattle.crl_account.specs.Text as text;
ghost use Rattle.crl_account.specs.Text.{name_text, place_text, spaced, part_words, fold_words, what_words, entry_text};

use crate::piece::{push_small, space_bytes, space_name, space_number, space_place, space_word};
use crate::words::{call_word, refusal_word};
use crl_model::OutOfMemory;
use crl_model::call::{CallKind, Refusal};
use crl_model::collective::{Fold, Part};
use crl_model::entry::{Entry, Place, What};
use crl_model::name::Name;

/// The words of what a node brings to a round.
fn space_part(part: &Part, out: &mut Vec<u8>) -> Result<(), OutOfMemory>
    ensures { OnOk result (out.new.items ≡ out.old.items ++ spaced (part_words part.now)) }
{
    match part {
        Part::Barrier => space_word("barrier", out),
        Part::Send(bytes) => {
            space_word("send", out)?;
            space_bytes(bytes.as_slice(), out)
        }
        Part::Receive => space_word("receive", out),
        Part::Sum(value) => {
            space_word("sum", out)?;
            space_number(*value, out)
        }
        Part::Min(value) => {
            space_word("min", out)?;
            space_number(*value, out)
        }
        Part::Max(value) => {
            space_word("max", out)?;
            space_number(*value, out)
        }
    }
}

/// A word, and the number of a round.
fn space_round(word: &str, round: u64, out: &mut Vec<u8>) -> Result<(), OutOfMemory>
    ensures { OnOk result (out.new.items ≡ out.old.items ++ spaced (word.now ∷ decimal round ∷ [])) }
{
    space_word(word, out)?;
    space_number(round, out)
}

/// The words of what a broadcast's round gives.
fn space_broadcast(round: u64, bytes: &[u8], out: &mut Vec<u8>) -> Result<(), OutOfMemory>
    ensures { OnOk result (out.new.items ≡ out.old.items
        ++ spaced (codes "broadcast" ∷ decimal round ∷ encode_lower bytes.now ∷ [])) }
{
    space_round("broadcast", round, out)?;
    space_bytes(bytes, out)
}

/// The words of what a round gives.
fn space_fold(round: u64, fold: &Fold, out: &mut Vec<u8>) -> Result<(), OutOfMemory>
    ensures { OnOk result (out.new.items ≡ out.old.items ++ spaced (fold_words round fold.now)) }
{
    match fold {
        Fold::Barrier => space_round("barrier", round, out),
        Fold::Broadcast(bytes) => space_broadcast(round, bytes.as_slice(), out),
        Fold::Sum(value) => {
            space_round("sum", round, out)?;
            space_number(*value, out)
        }
        Fold::Min(value) => {
            space_round("min", round, out)?;
            space_number(*value, out)
        }
        Fold::Max(value) => {
            space_round("max", round, out)?;
            space_number(*value, out)
        }
        Fold::Mixed => space_round("mixed", round, out),
    }
}

/// A word, and the name of the region that it is about.
fn space_about(word: &str, name: Name, out: &mut Vec<u8>) -> Result<(), OutOfMemory>
    ensures { OnOk result (out.new.items ≡ out.old.items ++ spaced (word.now ∷ name_text name ∷ [])) }
{
    space_word(word, out)?;
    space_name(name, out)
}

/// The words of a refused call.
fn space_refused(
    kind: CallKind,
    place: Place,
    why: Refusal,
    out: &mut Vec<u8>,
) -> Result<(), OutOfMemory>
    ensures { OnOk result (out.new.items ≡ out.old.items
        ++ spaced (codes "refused" ∷ text.call_word kind ∷ place_text place ∷ text.refusal_word why ∷ [])) }
{
    space_word("refused", out)?;
    space_word(call_word(kind), out)?;
    space_place(place, out)?;
    space_word(refusal_word(why), out)
}

/// The words of an entry behind the number of its node.
fn space_what(what: &What, out: &mut Vec<u8>) -> Result<(), OutOfMemory>
    ensures { OnOk result (out.new.items ≡ out.old.items ++ spaced (what_words what.now)) }
{
    match what {
        What::Create { name, size } => {
            space_about("create", *name, out)?;
            space_number(*size, out)
        }
        What::Map { name, size } => {
            space_about("map", *name, out)?;
            space_number(*size, out)
        }
        What::Unmap { name } => space_about("unmap", *name, out),
        What::StartRead { name } => space_about("startread", *name, out),
        What::Read { name, seen } => {
            space_about("read", *name, out)?;
            space_bytes(seen.as_slice(), out)
        }
        What::StartWrite { name } => space_about("startwrite", *name, out),
        What::Write {
            name,
            before,
            after,
        } => {
            space_about("write", *name, out)?;
            space_bytes(before.as_slice(), out)?;
            space_bytes(after.as_slice(), out)
        }
        What::Flush { name } => space_about("flush", *name, out),
        What::Deleting { name } => space_about("deleting", *name, out),
        What::Deleted { name } => space_about("deleted", *name, out),
        What::Come { part } => {
            space_word("come", out)?;
            space_part(part, out)
        }
        What::Came { round, fold } => space_fold(*round, fold, out),
        What::Refused { kind, place, why } => space_refused(*kind, *place, *why, out),
    }
}

/// The line of an entry.
pub(crate) fn push_entry(entry: &Entry, out: &mut Vec<u8>) -> Result<(), OutOfMemory>
    ensures { OnOk result (out.new.items ≡ out.old.items ++ entry_text entry.now) }
{
    push_small(entry.node as u32, out)?;
    space_what(&entry.what, out)?;
    out.push(b'\n')?;
    Ok(())
}
