//! The words of entries, calls and refusals, read.
ghost use Rattle.std.specs.Prelude.{◌≡◌};
ghost use Rattle.crl_account_reader.specs.Words as reading;

use crl_account::{call_word, refusal_word};
use crl_model::call::{CallKind, Refusal};

/// The words behind the number of a node, and those behind `come`.
#[derive(Clone, Copy, Debug, PartialEq, Eq)]
pub(crate) enum Verb {
    StartRead,
    Read,
    StartWrite,
    Write,
    Create,
    Map,
    Unmap,
    Flush,
    Deleting,
    Deleted,
    Come,
    Barrier,
    Broadcast,
    Send,
    Receive,
    Sum,
    Min,
    Max,
    Refused,
}

/// All verbs.
const VERBS: [Verb; 19] = [
    Verb::StartRead,
    Verb::Read,
    Verb::StartWrite,
    Verb::Write,
    Verb::Create,
    Verb::Map,
    Verb::Unmap,
    Verb::Flush,
    Verb::Deleting,
    Verb::Deleted,
    Verb::Come,
    Verb::Barrier,
    Verb::Broadcast,
    Verb::Send,
    Verb::Receive,
    Verb::Sum,
    Verb::Min,
    Verb::Max,
    Verb::Refused,
];

/// All kinds of calls.
const KINDS: [CallKind; 17] = [
    CallKind::Create,
    CallKind::Delete,
    CallKind::Map,
    CallKind::Unmap,
    CallKind::Read,
    CallKind::EndRead,
    CallKind::Write,
    CallKind::Put,
    CallKind::Add,
    CallKind::EndWrite,
    CallKind::Flush,
    CallKind::Barrier,
    CallKind::Send,
    CallKind::Receive,
    CallKind::Sum,
    CallKind::Min,
    CallKind::Max,
];

/// All reasons of refusals.
const REASONS: [Refusal; 13] = [
    Refusal::BadSize,
    Refusal::NamesSpent,
    Refusal::Unknown,
    Refusal::Deleted,
    Refusal::NotMapped,
    Refusal::SectionOpen,
    Refusal::NotReading,
    Refusal::NotWriting,
    Refusal::InSection,
    Refusal::OutOfRange,
    Refusal::WrongSize,
    Refusal::TooMany,
    Refusal::Mixed,
];

/// The word of a verb.
fn verb_word(verb: Verb) -> &'static str
    ensures { result.now ≡ reading.verb_word verb }
{
    match verb {
        Verb::StartRead => "startread",
        Verb::Read => "read",
        Verb::StartWrite => "startwrite",
        Verb::Write => "write",
        Verb::Create => "create",
        Verb::Map => "map",
        Verb::Unmap => "unmap",
        Verb::Flush => "flush",
        Verb::Deleting => "deleting",
        Verb::Deleted => "deleted",
        Verb::Come => "come",
        Verb::Barrier => "barrier",
        Verb::Broadcast => "broadcast",
        Verb::Send => "send",
        Verb::Receive => "receive",
        Verb::Sum => "sum",
        Verb::Min => "min",
        Verb::Max => "max",
        Verb::Refused => "refused",
    }
}

/// The verb of a word.
#[tactic(auto, unfolding(crate::specs::Words::verb_of))]
pub(crate) fn verb_of(word: &[u8]) -> Option<Verb>
    ensures { result ≡ reading.verb_of word.now }
{
    VERBS
        .iter()
        .copied()
        .find(|verb| verb_word(*verb).as_bytes() == word)
}

/// The kind of call of a script's word.
#[tactic(auto, unfolding(crate::specs::Words::kind_of))]
pub(crate) fn kind_of(word: &[u8]) -> Option<CallKind>
    ensures { result ≡ reading.kind_of word.now }
{
    KINDS
        .iter()
        .copied()
        .find(|kind| call_word(*kind).as_bytes() == word)
}

/// The reason of a refusal's word.
#[tactic(auto, unfolding(crate::specs::Words::refusal_of))]
pub(crate) fn refusal_of(word: &[u8]) -> Option<Refusal>
    ensures { result ≡ reading.refusal_of word.now }
{
    REASONS
        .iter()
        .copied()
        .find(|why| refusal_word(*why).as_bytes() == word)
}
