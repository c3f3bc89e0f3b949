//! The statements of a script, but for `create`.
ghost use Rattle.std.specs.Prelude.{◌≡◌};
ghost use Rattle.crl_script.specs.Labels.{known_names};
ghost use Rattle.crl_script.specs.Reading.{Gives};
ghost use Rattle.crl_script.specs.Statements.{about_of, add_of, alone_of, call_of, kind_of, one_of, put_of, statement_of, three_of};
ghost use Rattle.crl_script.specs.Text.{words_of};

use crate::fault::{LineFault, ScriptWhy};
use crate::label::{Labels, region};
use crate::line::{Words, split_words};
use crate::word::{bytes, number, short_number, value};
use crl_model::bytes::Bytes;
use crl_model::call::{Call, CallKind};
use crl_model::collective::Part;
use crl_model::name::Name;
use crl_model::statement::Statement;
use std::alloc::Global;

/// What the first word of a statement is. `create` isn't among them.
#[tactic(auto, unfolding(crate::specs::Statements::kind_of))]
pub fn kind(word: &[u8]) -> Option<CallKind>
    ensures { result ≡ kind_of word.now }
{
    if word == b"write".as_slice() {
        Some(CallKind::Write)
    } else if word == b"put".as_slice() {
        Some(CallKind::Put)
    } else if word == b"endwrite".as_slice() {
        Some(CallKind::EndWrite)
    } else if word == b"read".as_slice() {
        Some(CallKind::Read)
    } else if word == b"endread".as_slice() {
        Some(CallKind::EndRead)
    } else if word == b"add".as_slice() {
        Some(CallKind::Add)
    } else if word == b"map".as_slice() {
        Some(CallKind::Map)
    } else if word == b"unmap".as_slice() {
        Some(CallKind::Unmap)
    } else if word == b"flush".as_slice() {
        Some(CallKind::Flush)
    } else if word == b"delete".as_slice() {
        Some(CallKind::Delete)
    } else if word == b"barrier".as_slice() {
        Some(CallKind::Barrier)
    } else if word == b"send".as_slice() {
        Some(CallKind::Send)
    } else if word == b"receive".as_slice() {
        Some(CallKind::Receive)
    } else if word == b"sum".as_slice() {
        Some(CallKind::Sum)
    } else if word == b"min".as_slice() {
        Some(CallKind::Min)
    } else if word == b"max".as_slice() {
        Some(CallKind::Max)
    } else {
        None
    }
}

/// `barrier` and `receive`.
#[tactic(auto, unfolding(crate::specs::Statements::alone_of))]
fn alone(kind: CallKind) -> Result<Part, LineFault>
    ensures { Gives (λ p. p) result (alone_of kind) }
{
    match kind {
        CallKind::Barrier => Ok(Part::Barrier),
        CallKind::Receive => Ok(Part::Receive),
        _ => Err(LineFault::Bad(ScriptWhy::BadWord)),
    }
}

/// A call about a region.
#[tactic(auto, unfolding(crate::specs::Statements::call_of))]
fn call(alloc: Global, kind: CallKind, name: Name) -> Result<Call, LineFault>
    ensures { Gives (λ c. c) result (call_of kind name) }
{
    match kind {
        CallKind::Delete => Ok(Call::Delete { name }),
        CallKind::Map => Ok(Call::Map { name }),
        CallKind::Unmap => Ok(Call::Unmap { name }),
        CallKind::Flush => Ok(Call::Flush { name }),
        CallKind::Read => Ok(Call::StartRead { name }),
        CallKind::EndRead => Ok(Call::EndRead { name }),
        CallKind::Write => Ok(Call::StartWrite { name }),
        CallKind::EndWrite => Ok(Call::EndWrite {
            name,
            after: Bytes::from_vec(Vec::new(alloc)),
        }),
        _ => Err(LineFault::Bad(ScriptWhy::BadWord)),
    }
}

/// `delete L`, `map L`, `unmap L`, `flush L`, `read L`, `endread L`, `write L` and `endwrite L`.
#[tactic(auto, unfolding(crate::specs::Statements::about_of))]
fn about(
    alloc: Global,
    known: Option<&Labels<'_>>,
    kind: CallKind,
    label: &[u8],
) -> Result<Call, LineFault>
    ensures { Gives (λ c. c) result (about_of (known_names known.entry) kind label.now) }
{
    let name = region(known, label)?;
    call(alloc, kind, name)
}

/// A statement with one word behind the first.
#[tactic(auto, unfolding(crate::specs::Statements::one_of))]
fn one(
    alloc: Global,
    known: Option<&Labels<'_>>,
    kind: CallKind,
    word: &[u8],
) -> Result<Call, LineFault>
    ensures { Gives (λ c. c) result (one_of (known_names known.entry) kind word.now) }
{
    let part = match kind {
        CallKind::Send => Part::Send(bytes(alloc, word)?),
        CallKind::Sum => Part::Sum(value(word)?),
        CallKind::Min => Part::Min(value(word)?),
        CallKind::Max => Part::Max(value(word)?),
        _ => return about(alloc, known, kind, word),
    };
    Ok(Call::Come { part })
}

/// `put L OFFSET HEX`.
#[tactic(auto, unfolding(crate::specs::Statements::put_of))]
fn put(
    alloc: Global,
    known: Option<&Labels<'_>>,
    label: &[u8],
    offset: &[u8],
    hex: &[u8],
) -> Result<Statement, LineFault>
    ensures { Gives (λ s. s) result (put_of (known_names known.entry) label.now offset.now hex.now) }
{
    let name = region(known, label)?;
    let offset = short_number(offset, ScriptWhy::BadNumber)?;
    let bytes = bytes(alloc, hex)?;
    Ok(Statement::Put {
        name,
        offset,
        bytes,
    })
}

/// `add L OFFSET NUMBER`.
#[tactic(auto, unfolding(crate::specs::Statements::add_of))]
fn add(
    known: Option<&Labels<'_>>,
    label: &[u8],
    offset: &[u8],
    addend: &[u8],
) -> Result<Statement, LineFault>
    ensures { Gives (λ s. s) result (add_of (known_names known.entry) label.now offset.now addend.now) }
{
    let name = region(known, label)?;
    let offset = short_number(offset, ScriptWhy::BadNumber)?;
    let number = number(addend, u64::MAX, ScriptWhy::BadNumber)?;
    Ok(Statement::Add {
        name,
        offset,
        number,
    })
}

/// A statement with three words behind the first.
#[tactic(auto, unfolding(crate::specs::Statements::three_of))]
fn three(
    alloc: Global,
    known: Option<&Labels<'_>>,
    kind: CallKind,
    label: &[u8],
    offset: &[u8],
    last: &[u8],
) -> Result<Statement, LineFault>
    ensures { Gives (λ s. s) result (three_of (known_names known.entry) kind label.now offset.now last.now) }
{
    match kind {
        CallKind::Put => put(alloc, known, label, offset, last),
        CallKind::Add => add(known, label, offset, last),
        _ => Err(LineFault::Bad(ScriptWhy::BadWord)),
    }
}

/// The statement of a first word and the bytes behind it.
#[tactic(auto, unfolding(crate::specs::Statements::statement_of))]
pub fn statement(
    alloc: Global,
    known: Option<&Labels<'_>>,
    kind: CallKind,
    rest: &[u8],
) -> Result<Statement, LineFault>
    ensures { Gives (λ s. s) result (statement_of (known_names known.entry) kind (words_of rest.now)) }
{
    match split_words(rest) {
        Words::Empty => {
            let part = alone(kind)?;
            Ok(Statement::Call(Call::Come { part }))
        }
        Words::One(word) => Ok(Statement::Call(one(alloc, known, kind, word)?)),
        Words::Three(label, offset, last) => three(alloc, known, kind, label, offset, last),
        _ => Err(LineFault::Bad(ScriptWhy::BadWord)),
    }
}
