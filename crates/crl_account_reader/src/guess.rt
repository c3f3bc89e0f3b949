//! Guesses at the line that some words are. `rest` is what stands behind the space after the word that
//! was read last, if a space stands there.
ghost use Rattle.std.specs.Prelude.{◌≡◌, ◌^◌, ◌<◌, ◌∷◌, IfSome, option_map};
ghost use Rattle.std.specs.Option.{option_copied};
ghost use Rattle.crl_account_reader.specs.Reading.{parts_in, Gives};
ghost use Rattle.crl_account_reader.specs.Guess as guess;

use crate::fault::LineFault;
use crate::field::{COUNTS, cut, name, number, three, two};
use crate::what::{name_and_bytes, what_by};
use crate::words::verb_of;
use crl_account::Line;
use crl_model::NodeNo;
use crl_model::entry::Entry;
use std::alloc::Global;

/// One more than the largest number of a node.
const NODES: u128 = 0x1_0000;

/// The line of an entry.
#[tactic(auto, unfolding(crate::specs::Guess::entry_by))]
fn entry_by(alloc: Global, first: &[u8], rest: Option<&[u8]>) -> Result<Line, LineFault>
    ensures { Gives result (guess.entry_by first.now (parts_in 32 (option_copied rest.entry))) }
{
    let Some(text) = rest else {
        return Err(LineFault::Bad);
    };
    let (word, rest) = cut(text, b' ');
    let node = number(first, NODES).ok_or(LineFault::Bad)? as NodeNo;
    let verb = verb_of(word).ok_or(LineFault::Bad)?;
    let what = what_by(alloc, verb, rest)?;
    Ok(Line::Entry(Entry { node, what }))
}

/// The line of a region, by the words behind `region`.
#[tactic(auto, unfolding(crate::specs::Guess::region_by))]
fn region_by(alloc: Global, rest: Option<&[u8]>) -> Result<Line, LineFault>
    ensures { Gives result (guess.region_by (parts_in 32 (option_copied rest.entry))) }
{
    let (name, bytes) = name_and_bytes(alloc, rest)?;
    Ok(Line::Region { name, bytes })
}

/// A node that waits for a round, by the words behind `round`.
#[tactic(auto, unfolding(crate::specs::Guess::stuck_round_by))]
fn stuck_round_by(node: NodeNo, rest: Option<&[u8]>) -> Option<Line>
    ensures { result ≡ guess.stuck_round_by node (parts_in 32 (option_copied rest.entry)) }
{
    let (round, _, absent) = three(rest, b' ')?;
    let round = number(round, COUNTS)? as u64;
    let absent = number(absent, NODES)? as NodeNo;
    Some(Line::StuckRound {
        node,
        round,
        absent,
    })
}

/// A node that waits for a section, by the name's word and the words behind.
#[tactic(auto, unfolding(crate::specs::Guess::stuck_section_by))]
fn stuck_section_by(node: NodeNo, word: &[u8], rest: Option<&[u8]>) -> Option<Line>
    ensures { result ≡ guess.stuck_section_by node word.now (parts_in 32 (option_copied rest.entry)) }
{
    let (_, holder) = two(rest, b' ')?;
    let name = name(word)?;
    let holder = number(holder, NODES)? as NodeNo;
    Some(Line::StuckSection { node, name, holder })
}

/// What a node waits for, by the words behind its number.
#[tactic(auto, unfolding(crate::specs::Guess::stuck_at))]
fn stuck_at(node: NodeNo, rest: Option<&[u8]>) -> Option<Line>
    ensures { result ≡ guess.stuck_at node (parts_in 32 (option_copied rest.entry)) }
{
    let (word, rest) = cut(rest?, b' ');
    if word == b"round".as_slice() {
        stuck_round_by(node, rest)
    } else {
        stuck_section_by(node, word, rest)
    }
}

/// The line of a stuck node, by the words behind `stuck`.
#[tactic(auto, unfolding(crate::specs::Guess::stuck_by))]
fn stuck_by(rest: Option<&[u8]>) -> Option<Line>
    ensures { result ≡ guess.stuck_by (parts_in 32 (option_copied rest.entry)) }
{
    let (word, rest) = cut(rest?, b' ');
    let node = number(word, NODES)? as NodeNo;
    stuck_at(node, rest)
}

/// The line of counts, by the words behind `events`.
#[tactic(auto, unfolding(crate::specs::Guess::counts_by))]
fn counts_by(rest: Option<&[u8]>) -> Option<Line>
    ensures { result ≡ guess.counts_by (parts_in 32 (option_copied rest.entry)) }
{
    let (events, _, messages) = three(rest, b' ')?;
    let events = number(events, COUNTS)? as u64;
    let messages = number(messages, COUNTS)? as u64;
    Some(Line::Counts { events, messages })
}

/// The line, by its words.
#[tactic(auto, unfolding(crate::specs::Guess::line_of, crate::specs::Guess::line_by))]
pub(crate) fn guess_line(alloc: Global, text: &[u8]) -> Result<Line, LineFault>
    ensures { Gives result (guess.line_of text.now) }
{
    let (word, rest) = cut(text, b' ');
    if word == b"region".as_slice() {
        region_by(alloc, rest)
    } else if word == b"stuck".as_slice() {
        stuck_by(rest).ok_or(LineFault::Bad)
    } else if word == b"events".as_slice() {
        counts_by(rest).ok_or(LineFault::Bad)
    } else {
        entry_by(alloc, word, rest)
    }
}
