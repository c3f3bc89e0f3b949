//! Guesses at what an entry says. `rest` is what stands behind the space after the
//! word that was read last, if a space stands there.
ghost use Rattle.std.specs.Prelude.{◌≡◌, ◌^◌, ◌<◌, ◌∷◌, IfSome, pos, ◌≤ℤ◌, ◌<ℤ◌, option_map};
ghost use Rattle.std.specs.Option.{option_copied};
ghost use Rattle.crl_account_reader.specs.Reading.{parts_in, Gives, only};
ghost use Rattle.crl_account_reader.specs.Guess as guess;

use crate::fault::LineFault;
use crate::field::{COUNTS, bytes, cut, name, nothing, number, only, three, two, value};
use crate::words::{Verb, kind_of, refusal_of, verb_of};
use crl_model::bytes::Bytes;
use crl_model::call::Refusal;
use crl_model::collective::{Fold, Part};
use crl_model::entry::{Place, What};
use crl_model::name::Name;
use std::alloc::Global;

/// One more than the largest size of a region.
const SIZES: u128 = 0x1_0000_0000;

/// What the values of a node are below.
const VALUES: u128 = 0x8000_0000_0000_0000;

/// What the sums of nodes are below.
const SUMS: u128 = 0x8000_0000_0000_0000_0000_0000_0000_0000;

/// The name that the one word is.
#[tactic(auto, unfolding(crate::specs::Guess::only_name))]
fn only_name(rest: Option<&[u8]>) -> Option<Name>
    ensures { result ≡ guess.only_name (parts_in 32 (option_copied rest.entry)) }
{
    name(only(rest, b' ')?)
}

/// The bytes that the one word is.
#[tactic(auto, unfolding(crate::specs::Guess::only_bytes))]
fn only_bytes(alloc: Global, rest: Option<&[u8]>) -> Result<Bytes, LineFault>
    ensures { Gives result (guess.only_bytes (parts_in 32 (option_copied rest.entry))) }
{
    bytes(alloc, only(rest, b' ').ok_or(LineFault::Bad)?)
}

/// The value of a node that the one word is.
#[tactic(auto, unfolding(crate::specs::Guess::only_value))]
fn only_value(rest: Option<&[u8]>) -> Option<i64>
    ensures { result ≡ guess.only_value (2 ^ 63) (parts_in 32 (option_copied rest.entry)) }
{
    Some(value(only(rest, b' ')?, VALUES)? as i64)
}

/// The sum of nodes' values that the one word is.
#[tactic(auto, unfolding(crate::specs::Guess::only_value))]
fn only_sum(rest: Option<&[u8]>) -> Option<i128>
    ensures { result ≡ guess.only_value (2 ^ 127) (parts_in 32 (option_copied rest.entry)) }
{
    value(only(rest, b' ')?, SUMS)
}

/// A name and a size, of two words.
#[tactic(auto, unfolding(crate::specs::Guess::name_and_size))]
fn name_and_size(rest: Option<&[u8]>) -> Option<(Name, u32)>
    ensures { result ≡ guess.name_and_size (parts_in 32 (option_copied rest.entry)) }
{
    let (region, size) = two(rest, b' ')?;
    let region = name(region)?;
    let size = number(size, SIZES)? as u32;
    Some((region, size))
}

/// A name and bytes, of two words.
#[tactic(auto, unfolding(crate::specs::Guess::name_and_bytes))]
pub(crate) fn name_and_bytes(alloc: Global, rest: Option<&[u8]>) -> Result<(Name, Bytes), LineFault>
    ensures { Gives result (guess.name_and_bytes (parts_in 32 (option_copied rest.entry))) }
{
    let (region, seen) = two(rest, b' ').ok_or(LineFault::Bad)?;
    let region = name(region).ok_or(LineFault::Bad)?;
    let seen = bytes(alloc, seen)?;
    Ok((region, seen))
}

/// A name and two lists of bytes, of three words.
#[tactic(auto, unfolding(crate::specs::Guess::name_and_two))]
fn name_and_two(alloc: Global, rest: Option<&[u8]>) -> Result<(Name, Bytes, Bytes), LineFault>
    ensures { Gives result (guess.name_and_two (parts_in 32 (option_copied rest.entry))) }
{
    let (region, before, after) = three(rest, b' ').ok_or(LineFault::Bad)?;
    let region = name(region).ok_or(LineFault::Bad)?;
    let before = bytes(alloc, before)?;
    let after = bytes(alloc, after)?;
    Ok((region, before, after))
}

/// What a node brings to a round, by the word for it and those behind.
#[tactic(auto, unfolding(crate::specs::Guess::part_by))]
fn part_by(alloc: Global, verb: Verb, rest: Option<&[u8]>) -> Result<Part, LineFault>
    ensures { Gives result (guess.part_by verb (parts_in 32 (option_copied rest.entry))) }
{
    match verb {
        Verb::Barrier => {
            nothing(rest).ok_or(LineFault::Bad)?;
            Ok(Part::Barrier)
        }
        Verb::Send => Ok(Part::Send(only_bytes(alloc, rest)?)),
        Verb::Receive => {
            nothing(rest).ok_or(LineFault::Bad)?;
            Ok(Part::Receive)
        }
        Verb::Sum => Ok(Part::Sum(only_value(rest).ok_or(LineFault::Bad)?)),
        Verb::Min => Ok(Part::Min(only_value(rest).ok_or(LineFault::Bad)?)),
        Verb::Max => Ok(Part::Max(only_value(rest).ok_or(LineFault::Bad)?)),
        _ => Err(LineFault::Bad),
    }
}

/// What a node brings to a round, by the words behind `come`.
#[tactic(auto, unfolding(crate::specs::Guess::part_of))]
fn part_of(alloc: Global, rest: Option<&[u8]>) -> Result<Part, LineFault>
    ensures { Gives result (guess.part_of (parts_in 32 (option_copied rest.entry))) }
{
    let Some(text) = rest else {
        return Err(LineFault::Bad);
    };
    let (word, rest) = cut(text, b' ');
    let verb = verb_of(word).ok_or(LineFault::Bad)?;
    part_by(alloc, verb, rest)
}

/// What a round gives, by the word for it and those behind the round's number.
#[tactic(auto, unfolding(crate::specs::Guess::fold_by))]
fn fold_by(alloc: Global, verb: Verb, rest: Option<&[u8]>) -> Result<Fold, LineFault>
    ensures { Gives result (guess.fold_by verb (parts_in 32 (option_copied rest.entry))) }
{
    match verb {
        Verb::Barrier => {
            nothing(rest).ok_or(LineFault::Bad)?;
            Ok(Fold::Barrier)
        }
        Verb::Broadcast => Ok(Fold::Broadcast(only_bytes(alloc, rest)?)),
        Verb::Sum => Ok(Fold::Sum(only_sum(rest).ok_or(LineFault::Bad)?)),
        Verb::Min => Ok(Fold::Min(only_value(rest).ok_or(LineFault::Bad)?)),
        Verb::Max => Ok(Fold::Max(only_value(rest).ok_or(LineFault::Bad)?)),
        _ => Err(LineFault::Bad),
    }
}

/// What a round gives, by the word for it and those behind.
#[tactic(auto, unfolding(crate::specs::Guess::came_by))]
fn came_by(alloc: Global, verb: Verb, rest: Option<&[u8]>) -> Result<What, LineFault>
    ensures { Gives result (guess.came_by verb (parts_in 32 (option_copied rest.entry))) }
{
    let Some(text) = rest else {
        return Err(LineFault::Bad);
    };
    let (word, rest) = cut(text, b' ');
    let round = number(word, COUNTS).ok_or(LineFault::Bad)? as u64;
    let fold = fold_by(alloc, verb, rest)?;
    Ok(What::Came { round, fold })
}

/// What a refused call was about.
#[tactic(auto, unfolding(crate::specs::Guess::place_of))]
fn place_of(why: Refusal, word: &[u8]) -> Option<Place>
    ensures { result ≡ guess.place_of why word.now }
{
    match why {
        Refusal::WrongSize | Refusal::Mixed => Some(Place::Round(number(word, COUNTS)? as u64)),
        _ => Some(Place::Region(name(word)?)),
    }
}

/// A refused call, by the words behind `refused`.
#[tactic(auto, unfolding(crate::specs::Guess::refused_of))]
fn refused_of(rest: Option<&[u8]>) -> Option<What>
    ensures { result ≡ guess.refused_of (parts_in 32 (option_copied rest.entry)) }
{
    let (kind, place, why) = three(rest, b' ')?;
    let kind = kind_of(kind)?;
    let why = refusal_of(why)?;
    let place = place_of(why, place)?;
    Some(What::Refused { kind, place, why })
}

/// What an entry says that is only about a region.
fn about(verb: Verb, rest: Option<&[u8]>) -> Option<What>
    ensures { result ≡ guess.about verb (parts_in 32 (option_copied rest.entry)) }
{
    let name = only_name(rest)?;
    match verb {
        Verb::Unmap => Some(What::Unmap { name }),
        Verb::StartRead => Some(What::StartRead { name }),
        Verb::StartWrite => Some(What::StartWrite { name }),
        Verb::Flush => Some(What::Flush { name }),
        Verb::Deleting => Some(What::Deleting { name }),
        Verb::Deleted => Some(What::Deleted { name }),
        _ => None,
    }
}

/// What an entry says, by its verb and the words behind.
#[tactic(auto, unfolding(crate::specs::Guess::what_by))]
pub(crate) fn what_by(alloc: Global, verb: Verb, rest: Option<&[u8]>) -> Result<What, LineFault>
    ensures { Gives result (guess.what_by verb (parts_in 32 (option_copied rest.entry))) }
{
    match verb {
        Verb::Create => {
            let (name, size) = name_and_size(rest).ok_or(LineFault::Bad)?;
            Ok(What::Create { name, size })
        }
        Verb::Map => {
            let (name, size) = name_and_size(rest).ok_or(LineFault::Bad)?;
            Ok(What::Map { name, size })
        }
        Verb::Read => {
            let (name, seen) = name_and_bytes(alloc, rest)?;
            Ok(What::Read { name, seen })
        }
        Verb::Write => {
            let (name, before, after) = name_and_two(alloc, rest)?;
            Ok(What::Write {
                name,
                before,
                after,
            })
        }
        Verb::Come => {
            let part = part_of(alloc, rest)?;
            Ok(What::Come { part })
        }
        Verb::Refused => refused_of(rest).ok_or(LineFault::Bad),
        Verb::Unmap
        | Verb::StartRead
        | Verb::StartWrite
        | Verb::Flush
        | Verb::Deleting
        | Verb::Deleted => about(verb, rest).ok_or(LineFault::Bad),
        _ => came_by(alloc, verb, rest),
    }
}
