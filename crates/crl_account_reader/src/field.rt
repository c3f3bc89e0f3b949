//! Guesses at what a word stands for. A guess is right wherever the word is what would be written, and
//! may take other words too: a line that is guessed is written again, and held against its text.
ghost use Rattle.std.specs.Prelude.{◌≡◌, ◌+◌, ◌^◌, ◌<◌, ◌≤◌, ◌∷◌, length, IfSome, pos, ◌≤ℤ◌, ◌<ℤ◌, option_map};
ghost use Rattle.std.specs.Option.{option_copied};
ghost use Rattle.std.proofs.Math.IntN.{neg_ℤ};
ghost use Rattle.crl_account.specs.Parts.{parts};
ghost use Rattle.crl_account_reader.specs.Reading as reading;
ghost use Rattle.crl_account_reader.specs.Reading.{parts_in, Gives, number_of, value_of, name_of, bytes_of};

use crate::fault::LineFault;
use crl_model::bytes::Bytes;
use crl_model::name::Name;
use hex::FromHexError;
use std::alloc::Global;

/// The part of a text before a byte, and what follows that byte.
pub(crate) fn cut(text: &[u8], separator: u8) -> (&[u8], Option<&[u8]>)
    ensures first { parts separator text.now ≡ result.0.now ∷ parts_in separator (option_copied result.1) }
    ensures shorter { IfSome (option_copied result.1) (λ more. length more < length text.now) }
{
    for (i, byte) in text.iter().enumerate() {
        if *byte == separator {
            return (&text[..i], Some(&text[i + 1..]));
        }
    }
    (text, None)
}

/// Nothing, where there is no part.
#[tactic(auto, using(crate::proofs::Parts::nothing_of_parts))]
pub(crate) fn nothing(rest: Option<&[u8]>) -> Option<()>
    ensures { result ≡ reading.nothing (parts_in 32 (option_copied rest.entry)) }
{
    match rest {
        None => Some(()),
        Some(_) => None,
    }
}

/// The one part.
#[tactic(auto, using(crate::proofs::Parts::only_of_parts))]
pub(crate) fn only(rest: Option<&[u8]>, separator: u8) -> Option<&[u8]>
    ensures { option_copied result ≡ reading.only (parts_in separator (option_copied rest.entry)) }
{
    let (word, rest) = cut(rest?, separator);
    match rest {
        None => Some(word),
        Some(_) => None,
    }
}

/// The two parts.
pub(crate) fn two(rest: Option<&[u8]>, separator: u8) -> Option<(&[u8], &[u8])>
    ensures { option_map (λ p. (p.0.now, p.1.now)) result ≡ reading.two (parts_in separator (option_copied rest.entry)) }
{
    let (first, rest) = cut(rest?, separator);
    let second = only(rest, separator)?;
    Some((first, second))
}

/// The three parts.
pub(crate) fn three(rest: Option<&[u8]>, separator: u8) -> Option<(&[u8], &[u8], &[u8])>
    ensures { option_map (λ p. (p.0.now, p.1.now, p.2.now)) result ≡ reading.three (parts_in separator (option_copied rest.entry)) }
{
    let (first, rest) = cut(rest?, separator);
    let (second, third) = two(rest, separator)?;
    Some((first, second, third))
}

/// One more than the largest number of a round, and the largest count.
pub(crate) const COUNTS: u128 = 0x1_0000_0000_0000_0000;

/// More than a tenth of the largest limit of a number.
const LARGE: u128 = 0x1000_0000_0000_0000_0000_0000_0000_0000;

/// The number below the limit.
#[tactic(auto, unfolding(crate::specs::Reading::number_of, crate::specs::Reading::digits_from))]
pub(crate) fn number(word: &[u8], limit: u128) -> Option<u128>
    requires { (0 < limit) × (limit ≤ 2 ^ 127 + 1) }
    ensures value { result ≡ number_of limit word.now }
    ensures below { IfSome result (λ n. n < limit) }
{
    let mut value: u128 = 0;
    for byte in word {
        if !(*byte >= b'0' && *byte <= b'9') || value >= LARGE {
            return None;
        }
        value = value * 10 + (*byte - b'0') as u128;
        if value >= limit {
            return None;
        }
    }
    Some(value)
}

/// The number below 0 of this size, or 0.
fn negative(size: u128) -> i128
    requires { size ≤ 2 ^ 127 }
    ensures { result ≡ neg_ℤ (pos size) }
{
    if size == 0 {
        0
    } else {
        -((size - 1) as i128) - 1
    }
}

/// The number from -bound to bound - 1.
#[tactic(auto, unfolding(crate::specs::Reading::value_of))]
pub(crate) fn value(word: &[u8], bound: u128) -> Option<i128>
    requires { (0 < bound) × (bound ≤ 2 ^ 127) }
    ensures value { result ≡ value_of bound word.now }
    ensures within { IfSome result (λ z. (neg_ℤ (pos bound) ≤ℤ z) × (z <ℤ pos bound)) }
{
    if let [b'-', digits @ ..] = word {
        Some(negative(number(digits, bound + 1)?))
    } else {
        Some(number(word, bound)? as i128)
    }
}

/// The name of a region.
#[tactic(auto, unfolding(crate::specs::Reading::name_of))]
pub(crate) fn name(word: &[u8]) -> Option<Name>
    ensures { result ≡ name_of word.now }
{
    let (home, serial) = two(Some(word), b':')?;
    let home = number(home, 0x1_0000)? as u16;
    let serial = number(serial, 0x1_0000_0000)? as u32;
    Some(Name { home, serial })
}

/// The bytes of two digits each.
#[tactic(auto, unfolding(crate::specs::Reading::bytes_of))]
pub(crate) fn bytes(alloc: Global, word: &[u8]) -> Result<Bytes, LineFault>
    ensures { Gives result (bytes_of word.now) }
{
    match hex::decode(alloc, word) {
        Ok(items) => Ok(Bytes::from_vec(items)),
        Err(FromHexError::OutOfMemory) => Err(LineFault::OutOfMemory),
        Err(_) => Err(LineFault::Bad),
    }
}
