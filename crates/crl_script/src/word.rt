//! What single words stand for.
ghost use Rattle.std.specs.Prelude.{◌≡◌, ◌≤◌, length, IfOk};
ghost use Rattle.std.specs.List.{list_all};
ghost use Rattle.crl_script.specs.Reading.{Gives};
ghost use Rattle.crl_script.specs.Words.{is_label, is_digit, is_label_byte, is_letter, digits_from, natural_of, number_of, value_of, bytes_of};

use crate::fault::{LineFault, ScriptWhy};
use crl_model::bytes::Bytes;
use hex::FromHexError;
use std::alloc::Global;

/// The most bytes of a label behind its first.
const LABEL_REST: usize = 31;

/// The most digits of a number.
const DIGITS: usize = 20;

/// The most that may stand behind a minus.
const MOST_BELOW: u64 = 1 << 63;

fn is_letter(b: u8) -> bool
    ensures { result ≡ is_letter b }
{
    (b >= b'A' && b <= b'Z') || (b >= b'a' && b <= b'z')
}

fn is_digit(b: u8) -> bool
    ensures { result ≡ is_digit b }
{
    b >= b'0' && b <= b'9'
}

fn is_label_byte(b: u8) -> bool
    ensures { result ≡ is_label_byte b }
{
    is_letter(b) || is_digit(b) || b == b'_'
}

/// Whether all these bytes may stand in a label behind its first.
fn all_label_bytes(bytes: &[u8]) -> bool
    ensures { result ≡ list_all is_label_byte bytes.now }
{
    bytes.iter().all(|b| is_label_byte(*b))
}

/// Whether a word is a label.
#[tactic(auto, unfolding(crate::specs::Words::is_label))]
pub fn is_label(word: &[u8]) -> bool
    ensures { result ≡ is_label word.now }
{
    match word.split_first() {
        None => false,
        Some((first, rest)) => {
            is_letter(*first) && rest.len() <= LABEL_REST && all_label_bytes(rest)
        }
    }
}

/// The number of decimal digits, of which there are at most 20.
fn digits(word: &[u8]) -> Option<u128>
    requires { length word.now ≤ 20 }
    ensures { result ≡ digits_from 0 word.now }
{
    let mut number: u128 = 0;
    for b in word {
        if !is_digit(*b) {
            return None;
        }
        number = number * 10 + (*b - b'0') as u128;
    }
    Some(number)
}

/// The number of a word of 1 to 20 decimal digits, and none of any other word.
#[tactic(auto, unfolding(crate::specs::Words::natural_of))]
pub fn natural(word: &[u8]) -> Option<u128>
    ensures { result ≡ natural_of word.now }
{
    if word.is_empty() || word.len() > DIGITS {
        return None;
    }
    digits(word)
}

/// The number that a word is, at most `limit`.
///
/// # Errors
///
/// `why`, where it is no such number.
#[tactic(auto, unfolding(crate::specs::Words::number_of))]
pub fn number(word: &[u8], limit: u64, why: ScriptWhy) -> Result<u64, LineFault>
    ensures value { Gives (λ n. n) result (number_of limit why word.now) }
    ensures within { IfOk result (λ n. n ≤ limit) }
{
    match natural(word) {
        Some(number) if number <= limit as u128 => Ok(number as u64),
        _ => Err(LineFault::Bad(why)),
    }
}

/// The number below 2^32 that a word is.
///
/// # Errors
///
/// `why`, where it is no such number.
pub fn short_number(word: &[u8], why: ScriptWhy) -> Result<u32, LineFault>
    ensures { Gives (λ n. n) result (number_of 4294967295 why word.now) }
{
    Ok(number(word, u32::MAX as u64, why)? as u32)
}

/// The number from -2^63 to 2^63 - 1 that a word is.
///
/// # Errors
///
/// `BadNumber`, where it is no such number.
#[tactic(auto, unfolding(crate::specs::Words::value_of))]
pub fn value(word: &[u8]) -> Result<i64, LineFault>
    ensures { Gives (λ n. n) result (value_of word.now) }
{
    match word.split_first() {
        None => Err(LineFault::Bad(ScriptWhy::BadNumber)),
        Some((first, rest)) => {
            if *first == b'-' {
                let number = number(rest, MOST_BELOW, ScriptWhy::BadNumber)?;
                Ok((0 - number as i128) as i64)
            } else {
                let number = number(word, i64::MAX as u64, ScriptWhy::BadNumber)?;
                Ok(number as i64)
            }
        }
    }
}

/// The bytes that a word is in hexadecimal, at least one.
///
/// # Errors
///
/// `BadHex`, where it is no such bytes.
#[tactic(auto, unfolding(crate::specs::Words::bytes_of))]
pub fn bytes(alloc: Global, word: &[u8]) -> Result<Bytes, LineFault>
    ensures { Gives (λ b. b) result (bytes_of word.now) }
{
    if word.is_empty() {
        return Err(LineFault::Bad(ScriptWhy::BadHex));
    }
    match hex::decode(alloc, word) {
        Ok(bytes) => Ok(Bytes::from_vec(bytes)),
        Err(FromHexError::OutOfMemory) => Err(LineFault::Memory),
        Err(_) => Err(LineFault::Bad(ScriptWhy::BadHex)),
    }
}
