//! The pieces of a line, each put at the end of what was written. After an error the text is of no use.
ghost use Rattle.std.specs.Prelude.{◌≡◌, ◌++◌, ◌∷◌, [], codes, decimal, OnOk};
ghost use Rattle.hex.specs.Hex.{encode_lower};
ghost use Rattle.crl_account.specs.Text.{name_text, spaced, place_text};

use crl_model::OutOfMemory;
use crl_model::entry::Place;
use crl_model::name::Name;
use itoa::{Buffer, Integer};

/// The hexadecimal digits.
const DIGITS: &[u8; 16] = b"0123456789abcdef";

/// A number in decimal.
pub(crate) fn push_number<I: Integer>(number: I, out: &mut Vec<u8>) -> Result<(), OutOfMemory>
    ensures { OnOk result (out.new.items ≡ out.old.items ++ I.text number) }
{
    let mut buffer = Buffer::new();
    out.extend_from_slice(buffer.format(number).as_bytes())?;
    Ok(())
}

/// The number of a node or of a region in decimal. Most have one digit.
pub(crate) fn push_small(number: u32, out: &mut Vec<u8>) -> Result<(), OutOfMemory>
    ensures { OnOk result (out.new.items ≡ out.old.items ++ decimal number) }
{
    if number < 10 {
        out.push(b'0' + number as u8)?;
        return Ok(());
    }
    push_number(number, out)
}

/// Two digits for each byte.
#[tactic(auto, unfolding(hex::specs::Hex::encode_with))]
pub(crate) fn push_bytes(bytes: &[u8], out: &mut Vec<u8>) -> Result<(), OutOfMemory>
    ensures { OnOk result (out.new.items ≡ out.old.items ++ encode_lower bytes.now) }
{
    for byte in bytes {
        let high = DIGITS[(*byte / 16) as usize];
        let low = DIGITS[(*byte % 16) as usize];
        out.extend_from_slice(&[high, low])?;
    }
    Ok(())
}

/// The name of a region.
pub(crate) fn push_name(name: Name, out: &mut Vec<u8>) -> Result<(), OutOfMemory>
    ensures { OnOk result (out.new.items ≡ out.old.items ++ name_text name) }
{
    push_small(name.home as u32, out)?;
    out.push(b':')?;
    push_small(name.serial, out)
}

/// A word behind a space.
pub(crate) fn space_word(word: &str, out: &mut Vec<u8>) -> Result<(), OutOfMemory>
    ensures { OnOk result (out.new.items ≡ out.old.items ++ spaced (word.now ∷ [])) }
{
    out.push(b' ')?;
    out.extend_from_slice(word.as_bytes())?;
    Ok(())
}

/// A number behind a space.
pub(crate) fn space_number<I: Integer>(number: I, out: &mut Vec<u8>) -> Result<(), OutOfMemory>
    ensures { OnOk result (out.new.items ≡ out.old.items ++ spaced (I.text number ∷ [])) }
{
    out.push(b' ')?;
    push_number(number, out)?;
    Ok(())
}

/// Bytes behind a space.
pub(crate) fn space_bytes(bytes: &[u8], out: &mut Vec<u8>) -> Result<(), OutOfMemory>
    ensures { OnOk result (out.new.items ≡ out.old.items ++ spaced (encode_lower bytes.now ∷ [])) }
{
    out.push(b' ')?;
    push_bytes(bytes, out)?;
    Ok(())
}

/// A region's name behind a space.
pub(crate) fn space_name(name: Name, out: &mut Vec<u8>) -> Result<(), OutOfMemory>
    ensures { OnOk result (out.new.items ≡ out.old.items ++ spaced (name_text name ∷ [])) }
{
    out.push(b' ')?;
    push_name(name, out)?;
    Ok(())
}

/// A region's name, or a round's number, behind a space.
pub(crate) fn space_place(place: Place, out: &mut Vec<u8>) -> Result<(), OutOfMemory>
    ensures { OnOk result (out.new.items ≡ out.old.items ++ spaced (place_text place ∷ [])) }
{
    match place {
        Place::Region(name) => space_name(name, out),
        Place::Round(round) => space_number(round, out),
    }
}
