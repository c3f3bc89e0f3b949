//! The list of `order picks`: values joined by commas, each of which may say how often it stands.
ghost use Rattle.std.specs.Prelude.{◌≡◌, ◌==◌, IfOk, map, option_map};
ghost use Rattle.std.specs.List.{slice_split};
ghost use Rattle.crl_script.specs.Words.{natural_of};
ghost use Rattle.crl_commands.specs.Picks.{item_of, picks_of, value_times};

use crl_model::OutOfMemory;
use crl_script::natural;
use std::alloc::Global;

/// The most values of a list.
const PICK_LIMIT: usize = 1_000_000;

/// The values that a list stands for.
///
/// # Errors
///
/// `OutOfMemory`.
pub(crate) fn picks_of(alloc: Global, list: &str) -> Result<Option<Vec<u32>>, OutOfMemory>
    ensures { IfOk result (λ r. option_map (λ v. v.items) r ≡ picks_of list.now) }
{
    let items = items_of(alloc, list)?;
    let mut values: Vec<u32> = Vec::new(alloc);
    for item in &items {
        match item_of(item) {
            Some((value, times)) if times <= (PICK_LIMIT - values.len()) as u128 => {
                values.resize(values.len() + times as usize, value)?;
            }
            _ => return Ok(None),
        }
    }
    Ok(Some(values))
}

/// The items, which stand between commas.
fn items_of(alloc: Global, list: &str) -> Result<Vec<&str>, OutOfMemory>
    ensures { IfOk result (λ v. map (λ x. x.now) v.items ≡ slice_split (λ byte. byte == 44) list.now) }
{
    list.split(',').collect(alloc)
}

/// The value of an item, and how often it stands.
fn item_of(item: &str) -> Option<(u32, u128)>
    ensures { result ≡ item_of item.now }
{
    match item.split_once('*') {
        Some((value, times)) => value_times(value, natural(times.as_bytes())?),
        None => value_times(item, 1),
    }
}

/// The value that a word is, with the number of times.
fn value_times(value: &str, times: u128) -> Option<(u32, u128)>
    ensures { result ≡ value_times (natural_of value.now) (Some times) }
{
    match natural(value.as_bytes()) {
        Some(value) if value <= u32::MAX as u128 && times >= 1 => Some((value as u32, times)),
        _ => None,
    }
}
