//! Pages of whole cases.

use crate::trial::answered;
use crl_model::OutOfMemory;
use std::alloc::Global;

/// Nothing where each case of a page is answered as it says, and else the first that isn't, with its answer.
///
/// A case is what it shows, the words, the input, the exit status and the output, with a bar between two. One line
/// feed in front of the input is no part of it, and one stands in front of the output. There is a percent sign between
/// two cases.
pub fn first_wrong(alloc: Global, page: &str) -> Result<String, OutOfMemory> {
    for case in page.split('%') {
        let wrong = wrong_in(alloc, case)?;
        if !wrong.is_empty() {
            return Ok(wrong);
        }
    }
    Ok(String::new(alloc))
}

/// Nothing where the case is answered as it says, and else the case and its answer.
fn wrong_in(alloc: Global, case: &str) -> Result<String, OutOfMemory> {
    let parts = case.split('|').collect::<Vec<&str>>(alloc)?;
    match parts.as_slice() {
        [_, words, input, code, output] => {
            let wanted = format!(in alloc; "{code}|{output}")?;
            wrong_of(alloc, case, words, without_feed(input), wanted.as_str())
        }
        _ => format!(in alloc; "{case}\n\nhas not five parts"),
    }
}

/// Nothing where the words give what is wanted for the input, and else the case and what they give.
pub fn wrong_of(
    alloc: Global,
    case: &str,
    words: &str,
    input: &str,
    wanted: &str,
) -> Result<String, OutOfMemory> {
    let seen = answered(alloc, words, input.as_bytes())?;
    if seen.as_str() == wanted {
        return Ok(String::new(alloc));
    }
    format!(in alloc; "{case}\n\ngave\n\n{seen}")
}

/// The text without a line feed at its front.
pub fn without_feed(text: &str) -> &str {
    text.strip_prefix('\n').unwrap_or(text)
}
