//! Scripts and accounts that are cut, or have one byte changed. The answers that are wanted were made by
//! `reference`, which follows the documents and none of the code.

mod accounts;
mod scripts;

use crl_cases::trial::answered;
use crl_model::OutOfMemory;
use crl_script::{ScriptFault, read_script};
use std::alloc::Global;
use std::ops::Range;

/// The letters of marks, and what each stands for in front of the line's number, of scripts and of accounts.
const FAULTS: &str =
    "n=NoNodes ;N=BadNodes ;w=BadWord ;d=BadNumber ;h=BadHex ;u=UnknownLabel ;t=TwiceLabel ;\
s=BadSize ;b=BadNode ;T=TwiceNode ;.=a script";

const JUDGEMENTS: &str = "i=7|\nillegal ;b=8|\nbad account ;.=0|\nlegal";

/// A text, and what is said of it where it is changed.
#[derive(Clone, Copy, Debug)]
pub struct Case {
    /// The words of its command; none for a script, which is only read.
    pub words: &'static str,
    pub text: &'static [u8],
    /// Rows with a percent sign between two: a change, and runs of marks such as `3*w2`, which are a count of places,
    /// and the mark of each. `w2` is BadWord at line 2.
    pub answers: &'static str,
}

/// The text with a change at a place: `cut` ends it in front of the place, `flip` turns the lowest bit of the byte
/// there, and a number becomes that byte.
fn changed(alloc: Global, text: &[u8], change: &str, place: usize) -> Result<Vec<u8>, OutOfMemory> {
    let mut bytes = Vec::from_slice(alloc, text)?;
    if change == "cut" {
        bytes.truncate(place);
    } else if let Some(byte) = bytes.get_mut(place) {
        let flipped = *byte ^ 1;
        *byte = change.parse::<u8>().unwrap_or(flipped);
    }
    Ok(bytes)
}

/// The answer that a mark stands for.
fn wanted_of(alloc: Global, letters: &str, mark: &str) -> Result<String, OutOfMemory> {
    for entry in letters.split(';') {
        let (letter, said) = entry.split_once('=').unwrap_or((entry, ""));
        if let Some(line) = mark.strip_prefix(letter) {
            return format!(in alloc; "{said}{line}\n");
        }
    }
    String::from_str(alloc, "an unknown mark")
}

/// What is read of a text as a script.
fn reading(alloc: Global, text: &[u8]) -> Result<String, OutOfMemory> {
    if text.len() >= 4_294_967_296 {
        return Ok(String::new(alloc));
    }
    match read_script(alloc, text) {
        Ok(_script) => String::from_str(alloc, "a script\n"),
        Err(ScriptFault::Bad { line, why }) => format!(in alloc; "{why:?} {line}\n"),
        Err(ScriptFault::OutOfMemory) => Err(OutOfMemory),
    }
}

/// What is said of a text.
fn said(alloc: Global, words: &str, text: &[u8]) -> Result<String, OutOfMemory> {
    if words.is_empty() {
        return reading(alloc, text);
    }
    answered(alloc, words, text)
}

/// Nothing where the text of a case, changed at each place of a run of marks, has these answers, and else the first
/// place where it hasn't.
fn wrong_in_run(
    alloc: Global,
    case: Case,
    change: &str,
    places: Range<usize>,
    wanted: &str,
) -> Result<String, OutOfMemory> {
    for place in places {
        let text = changed(alloc, case.text, change, place)?;
        let seen = said(alloc, case.words, text.as_slice())?;
        if seen.as_str() != wanted {
            return format!(in alloc; "{change} at {place} gave {seen}and not {wanted}");
        }
    }
    Ok(String::new(alloc))
}

/// The same of a row of its answers, which has a mark for each place.
fn wrong_in_row(alloc: Global, case: Case, row: &str) -> Result<String, OutOfMemory> {
    let letters = if case.words.is_empty() {
        FAULTS
    } else {
        JUDGEMENTS
    };
    let (change, runs) = row.split_once(' ').unwrap_or((row, ""));
    let mut place: usize = 0;
    for run in runs.split_whitespace() {
        let (count, mark) = run.split_once('*').unwrap_or((run, ""));
        let end = place.saturating_add(count.parse::<usize>().unwrap_or(0));
        let wanted = wanted_of(alloc, letters, mark)?;
        let wrong = wrong_in_run(alloc, case, change, place..end, wanted.as_str())?;
        if !wrong.is_empty() {
            return Ok(wrong);
        }
        place = end;
    }
    // A text can also be cut behind its last byte.
    let count = if change == "cut" {
        case.text.len().saturating_add(1)
    } else {
        case.text.len()
    };
    if place != count {
        return format!(in alloc; "{change} has marks for {place} places and not for {count}");
    }
    Ok(String::new(alloc))
}

/// The same of all rows.
fn first_wrong_change(alloc: Global, case: Case) -> Result<String, OutOfMemory> {
    for row in case.answers.split('%') {
        let wrong = wrong_in_row(alloc, case, row)?;
        if !wrong.is_empty() {
            return Ok(wrong);
        }
    }
    Ok(String::new(alloc))
}

#[test]
fn changed_scripts_have_their_faults(rt: HostRuntime) -> Result<(), OutOfMemory> {
    for case in scripts::CASES {
        assert_eq!(rt; first_wrong_change(rt.alloc(), case)?.as_str(), "");
    }
    Ok(())
}

#[test]
fn changed_accounts_are_judged(rt: HostRuntime) -> Result<(), OutOfMemory> {
    for case in accounts::CASES {
        assert_eq!(rt; first_wrong_change(rt.alloc(), case)?.as_str(), "");
    }
    Ok(())
}
