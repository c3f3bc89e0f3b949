//! Tables of short cases, which share their words and how they begin.

use crate::page::wrong_of;
use crl_model::OutOfMemory;
use std::alloc::Global;

/// Short cases.
#[derive(Clone, Copy, Debug)]
pub struct Table<'a> {
    /// The words of each.
    pub words: &'a str,
    /// What each input begins with.
    pub head: &'a str,
    /// What each answer begins with: the exit status, a bar, a line feed, and the front of its line.
    pub says: &'a str,
    /// The rows, with a percent sign between two: the rest of an input, a bar, and the rest of the answer's line.
    pub rows: &'a str,
}

/// Nothing where each row of a table is answered as it says, and else the first that isn't, with its answer.
pub fn first_wrong_row(alloc: Global, table: Table<'_>) -> Result<String, OutOfMemory> {
    for row in table.rows.split('%') {
        let wrong = wrong_in(alloc, table, row)?;
        if !wrong.is_empty() {
            return Ok(wrong);
        }
    }
    Ok(String::new(alloc))
}

/// Nothing where the row is answered as it says, and else the row and its answer.
fn wrong_in(alloc: Global, table: Table<'_>, row: &str) -> Result<String, OutOfMemory> {
    let (text, end) = row.split_once('|').unwrap_or((row, "has no bar"));
    let (head, says) = (table.head, table.says);
    let input = format!(in alloc; "{head}{text}")?;
    let wanted = format!(in alloc; "{says}{end}\n")?;
    wrong_of(alloc, row, table.words, input.as_str(), wanted.as_str())
}
