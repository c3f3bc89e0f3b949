//! Judging of whole histories by the single machine, and of accounts as they are read.
#![tactic(auto)]

ghost use Rattle.std.specs.Prelude.{◌≡◌, ◌≤◌, ◌++◌, ℕ, List, OnOk, Err};
ghost use Rattle.std.specs.List.{AllByRecursion};
ghost use Rattle.crl_model.specs.declared.entry.Entry.{Entry};
ghost use Rattle.crl_machine.specs.SingleMachine.{start, IsHistory};
ghost use Rattle.crl_account.specs.Text.{account_text};
ghost use Rattle.crl_account.specs.Account.{lines_of, IsReadable, AreRegions, IsAccount, IsFirstBad};
ghost use Rattle.crl_check.specs.Histories.{IsFirstIllegal, SaysOf};
ghost use Rattle.crl_check.specs.Accounts.{IsLegalText, IsIllegalText, SaysOfText};

mod fault;
mod judge;

use crate::judge::Judge;
use crl_account_reader::Reader;
use crl_model::entry::Entry;
use crl_model::{NODE_LIMIT, NodeNo};
pub use fault::CheckFault;
use std::alloc::Global;

/// Whether the entries are a legal history of so many nodes.
///
/// # Errors
///
/// `Illegal` names the first entry that is no legal step; `OutOfMemory`.
pub fn check(alloc: Global, entries: &[Entry], nodes: NodeNo) -> Result<(), CheckFault>
    requires some { 1 ≤ nodes }
    requires few { nodes ≤ NODE_LIMIT }
    ensures legal { OnOk result (IsHistory (start nodes) entries.now) }
    ensures illegal { (i : ℕ) → result ≡ Err (CheckFault.Illegal i) → IsFirstIllegal (start nodes) entries.now i }
    ensures whole { (line : ℕ) → result ≡ Err (CheckFault.BadLine line) → ⊥ }
{
    let mut judge = Judge::new(alloc, nodes)?;
    for entry in entries {
        judge.take(entry)?;
    }
    judge.verdict()
}

/// Judges each entry of the text as it is read.
fn judge_text(alloc: Global, text: &[u8], nodes: NodeNo) -> Result<(), CheckFault>
    requires some { 1 ≤ nodes }
    requires few { nodes ≤ NODE_LIMIT }
    ensures { SaysOfText (start nodes) text.now result }
{
    let mut judge = Judge::new(alloc, nodes)?;
    let mut reader = Reader::new(alloc, text);
    while let Some(entry) = reader.next()? {
        judge.take(&entry)?;
    }
    judge.verdict()
}

/// Whether the text is the account of a legal history of so many nodes. Each entry is judged as it is read, and is then
/// let go: besides the text there is memory for one line and for the single machine. Behind an entry that is no legal
/// step the text is read on, since a line that fits no place comes first in the answer.
///
/// # Errors
///
/// `BadLine` with the number, from 1, of the first line that fits no allowed place; `Illegal` names the first entry that
/// is no legal step, of a text that is an account; `OutOfMemory`.
pub fn check_account(alloc: Global, text: &[u8], nodes: NodeNo) -> Result<(), CheckFault>
    requires some { 1 ≤ nodes }
    requires few { nodes ≤ NODE_LIMIT }
    ensures legal { OnOk result (IsLegalText (start nodes) text.now) }
    ensures illegal { (i : ℕ) → result ≡ Err (CheckFault.Illegal i) → IsIllegalText (start nodes) text.now i }
    ensures bad { (line : ℕ) → result ≡ Err (CheckFault.BadLine line) → IsFirstBad (lines_of text.now) line }
    // An account is never bad: its answer is the one to its entries.
    ensures only { (entries : List Entry) → IsAccount (lines_of text.now) entries → SaysOf (start nodes) entries result }
    // What was written is judged by its entries, whatever lines of the other kinds stand behind.
    ensures written { (entries : List Entry) (behind : List ℕ) → AllByRecursion IsReadable entries → AreRegions (lines_of behind)
        → text.now ≡ account_text entries ++ behind → SaysOf (start nodes) entries result }
{
    judge_text(alloc, text, nodes)
}
