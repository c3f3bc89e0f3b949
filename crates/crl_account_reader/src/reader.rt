//! Reading an account entry by entry.
ghost use Rattle.std.specs.Prelude.{◌≡◌, ◌<◌, ◌↔◌, ◌++◌, [], ℕ, List, length, IsTrue, IfOk, IfSome, Ok, Err, MatchResult};
ghost use Rattle.std.specs.List.{AllByRecursion};
ghost use Rattle.crl_model.specs.declared.entry.Entry.{Entry};
ghost use Rattle.crl_account.specs.Text.{account_text};
ghost use Rattle.crl_account.specs.Account.{IsReadable, AreRegions, lines_of, IsAccount, IsFirstBad};
ghost use Rattle.crl_account_reader.specs.Reader.{HasGiven, Gave, GaveLine};

use crate::fault::{AccountFault, LineFault};
use crate::read::{cut_line, take_line};
use crl_account::Stage;
use crl_model::entry::Entry;
use std::alloc::Global;
use std::marker::Model;

/// Reads the entries of an account one by one: lines of entries, then of regions, then of stuck nodes, then at most
/// one line of counts. The last line may lack its line feed. The lines behind the entries must be such lines, and
/// nothing else is asked of them. It takes memory for one line at a time. A contract sees it as an `Unread`.
#[derive(Drop)]
pub struct Reader<'a> {
    alloc: Global,
    rest: &'a [u8],
    number: u64,
    stage: Stage,
    /// Where a line that was read is written again.
    scratch: Vec<u8>,
}

impl<'a> Model for Reader<'a> {
    ghost use Rattle.std.specs.Prelude.{◌+◌, ◌^◌, ◌<◌, length};
    ghost use Rattle.crl_account_reader.specs.Unread.{Unread};

    ghost Value = { Unread };

    ghost view = { λ r. record { bytes = r.rest.now; number = r.number; stage = r.stage } };

    ghost invariant = { λ r. r.number + length r.rest.now < 2 ^ 64 };
}

impl<'a> Reader<'a> {
    /// A reader that has read nothing of the text.
    pub fn new(alloc: Global, text: &'a [u8]) -> Reader<'a>
        ensures given { HasGiven text.now [] result }
    {
        Reader {
            alloc,
            rest: text,
            number: 0,
            stage: Stage::Entries,
            scratch: Vec::new(alloc),
        }
    }

    /// Whether each line is read.
    fn is_done(&self) -> bool
        ensures { IsTrue result ↔ (length self.now.bytes ≡ 0) }
    {
        self.rest.is_empty()
    }

    /// Reads the next line, and gives its entry, if it has one.
    fn next_line(&mut self) -> Result<Option<Entry>, AccountFault>
        requires { 0 < length self.old.bytes }
        ensures gave { (text : List ℕ) (given : List Entry) → HasGiven text given self.old → GaveLine text given result self.new }
        ensures fewer { IfOk result (λ _. length self.new.bytes < length self.old.bytes) }
    {
        let (line, rest) = cut_line(self.rest);
        let number = self.number + 1;
        match take_line(self.alloc, line, self.stage, &mut self.scratch) {
            Ok((stage, entry)) => {
                self.rest = rest;
                self.number = number;
                self.stage = stage;
                Ok(entry)
            }
            Err(LineFault::Bad) => Err(AccountFault::BadLine(number)),
            Err(LineFault::OutOfMemory) => Err(AccountFault::OutOfMemory),
        }
    }

    /// The next entry; none where the text is read to its end, and is an account of the entries given so far.
    ///
    /// # Errors
    ///
    /// `BadLine` with the number, from 1, of the first line of the text that fits no allowed place; `OutOfMemory`. The
    /// line isn't read then: the next call begins with it.
    pub fn next(&mut self) -> Result<Option<Entry>, AccountFault>
        // Of whatever text and given entries the reader is where it is: it gives the entry behind these, or says that they
        // are the whole account, and no other entries are, or names the first bad line.
        ensures gave { (text : List ℕ) (given : List Entry) → HasGiven text given self.old → Gave text given result self.new }
        ensures fewer { IfOk result (λ entry. IfSome entry (λ _. length self.new.bytes < length self.old.bytes)) }
    {
        while !self.is_done() {
            if let Some(entry) = self.next_line()? {
                return Ok(Some(entry));
            }
        }
        Ok(None)
    }
}

/// Reads an account whole, by a `Reader`.
///
/// # Errors
///
/// `BadLine` with the number, from 1, of the first line that fits no allowed place; `OutOfMemory`.
pub fn read_account(alloc: Global, text: &[u8]) -> Result<Vec<Entry>, AccountFault>
    // What is read are the entries of the account.
    ensures account { IfOk result (λ read. IsAccount (lines_of text.now) read.items) }
    // An account has no other entries, and is refused only for memory.
    ensures only { (entries : List Entry) → IsAccount (lines_of text.now) entries
        → MatchResult result (λ read. read.items ≡ entries) (λ fault. fault ≡ AccountFault.OutOfMemory) }
    // What was written is read again, whatever lines of the other kinds stand behind.
    ensures written { (entries : List Entry) (behind : List ℕ) → AllByRecursion IsReadable entries → AreRegions (lines_of behind)
        → text.now ≡ account_text entries ++ behind
        → MatchResult result (λ read. read.items ≡ entries) (λ fault. fault ≡ AccountFault.OutOfMemory) }
    ensures bad { (line : ℕ) → result ≡ Err (AccountFault.BadLine line) → IsFirstBad (lines_of text.now) line }
{
    let mut entries = Vec::new(alloc);
    let mut reader = Reader::new(alloc, text);
    while let Some(entry) = reader.next()? {
        if entries.push(entry).is_err() {
            return Err(AccountFault::OutOfMemory);
        }
    }
    Ok(entries)
}
