//! The lines of an account, and whether a text is one of them.
ghost use Rattle.std.specs.Prelude.{◌≡◌, ◌++◌, ◌↔◌, codes, IsTrue, IfOk, OnOk};
ghost use Rattle.crl_account.specs.Account as account;
ghost use Rattle.crl_account.specs.Account.{line_text, IsLine};

use crate::entry::push_entry;
use crate::sound::is_line_printable;
use crate::write::{push_counts, push_region, push_stuck_round, push_stuck_section};
use crl_model::bytes::Bytes;
use crl_model::entry::Entry;
use crl_model::name::Name;
use crl_model::{NodeNo, OutOfMemory};

/// A line of an account.
#[derive(Debug, Drop)]
pub enum Line {
    /// What a node did, or was told.
    Entry(Entry),
    /// What a region has at the end.
    Region {
        name: Name,
        bytes: Bytes,
    },
    /// The node waits for a section of a region that the holder has.
    StuckSection {
        node: NodeNo,
        name: Name,
        holder: NodeNo,
    },
    /// The node waits for a round to which the absent node hasn't come.
    StuckRound {
        node: NodeNo,
        round: u64,
        absent: NodeNo,
    },
    /// How many events there were, and how many messages were sent.
    Counts {
        events: u64,
        messages: u64,
    },
}

/// Where a line stands in an account: the kinds of lines come in this order.
#[derive(Clone, Copy, Debug, PartialEq, Eq)]
pub enum Stage {
    Entries,
    Regions,
    Stuck,
    Counts,
}

/// Where the line stands.
pub fn stage_of(line: &Line) -> Stage
    ensures { result ≡ account.stage_of line.now }
{
    match line {
        Line::Entry(_) => Stage::Entries,
        Line::Region { .. } => Stage::Regions,
        Line::StuckSection { .. } | Line::StuckRound { .. } => Stage::Stuck,
        Line::Counts { .. } => Stage::Counts,
    }
}

/// The text of the line.
fn push_line(line: &Line, out: &mut Vec<u8>) -> Result<(), OutOfMemory>
    ensures { OnOk result (out.new.items ≡ out.old.items ++ line_text line.now) }
{
    match line {
        Line::Entry(entry) => push_entry(entry, out),
        Line::Region { name, bytes } => push_region(*name, bytes.as_slice(), out),
        Line::StuckSection { node, name, holder } => {
            push_stuck_section(*node, *name, *holder, out)
        }
        Line::StuckRound {
            node,
            round,
            absent,
        } => push_stuck_round(*node, *round, *absent, out),
        Line::Counts { events, messages } => push_counts(*events, *messages, out),
    }
}

/// Whether the text and a line feed are what was written.
fn is_ended(text: &[u8], written: &[u8]) -> bool
    ensures { IsTrue result ↔ (text.now ++ codes "\n" ≡ written.now) }
{
    match written.split_last() {
        Some((last, front)) => *last == b'\n' && front == text,
        None => false,
    }
}

/// Whether the text, which lacks its line feed, is just what is written for this line, and the line can be read again
/// from it. The line is written to `scratch`, in the place of what is there.
///
/// # Errors
///
/// `OutOfMemory`.
pub fn is_line(line: &Line, text: &[u8], scratch: &mut Vec<u8>) -> Result<bool, OutOfMemory>
    ensures { IfOk result (λ is. IsTrue is ↔ IsLine line.now text.now) }
{
    let printable = is_line_printable(line);
    scratch.clear();
    push_line(line, scratch)?;
    Ok(printable && is_ended(text, scratch.as_slice()))
}
