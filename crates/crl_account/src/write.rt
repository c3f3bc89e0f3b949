//! Writing the lines of an account.
ghost use Rattle.std.specs.Prelude.{◌≡◌, ◌++◌, [], OnOk, OnErr};
ghost use Rattle.crl_account.specs.Text.{entry_text, account_text, region_text, counts_text, stuck_section_text, stuck_round_text};

use crate::entry::push_entry;
use crate::piece::{space_bytes, space_name, space_number, space_word};
use crl_model::entry::Entry;
use crl_model::name::Name;
use crl_model::{NodeNo, OutOfMemory};

/// Puts the line of an entry at the end of `out`.
///
/// # Errors
///
/// `OutOfMemory`; `out` is then as it was.
pub fn write_entry(entry: &Entry, out: &mut Vec<u8>) -> Result<(), OutOfMemory>
    ensures ok { OnOk result (out.new.items ≡ out.old.items ++ entry_text entry.now) }
    ensures err { OnErr result (out.new.items ≡ out.old.items) }
{
    let mut line = Vec::new(*out.allocator());
    push_entry(entry, &mut line)?;
    out.extend_from_slice(line.as_slice())
}

/// Puts the lines of the entries, in order, at the end of `out`.
///
/// # Errors
///
/// `OutOfMemory`; `out` is then as it was.
pub fn write_account(entries: &[Entry], out: &mut Vec<u8>) -> Result<(), OutOfMemory>
    ensures ok { OnOk result (out.new.items ≡ out.old.items ++ account_text entries.now) }
    ensures err { OnErr result (out.new.items ≡ out.old.items) }
{
    let before = out.len();
    let mut line = Vec::new(*out.allocator());
    for entry in entries {
        line.clear();
        if let Err(error) = append_line(entry, &mut line, out) {
            out.truncate(before);
            return Err(error);
        }
    }
    Ok(())
}

/// Puts the line of an entry at the end of `out`, by way of the empty `line`.
fn append_line(entry: &Entry, line: &mut Vec<u8>, out: &mut Vec<u8>) -> Result<(), OutOfMemory>
    requires { line.old.items ≡ [] }
    ensures ok { OnOk result (out.new.items ≡ out.old.items ++ entry_text entry.now) }
    ensures err { OnErr result (out.new.items ≡ out.old.items) }
{
    push_entry(entry, line)?;
    out.extend_from_slice(line.as_slice())
}

/// The line of a region.
pub(crate) fn push_region(name: Name, bytes: &[u8], out: &mut Vec<u8>) -> Result<(), OutOfMemory>
    ensures { OnOk result (out.new.items ≡ out.old.items ++ region_text name bytes.now) }
{
    out.extend_from_slice(b"region")?;
    space_name(name, out)?;
    space_bytes(bytes, out)?;
    out.push(b'\n')?;
    Ok(())
}

/// The line of a node that waits for a section.
pub(crate) fn push_stuck_section(
    node: NodeNo,
    name: Name,
    holder: NodeNo,
    out: &mut Vec<u8>,
) -> Result<(), OutOfMemory>
    ensures { OnOk result (out.new.items ≡ out.old.items ++ stuck_section_text node name holder) }
{
    out.extend_from_slice(b"stuck")?;
    space_number(node, out)?;
    space_name(name, out)?;
    space_word("by", out)?;
    space_number(holder, out)?;
    out.push(b'\n')?;
    Ok(())
}

/// The line of a node that waits for a round.
pub(crate) fn push_stuck_round(
    node: NodeNo,
    round: u64,
    absent: NodeNo,
    out: &mut Vec<u8>,
) -> Result<(), OutOfMemory>
    ensures { OnOk result (out.new.items ≡ out.old.items ++ stuck_round_text node round absent) }
{
    out.extend_from_slice(b"stuck")?;
    space_number(node, out)?;
    space_word("round", out)?;
    space_number(round, out)?;
    space_word("without", out)?;
    space_number(absent, out)?;
    out.push(b'\n')?;
    Ok(())
}

/// The line of counts.
pub(crate) fn push_counts(events: u64, messages: u64, out: &mut Vec<u8>) -> Result<(), OutOfMemory>
    ensures { OnOk result (out.new.items ≡ out.old.items ++ counts_text events messages) }
{
    out.extend_from_slice(b"events")?;
    space_number(events, out)?;
    space_word("messages", out)?;
    space_number(messages, out)?;
    out.push(b'\n')?;
    Ok(())
}

/// Puts `region NAME BYTES`, what a region has at the end, at the end of `out`.
///
/// # Errors
///
/// `OutOfMemory`; `out` is then as it was.
pub fn write_region(name: Name, bytes: &[u8], out: &mut Vec<u8>) -> Result<(), OutOfMemory>
    ensures ok { OnOk result (out.new.items ≡ out.old.items ++ region_text name bytes.now) }
    ensures err { OnErr result (out.new.items ≡ out.old.items) }
{
    let mut line = Vec::new(*out.allocator());
    push_region(name, bytes, &mut line)?;
    out.extend_from_slice(line.as_slice())
}

/// Puts `stuck N NAME by HOLDER` at the end of `out`: the node waits for a section of a region that
/// the holder has.
///
/// # Errors
///
/// `OutOfMemory`; `out` is then as it was.
pub fn write_stuck_section(
    node: NodeNo,
    name: Name,
    holder: NodeNo,
    out: &mut Vec<u8>,
) -> Result<(), OutOfMemory>
    ensures ok { OnOk result (out.new.items ≡ out.old.items ++ stuck_section_text node name holder) }
    ensures err { OnErr result (out.new.items ≡ out.old.items) }
{
    let mut line = Vec::new(*out.allocator());
    push_stuck_section(node, name, holder, &mut line)?;
    out.extend_from_slice(line.as_slice())
}

/// Puts `stuck N round ROUND without ABSENT` at the end of `out`: the node waits for a round to which
/// the absent node hasn't come.
///
/// # Errors
///
/// `OutOfMemory`; `out` is then as it was.
pub fn write_stuck_round(
    node: NodeNo,
    round: u64,
    absent: NodeNo,
    out: &mut Vec<u8>,
) -> Result<(), OutOfMemory>
    ensures ok { OnOk result (out.new.items ≡ out.old.items ++ stuck_round_text node round absent) }
    ensures err { OnErr result (out.new.items ≡ out.old.items) }
{
    let mut line = Vec::new(*out.allocator());
    push_stuck_round(node, round, absent, &mut line)?;
    out.extend_from_slice(line.as_slice())
}

/// Puts `events E messages M` at the end of `out`.
///
/// # Errors
///
/// `OutOfMemory`; `out` is then as it was.
pub fn write_counts(events: u64, messages: u64, out: &mut Vec<u8>) -> Result<(), OutOfMemory>
    ensures ok { OnOk result (out.new.items ≡ out.old.items ++ counts_text events messages) }
    ensures err { OnErr result (out.new.items ≡ out.old.items) }
{
    let mut line = Vec::new(*out.allocator());
    push_counts(events, messages, &mut line)?;
    out.extend_from_slice(line.as_slice())
}
