//! Tests: three journals are written and merged.
ghost use Rattle.std.specs.Prelude.{◌≡◌, ◌<◌, ◌≤◌, length};

use crate::{Journal, Records, account};
use crl_model::OutOfMemory;
use crl_model::entry::{Entry, What};
use crl_model::event::Event;
use crl_model::name::Name;
use std::alloc::Global;

/// An entry that says that a region with this serial was unmapped.
fn unmapped(serial: u32) -> Entry {
    Entry {
        node: 0,
        what: What::Unmap {
            name: Name::new(0, serial),
        },
    }
}

fn serial_of(entry: &Entry) -> u32 {
    match &entry.what {
        What::Unmap { name } => name.serial,
        _ => 0,
    }
}

/// A journal of such entries, by position and serial.
fn journal(alloc: Global, records: &[(u64, u32)]) -> Result<Journal, OutOfMemory> {
    let mut journal = Journal::new(alloc);
    for (position, serial) in records {
        journal.reserve(1, 1)?;
        journal.record(*position, unmapped(*serial));
        journal.note(*position, Event::Collect { node: 0 });
    }
    Ok(journal)
}

/// The records of three journals.
fn records(alloc: Global, journals: [Journal; 3]) -> Result<Vec<Records>, OutOfMemory> {
    let mut records = Vec::with_capacity(alloc, 3)?;
    for journal in journals {
        records.push(journal.into_records())?;
    }
    Ok(records)
}

#[test]
fn three_journals_are_merged(rt: HostRuntime) -> Result<(), OutOfMemory> {
    let alloc = rt.alloc();
    let one = journal(alloc, &[(1, 11), (1, 12), (6, 16)])?;
    let two = journal(alloc, &[])?;
    let three = journal(alloc, &[(0, 10), (3, 13), (3, 14), (3, 15)])?;
    assert_eq!(rt; one.notes().len(), 3);
    let account = account(alloc, records(alloc, [one, two, three])?)?;
    let mut due = 10;
    for entry in &account {
        assert_eq!(rt; serial_of(entry), due);
        due = if due < 100 { due + 1 } else { due };
    }
    assert_eq!(rt; account.len(), 7);
    Ok(())
}

#[test]
fn one_journal_is_handed_on(rt: HostRuntime) -> Result<(), OutOfMemory> {
    let alloc = rt.alloc();
    let mut only = Vec::with_capacity(alloc, 1)?;
    only.push(journal(alloc, &[(1, 10), (1, 11), (4, 12)])?.into_records())?;
    let account = account(alloc, only)?;
    assert_eq!(rt; account.len(), 3);
    assert_eq!(rt; serial_of(&account[0]), 10);
    assert_eq!(rt; serial_of(&account[1]), 11);
    assert_eq!(rt; serial_of(&account[2]), 12);
    Ok(())
}
