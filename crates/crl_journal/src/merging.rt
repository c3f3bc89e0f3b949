//! The records of all nodes, merged by position.
ghost use Rattle.std.specs.Prelude.{◌≡◌, ◌++◌, ◌<◌, List, [], length, map, slice_index_or, IfOk};
ghost use Rattle.std.specs.Option.{option_map};
ghost use Rattle.crl_journal.specs.Merging.{merged_account, all_lists, next_by, next_below, IsPopped};
ghost use Rattle.crl_journal.specs.Told.{EventEntries, entries_told, AreRecordsOf};

use crate::queue::Queue;
use crate::records::Records;
use crl_model::OutOfMemory;
use crl_model::entry::Entry;
use crl_model::journal::Recorded;
use std::alloc::Global;

/// The number of a journal, and the position of its first record.
#[derive(Clone, Copy, Drop)]
struct Front {
    journal: usize,
    position: u64,
}

/// The entries of all nodes by position. Those of one position stand in their order at their node. They are handed on, and
/// not copied; those of a single node as they stand.
///
/// # Errors
///
/// `OutOfMemory`.
pub fn account(alloc: Global, journals: Vec<Records>) -> Result<Vec<Entry>, OutOfMemory>
    ensures merged { IfOk result (λ account. account.items ≡ merged_account (all_lists journals.items)) }
    // If that is what a run recorded, the account is what the run told.
    ensures told { IfOk result (λ account. (run : List EventEntries) → AreRecordsOf run (all_lists journals.items) → account.items ≡ entries_told run) }
{
    let entries = merged(alloc, journals)?;
    Ok(entries)
}

/// The same. The records of a single journal are in order.
fn merged(alloc: Global, journals: Vec<Records>) -> Result<Vec<Entry>, OutOfMemory>
    ensures { IfOk result (λ account. account.items ≡ merged_account (all_lists journals.items)) }
{
    let mut journals = journals;
    if journals.len() == 1 {
        return Ok(journals.remove(0).into_entries());
    }
    let mut queues = queues_of(alloc, journals)?;
    merge(alloc, queues.as_mut_slice())
}

/// The records of the journals, to be taken out.
fn queues_of(alloc: Global, journals: Vec<Records>) -> Result<Vec<Queue>, OutOfMemory>
    ensures { IfOk result (λ queues. queues.items ≡ all_lists journals.items) }
{
    let mut queues = Vec::with_capacity(alloc, journals.len())?;
    for records in journals {
        queues.push(records.into_queue())?;
    }
    Ok(queues)
}

/// The entries by position, where the records are taken out.
fn merge(alloc: Global, journals: &mut [Queue]) -> Result<Vec<Entry>, OutOfMemory>
    ensures { IfOk result (λ account. account.items ≡ merged_account journals.old) }
{
    let mut entries = Vec::new(alloc);
    while let Some(i) = next_journal(journals) {
        let Recorded { position: _, entry } = pop(journals, i);
        entries.push(entry)?;
    }
    Ok(entries)
}

/// The number of the journal whose first record comes next, if one is left.
fn next_journal(journals: &[Queue]) -> Option<usize>
    ensures { result ≡ option_map (λ f. f.journal) (next_below (length journals.now) journals.now) }
{
    let mut next = None;
    for i in 0..journals.len() {
        next = sooner(next, i, &journals[i]);
    }
    match next {
        Some(front) => Some(front.journal),
        None => None,
    }
}

/// The one that comes sooner: what was found before, or the first of this journal's records.
fn sooner(next: Option<Front>, i: usize, records: &Queue) -> Option<Front>
    ensures { result ≡ next_by next i records.now }
{
    let Some(first) = records.first() else {
        return next;
    };
    match next {
        Some(front) if front.position <= first => next,
        _ => Some(Front {
            journal: i,
            position: first,
        }),
    }
}

/// The first record of the journal is taken out.
fn pop(journals: &mut [Queue], i: usize) -> Recorded
    requires { (i < length journals.old) × (0 < length (slice_index_or journals.old i [])) }
    ensures { IsPopped i journals.old result journals.new }
{
    match journals[i].pop() {
        Some(record) => record,
        None => unreachable!(),
    }
}
