//! An unmap.
ghost use Rattle.std.specs.Prelude.{◌≡◌, ◌==◌, ◌+◌, ◌-◌, ◌<◌, ◌≤◌, IfOk, None, Some, false};
ghost use Rattle.crl_model.specs.declared.call.Call.TheVariants.{Unmap};
ghost use Rattle.crl_table.specs.Tables.{table_of};
ghost use Rattle.crl_protocol.specs.Calls.{parts_with, unmaps, unmaps_over};
ghost use Rattle.crl_protocol.specs.Verdict.{verdict};
ghost use Rattle.crl_desk.specs.Desks.{state, acted, HasRoom};
ghost use Rattle.crl_naming.specs.Forgetting.{with_posts, parted_name, unmapped_name, ForgetIsReady, UnmapIsReady};

use crate::forgetting::{forget, forget_evicted, size_of_forgotten};
use crate::mapping::mapping_of;
use crl_desk::Desk;
use crl_guard::{Reading, Writing};
use crl_model::OutOfMemory;
use crl_model::activity::Answer;
use crl_model::entry::{Entry, What};
use crl_model::mapping::{Cached, Mapping};
use crl_model::name::Name;
use crl_outbox::Sheets;

/// The name that the node forgets if the last map of this one is undone.
fn parted(desk: &Desk, name: Name, mapping: Mapping) -> Option<Name>
    ensures { result ≡ parted_name name mapping (state desk.now) }
{
    if name.home == desk.me {
        return None;
    }
    if mapping.doomed {
        return Some(name);
    }
    desk.cache.evicted_by(Cached {
        name,
        size: mapping.size,
    })
}

/// The name that an unmap of this one forgets.
fn unmapped(desk: &Desk, name: Name) -> Option<Name>
    ensures { result ≡ unmapped_name name (table_of desk.now.maps name) (state desk.now) }
{
    let mapping = mapping_of(desk, name)?;
    if mapping.count == 1 {
        parted(desk, name, mapping)
    } else {
        None
    }
}

/// What an unmap of the name uses up: paper for the region that it may forget.
///
/// # Errors
///
/// `OutOfMemory`.
pub fn ready_unmap(desk: &mut Desk, name: Name) -> Result<Sheets, OutOfMemory>
    requires room { HasRoom 0 0 0 desk.old }
    ensures state { state desk.new ≡ state desk.old }
    ensures room { HasRoom 0 0 0 desk.new }
    ensures ready { IfOk result (λ sheets. UnmapIsReady name sheets desk.new) }
{
    let size = size_of_forgotten(desk, unmapped(desk, name));
    let sheets = Sheets::new(desk.alloc, size)?;
    desk.make_room(sheets.pieces() as usize + 1, 1, 1)?;
    Ok(sheets)
}

/// The last map of the region is undone: it is forgotten, or goes into the cache.
fn part_with(desk: &mut Desk, name: Name, mapping: Mapping, sheets: Sheets)
    requires ready { ForgetIsReady (parted_name name mapping (state desk.old)) sheets desk.old }
    ensures state { state desk.new ≡ with_posts (parts_with name mapping (state desk.old)) }
    ensures room { HasRoom 1 1 1 desk.new }
{
    if name.home == desk.me {
        return;
    }
    if mapping.doomed {
        forget(desk, name, sheets);
        return;
    }
    let evicted = desk.cache.keep(Cached {
        name,
        size: mapping.size,
    });
    forget_evicted(desk, evicted, sheets);
}

/// The mapping with one map less.
fn one_less(mapping: Mapping) -> Mapping
    requires { (mapping.count == 0) ≡ false }
    ensures { result ≡ record mapping { count = mapping.count - 1 } }
{
    Mapping {
        size: mapping.size,
        count: mapping.count - 1,
        doomed: mapping.doomed,
    }
}

/// One map of the region, which has this mapping, is undone.
#[tactic(auto, using(crl_table::proofs::Laws::row_has_place))]
fn undo_map(desk: &mut Desk, name: Name, mapping: Mapping, sheets: Sheets)
    requires mapping { table_of desk.old.maps name ≡ Some mapping }
    requires count { (mapping.count == 0) ≡ false }
    requires ready { ForgetIsReady (unmapped_name name (Some mapping) (state desk.old)) sheets desk.old }
    ensures state { state desk.new ≡ with_posts (unmaps_over name (Some mapping) (state desk.old)) }
    ensures room { HasRoom 1 1 1 desk.new }
{
    if mapping.count == 1 {
        let _ = desk.maps.take(&name);
        part_with(desk, name, mapping, sheets);
    } else {
        desk.maps.put(&name, one_less(mapping));
    }
}

/// One map of the name, if it is mapped, is undone.
fn undo(desk: &mut Desk, name: Name, sheets: Sheets)
    requires ready { UnmapIsReady name sheets desk.old }
    requires verdict { verdict (state desk.old) (Unmap name) ≡ None }
    ensures state { state desk.new ≡ with_posts (unmaps_over name (table_of desk.old.maps name) (state desk.old)) }
    ensures room { HasRoom 1 1 1 desk.new }
{
    match mapping_of(desk, name) {
        Some(mapping) => undo_map(desk, name, mapping, sheets),
        None => drop(sheets),
    }
}

/// An unmap that isn't refused, with paper for the region that it may forget.
pub fn unmap(desk: &mut Desk, at: u64, name: Name, sheets: Sheets) -> Answer<Reading, Writing>
    requires ready { UnmapIsReady name sheets desk.old }
    requires verdict { verdict (state desk.old) (Unmap name) ≡ None }
    ensures state { state desk.new ≡ acted at (unmaps name (state desk.old)) }
    ensures answer { result ≡ (unmaps name (state desk.old)).answer }
    ensures room { HasRoom 0 0 1 desk.new }
{
    undo(desk, name, sheets);
    desk.journal.record(
        at,
        Entry {
            node: desk.me,
            what: What::Unmap { name },
        },
    );
    Answer::Done
}
