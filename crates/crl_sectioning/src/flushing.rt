//! A flush.
ghost use Rattle.std.specs.Prelude.{◌≡◌, ◌+◌, IfOk, true, false};
ghost use Rattle.crl_pieces.specs.Pieces.{count};
ghost use Rattle.crl_protocol.specs.Node.{is_mine};
ghost use Rattle.crl_protocol.specs.Sectioning.{flushes};
ghost use Rattle.crl_remote.specs.RemotesState.{row_at, IsThere};
ghost use Rattle.crl_desk.specs.Desks.{state, acted, HasRoom};
ghost use Rattle.crl_sectioning.specs.Acts.{IsFlushReady, SendsNothing};

use crate::place::{Place, place_of};
use crate::recording::record;
use crl_desk::Desk;
use crl_guard::{Reading, Writing};
use crl_model::OutOfMemory;
use crl_model::activity::Answer;
use crl_model::entry::What;
use crl_model::name::Name;
use crl_outbox::Sheets;
use crl_pieces::parts::count;

/// Sheets for the region's bytes, and room for what a flush may post and records.
///
/// # Errors
///
/// `OutOfMemory`.
pub fn ready_flush(desk: &mut Desk, name: Name) -> Result<Sheets, OutOfMemory>
    requires room { HasRoom 0 0 0 desk.old }
    ensures state { state desk.new ≡ state desk.old }
    ensures ready { IfOk result (λ sheets. IsFlushReady name sheets desk.new) }
    ensures room { HasRoom 0 0 0 desk.new }
{
    let size = desk.size(name);
    let sheets = Sheets::new(desk.alloc, size)?;
    desk.make_room(count(size) as usize, 1, 1)?;
    Ok(sheets)
}

/// A flush of the region: the copy, if one is here, is sent back.
pub fn flush(desk: &mut Desk, at: u64, name: Name, sheets: Sheets) -> Answer<Reading, Writing>
    requires ready { IsFlushReady name sheets desk.old }
    ensures state { state desk.new ≡ acted at (flushes name (state desk.old)) }
    ensures answer { result ≡ (flushes name (state desk.old)).answer }
    ensures room { HasRoom 0 0 1 desk.new }
{
    match place_of(desk, name) {
        Place::Elsewhere => flush_remote(desk, at, name, sheets),
        Place::Home | Place::Nowhere => flush_nothing(desk, at, name),
    }
}

/// The flush of another home's region that is here.
fn flush_remote(desk: &mut Desk, at: u64, name: Name, sheets: Sheets) -> Answer<Reading, Writing>
    requires room { HasRoom (count (row_at name desk.old.remotes).size) 1 1 desk.old }
    requires away { is_mine (state desk.old) name ≡ false }
    requires there { IsThere name desk.old.remotes }
    requires sheets { sheets ≡ (row_at name desk.old.remotes).size }
    ensures state { state desk.new ≡ acted at (flushes name (state desk.old)) }
    ensures answer { result ≡ (flushes name (state desk.old)).answer }
    ensures room { HasRoom 0 0 1 desk.new }
{
    desk.remotes.flush(name, sheets, &mut desk.outbox);
    record(desk, at, What::Flush { name })
}

/// The flush of a region of the node's own, or of one that isn't here.
#[tactic(auto, using(crate::proofs::Flushes::nothing_flushed, crate::proofs::Flushes::nothing_flush_done))]
fn flush_nothing(desk: &mut Desk, at: u64, name: Name) -> Answer<Reading, Writing>
    requires room { HasRoom 0 1 1 desk.old }
    requires nothing { SendsNothing name (state desk.old) }
    ensures state { state desk.new ≡ acted at (flushes name (state desk.old)) }
    ensures answer { result ≡ (flushes name (state desk.old)).answer }
    ensures room { HasRoom 0 0 1 desk.new }
{
    record(desk, at, What::Flush { name })
}
