//! Recalls and yields: the home wants a copy back, or wants that it becomes a shared one.
ghost use Rattle.std.specs.Prelude.{◌≡◌, IfOk, IsSome, ℕ};
ghost use Rattle.crl_model.specs.declared.message.Kind.TheVariants as kind;
ghost use Rattle.crl_pieces.specs.Pieces.{count};
ghost use Rattle.crl_protocol.specs.Handlers.{node_handles};
ghost use Rattle.crl_desk.specs.Desks.{state, acted, HasRoom};
ghost use Rattle.crl_copying.specs.Calling.{remote_size_at};

use crl_desk::Desk;
use crl_model::name::Name;
use crl_model::{NodeNo, OutOfMemory};
use crl_outbox::Sheets;

/// Paper and places for a copy of the region that may have to go back. If the region isn't here there is nothing to
/// send.
///
/// # Errors
///
/// `OutOfMemory`.
pub fn ready_recall(desk: &mut Desk, name: Name) -> Result<Sheets, OutOfMemory>
    requires room { HasRoom 0 0 0 desk.old }
    ensures state { state desk.new ≡ state desk.old }
    ensures sheets { IfOk result (λ sheets. sheets ≡ remote_size_at name (state desk.old)) }
    ensures ok { IfOk result (λ sheets. HasRoom (count sheets) 0 1 desk.new) }
    ensures room { HasRoom 0 0 0 desk.new }
{
    let sheets = Sheets::new(desk.alloc, size_here(desk, name))?;
    desk.make_room(sheets.pieces() as usize, 0, 1)?;
    Ok(sheets)
}

/// The number of bytes of the region as this node's side has it, 0 if it isn't here.
fn size_here(desk: &Desk, name: Name) -> u32
    ensures { result ≡ remote_size_at name (state desk.now) }
{
    match desk.remotes.size(name) {
        Some(size) => size,
        None => 0,
    }
}

/// A recall comes. If the region was forgotten here, nothing happens.
pub fn take_recall(desk: &mut Desk, at: u64, from: NodeNo, name: Name, version: u64, sheets: Sheets)
    requires room { HasRoom (count sheets) 0 1 desk.old }
    requires sheets { sheets ≡ remote_size_at name (state desk.old) }
    ensures state { state desk.new ≡ acted at (node_handles from (kind.Recall name version) (state desk.old)) }
    ensures room { HasRoom 0 0 1 desk.new }
{
    match desk.remotes.size(name) {
        Some(_) => recall_here(desk, at, from, name, version, sheets),
        None => {}
    }
}

/// A recall comes for a region that is here.
fn recall_here(desk: &mut Desk, at: u64, from: NodeNo, name: Name, version: u64, sheets: Sheets)
    requires room { HasRoom (count sheets) 0 1 desk.old }
    requires sheets { sheets ≡ remote_size_at name (state desk.old) }
    requires there { IsSome ((state desk.old).remotes name) }
    ensures state { state desk.new ≡ acted at (node_handles from (kind.Recall name version) (state desk.old)) }
    ensures room { HasRoom 0 0 1 desk.new }
{
    desk.remotes
        .take_recall(name, version, sheets, &mut desk.outbox);
}

/// A yield comes. If the region was forgotten here, nothing happens.
pub fn take_yield(desk: &mut Desk, at: u64, from: NodeNo, name: Name, version: u64, sheets: Sheets)
    requires room { HasRoom (count sheets) 0 1 desk.old }
    requires sheets { sheets ≡ remote_size_at name (state desk.old) }
    ensures state { state desk.new ≡ acted at (node_handles from (kind.Yield name version) (state desk.old)) }
    ensures room { HasRoom 0 0 1 desk.new }
{
    match desk.remotes.size(name) {
        Some(_) => yield_here(desk, at, from, name, version, sheets),
        None => {}
    }
}

/// A yield comes for a region that is here.
fn yield_here(desk: &mut Desk, at: u64, from: NodeNo, name: Name, version: u64, sheets: Sheets)
    requires room { HasRoom (count sheets) 0 1 desk.old }
    requires sheets { sheets ≡ remote_size_at name (state desk.old) }
    requires there { IsSome ((state desk.old).remotes name) }
    ensures state { state desk.new ≡ acted at (node_handles from (kind.Yield name version) (state desk.old)) }
    ensures room { HasRoom 0 0 1 desk.new }
{
    desk.remotes
        .take_yield(name, version, sheets, &mut desk.outbox);
}
