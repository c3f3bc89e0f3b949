//! A region is forgotten.
ghost use Rattle.std.specs.Prelude.{◌≡◌, ◌+◌, ◌<◌, ◌≤◌, None, Some};
ghost use Rattle.crl_protocol.specs.Sectioning.{forgets};
ghost use Rattle.crl_protocol.specs.Calls.{forgets_evicted};
ghost use Rattle.crl_desk.specs.Desks.{state, HasRoom};
ghost use Rattle.crl_naming.specs.Forgetting.{with_posts, forgotten_size, ForgetIsReady};

use crl_desk::Desk;
use crl_model::name::Name;
use crl_outbox::Sheets;

/// The number of bytes of the region that may be forgotten, 0 if there is none.
pub(crate) fn size_of_forgotten(desk: &Desk, forgotten: Option<Name>) -> u32
    ensures { result ≡ forgotten_size forgotten (state desk.now) }
{
    match forgotten {
        Some(name) => row_size(desk, name),
        None => 0,
    }
}

/// The number of bytes of another home's region, 0 if it isn't here.
fn row_size(desk: &Desk, name: Name) -> u32
    ensures { result ≡ forgotten_size (Some name) (state desk.now) }
{
    match desk.remotes.size(name) {
        Some(size) => size,
        None => 0,
    }
}

/// The name is forgotten: its copy, if one is here, goes back.
#[tactic(auto, unfolding(crl_protocol::specs::Sectioning::forgets))]
pub(crate) fn forget(desk: &mut Desk, name: Name, sheets: Sheets)
    requires ready { ForgetIsReady (Some name) sheets desk.old }
    ensures state { state desk.new ≡ with_posts (forgets name (state desk.old)) }
    ensures room { HasRoom 1 1 1 desk.new }
{
    if desk.remotes.size(name).is_some() {
        desk.remotes.forget(name, sheets, &mut desk.outbox);
    }
}

/// The name that the cache gave up, if it did, is forgotten.
pub(crate) fn forget_evicted(desk: &mut Desk, evicted: Option<Name>, sheets: Sheets)
    requires ready { ForgetIsReady evicted sheets desk.old }
    ensures state { state desk.new ≡ with_posts (forgets_evicted evicted (state desk.old)) }
    ensures room { HasRoom 1 1 1 desk.new }
{
    match evicted {
        Some(name) => forget(desk, name, sheets),
        None => drop(sheets),
    }
}
