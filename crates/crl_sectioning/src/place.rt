//! Where a node has a region.
ghost use Rattle.std.specs.Prelude.{◌≡◌, ◌<◌, ◌^◌};
ghost use Rattle.crl_desk.specs.Desks.{state};
ghost use Rattle.crl_sectioning.specs.Places.{IsAt, AreKnown};

use crl_desk::Desk;
use crl_model::name::Name;

/// Where a node has a region: as its home, as one of another home, or nowhere.
pub(crate) enum Place {
    Home,
    Elsewhere,
    Nowhere,
}

/// Where the node has the region.
pub(crate) fn place_of(desk: &Desk, name: Name) -> Place
    ensures { IsAt result name desk.now }
{
    if name.home == desk.me {
        if desk.homes.size(name).is_some() {
            Place::Home
        } else {
            Place::Nowhere
        }
    } else if desk.remotes.size(name).is_some() {
        Place::Elsewhere
    } else {
        Place::Nowhere
    }
}

/// What is known of the sections of the region that are open. This does nothing.
pub(crate) fn note_sections(desk: &Desk, name: Name)
    ensures { AreKnown name (state desk.now).sections }
{
    desk.sections.note(name);
}
