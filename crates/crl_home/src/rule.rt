//! The rules by which an ask is served.
ghost use Rattle.std.specs.Prelude.{◌≡◌, ◌≤◌, ◌^◌, ◌-◌, if◌then◌else◌, length};
ghost use Rattle.crl_model.specs.declared.directory.Section.TheVariants.{Reading, Writing};
ghost use Rattle.crl_protocol.specs.Home as home;
ghost use Rattle.crl_home.specs.Starts.{ReadsBelow};

use crl_model::NodeNo;
use crl_model::directory::{Asked, Listing, Mark, Section};

/// Whether the copy of this node stands in the way of the ask.
fn is_in_way(node: NodeNo, copy: Listing, ask: Asked) -> bool
    ensures { result ≡ home.blocks node copy ask }
{
    if ask.write {
        !(node == ask.node && !copy.exclusive && copy.version == ask.have)
    } else {
        copy.exclusive || node == ask.node
    }
}

/// Whether the home's own sections let another one open.
pub(crate) fn lets_open(section: Section, write: bool) -> bool
    ensures { result ≡ home.lets_open section write }
{
    match section {
        Section::Closed => true,
        Section::Reading(_) => !write,
        Section::Writing => false,
    }
}

/// Whether no copy stands in the way of the ask.
pub(crate) fn is_clear(listed: &[Option<Listing>], ask: Asked) -> bool
    requires { length listed.now ≤ 64 }
    ensures { result ≡ home.is_clear 0 listed.now ask }
{
    let mut node: NodeNo = 0;
    for copy in listed {
        if let Some(listing) = copy {
            if is_in_way(node, *listing, ask) {
                return false;
            }
        }
        node += 1;
    }
    true
}

/// Whether the copy of this node is called for the ask.
pub(crate) fn is_to_mark(node: NodeNo, copy: Listing, ask: Asked) -> bool
    ensures { result ≡ home.is_to_mark node copy ask }
{
    is_in_way(node, copy, ask) && node != ask.node && matches!(copy.mark, Mark::Plain)
}

/// The mark of a copy that is called for the ask.
pub(crate) fn mark_for(ask: Asked) -> Mark
    ensures { result ≡ home.mark_for ask }
{
    if ask.write {
        Mark::Recalled
    } else {
        Mark::Yielding
    }
}

/// The section that the ask opens at the home.
pub(crate) fn section_for(write: bool) -> Section
    ensures { result ≡ (if write then Writing else Reading 1) }
{
    if write {
        Section::Writing
    } else {
        Section::Reading(1)
    }
}

/// One read section more.
pub(crate) fn one_section_more(section: Section) -> Section
    requires { ReadsBelow (2 ^ 32 - 1) section }
    ensures { result ≡ home.one_section_more section }
{
    match section {
        Section::Closed => Section::Reading(1),
        Section::Reading(count) => Section::Reading(count + 1),
        Section::Writing => Section::Writing,
    }
}

/// One read section less.
pub(crate) fn one_section_less(section: Section) -> Section
    ensures { result ≡ home.one_section_less section }
{
    match section {
        Section::Reading(1) | Section::Closed => Section::Closed,
        Section::Reading(count) => Section::Reading(count.saturating_sub(1)),
        Section::Writing => Section::Writing,
    }
}

/// The home's own ask.
pub(crate) fn own_ask(me: NodeNo, write: bool) -> Asked
    ensures { result ≡ home.own_ask me write }
{
    Asked {
        node: me,
        write,
        have: 0,
    }
}
