//! The rules of a copy's marks, and of the sections over it.
ghost use Rattle.std.specs.Prelude.{◌≡◌, ◌-◌, ◌^◌, if◌then◌else◌};
ghost use Rattle.crl_protocol.specs.Home.{one_section_less, one_section_more};
ghost use Rattle.crl_protocol.specs.Remote as remote;
ghost use Rattle.crl_remote.specs.Copies.{ReadsBelow};

use crl_model::directory::{Due, Section};

/// One read section less.
pub(crate) fn one_section_less(section: Section) -> Section
    ensures { result ≡ one_section_less section }
{
    match section {
        Section::Reading(1) | Section::Closed => Section::Closed,
        Section::Reading(count) => Section::Reading(count.saturating_sub(1)),
        Section::Writing => Section::Writing,
    }
}

/// One read section more.
pub(crate) fn one_section_more(section: Section) -> Section
    requires { ReadsBelow (2 ^ 32 - 1) section }
    ensures { result ≡ one_section_more section }
{
    match section {
        Section::Closed => Section::Reading(1),
        Section::Reading(count) => Section::Reading(count + 1),
        Section::Writing => Section::Writing,
    }
}

/// Whether a recall or a yield of this version is newer than the one that is kept.
pub(crate) fn is_newer(version: u64, due: Option<Due>) -> bool
    ensures { result ≡ remote.is_newer version due }
{
    match due {
        Some(due) => due.version < version,
        None => true,
    }
}

/// Whether a recall, or a yield, of this version is due.
pub(crate) fn is_due(version: u64, yields: bool, due: Option<Due>) -> bool
    ensures { result ≡ (if yields then remote.is_yield_due version due else remote.is_recall_due version due) }
{
    match due {
        Some(due) => due.version == version && due.yields == yields,
        None => false,
    }
}

/// The section that opens for the ask.
pub(crate) fn section_asked(asking: Option<bool>) -> Section
    ensures { result ≡ remote.section_asked asking }
{
    match asking {
        Some(true) => Section::Writing,
        Some(false) => Section::Reading(1),
        None => Section::Closed,
    }
}
