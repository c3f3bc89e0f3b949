//! The reasons for which calls of one kind are refused.
ghost use Rattle.std.specs.Prelude.{◌≡◌, ◌==◌, length};
ghost use Rattle.crl_protocol.specs.Sections.{count_of};
ghost use Rattle.crl_protocol.specs.Verdict as reasons;

use crl_model::BROADCAST_LIMIT;
use crl_model::call::Refusal;
use crl_model::collective::Part;
use crl_model::directory::Section;
use crl_model::stage::Stage;

/// The largest serial, map count, and number of read sections.
pub(crate) const COUNT_LIMIT: u32 = 0xffff_ffff;

/// The reason, if it applies.
pub(crate) fn refuse_if(applies: bool, why: Refusal) -> Option<Refusal>
    ensures { result ≡ reasons.refuse_if applies why }
{
    if applies { Some(why) } else { None }
}

/// Of a name that has to be there, by its stage.
pub(crate) fn by_stage(stage: Stage) -> Option<Refusal>
    ensures { result ≡ reasons.by_stage stage }
{
    match stage {
        Stage::Unknown => Some(Refusal::Unknown),
        Stage::Live => None,
        Stage::Going(_) | Stage::Gone => Some(Refusal::Deleted),
    }
}

/// Of one map or one read section more, where there are so many.
pub(crate) fn of_more(count: u32) -> Option<Refusal>
    ensures { result ≡ reasons.of_more count }
{
    refuse_if(count == COUNT_LIMIT, Refusal::TooMany)
}

/// Of a call outside all sections.
pub(crate) fn of_open(section: Section) -> Option<Refusal>
    ensures { result ≡ reasons.of_open section }
{
    refuse_if(section != Section::Closed, Refusal::InSection)
}

/// Of the start of a section, where these are open.
pub(crate) fn of_start(write: bool, section: Section) -> Option<Refusal>
    ensures { result ≡ reasons.of_start write section }
{
    match section {
        Section::Closed => None,
        Section::Reading(count) if !write => of_more(count),
        Section::Reading(_) | Section::Writing => Some(Refusal::SectionOpen),
    }
}

/// Of the end of a section, where these are open.
pub(crate) fn of_end(write: bool, section: Section) -> Option<Refusal>
    ensures { result ≡ reasons.of_end write section }
{
    if write {
        refuse_if(section != Section::Writing, Refusal::NotWriting)
    } else {
        refuse_if(has_no_reads(section), Refusal::NotReading)
    }
}

/// Whether no read section is open.
fn has_no_reads(section: Section) -> bool
    ensures { result ≡ (count_of section == 0) }
{
    match section {
        Section::Reading(count) => count == 0,
        Section::Closed | Section::Writing => true,
    }
}

/// Of a part of a round.
pub(crate) fn of_part(part: &Part) -> Option<Refusal>
    ensures { result ≡ reasons.of_part part.now }
{
    match part {
        Part::Send(bytes) => refuse_if(
            bytes.is_empty() || bytes.len() > BROADCAST_LIMIT,
            Refusal::WrongSize,
        ),
        _ => None,
    }
}
