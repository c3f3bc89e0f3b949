//! The numbers of a report are within the types of their fields.
ghost use Rattle.std.specs.List.{All};
ghost use Rattle.crl_account.specs.Account.{FitsEntry, FitsLine};
ghost use Rattle.crl_account.specs.declared.line.Line.TheVariants as lines;
ghost use Rattle.crl_account.specs.Reports.{FitsRegion, FitsBlocked, FitsReport};

use crate::sound::{is_filled, is_printable};
use crl_model::blocked::Blocked;
use crl_model::entry::Entry;
use crl_model::report::{FinalRegion, Report};

/// Reads each number of the entries.
fn meet_entries(entries: &[Entry])
    ensures { All FitsEntry entries.now }
{
    for entry in entries {
        let _printable = is_printable(entry);
    }
}

/// Reads each number of a region.
fn meet_region(region: &FinalRegion)
    ensures { FitsRegion region.now }
{
    let _numbers = (region.name.home(), region.name.serial());
    let _filled = is_filled(region.bytes.as_slice());
}

/// Reads each number of the regions.
fn meet_regions(regions: &[FinalRegion])
    ensures { All FitsRegion regions.now }
{
    for region in regions {
        meet_region(region);
    }
}

/// Reads each number of what keeps a node waiting.
fn meet_cause(cause: &Blocked)
    ensures { FitsBlocked cause.now }
{
    match cause {
        Blocked::Region { node, name, holder } => {
            let _nodes = (*node, *holder);
            let _numbers = (name.home(), name.serial());
        }
        Blocked::Round {
            node,
            round,
            absent,
        } => {
            let _nodes = (*node, *absent);
            let _round = *round;
        }
    }
}

/// Reads each number of what keeps nodes waiting.
fn meet_causes(causes: &[Blocked])
    ensures { All FitsBlocked causes.now }
{
    for cause in causes {
        meet_cause(cause);
    }
}

/// Takes the counts of events and messages.
fn meet_counts(events: u64, messages: u64)
    ensures { FitsLine (lines.Counts events messages) }
{
    let _counts = (events, messages);
}

/// Reads each number of the report, so it is known to be within the type of its field.
pub(crate) fn meet_numbers(report: &Report)
    ensures { FitsReport report.now }
{
    meet_entries(&report.entries);
    meet_regions(&report.regions);
    meet_causes(&report.blocked);
    meet_counts(report.events, report.messages);
}
