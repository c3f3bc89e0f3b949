//! Writing what a run gave.
ghost use Rattle.std.specs.Prelude.{◌≡◌, ◌++◌, IfOk, OnOk};
ghost use Rattle.std.specs.List.{flat_map};
ghost use Rattle.crl_account.specs.Text.{final_text, blocked_text, report_text};
ghost use Rattle.crl_account.specs.Account.{lines_of, IsAccount};
ghost use Rattle.crl_account.specs.Reports.{IsPrintableReport};

use crate::fit::meet_numbers;
use crate::write::{
    write_account, write_counts, write_region, write_stuck_round, write_stuck_section,
};
use crl_model::OutOfMemory;
use crl_model::blocked::Blocked;
use crl_model::report::{FinalRegion, Report};
use std::alloc::Global;

/// The lines of the account, then those of the final regions, then those of what blocks nodes, and then the counts.
/// Where each entry is printable and each region has a byte at least, the text is an account of the entries.
///
/// # Errors
///
/// `OutOfMemory`.
pub fn print_report(alloc: Global, report: &Report) -> Result<Vec<u8>, OutOfMemory>
    ensures text { IfOk result (λ text. text.items ≡ report_text report.now) }
    ensures account { IfOk result (λ text. IsPrintableReport report.now → IsAccount (lines_of text.items) report.now.entries) }
{
    meet_numbers(report);
    print_lines(alloc, report)
}

fn print_lines(alloc: Global, report: &Report) -> Result<Vec<u8>, OutOfMemory>
    ensures { IfOk result (λ text. text.items ≡ report_text report.now) }
{
    let mut text = Vec::new(alloc);
    write_account(&report.entries, &mut text)?;
    write_regions(&report.regions, &mut text)?;
    write_blocked(&report.blocked, &mut text)?;
    write_counts(report.events, report.messages, &mut text)?;
    Ok(text)
}

fn write_regions(regions: &[FinalRegion], out: &mut Vec<u8>) -> Result<(), OutOfMemory>
    ensures { OnOk result (out.new.items ≡ out.old.items ++ flat_map final_text regions.now) }
{
    for region in regions {
        write_region(region.name, region.bytes.as_slice(), out)?;
    }
    Ok(())
}

fn write_blocked(blocked: &[Blocked], out: &mut Vec<u8>) -> Result<(), OutOfMemory>
    ensures { OnOk result (out.new.items ≡ out.old.items ++ flat_map blocked_text blocked.now) }
{
    for cause in blocked {
        write_cause(cause, out)?;
    }
    Ok(())
}

fn write_cause(cause: &Blocked, out: &mut Vec<u8>) -> Result<(), OutOfMemory>
    ensures { OnOk result (out.new.items ≡ out.old.items ++ blocked_text cause.now) }
{
    match *cause {
        Blocked::Region { node, name, holder } => write_stuck_section(node, name, holder, out),
        Blocked::Round {
            node,
            round,
            absent,
        } => write_stuck_round(node, round, absent, out),
    }
}
