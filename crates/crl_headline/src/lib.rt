//! What is printed of a script that ran under an order is one history of a single machine. There is no code here but an
//! empty function, whose contract is the theorem.
#![tactic(auto)]

ghost use Rattle.crl_headline.specs.Histories.{ReportsAreHistories};

use crl_machine::theorems::{last_write_stays, reads_show_the_last_write};

/// The report of the run that a script and an order choose is one history of the single machine: its entries, its regions
/// and what it says of nodes that are stuck. The script has at most 2^40 statements.
pub fn reports_are_histories()
    ensures { ReportsAreHistories }
{
    reads_show_the_last_write();
    last_write_stays();
}
