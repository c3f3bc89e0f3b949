//! What the single machine takes can be printed, and read again. There is no code here but empty functions, whose
//! contracts are the theorems.
#![tactic(auto)]

ghost use Rattle.std.specs.Prelude.{ℕ, List};
ghost use Rattle.std.specs.List.{AllByRecursion};
ghost use Rattle.crl_model.specs.declared.entry.Entry.{Entry};
ghost use Rattle.crl_machine.specs.SingleMachine.{start, IsHistory, after_all};
ghost use Rattle.crl_machine.specs.FinalRegions.{final_regions};
ghost use Rattle.crl_account.specs.Text.{IsPrintable};
ghost use Rattle.crl_account.specs.Reports.{HasBytes};

/// In a legal history each entry is printable: no list of bytes in it is empty, what its round gave isn't Mixed, and
/// what was refused is about a round exactly where the reason is WrongSize or Mixed.
pub fn legal_entries_are_printable()
    ensures { (n : ℕ) (es : List Entry) → IsHistory (start n) es → AllByRecursion IsPrintable es }
{}

/// After a legal history each region that is there has a byte at least.
pub fn final_regions_are_printable()
    ensures { (n : ℕ) (es : List Entry) → IsHistory (start n) es → AllByRecursion HasBytes (final_regions (after_all (start n) es)) }
{}
