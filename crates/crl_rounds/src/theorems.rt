//! The theorems.
ghost use Rattle.std.specs.Prelude.{◌≡◌, ℕ, List};
ghost use Rattle.crl_model.specs.declared.entry.Entry.{Entry};
ghost use Rattle.crl_machine.specs.SingleMachine.{start, after_all};
ghost use Rattle.crl_rounds.specs.Standing.{InEveryRun, RoundsStand, RoundMailFitsAll, RoundEntriesFit, parts_brought, results_told};

/// After each run every node came to all rounds before the one that node 0 gathers, or to this one too and then waits in
/// it. Of a node that waits in a round there is exactly one of three: its part on its way, its part gathered, its result
/// on its way; of another node there is none. Some part is missing. Where no piece is in a box, a node that waits in a
/// round waits for one that hasn't come to it.
pub fn rounds_stand()
    ensures { InEveryRun RoundsStand }
{}

/// A part that is under way goes to node 0, which hasn't yet this node's part of its round; its sender waits in the
/// round. A result that is under way is that of the round in which its addressee waits, and what all nodes' parts of
/// this round give.
pub fn round_messages_fit()
    ensures { InEveryRun RoundMailFitsAll }
{}

/// The entries of rounds that an event records after a run: who comes waits in no round, and who is told a result came to
/// that round, as all nodes did, and is told what their parts give, or that they don't agree.
pub fn round_entries_fit()
    ensures { InEveryRun RoundEntriesFit }
{}

/// What the single machine has of a node's rounds is what the account has: the parts of its entries Come in order, and how
/// many of its entries are results, mixed ones among them.
pub fn accounts_have_the_rounds()
    ensures came { (count i : ℕ) (entries : List Entry) → (after_all (start count) entries).came i ≡ parts_brought i entries }
    ensures told { (count i : ℕ) (entries : List Entry) → (after_all (start count) entries).told i ≡ results_told i entries }
{}
