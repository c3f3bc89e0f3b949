//! Whatever happens to a region, in whatever order its messages come, its copies, versions and bytes stay
//! right. There is no code here but empty functions, whose contracts are the theorems.
#![tactic(auto)]

pub mod directory;

ghost use Rattle.std.specs.Prelude.{ℕ};
ghost use Rattle.crl_coherence.specs.Region.{Region, Happens, Run};
ghost use Rattle.crl_coherence.specs.Coherent.{IsCoherent, created};
ghost use Rattle.crl_coherence.specs.Facts.{OpensRightly, ShowsTheArray, WritersAreAlone, HasTheArray, KeepsTheArray, CopiesStandOnce, MessagesFit, WhoWaitsIsBlocked};

/// A region is coherent when it is created, and stays so whatever happens to it.
pub fn stays_coherent()
    ensures created { (me nodes size : ℕ) (sizes : ℕ → ℕ) → IsCoherent me (created nodes size sizes) }
    ensures stays { (me : ℕ) (g h : Region) → Happens me g h → IsCoherent me g → IsCoherent me h }
    ensures runs { (me : ℕ) (g h : Region) → Run me g h → IsCoherent me g → IsCoherent me h }
{}

/// A section that opens may open: no write section is open anywhere, and for writing no section at all. It
/// opens at another node by its own call or with a grant, and at the home by its call or while the queue is
/// served, which a return or a release lets go on. The ask of another node opens none.
pub fn sections_open_rightly()
    ensures { (me : ℕ) (g : Region) → IsCoherent me g → OpensRightly me g }
{}

/// The bytes with which a section opens are the array's.
pub fn sections_show_the_array()
    ensures { (me : ℕ) (g : Region) → IsCoherent me g → ShowsTheArray me g }
{}

/// While a node's section is open to write, no other node has a section open.
pub fn writers_are_alone()
    ensures { (me : ℕ) (g : Region) → IsCoherent me g → WritersAreAlone me g }
{}

/// While a section is open, what its node has of the region is the array's bytes.
pub fn open_sections_have_the_array()
    ensures { (me : ℕ) (g : Region) → IsCoherent me g → HasTheArray me g }
{}

/// While a section is open the array changes only where this section, a write section, ends.
pub fn open_sections_keep_the_array()
    ensures { (me : ℕ) (g h : Region) → IsCoherent me g → Happens me g h → KeepsTheArray me g h }
{}

/// An exclusive copy is alone, and each version that is listed stands in exactly one place: its grant under way,
/// the node's copy, or its return under way.
pub fn copies_stand_once()
    ensures { (me : ℕ) (g : Region) → IsCoherent me g → CopiesStandOnce me g }
{}

/// Each message that comes fits: a grant what was asked for, a return the copy that is listed, a release the
/// region's size, and an ask is its node's only one.
pub fn messages_fit()
    ensures { (me : ℕ) (g : Region) → IsCoherent me g → MessagesFit me g }
{}

/// After each event the head of the queue can't be served, and each copy of another node that blocks it was
/// called. Where no message is under way and a node waits for a section, another node has one open.
pub fn who_waits_is_blocked()
    ensures { (me : ℕ) (g : Region) → IsCoherent me g → WhoWaitsIsBlocked me g }
{}
