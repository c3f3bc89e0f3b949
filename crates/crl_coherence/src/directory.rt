//! What holds of a region's copies, versions and asks after each event, sentence by sentence. It all follows from
//! what `stays_coherent` says is kept.

ghost use Rattle.std.specs.Prelude.{ℕ};
ghost use Rattle.crl_coherence.specs.Region.{Region};
ghost use Rattle.crl_coherence.specs.Coherent.{IsCoherent};
ghost use Rattle.crl_coherence.specs.Facts.{AsksStandOnce, VersionsStandOnce, ExclusiveIsAlone, MarksHaveTheirMessage, HeadsWait, BytesAreTheArray};

/// A node waits exactly where its ask stands in one place: it is under way or queued, or its grant is under way.
/// The home's own ask is queued. Who waits has no section open.
pub fn asks_stand_once()
    ensures { (me : ℕ) (g : Region) → IsCoherent me g → AsksStandOnce me g }
{}

/// A listed version stands in one place: its grant is under way, or it is the node's copy, or its return is under
/// way. Every grant, every return and every copy is of its node's listed version, but for the older shared copy
/// under an upgrade, which is listed no more. Versions are numbered from 1 to the last that was granted, and all
/// different. A section is open only over a copy, to write only over an exclusive one. Of a version, one release at
/// most is under way; where the version is listed, it is exclusive and yielding, and stands as a shared copy that
/// was exclusive, or comes back with its bytes.
pub fn versions_stand_once()
    ensures { (me : ℕ) (g : Region) → IsCoherent me g → VersionsStandOnce me g }
{}

/// An exclusive copy is listed alone. While the home writes nothing is listed, and while it reads nothing
/// exclusive.
pub fn exclusive_is_alone()
    ensures { (me : ℕ) (g : Region) → IsCoherent me g → ExclusiveIsAlone me g }
{}

/// A listed version without a mark isn't called. Of a recalled one the recall is under way, or is due at its node,
/// which asks; or the copy leaves at the end of a section, or comes back. A yielding one is exclusive, and its
/// yield is under way, or is due at its node, which asks; or the copy becomes a shared one at the end of a write
/// section, or its release is under way, or it comes back with its bytes. No call under way or due is of a later
/// version than the listed one, where none is listed than the last. Nothing is due at a node that doesn't ask. A
/// copy is to leave only where it was recalled and a section is open, and to become a shared one only where it
/// yields and a write section is open. A listed copy that was exclusive is listed as shared, or its release is
/// under way.
pub fn marks_have_their_message()
    ensures { (me : ℕ) (g : Region) → IsCoherent me g → MarksHaveTheirMessage me g }
{}

/// The ask at the head can't be served. The copies of other nodes that block it are called, and no others are: for
/// an ask to write they are recalled, for one to read they yield. The shared copy that an ask names is its node's,
/// or was given back and nothing is listed any more, or was recalled and comes back; the node of any other ask has
/// no copy. Where the copy of the node whose ask is at the head blocks it, that copy comes back, and it wasn't
/// called.
pub fn heads_wait()
    ensures { (me : ℕ) (g : Region) → IsCoherent me g → HeadsWait me g }
{}

/// The array's bytes stand at the home where nothing exclusive is listed; and in each grant with bytes, each copy,
/// each return with bytes, and each release of a listed version. While a node writes, its copy has the bytes with
/// which the section began. Every release has the region's size.
pub fn bytes_are_the_array()
    ensures { (me : ℕ) (g : Region) → IsCoherent me g → BytesAreTheArray me g }
{}
