//! What holds of every legal history, in words of its own.
ghost use Rattle.std.specs.Prelude.{◌≡◌, ℕ, List, [], ◌∷◌, ◌++◌};
ghost use Rattle.crl_model.specs.declared.name.Name.{Name};
ghost use Rattle.crl_model.specs.declared.entry.What.{What};
ghost use Rattle.crl_model.specs.declared.entry.Entry.{Entry};
ghost use Rattle.crl_machine.specs.Laws.{IsExclusive, AreNamed, last_left};
ghost use Rattle.crl_machine.specs.SingleMachine.{start, IsHistory, after_all};

/// After a legal history no section of a region is open beside a write section of it.
pub fn one_writer()
    ensures { (n : ℕ) (es : List Entry) → IsHistory (start n) es → IsExclusive (after_all (start n) es) }
{}

/// After any entries, legal or not, each region has the bytes that its last write section left, or else
/// the zeros of its create.
pub fn last_write_stays()
    ensures { (n : ℕ) (q : Name) (es : List Entry) → (after_all (start n) es).bytes q ≡ last_left q es [] }
{}

/// In a legal history each read section shows the bytes that the last write section before it left, or
/// else the zeros of the create.
pub fn reads_show_the_last_write()
    ensures { (n m : ℕ) (q : Name) (seen : List ℕ) (es fs : List Entry) →
        IsHistory (start n) (es ++ record { node = m; what = What.Read q seen } ∷ fs) → seen ≡ last_left q es [] }
{}

/// After a legal history each name that was created has a node as its home, and one of the serials that this node
/// has used. So the regions of all homes, serial by serial, are all that there are.
pub fn regions_are_named()
    ensures { (n : ℕ) (es : List Entry) → IsHistory (start n) es → AreNamed (after_all (start n) es) }
{}
