//! What the front of a pass is.
ghost use Rattle.crl_cluster.specs.declared.cluster.Pass.{Pass};
ghost use Rattle.crl_cluster.specs.Histories.{FrontIsHistory};

/// The front of each pass is a run, and its account is a legal history of the single machine.
pub fn fronts_are_histories()
    ensures { (pass : Pass) → FrontIsHistory pass }
{}
