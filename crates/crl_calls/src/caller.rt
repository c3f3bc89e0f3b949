//! What a thread of a program makes its calls with.
ghost use Rattle.std.specs.Prelude.{◌≡◌};

use crl_cluster::Pass;
use crl_model::NodeNo;

/// A node's number, and a pass. Between two calls it holds no turn.
#[derive(Drop)]
pub struct Caller {
    pub(crate) node: NodeNo,
    pub(crate) pass: Pass,
    /// A call has found the history full.
    pub(crate) spent: bool,
}

impl Caller {
    /// The number of its node.
    pub fn node(&self) -> NodeNo
        ensures { result ≡ self.now.node }
    {
        self.node
    }

    /// A call of it has found that the history has 2^62 events, and takes no more.
    pub fn is_spent(&self) -> bool
        ensures { result ≡ self.now.spent }
    {
        self.spent
    }

    /// Its pass, to close the cluster by.
    pub fn into_pass(self) -> Pass
        ensures { result ≡ self.pass }
    {
        self.pass
    }
}
