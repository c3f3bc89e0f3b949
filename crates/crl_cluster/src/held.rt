//! A node that is held.
ghost use Rattle.std.specs.Prelude.{◌≡◌};
ghost use Rattle.crl_cluster.specs.Holding.{with_luggage};

use crate::behind::Behind;
use crl_model::NodeNo;
use std::mem;

/// A node whose turn a pass holds, with its luggage. One that is dropped keeps its turn out for ever.
#[derive(Drop)]
pub struct Held<N, T> {
    pub(crate) number: NodeNo,
    pub(crate) behind: Behind<N, T>,
}

impl<N, T> Held<N, T> {
    /// Its number.
    pub fn number(&self) -> NodeNo
        ensures { result ≡ self.now.number }
    {
        self.number
    }

    /// The node.
    pub fn node(&self) -> &N
        ensures { result.now ≡ self.now.behind.node }
    {
        &self.behind.node
    }

    /// The luggage.
    pub fn luggage(&self) -> &T
        ensures { result.now ≡ self.now.behind.luggage }
    {
        &self.behind.luggage
    }

    /// Puts other luggage in its place, and hands out what was there.
    pub fn replace_luggage(&mut self, luggage: T) -> T
        ensures out { result ≡ self.old.behind.luggage }
        ensures held { self.new ≡ with_luggage luggage self.old }
    {
        mem::replace(&mut self.behind.luggage, luggage)
    }
}
