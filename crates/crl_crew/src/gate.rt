//! What is called before each statement.

use crl_model::NodeNo;
use std::sync::Wait;

/// What the workers pass before each statement.
pub trait Gate {
    /// Called with the node's turn held, before the node takes the statement of this place in its list. It may wait.
    fn pass<R: Wait>(&self, rt: &R, node: NodeNo, statement: usize);
}

/// A gate that is always open.
pub struct NoGate;

impl Gate for NoGate {
    fn pass<R: Wait>(&self, _rt: &R, _node: NodeNo, _statement: usize) {}
}
