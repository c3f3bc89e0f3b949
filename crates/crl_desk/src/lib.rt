//! All that a node keeps, side by side, and the node of the protocol that it stands for. The acts of a node change it: those
//! about sections stand in `crl_sectioning`, those about names and rounds in `crl_naming`.
#![tactic(auto)]

mod desk;
mod kit;
mod opening;

pub use desk::Desk;
pub use kit::SectionKit;
pub use opening::{Shown, open_section};
