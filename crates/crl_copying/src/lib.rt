//! What a node does with a whole message about copies: an ask, a grant, a recall, a yield, a return, a release.
#![tactic(auto)]

mod calling;
mod granting;
mod opening;
mod serving;

pub use calling::{ready_recall, take_recall, take_yield};
pub use granting::take_grant;
pub use serving::{take_ask, take_release, take_return};
