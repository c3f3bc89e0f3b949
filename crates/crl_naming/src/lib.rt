//! The acts of a node about names: creates, refusals, maps, unmaps and deletes, and what comes of them from other nodes. Each
//! changes a desk as the protocol says, and takes no memory; what an act uses up is readied by a call of its own.
#![tactic(auto)]

mod creating;
mod deleting;
mod forgetting;
mod informing;
mod mapping;
mod purging;
mod refusing;
mod unmapping;

pub use creating::{create, ready_create};
pub use deleting::{delete, ready_delete, ready_delete_told, take_delete_ask, take_delete_told};
pub use informing::{ready_info, ready_info_ask, take_info, take_info_ask};
pub use mapping::{map, ready_map};
pub use purging::{ready_purge, ready_purged, take_purge, take_purged};
pub use refusing::{place_of, ready_refuse, refuse, word_of};
pub use unmapping::{ready_unmap, unmap};
