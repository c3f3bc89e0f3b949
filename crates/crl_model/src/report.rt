//! What is printed of a run.
ghost use Rattle.crl_model.specs.Reports.{Reported};

use crate::blocked::Blocked;
use crate::bytes::Bytes;
use crate::entry::Entry;
use crate::name::Name;
use std::marker::Model;

/// A region that is there at the end of a run, with its bytes.
#[derive(Debug, Drop, PartialEq)]
pub struct FinalRegion {
    pub name: Name,
    pub bytes: Bytes,
}

/// A run's account, the regions at its end by name or else what blocks each unfinished node, and how many
/// events and messages there were. A contract sees it as a `Reported`.
#[derive(Debug, Drop)]
pub struct Report {
    pub entries: Vec<Entry>,
    pub regions: Vec<FinalRegion>,
    pub blocked: Vec<Blocked>,
    pub events: u64,
    pub messages: u64,
}

impl Model for Report {
    ghost Value = { Reported };

    ghost view = { λ r. record { entries = r.entries.items; regions = r.regions.items; blocked = r.blocked.items; events = r.events; messages = r.messages } };
}
