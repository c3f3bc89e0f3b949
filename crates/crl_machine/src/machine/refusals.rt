//! The refusals of the table of legal steps.
ghost use Rattle.std.specs.Prelude.{◌≡◌, ◌+◌, ◌-◌, ◌^◌, ◌<◌, ◌⊎◌, min};
ghost use Rattle.std.specs.Bool.{MatchBool};
ghost use Rattle.crl_model.specs.declared.entry.What.{What};
ghost use Rattle.crl_model.specs.declared.entry.Place.{Place};
ghost use Rattle.crl_model.specs.Names.{at_node};
ghost use Rattle.crl_machine.specs.Judging.{Judges};
ghost use Rattle.crl_machine.specs.SingleMachine.{IsRefusedSerial, IsRefusedAt, IsRefusedIn};
ghost use Rattle.crl_machine.specs.Seen.{state};

use crate::machine::Machine;
use crl_model::NodeNo;
use crl_model::call::{CallKind, Refusal};
use crl_model::entry::Place;
use crl_model::name::Name;
use crl_model::stage::Stage;

impl Machine {
    /// The rows of refusals, each judged and taken.
    pub(crate) fn refused(
        &mut self,
        node: NodeNo,
        why: Refusal,
        kind: CallKind,
        place: &Place,
    ) -> bool
        requires node { node < self.old.nodes }
        ensures { Judges (state self.old) node (What.Refused kind place.now why) (state self.new) result }
    {
        match place {
            Place::Region(name) => self.refused_at(node, why, kind, name),
            Place::Round(round) => self.refused_in(node, why, kind, *round),
        }
    }

    fn refused_at(&mut self, node: NodeNo, why: Refusal, kind: CallKind, name: &Name) -> bool
        requires node { node < self.old.nodes }
        ensures { Judges (state self.old) node (What.Refused kind (Place.Region name.now) why) (state self.new) result }
    {
        if !self.is_free(node) || !self.is_refused_at(node, why, kind, name) {
            return false;
        }
        if why == Refusal::BadSize {
            self.use_serial(node);
        }
        true
    }

    fn refused_in(&mut self, node: NodeNo, why: Refusal, kind: CallKind, round: u64) -> bool
        requires node { node < self.old.nodes }
        ensures { Judges (state self.old) node (What.Refused kind (Place.Round round) why) (state self.new) result }
    {
        match why {
            Refusal::Mixed => self.mixed(node, kind, round),
            Refusal::WrongSize => self.is_wrong_size(node, kind, round),
            _ => false,
        }
    }

    #[tactic(auto, unfolding(crate::specs::Seen::state))]
    fn is_wrong_size(&self, node: NodeNo, kind: CallKind, round: u64) -> bool
        requires node { node < self.now.nodes }
        ensures { MatchBool result (IsRefusedIn (state self.now) node Refusal.WrongSize kind round) (IsRefusedIn (state self.now) node Refusal.WrongSize kind round → ⊥) }
    {
        self.is_free(node)
            && kind == CallKind::Send
            && round == self.rows[node as usize].came.len() as u64 + 1
    }

    #[tactic(auto, unfolding(crate::specs::Seen::state))]
    fn is_refused_at(&self, node: NodeNo, why: Refusal, kind: CallKind, name: &Name) -> bool
        requires { node < self.now.nodes }
        ensures { MatchBool result (IsRefusedAt (state self.now) node why kind name.now) (IsRefusedAt (state self.now) node why kind name.now → ⊥) }
    {
        match why {
            Refusal::BadSize | Refusal::NamesSpent => self.is_refused_create(node, why, kind, name),
            Refusal::Unknown => kind.asks_the_home() && self.stage(name) == Stage::Unknown,
            Refusal::Deleted => kind.asks_the_home() && self.stage(name).is_deleted(),
            Refusal::NotMapped => kind.needs_map() && self.share(node, name).maps == 0,
            Refusal::SectionOpen => self.is_refused_section(node, kind, name),
            Refusal::NotReading => {
                let share = self.share(node, name);
                kind == CallKind::EndRead && share.maps > 0 && share.reads == 0
            }
            Refusal::NotWriting => {
                kind.needs_write()
                    && self.share(node, name).maps > 0
                    && !self.is_writing(node, name)
            }
            Refusal::InSection => {
                let share = self.share(node, name);
                kind.needs_close()
                    && share.maps > 0
                    && (share.reads > 0 || self.is_writing(node, name))
            }
            Refusal::OutOfRange => kind.has_range() && self.is_writing(node, name),
            Refusal::TooMany => self.is_refused_count(node, kind, name),
            Refusal::WrongSize | Refusal::Mixed => false,
        }
    }

    /// A create that is refused uses the node's next serial, or none where all are used.
    #[tactic(auto, unfolding(crate::specs::Seen::state))]
    fn is_refused_create(&self, node: NodeNo, why: Refusal, kind: CallKind, name: &Name) -> bool
        requires node { node < self.now.nodes }
        requires why { (why ≡ Refusal.BadSize) ⊎ (why ≡ Refusal.NamesSpent) }
        ensures { MatchBool result (IsRefusedAt (state self.now) node why kind name.now) (IsRefusedAt (state self.now) node why kind name.now → ⊥) }
    {
        let used = self.rows[node as usize].used;
        if kind != CallKind::Create || name.home != node {
            return false;
        }
        if used == u32::MAX {
            name.serial == 0
        } else {
            why == Refusal::BadSize && name.serial == used + 1
        }
    }

    /// A section is refused beside one that is open at the node and excludes it.
    #[tactic(auto, unfolding(crate::specs::Seen::state))]
    fn is_refused_section(&self, node: NodeNo, kind: CallKind, name: &Name) -> bool
        requires { node < self.now.nodes }
        ensures { MatchBool result (IsRefusedAt (state self.now) node Refusal.SectionOpen kind name.now) (IsRefusedAt (state self.now) node Refusal.SectionOpen kind name.now → ⊥) }
    {
        let share = self.share(node, name);
        let writing = self.is_writing(node, name);
        match kind {
            CallKind::Read => share.maps > 0 && writing,
            CallKind::Write => share.maps > 0 && (share.reads > 0 || writing),
            _ => false,
        }
    }

    /// A map, or a read section, is refused past the last that is counted.
    #[tactic(auto, unfolding(crate::specs::Seen::state))]
    fn is_refused_count(&self, node: NodeNo, kind: CallKind, name: &Name) -> bool
        requires { node < self.now.nodes }
        ensures { MatchBool result (IsRefusedAt (state self.now) node Refusal.TooMany kind name.now) (IsRefusedAt (state self.now) node Refusal.TooMany kind name.now → ⊥) }
    {
        let share = self.share(node, name);
        match kind {
            CallKind::Map => share.maps == u32::MAX && self.stage(name) != Stage::Gone,
            CallKind::Read => {
                share.maps > 0 && !self.is_writing(node, name) && share.reads == u32::MAX
            }
            _ => false,
        }
    }

    /// A create that is refused for its size uses its serial.
    #[tactic(auto, unfolding(crate::specs::Seen::state))]
    fn use_serial(&mut self, node: NodeNo)
        requires { node < self.old.nodes }
        ensures { state self.new ≡ record (state self.old) { used = at_node (state self.old).used node (min ((state self.old).used node + 1) (2 ^ 32 - 1)) } }
    {
        let row = &mut self.rows[node as usize];
        row.used = row.used.saturating_add(1);
    }
}
