//! The ends of sections, each by its guard.
ghost use Rattle.std.specs.Prelude.{◌≡◌, true, MatchResult};
ghost use Rattle.crl_world.specs.Seen.{world_seen, NodesAreSafe};
ghost use Rattle.crl_world.specs.Stepping.{reading_fits, writing_fits, end_of_reading, end_of_writing, MayEnd, EndIsDone, EndIsUndone};

use crate::faults::EndFault;
use crate::steps::EVENT_LIMIT;
use crate::world::World;
use crl_guard::{Reading, Writing};
use crl_member::Member;

impl<N: Member> World<N> {
    /// The guard is of a read section that is open at its node, and has its bytes.
    pub fn fits_reading(&self, guard: &Reading) -> bool
        ensures { result ≡ reading_fits guard.now (world_seen N.state self.now) }
    {
        let i = guard.node();
        i < self.count() && self.node(i).fits_reading(guard)
    }

    /// The guard is of a write section that is open at its node, and has as many bytes.
    pub fn fits_writing(&self, guard: &Writing) -> bool
        ensures { result ≡ writing_fits guard.now (world_seen N.state self.now) }
    {
        let i = guard.node();
        i < self.count() && self.node(i).fits_writing(guard)
    }

    /// Ends the newest read section of the guard's region at its node. It takes no memory.
    ///
    /// # Errors
    ///
    /// `Foreign` where the guard doesn't fit, and else `Spent` where there were 2^62 events. The guard is handed back.
    pub fn end_read(&mut self, guard: Reading) -> Result<(), EndFault<Reading>>
        requires safe { NodesAreSafe (world_seen N.state self.old) }
        requires may { let w = world_seen N.state self.old in reading_fits guard w ≡ true → MayEnd guard (end_of_reading guard) w }
        ensures { let w = world_seen N.state self.old in
            let v = world_seen N.state self.new in
            MatchResult result (λ _. EndIsDone (reading_fits guard w) guard (end_of_reading guard) w v) (EndIsUndone (reading_fits guard w) guard w v) }
    {
        if !self.fits_reading(&guard) {
            return Err(EndFault::Foreign(guard));
        }
        if self.events == EVENT_LIMIT {
            return Err(EndFault::Spent(guard));
        }
        let at = self.events;
        let i = guard.node();
        self.nodes[i as usize].end_read(at, guard);
        self.events = at + 1;
        Ok(())
    }

    /// Ends the write section of the guard's region at its node: the guard's bytes are the region's from then on. It
    /// takes no memory.
    ///
    /// # Errors
    ///
    /// `Foreign` where the guard doesn't fit, and else `Spent` where there were 2^62 events. The guard is handed back.
    pub fn end_write(&mut self, guard: Writing) -> Result<(), EndFault<Writing>>
        requires safe { NodesAreSafe (world_seen N.state self.old) }
        requires may { let w = world_seen N.state self.old in writing_fits guard w ≡ true → MayEnd guard (end_of_writing guard) w }
        ensures { let w = world_seen N.state self.old in
            let v = world_seen N.state self.new in
            MatchResult result (λ _. EndIsDone (writing_fits guard w) guard (end_of_writing guard) w v) (EndIsUndone (writing_fits guard w) guard w v) }
    {
        if !self.fits_writing(&guard) {
            return Err(EndFault::Foreign(guard));
        }
        if self.events == EVENT_LIMIT {
            return Err(EndFault::Spent(guard));
        }
        let at = self.events;
        let i = guard.node();
        self.nodes[i as usize].end_write(at, guard);
        self.events = at + 1;
        Ok(())
    }
}
