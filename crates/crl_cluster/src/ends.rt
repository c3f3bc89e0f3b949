//! The ends of sections of a node that is held, each by its guard. They take no memory.
ghost use Rattle.std.specs.Prelude.{◌≡◌, true, None, IfErr, MatchResult};
ghost use Rattle.crl_model.specs.declared.call.Call.TheVariants as call;
ghost use Rattle.crl_model.specs.declared.event.Event.TheVariants as event;
ghost use Rattle.crl_protocol.specs.Node.{Done};
ghost use Rattle.crl_protocol.specs.Verdict.{verdict};
ghost use Rattle.crl_protocol.specs.World.{is_free};
ghost use Rattle.crl_member.specs.Fitting as fitting;
ghost use Rattle.crl_cluster.specs.Clusters.{view_of, shape_of, IsOf, IsHeld, IsSameHeld};
ghost use Rattle.crl_cluster.specs.Acting.{IsByOthers, IsDone, IsUndone};

use crate::cluster::{Cluster, Pass};
use crate::events::{EndingRead, EndingWrite};
use crate::faults::NotDone;
use crate::held::Held;
use crate::luggage::Luggage;
use crl_guard::{Reading, Writing};
use crl_member::Member;

impl<N: Member, T: Luggage> Cluster<N, T> {
    /// The held node ends the newest read section of the guard's region.
    ///
    /// # Errors
    ///
    /// `Moved` or `Spent`. The guard comes back.
    pub fn end_read(
        &self,
        pass: &mut Pass,
        held: &mut Held<N, T>,
        guard: Reading,
    ) -> Result<(), NotDone<Reading>>
        requires here { IsOf self.now pass.old }
        requires held { IsHeld N.state (shape_of self.now) (view_of pass.old) held.old }
        requires free { is_free (N.state held.old.behind.node).activity ≡ true }
        requires fits { fitting.fits_reading (N.state held.old.behind.node) guard ≡ true }
        requires allowed { verdict (N.state held.old.behind.node) (call.EndRead guard.name) ≡ None }
        ensures here { IsOf self.now pass.new }
        ensures held { IsHeld N.state (shape_of self.now) (view_of pass.new) held.new × IsSameHeld held.old held.new }
        ensures told { let s = shape_of self.now in
            let old = view_of pass.old in
            let new = view_of pass.new in
            let e = event.Call held.old.number (call.EndRead guard.name) in
            MatchResult result (λ _. IsDone s e old Done new) (λ fault. (fault.back ≡ guard) × IsUndone s old fault.why new) }
        ensures no_memory { IfErr result (λ fault. IsByOthers fault.why) }
    {
        let event = EndingRead {
            node: held.number,
            guard,
        };
        let appended = self.append_next(pass, &event);
        let EndingRead { node: _, guard } = event;
        match appended {
            Ok(at) => {
                held.behind.node.end_read(at, guard);
                Ok(())
            }
            Err(why) => Err(NotDone { why, back: guard }),
        }
    }

    /// The held node ends the write section of the guard's region, which has the guard's bytes from then on.
    ///
    /// # Errors
    ///
    /// `Moved` or `Spent`. The guard comes back.
    pub fn end_write(
        &self,
        pass: &mut Pass,
        held: &mut Held<N, T>,
        guard: Writing,
    ) -> Result<(), NotDone<Writing>>
        requires here { IsOf self.now pass.old }
        requires held { IsHeld N.state (shape_of self.now) (view_of pass.old) held.old }
        requires free { is_free (N.state held.old.behind.node).activity ≡ true }
        requires fits { fitting.fits_writing (N.state held.old.behind.node) guard ≡ true }
        requires allowed { verdict (N.state held.old.behind.node) (call.EndWrite guard.name guard.bytes) ≡ None }
        ensures here { IsOf self.now pass.new }
        ensures held { IsHeld N.state (shape_of self.now) (view_of pass.new) held.new × IsSameHeld held.old held.new }
        ensures told { let s = shape_of self.now in
            let old = view_of pass.old in
            let new = view_of pass.new in
            let e = event.Call held.old.number (call.EndWrite guard.name guard.bytes) in
            MatchResult result (λ _. IsDone s e old Done new) (λ fault. (fault.back ≡ guard) × IsUndone s old fault.why new) }
        ensures no_memory { IfErr result (λ fault. IsByOthers fault.why) }
    {
        let event = EndingWrite {
            node: held.number,
            guard,
        };
        let appended = self.append_next(pass, &event);
        let EndingWrite { node: _, guard } = event;
        match appended {
            Ok(at) => {
                held.behind.node.end_write(at, guard);
                Ok(())
            }
            Err(why) => Err(NotDone { why, back: guard }),
        }
    }
}
