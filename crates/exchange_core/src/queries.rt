//! Read-only queries of the legs, the bridges and the accounts. Each is noted under its pass with its answer, at the state
//! under the lock, and is no step.
ghost use Rattle.std.specs.Prelude.{◌≡◌, ◌<◌, ◌≤◌, IfSome, length};
ghost use Rattle.step_log.specs.Notes.{note};
ghost use Rattle.step_log.specs.declared.made.Made.TheVariants as mades;

use crate::exchange::Exchange;
use crate::gate::Gate;
use call_book::{LegName, PeerId};
use peer_lock::{Description, LedgerSet, Losses, Pokes, Status, Sums};
use std::sync::Wait;
use step_log::Pass;

impl<G: Gate, J: LedgerSet> Exchange<G, J> {
    /// Returns the status of the leg of a local number of a peer of the plan, or `None` if there is none.
    pub fn status<R: Wait>(
        &self,
        rt: &R,
        pass: &mut Pass<J>,
        peer: PeerId,
        number: u16,
    ) -> Option<Status>
        requires { peer < length self.now.peers }
        ensures { pass.new ≡ note (mades.Look peer number result) pass.old }
    {
        self.locked(rt, peer).look(pass, number)
    }

    /// Returns the leg of a local number of a peer of the plan, with the values of its call, or `None` if there is none.
    pub fn describe<R: Wait>(
        &self,
        rt: &R,
        pass: &mut Pass<J>,
        peer: PeerId,
        number: u16,
    ) -> Option<Description>
        requires { peer < length self.now.peers }
        ensures { pass.new ≡ note (mades.Describe peer number result) pass.old }
    {
        self.locked(rt, peer).describe(pass, number)
    }

    /// The leg of a peer of the plan with the least local number that is at least this one, with what its call is about. The name
    /// in its status has its number. `None` if no leg has such a number. Takes the peer's lock once.
    pub fn describe_from<R: Wait>(
        &self,
        rt: &R,
        pass: &mut Pass<J>,
        peer: PeerId,
        number: u16,
    ) -> Option<Description>
        requires { peer < length self.now.peers }
        ensures noted { pass.new ≡ note (mades.DescribeFrom peer number result) pass.old }
        ensures from { IfSome result (λ leg. number ≤ leg.status.name.number) }
    {
        self.locked(rt, peer).describe_from(pass, number)
    }

    /// Returns the sums of the accounts of a peer of the plan. While calls continue, octets accepted from one peer may not
    /// yet be carried to another. So the sums over all peers balance only at the settlement.
    pub fn sums<R: Wait>(&self, rt: &R, pass: &mut Pass<J>, peer: PeerId) -> Sums
        requires { peer < length self.now.peers }
        ensures noted { pass.new ≡ note (mades.ShowSums peer result) pass.old }
        ensures part { result.quelched ≤ result.dropped }
    {
        self.locked(rt, peer).sums(pass)
    }

    /// Returns the number of datagrams for a peer of the plan that were lost because its outbox was full.
    pub fn lost<R: Wait>(&self, rt: &R, pass: &mut Pass<J>, peer: PeerId) -> Losses
        requires { peer < length self.now.peers }
        ensures { pass.new ≡ note (mades.ShowLost peer result) pass.old }
    {
        self.locked(rt, peer).lost(pass)
    }

    /// Returns the state of the exchange's POKEs to a peer of the plan.
    pub fn pokes<R: Wait>(&self, rt: &R, pass: &mut Pass<J>, peer: PeerId) -> Pokes
        requires { peer < length self.now.peers }
        ensures { pass.new ≡ note (mades.ShowPokes peer result) pass.old }
    {
        self.locked(rt, peer).pokes(pass)
    }

    /// Returns the number of legs of a peer of the plan, 0 ..= 512. They are those that the peer has while this call has its
    /// lock; other calls may add or remove legs before and after.
    pub fn leg_count<R: Wait>(&self, rt: &R, pass: &mut Pass<J>, peer: PeerId) -> u16
        requires { peer < length self.now.peers }
        ensures noted { pass.new ≡ note (mades.CountLegs peer result) pass.old }
        ensures most { result ≤ 512 }
    {
        self.locked(rt, peer).leg_count(pass) as u16
    }

    /// Returns the leg with which a leg is bridged, or `None` if it isn't bridged.
    pub fn partner_of<R: Wait>(&self, rt: &R, pass: &mut Pass<J>, name: LegName) -> Option<LegName>
        ensures { pass.new ≡ note (mades.Partner name result) pass.old }
    {
        self.book.lock(rt).partner(pass, name)
    }

    /// The serial of the next leg, as long as no other call of the exchange is made. Takes the book's lock.
    pub fn next_serial<R: Wait>(&self, rt: &R, pass: &mut Pass<J>) -> u64
        ensures { pass.new ≡ note (mades.NextSerial result) pass.old }
    {
        self.book.lock(rt).next_serial(pass)
    }
}
