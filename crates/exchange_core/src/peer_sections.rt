//! The locked sections of peers: each takes one peer's lock, and makes at most one step.
ghost use Rattle.std.specs.Prelude.{◌≡◌, ◌<◌, None, Some, if◌then◌else◌, length};
ghost use Rattle.std.specs.Bool.{OnFalse};
ghost use Rattle.std.specs.Sync.Mutex.{mutex_guard_value};
ghost use Rattle.exchange_core.specs.Draining.{drained};
ghost use Rattle.step_log.specs.Notes.{note};
ghost use Rattle.step_log.specs.declared.made.Made.TheVariants as mades;

use crate::exchange::Exchange;
use crate::gate::Gate;
use call_book::PeerId;
use iax_frames::Out;
use peer_lock::LedgerSet;
use std::sync::{MutexGuard, Wait};
use step_log::{NotedPeer, Pass};

// Asserts that the peer under a lock is that of the lock. The loop is never reached: `push_cells` puts the peer of each place
// under the lock of that place, only `NotedPeer::new` sets a number, and a guard is used for method calls alone. No clause can
// say so, because a lock hides its value. A refusal doesn't fit: each step's clauses say that it was made at this peer.
fn expect_peer<R: Wait, J: LedgerSet>(rt: &R, state: &NotedPeer<J>, peer: PeerId)
    ensures { state.now.number ≡ peer }
{
    if state.number() != peer {
        for _ in rt.forever() {}
        unreachable!();
    }
}

impl<G: Gate, J: LedgerSet> Exchange<G, J> {
    // Returns a peer of the plan, under its lock.
    pub(crate) fn locked<R: Wait>(&self, rt: &R, peer: PeerId) -> MutexGuard<'_, NotedPeer<J>>
        requires { peer < length self.now.peers }
        ensures { (mutex_guard_value result).number ≡ peer }
    {
        let state = self.peers[peer.index()].lock(rt);
        self.gate.enter(peer.get());
        expect_peer(rt, &*state, peer);
        state
    }

    /// Sets whether a peer of the plan drains. While it does, a NEW that belongs to no leg opens none and is answered by
    /// REJECT with cause 42, in every plan version. Current legs continue, and so do calls that are being set up. It is
    /// noted, and is no step.
    pub fn set_draining<R: Wait>(&self, rt: &R, pass: &mut Pass<J>, peer: PeerId, drains: bool)
        requires { peer < length self.now.peers }
        ensures { pass.new ≡ note (mades.SetDraining peer drains) pass.old }
    {
        let mut state = self.locked(rt, peer);
        state.set_draining(pass, drains);
    }

    /// Sets whether all peers of the plan drain, or none: one after another, each as `set_draining` does.
    pub fn set_all_draining<R: Wait>(&self, rt: &R, pass: &mut Pass<J>, drains: bool)
        ensures { pass.new ≡ drained (length self.now.peers) drains pass.old }
    {
        for place in 0..self.plan.peer_count() {
            self.set_draining(rt, pass, PeerId::new(place), drains);
        }
    }

    /// Takes the oldest datagram for a peer of the plan, or returns `None` if none waits. It is noted, and is no step.
    pub fn take_out<R: Wait>(&self, rt: &R, pass: &mut Pass<J>, peer: PeerId) -> Option<Out>
        requires { peer < length self.now.peers }
        ensures { pass.new ≡ note (mades.TakeOut peer result) pass.old }
    {
        let mut state = self.locked(rt, peer);
        state.take_out(pass)
    }

    /// Takes the oldest datagram for a peer of the plan, and writes it over this one. If none waits, returns false and
    /// changes nothing. It is noted, and is no step.
    pub fn take_into<R: Wait>(
        &self,
        rt: &R,
        pass: &mut Pass<J>,
        peer: PeerId,
        out: &mut Out,
    ) -> bool
        requires { peer < length self.now.peers }
        ensures noted { pass.new ≡ note (mades.TakeOut peer (if result then Some out.new else None)) pass.old }
        ensures same { OnFalse result (out.new ≡ out.old) }
    {
        let mut state = self.locked(rt, peer);
        state.take_into(pass, out)
    }
}
