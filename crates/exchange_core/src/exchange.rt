//! The exchange and its locks.
ghost use Rattle.std.specs.Prelude.{◌≡◌, ◌+◌, ◌*◌, length, vec_len};

use crate::gate::Gate;
use crate::locked::Locked;
use call_book::PeerId;
use media_ledger::Supply;
use peer_lock::LedgerSet;
use peer_plan::Plan;
use std::alloc::Global;
use std::marker::Model;
use std::snapshot::Snapshot;
use step_log::{NotedBook, NotedPeer};

/// A peer under its lock.
pub(crate) type PeerCell<J> = Locked<NotedPeer<J>>;

/// The peers of a plan, each under its lock, and the book of their calls under another.
///
/// Any number of threads may call it at once, each with a separate pass. No call holds two locks, or a lock while it waits.
/// Contracts see it as its plan.
pub struct Exchange<G: Gate, J: LedgerSet> {
    pub(crate) alloc: Global,
    pub(crate) gate: G,
    pub(crate) plan: Plan,
    // In plan order.
    pub(crate) peers: Vec<PeerCell<J>>,
    pub(crate) book: Locked<NotedBook>,
    pub(crate) octets: Supply<J::Octets>,
    pub(crate) steps: Supply<J::Steps>,
}

// Written out, so that an owner proves one call at its drop, not the drop of each field.
impl<G: Gate, J: LedgerSet> Drop for Exchange<G, J> {
    fn drop(self) {
        let Exchange {
            alloc: _,
            gate: _,
            plan: _,
            peers: _,
            book: _,
            octets: _,
            steps: _,
        } = self;
    }
}

impl<G: Gate, J: LedgerSet> Model for Exchange<G, J> {
    ghost use Rattle.std.specs.Prelude.{◌≡◌, ◌+◌, ◌*◌, ◌≤◌, length, vec_len};
    ghost use Rattle.exchange_core.specs.Start.{AreFirstPeers, IsFirstBook};
    ghost use Rattle.peer_plan.specs.Plan.{PlanView};

    ghost Value = { PlanView };

    ghost view = { λ x. x.plan };

    // Each peer and each pass has one share of either supply, with the amounts that the peers began with. The peers were put
    // behind their locks in plan order, and the book behind its own, as the plan has them before the first call.
    ghost invariant = { λ x. (vec_len x.peers ≡ length x.plan.peers) × (vec_len x.peers ≤ 32) × (x.plan.passes ≤ 64) ×
        (x.octets.shares ≡ vec_len x.peers + x.plan.passes) × (x.steps.shares ≡ vec_len x.peers + x.plan.passes) ×
        (x.octets.amount ≡ vec_len x.peers * J.first_octets) × (x.steps.amount ≡ vec_len x.peers * J.first_steps) ×
        ∥ AreFirstPeers x.plan 0 x.peers.items ∥₁ × ∥ IsFirstBook x.plan x.book ∥₁ };
}

impl<G: Gate, J: LedgerSet> Exchange<G, J> {
    ghost use Rattle.std.specs.Prelude.{◌<◌};
    ghost use Rattle.exchange_core.specs.Start.{IsFirstBook, IsFirstPeer};

    /// Returns the plan with which it was opened.
    pub fn plan(&self) -> &Plan
        ensures { result.now ≡ self.now }
    {
        &self.plan
    }

    /// Returns the peer that was put behind its lock at the opening, before any call. Only contracts
    /// see it. It has the plan's rules and range of numbers, no leg, and the shares that peers begin with. No clause says what
    /// a lock holds later, because any call may change it. Takes no lock.
    pub fn first_peer(&self, peer: PeerId) -> &Snapshot<NotedPeer<J>>
        requires { peer < length self.now.peers }
        ensures { ∥ IsFirstPeer self.now peer result.now.value ∥₁ }
    {
        self.peers[peer.index()].first()
    }

    /// Returns the book that was put behind its lock at the opening, before any call. Only contracts see it. It has the plan's
    /// ranges, all numbers free, and no bridge. Takes no lock.
    pub fn first_book(&self) -> &Snapshot<NotedBook>
        ensures { ∥ IsFirstBook self.now result.now.value ∥₁ }
    {
        self.book.first()
    }

    // Takes it apart at its end: the peers, the book, and the supplies of which the peers and the passes have shares.
    pub(crate) fn into_parts(
        self,
    ) -> (
        Vec<PeerCell<J>>,
        Locked<NotedBook>,
        Supply<J::Octets>,
        Supply<J::Steps>,
    )
        ensures peers { vec_len result.0 ≡ length self.peers }
        ensures octets { (result.2.shares ≡ length self.peers + self.passes) ×
            (result.2.amount ≡ length self.peers * J.first_octets) }
        ensures steps { (result.3.shares ≡ length self.peers + self.passes) ×
            (result.3.amount ≡ length self.peers * J.first_steps) }
    {
        let Self {
            alloc: _,
            gate: _,
            plan: _,
            peers,
            book,
            octets,
            steps,
        } = self;
        (peers, book, octets, steps)
    }
}
