//! A worker and its peers.
ghost use Rattle.std.specs.Prelude.{◌≡◌, ◌<◌, ◌≤◌, IfOk, length};
ghost use Rattle.udp_workers.specs.Served.{AreEndpoints, peers_of};

use arrayvec::ArrayVec;
use call_book::PeerId;
use iax_frames::Out;
use peer_plan::{Endpoint, Plan, WorkerId};
use std::alloc::{AllocError, Global};
use std::marker::Model;

/// A worker: its place among the workers of the plan, and the peers that it serves, at most 32, by their places in the plan.
/// It takes no memory.
#[derive(Drop)]
pub struct Worker {
    pub(crate) place: WorkerId,
    pub(crate) peers: ArrayVec<u16, 32>,
    pub(crate) turns: u64,
    // The datagram that is on its way from an outbox to the wire.
    pub(crate) out: Out,
}

impl Model for Worker {
    ghost use Rattle.std.specs.Prelude.{◌≤◌, length};
    ghost use Rattle.udp_workers.specs.Served.{WorkerView};

    ghost Value = { WorkerView };

    ghost view = { λ worker. record { place = worker.place; peers = worker.peers.items; turns = worker.turns } };

    ghost invariant = { λ worker. length worker.peers.items ≤ 32 };
}

impl Worker {
    /// Returns a worker of the plan, which has made no turn yet. Its peers are those that name its place, in plan order.
    pub fn new(plan: &Plan, place: WorkerId) -> Worker
        requires { place < length plan.now.workers }
        ensures place { result.place ≡ place }
        ensures peers { result.peers ≡ peers_of plan.now place }
        ensures turns { result.turns ≡ 0 }
    {
        let mut peers = ArrayVec::new();
        for peer in 0..plan.peer_count() {
            if plan.worker(PeerId::new(peer)) == place {
                peers.push(peer);
            }
        }
        Worker {
            place,
            peers,
            turns: 0,
            out: Out::default(),
        }
    }

    /// Returns its place among the workers of the plan, from 0 on.
    pub fn place(&self) -> WorkerId
        ensures { result ≡ self.now.place }
    {
        self.place
    }

    /// Returns the peers that it serves, at most 32, by their places in the plan, in plan order.
    pub fn peers(&self) -> &[u16]
        ensures peers { result.now ≡ self.now.peers }
        ensures few { length result.now ≤ 32 }
    {
        self.peers.as_slice()
    }

    /// Returns the number of turns that it has made, modulo 2^64.
    pub fn turns(&self) -> u64
        ensures { result ≡ self.now.turns }
    {
        self.turns
    }

    /// Returns the endpoints of its peers, in their order: those to which its wire may send.
    ///
    /// `AllocError`: a request for memory was refused.
    pub fn endpoints(&self, alloc: Global, plan: &Plan) -> Result<Vec<Endpoint>, AllocError>
        requires { self.now.peers ≡ peers_of plan.now self.now.place }
        ensures { IfOk result (λ endpoints. AreEndpoints plan.now self.now.peers endpoints.items) }
    {
        let mut endpoints = Vec::new(alloc);
        for &peer in self.peers() {
            endpoints.push(plan.endpoint(PeerId::new(peer)))?;
        }
        Ok(endpoints)
    }
}
