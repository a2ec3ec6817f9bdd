//! The sockets of workers.
ghost use Rattle.std.specs.Prelude.{◌≡◌, ◌+◌, ◌/◌, ◌<◌, IfOk, length, max};
ghost use Rattle.udp_wires.specs.MioWire as wires;
ghost use Rattle.udp_workers.specs.Served.{AreEndpoints, peers_of};

use crate::seat_context::SeatContext;
use crate::service_error::ServiceError;
use peer_plan::WorkerId;
use std::net::Net;
use std::os::fd::RawFd;
use udp_wires::{MioWire, Sharing, Wire, WireWaker};
use udp_workers::Worker;

// The receive buffers that the sockets of one worker ask for together, in octets.
const WORKER_ROOM: u64 = 4_194_304;

// The least that one socket asks for, in octets. The kernel doubles it and counts some 832 octets for a mini frame of
// G.711, so over 600 of these can wait.
const SOCKET_ROOM: u64 = 262_144;

/// The setup of workers' sockets.
pub trait Sockets {
    /// Returns whether workers of one endpoint share it. If they don't, binding the second of them fails.
    fn are_shared(&self) -> bool;

    /// Sets up the socket of this worker, which has this descriptor. `room` is its share of the worker's receive buffers, in
    /// octets. Returns the size of the buffer that the system grants, in octets, if it was asked for.
    fn set_up(&self, worker: WorkerId, descriptor: RawFd, room: u32) -> Option<u64>;

    /// Sets up a socket with this descriptor, at a worker's endpoint, that is connected to one of its peers. It has the
    /// same share.
    fn set_up_link(&self, descriptor: RawFd, room: u32);

    /// Returns whether a worker is woken when others have filled outboxes of its peers. If not, its wire gives no waker.
    fn are_woken(&self) -> bool;

    /// Keeps the waker of this worker. `None` means that the system gives no eventfd; then the wire waits as one without a
    /// waker.
    fn keep_waker(&self, worker: WorkerId, waker: Option<WireWaker>);
}

/// Sockets that are bound alone and aren't set up further. No worker is woken.
#[derive(Clone, Copy, Drop)]
pub struct PlainSockets;

impl Sockets for PlainSockets {
    fn are_shared(&self) -> bool {
        false
    }

    fn set_up(&self, _worker: WorkerId, _descriptor: RawFd, _room: u32) -> Option<u64> {
        None
    }

    fn set_up_link(&self, _descriptor: RawFd, _room: u32) {}

    fn are_woken(&self) -> bool {
        false
    }

    fn keep_waker(&self, _worker: WorkerId, _waker: Option<WireWaker>) {}
}

/// Returns the share of a worker's receive buffers for each of its sockets, in octets. The worker has its own socket and
/// `links` sockets connected to peers. Together they have 4 MiB, but each at least 256 KiB.
pub fn room_of(links: u32) -> u32
    ensures { result ≡ max (4194304 / (links + 1)) 262144 }
{
    let sockets = u64::from(links) + 1;
    (WORKER_ROOM / sockets).max(SOCKET_ROOM) as u32
}

// Returns the number of a wire's sockets that are connected to peers.
fn links_of(wire: &MioWire) -> u32 {
    let mut links: u32 = 0;
    for peer in 0..wire.peers().len() {
        if wire.link_descriptor(peer).is_some() {
            links = links.saturating_add(1);
        }
    }
    links
}

// Sets up the sockets of a wire, and keeps its waker if workers are woken.
fn set_up_all<S: Sockets>(sockets: &S, worker: WorkerId, wire: &mut MioWire)
    ensures { wires.peers_of wire.new ≡ wires.peers_of wire.old }
{
    let room = room_of(links_of(wire));
    let _waiting = sockets.set_up(worker, wire.descriptor(), room);
    for peer in 0..wire.peers().len() {
        if let Some(descriptor) = wire.link_descriptor(peer) {
            sockets.set_up_link(descriptor, room);
        }
    }
    if sockets.are_woken() {
        sockets.keep_waker(worker, wire.waker());
    }
}

// Binds a worker's socket to its endpoint by `MioWire::bind`, shared with other workers if `sockets` says so.
//
// Returns `Memory` if a request for memory was refused, and `Bind` if the socket isn't bound.
pub(crate) fn wire_of<N: Net, S: Sockets>(
    context: &SeatContext<'_, N>,
    sockets: &S,
    worker: &Worker,
    place: WorkerId,
) -> Result<MioWire, ServiceError>
    requires place { place < length context.now.plan.now.workers }
    requires peers { worker.now.peers ≡ peers_of context.now.plan.now worker.now.place }
    ensures { IfOk result (λ wire. AreEndpoints context.now.plan.now worker.now.peers (wires.peers_of wire)) }
{
    let SeatContext {
        rt,
        alloc,
        plan,
        ..
    } = *context;
    let endpoints = worker.endpoints(alloc, plan)?;
    let workers = plan.workers();
    let sharing = if sockets.are_shared() {
        Sharing::of(workers, place)
    } else {
        Sharing::Alone
    };
    let mut wire = MioWire::bind(rt, alloc, workers[place.index()], endpoints, sharing)?;
    set_up_all(sockets, place, &mut wire);
    Ok(wire)
}
