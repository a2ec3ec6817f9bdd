//! A wire over UDP sockets of the system.
ghost use Rattle.std.specs.Prelude.{◌≡◌, ◌≢◌, ◌↔◌, [], Contains, IfOk, IsFalse, IsNone, IsSome, IsTrue, position};
ghost use Rattle.peer_plan.specs.Reading.{is_endpoint};
ghost use Rattle.peer_plan.specs.declared.endpoint.Endpoint.{Endpoint};
ghost use Rattle.udp_wires.specs.Counts.{RisesBy};
ghost use Rattle.udp_wires.specs.Pauses.{pause_of};

use crate::bind_error::BindError;
use crate::peer_counts::PeerCounts;
use crate::sharing::Sharing;
use crate::sockets::Sockets;
use crate::traffic::Traffic;
use crate::waker::WireWaker;
use crate::wire::{Wire, WireFault};
use peer_plan::Endpoint;
use std::alloc::Global;
use std::net::Net;
use std::os::fd::RawFd;

// The longest wait, in milliseconds, while another worker may fill outboxes of these peers without waking this one.
const SHARED_MS: u64 = 2;

/// UDP sockets of the system that are bound to an IPv4 endpoint: a worker's own, and if possible one for each peer,
/// connected to it.
///
/// `receive` reads the sockets that the system reported as ready, by turns, each until it is empty. A datagram that comes
/// meanwhile to another socket is found after the next `wait`, or once `receive` has found none.
pub struct MioWire {
    sockets: Sockets,
    // Whether a wait takes at most `SHARED_MS`.
    waits_short: bool,
    peers: PeerCounts,
    given: u64,
    failures: u64,
    came: Traffic,
    went: Traffic,
    sent: Traffic,
}

// Written out, so that an owner proves one call at its drop, not the drop of each field.
impl Drop for MioWire {
    fn drop(self) {
        let MioWire {
            sockets: _,
            waits_short: _,
            peers: _,
            given: _,
            failures: _,
            came: _,
            went: _,
            sent: _,
        } = self;
    }
}

// Returns the longest wait: 0 if there may be a datagram.
fn pause_of(empty: bool, short: bool, ms: u64) -> u64
    ensures { result ≡ pause_of empty short ms }
{
    if !empty {
        return 0;
    }
    if short { ms.min(SHARED_MS) } else { ms }
}

impl MioWire {
    ghost use Rattle.udp_wires.specs.MioWire.{came_of, went_of, sent_of, given_of, given_to_of, failures_of, peers_of};
    ghost use Rattle.udp_wires.specs.MioWire.{waits_short};

    /// Returns a UDP socket that is bound to this IPv4 endpoint and may send to these peers. Nothing was given to it yet,
    /// and no call failed.
    ///
    /// The socket doesn't block, and is registered with a poll. `Alone`: it is bound with no option set, so nobody else can
    /// be bound there. `First`: it is bound in the same way, and then `SO_REUSEPORT` is set. `Beside`: `SO_REUSEPORT` is
    /// set before it is bound. Contracts describe the peers, the counts, and whether its waits are short. They don't
    /// mention the endpoint, the options, the sockets and the polling.
    ///
    /// `Alone`, at an address and a port that aren't 0: each of the first 32 peers also gets a socket there, which is
    /// connected to it. So the system needn't look up the route for each datagram. `SO_REUSEPORT` is set only while these
    /// are bound, and nobody else can be bound there after it. A peer for which the system gives no such socket, or whose
    /// address or port is 0, is served by the worker's own.
    ///
    /// Workers of one endpoint are bound in the order of their places. The system then chooses one of them for each sender,
    /// and gives it all datagrams of that sender. Until such a wire has given a waker, it waits at most 2 ms, because
    /// another worker may have filled outboxes of its peers.
    ///
    /// Returns `Memory` if a request for memory was refused. Returns `Bind` if the system gives no socket or no poll,
    /// doesn't set the option, doesn't bind the socket to that endpoint, or doesn't take `SO_REUSEPORT` back. Requests and
    /// calls of the system come in this order, and the first that is refused counts: memory for the counts of the peers,
    /// the poll, memory for its events, the worker's own socket, memory for the list of the peers' sockets, these, and
    /// `SO_REUSEPORT` taken back. At an `Err` the list is dropped.
    pub fn bind<N: Net>(
        rt: &N,
        alloc: Global,
        at: Endpoint,
        peers: Vec<Endpoint>,
        sharing: Sharing,
    ) -> Result<MioWire, BindError>
        ensures peers { IfOk result (λ wire. peers_of wire ≡ peers.items) }
        ensures came { IfOk result (λ wire. came_of wire ≡ []) }
        ensures went { IfOk result (λ wire. went_of wire ≡ []) }
        ensures sent { IfOk result (λ wire. sent_of wire ≡ []) }
        ensures given { IfOk result (λ wire. given_of wire ≡ 0) }
        ensures given_to { IfOk result (λ wire. (to : Endpoint) → given_to_of wire to ≡ 0) }
        ensures failures { IfOk result (λ wire. failures_of wire ≡ 0) }
        ensures short { IfOk result (λ wire. IsTrue (waits_short wire) ↔ (sharing ≢ Sharing.Alone)) }
    {
        let peers = PeerCounts::new(alloc, peers)?;
        let sockets = Sockets::bound(rt, alloc, at, &peers.endpoints, sharing)?;
        Ok(MioWire::over(sockets, peers, sharing))
    }

    /// Returns the descriptor of its own socket, for a caller that sets the socket's options. Contracts don't mention it.
    pub fn descriptor(&self) -> RawFd {
        self.sockets.own_descriptor()
    }

    /// Returns the descriptor of the socket that is connected to the peer at this place of its list, from 0 on. A caller
    /// may use it to set the socket's options. Returns `None` if that peer has none. Contracts don't mention it.
    pub fn link_descriptor(&self, peer: usize) -> Option<RawFd> {
        self.sockets.link_descriptor(peer)
    }

    /// Returns a waker, by which any thread ends its waits. From then on a wait takes as long as the caller asks, even with
    /// a shared endpoint. So callers that fill outboxes of its peers have to wake it.
    ///
    /// Returns `None` if the system gives no eventfd; then waits are as before.
    pub fn waker(&mut self) -> Option<WireWaker>
        ensures came { came_of self.new ≡ came_of self.old }
        ensures went { went_of self.new ≡ went_of self.old }
        ensures sent { sent_of self.new ≡ sent_of self.old }
        ensures given { given_of self.new ≡ given_of self.old }
        ensures given_to { (to : Endpoint) → given_to_of self.new to ≡ given_to_of self.old to }
        ensures failures { failures_of self.new ≡ failures_of self.old }
        ensures peers { peers_of self.new ≡ peers_of self.old }
        ensures whole { IsSome result → IsFalse (waits_short self.new) }
        ensures as_before { IsNone result → waits_short self.new ≡ waits_short self.old }
    {
        let waker = self.sockets.waker();
        if waker.is_some() {
            self.waits_short = false;
        }
        waker
    }

    // Returns a wire over sockets that are bound and polled.
    fn over(sockets: Sockets, peers: PeerCounts, sharing: Sharing) -> MioWire
        ensures peers { result.peers ≡ peers }
        ensures came { came_of result ≡ [] }
        ensures went { went_of result ≡ [] }
        ensures sent { sent_of result ≡ [] }
        ensures given { given_of result ≡ 0 }
        ensures failures { failures_of result ≡ 0 }
        ensures short { IsTrue (waits_short result) ↔ (sharing ≢ Sharing.Alone) }
    {
        MioWire {
            sockets,
            waits_short: sharing != Sharing::Alone,
            peers,
            given: 0,
            failures: 0,
            came: Traffic::new(),
            went: Traffic::new(),
            sent: Traffic::new(),
        }
    }

    // Counts a datagram for this endpoint, which one of its peers has. Returns the first place of such a peer.
    fn count(&mut self, to: Endpoint) -> Option<usize>
        requires { Contains (peers_of self.old) to }
        ensures came { came_of self.new ≡ came_of self.old }
        ensures went { went_of self.new ≡ went_of self.old }
        ensures sent { sent_of self.new ≡ sent_of self.old }
        ensures given { RisesBy (given_of self.old) (given_of self.new) 1 }
        ensures to { RisesBy (given_to_of self.old to) (given_to_of self.new to) 1 }
        ensures others { (other : Endpoint) → other ≢ to → given_to_of self.new other ≡ given_to_of self.old other }
        ensures failures { failures_of self.new ≡ failures_of self.old }
        ensures peers { peers_of self.new ≡ peers_of self.old }
        ensures place { result ≡ position (λ peer. is_endpoint peer to) (peers_of self.old) }
    {
        self.given = self.given.wrapping_add(1);
        self.peers.count_at(to)
    }
}

impl Wire for MioWire {
    ghost use Rattle.udp_wires.specs.MioWire.{came_of, went_of, sent_of, given_of, given_to_of, failures_of, peers_of};

    ghost came = { came_of };

    ghost went = { went_of };

    ghost sent = { sent_of };

    ghost given = { given_of };

    ghost given_to = { given_to_of };

    ghost failures = { failures_of };

    ghost peers = { peers_of };

    fn receive(&mut self, octets: &mut [u8]) -> Result<Option<(usize, Endpoint)>, WireFault> {
        // A caller that doesn't wait still gets the datagrams that came since the last empty read.
        if self.sockets.are_empty() {
            self.sockets.poll_ready(0);
        }
        let found = self.sockets.receive(octets);
        match found {
            Ok(Some((len, from))) => self.came.add(from, &octets[..len]),
            Ok(None) => {}
            Err(_) => self.failures = self.failures.wrapping_add(1),
        }
        found
    }

    fn send(&mut self, to: Endpoint, octets: &[u8]) -> Result<bool, WireFault> {
        let place = self.count(to);
        self.went.add(to, octets);
        let sent = self.sockets.send(place, to, octets);
        match sent {
            Ok(true) => self.sent.add(to, octets),
            Ok(false) => {}
            Err(_) => self.failures = self.failures.wrapping_add(1),
        }
        sent
    }

    fn wait(&mut self, ms: u64) {
        let pause = pause_of(self.sockets.are_empty(), self.waits_short, ms);
        self.sockets.poll_ready(pause);
    }

    fn peers(&self) -> &[Endpoint] {
        &self.peers.endpoints
    }

    fn given(&self) -> u64 {
        self.given
    }

    fn given_to(&self, to: Endpoint) -> u64 {
        self.peers.get(to)
    }

    fn failures(&self) -> u64 {
        self.failures
    }
}
