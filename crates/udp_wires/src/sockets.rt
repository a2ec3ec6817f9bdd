//! The sockets of a wire, all at one endpoint: the worker's own, and one for each peer that is connected to it, if such
//! sockets are possible.
ghost use Rattle.std.specs.Prelude.{◌≡◌, ◌<◌, ◌≤◌, ◌↔◌, ◌⊎◌, Any, IfOk, IfSome, IsTrue, ℕ, length, vec_len};
ghost use Rattle.mio.specs.Event.{event_token};
ghost use Rattle.mio.specs.Events.{items};
ghost use Rattle.udp_wires.specs.SocketSet.{Has, IsEmpty};

use crate::bind_error::BindError;
use crate::link::{Link, is_definite};
use crate::own_socket::{bound, received, sent};
use crate::shared_port::share;
use crate::sharing::Sharing;
use crate::socket_set::SocketSet;
use crate::waker::WireWaker;
use crate::wire::WireFault;
use mio::net::UdpSocket;
use mio::{Events, Interest, Poll, Token, Waker};
use peer_plan::Endpoint;
use std::alloc::{AllocError, Global};
use std::net::Net;
use std::os::fd::{AsRawFd, RawFd};
use std::time::Duration;

// The greatest number of peers of a plan.
const LINKS: usize = 32;

// The worker's own socket, and the links.
const SOCKETS: u32 = 33;

// The place of the worker's own socket. That of a link is the place of its peer and one more.
const OWN: u32 = 0;

// The number of places of a set of sockets. It is also the token of a waker.
const PLACES: usize = 64;

/// The sockets of a wire, with their poll.
#[derive(Drop)]
pub(crate) struct Sockets {
    own: UdpSocket,
    // By peer.
    links: Vec<Option<Link>>,
    poll: Poll,
    events: Events,
    // The sockets that may have a datagram. The system reports each datagram once, so a socket that had one may have more.
    ready: SocketSet,
    // The socket that was read last.
    last: u32,
    ghost few: { vec_len links ≤ 32 },
}

// Returns the sockets that may have a datagram: these, and those that the system reports.
fn with_events(ready: SocketSet, events: &Events) -> SocketSet
    ensures { (place : ℕ) → place < 64 →
        Has result place ↔ (Has ready place ⊎ Any (λ event. (event_token event).0 ≡ place) (items events.now)) }
{
    let mut ready = ready;
    for event in events {
        let Token(place) = event.token();
        if place < PLACES {
            ready = ready.with(place as u32);
        }
    }
    ready
}

// Returns the worker's own socket, registered with the poll.
fn readable<N: Net>(
    rt: &N,
    poll: &Poll,
    at: Endpoint,
    sharing: Sharing,
) -> Result<UdpSocket, BindError> {
    let mut socket = bound(rt, at, sharing)?;
    poll.registry()
        .register(&mut socket, Token(0), Interest::READABLE)?;
    Ok(socket)
}

// Returns a link to each of the peers for which the system gives one.
fn made(
    alloc: Global,
    poll: &Poll,
    at: Endpoint,
    peers: &[Endpoint],
) -> Result<Vec<Option<Link>>, AllocError>
    ensures { IfOk result (λ links. vec_len links ≡ length peers.now) }
{
    let mut links = Vec::with_capacity(alloc, peers.len())?;
    for place in 0..peers.len() {
        links.push(Link::made(poll, at, peers[place], Token(place + 1)))?;
    }
    Ok(links)
}

// Keeps others from being bound next to these sockets from now on. Returns false if the system doesn't set that for the
// worker's own.
fn keep_alone(own: &UdpSocket, links: &[Option<Link>]) -> bool {
    for link in links {
        if let Some(link) = link {
            let _set = link.keep_alone();
        }
    }
    share(own.as_raw_fd(), false)
}

// Removes the datagrams that came to these before they were connected, from any sender. Returns false if there may be more.
fn are_emptied(links: &[Option<Link>]) -> bool {
    for link in links {
        if let Some(link) = link {
            if !link.is_emptied() {
                return false;
            }
        }
    }
    true
}

// Returns the links of a worker whose own socket is bound. There are none if other workers have its endpoint, or if the
// system chooses it.
fn links_of(
    alloc: Global,
    own: &UdpSocket,
    poll: &Poll,
    at: Endpoint,
    peers: &[Endpoint],
    sharing: Sharing,
) -> Result<Vec<Option<Link>>, BindError>
    ensures { IfOk result (λ links. vec_len links ≤ 32) }
{
    if sharing != Sharing::Alone || !is_definite(at) || !share(own.as_raw_fd(), true) {
        return Ok(Vec::new(alloc));
    }
    let linked = &peers[..peers.len().min(LINKS)];
    let links = made(alloc, poll, at, linked)?;
    if !keep_alone(own, &links) {
        return Err(BindError::Bind);
    }
    if are_emptied(&links) {
        Ok(links)
    } else {
        Ok(Vec::new(alloc))
    }
}

impl Sockets {
    /// Returns the sockets at this endpoint for these peers, with their poll. No socket was read yet.
    ///
    /// Returns `Memory` if a request for memory was refused. Returns `Bind` if the system gives no own socket or no poll,
    /// doesn't set an option of it, or doesn't bind it to that endpoint. The first that is refused counts, in the order of
    /// the body: the poll, its events, the own socket, the list of links. A link that the system doesn't give is missing.
    pub(crate) fn bound<N: Net>(
        rt: &N,
        alloc: Global,
        at: Endpoint,
        peers: &[Endpoint],
        sharing: Sharing,
    ) -> Result<Sockets, BindError> {
        let poll = Poll::new(rt)?;
        // One for each socket, and one for a waker.
        let events = Events::with_capacity(alloc, 2 + LINKS)?;
        let own = readable(rt, &poll, at, sharing)?;
        let links = links_of(alloc, &own, &poll, at, peers, sharing)?;
        Ok(Sockets {
            own,
            links,
            poll,
            events,
            ready: SocketSet::below(SOCKETS),
            last: OWN,
        })
    }

    /// Returns the descriptor of the worker's own socket.
    pub(crate) fn own_descriptor(&self) -> RawFd {
        self.own.as_raw_fd()
    }

    /// Returns the descriptor of the link of the peer at this place, or `None` if it has no link.
    pub(crate) fn link_descriptor(&self, place: usize) -> Option<RawFd> {
        match self.links.get(place) {
            Some(Some(link)) => Some(link.descriptor()),
            _ => None,
        }
    }

    /// Returns a waker, which ends `poll_ready` from any thread, or `None` if the system gives no eventfd.
    pub(crate) fn waker(&self) -> Option<WireWaker> {
        match Waker::new(self.poll.registry(), Token(PLACES)) {
            Ok(waker) => Some(WireWaker::over(waker)),
            Err(_) => None,
        }
    }

    /// Returns whether no socket may have a datagram.
    pub(crate) fn are_empty(&self) -> bool
        ensures { IsTrue result ↔ IsEmpty self.now.ready }
    {
        self.ready.is_empty()
    }

    /// Asks the system which sockets have a datagram. Waits for one, or for a waker, at most `ms` milliseconds. If the call
    /// fails, each socket may have one.
    pub(crate) fn poll_ready(&mut self, ms: u64) {
        let wait = Duration::from_millis(ms);
        let polled = self.poll.poll(&mut self.events, Some(wait));
        self.ready = if polled.is_ok() {
            with_events(self.ready, &self.events)
        } else {
            SocketSet::below(SOCKETS)
        };
    }

    // Reads the next datagram of the socket at this place. Returns `None` if it has none, or if there is no such socket.
    fn receive_at(
        &self,
        place: u32,
        octets: &mut [u8],
    ) -> Result<Option<(usize, Endpoint)>, WireFault>
        ensures within { IfOk result (λ found. IfSome found (λ datagram. datagram.0 ≤ length octets.new)) }
    {
        if place == OWN {
            return received(&self.own, octets);
        }
        match self.links.get(place as usize - 1) {
            Some(Some(link)) => link.receive(octets),
            _ => Ok(None),
        }
    }

    /// Returns the next datagram, with its sender. After each datagram it reads the next socket, going round. So a peer
    /// that sends without end doesn't keep the datagrams of others from being read. Returns `None` if no socket that may
    /// have had a datagram has one.
    pub(crate) fn receive(
        &mut self,
        octets: &mut [u8],
    ) -> Result<Option<(usize, Endpoint)>, WireFault>
        ensures within { IfOk result (λ found. IfSome found (λ datagram. datagram.0 ≤ length octets.new)) }
    {
        for _ in 0..PLACES {
            let from = self.last.wrapping_add(1) % 64;
            let Some(place) = self.ready.first_from(from) else {
                return Ok(None);
            };
            self.last = place;
            if let Some(datagram) = self.receive_at(place, octets)? {
                return Ok(Some(datagram));
            }
            self.ready = self.ready.without(place);
        }
        Ok(None)
    }

    // Returns the link that is connected to this endpoint of the peer at this place.
    fn link_to(&self, place: Option<usize>, to: Endpoint) -> Option<&Link>
        ensures { IfSome result (λ link. link.now.peer ≡ to) }
    {
        let link = self.links.get(place?)?.as_ref()?;
        if link.peer == to { Some(link) } else { None }
    }

    /// Sends a datagram to an endpoint of the peer at this place, by its link. If there is none or it failed, the worker's
    /// own socket sends it. Returns false if it would have to wait, and `WireFault` if the worker's own socket failed.
    pub(crate) fn send(
        &self,
        place: Option<usize>,
        to: Endpoint,
        octets: &[u8],
    ) -> Result<bool, WireFault> {
        if let Some(link) = self.link_to(place, to) {
            let linked = link.send(octets);
            if linked.is_ok() {
                return linked;
            }
        }
        sent(&self.own, to, octets)
    }
}
