//! A socket that is connected to a peer, at the endpoint of its worker. The system keeps the route to the peer, and gives
//! the socket only datagrams of this peer.
ghost use Rattle.std.specs.Prelude.{◌≡◌, ◌≤◌, IfOk, IfSome, length};
ghost use Rattle.udp_wires.specs.Link.{is_definite};

use crate::own_socket::socket_address;
use crate::shared_port::{bound_beside, share};
use crate::wire::WireFault;
use mio::net::UdpSocket;
use mio::{Interest, Poll, Token};
use peer_plan::Endpoint;
use std::io;
use std::os::fd::{AsRawFd, RawFd};

// The greatest number of datagrams that are removed from a socket that was just connected.
const TRIES: u32 = 4096;

/// A socket that is connected to a peer.
#[derive(Drop)]
pub(crate) struct Link {
    socket: UdpSocket,
    pub(crate) peer: Endpoint,
}

/// Returns whether an endpoint names one address and one port.
pub(crate) fn is_definite(endpoint: Endpoint) -> bool
    ensures { result ≡ is_definite endpoint }
{
    endpoint.address != [0; 4] && endpoint.port != 0
}

// Reads the next datagram of a connected socket. Returns its length in octets.
fn received(socket: &UdpSocket, octets: &mut [u8]) -> Result<Option<usize>, WireFault>
    ensures within { IfOk result (λ found. IfSome found (λ len. len ≤ length octets.new)) }
{
    match socket.recv(octets) {
        Ok(len) => Ok(Some(len)),
        Err(error) => {
            if error.kind() == io::ErrorKind::WouldBlock {
                return Ok(None);
            }
            Err(WireFault)
        }
    }
}

// Returns a socket that is bound next to the worker's own and connected to a peer, or `None` if the system gives none.
fn connected(at: Endpoint, peer: Endpoint) -> Option<UdpSocket> {
    let socket = UdpSocket::from_std(bound_beside(at)?);
    socket.connect(socket_address(peer)).ok()?;
    Some(socket)
}

impl Link {
    /// Returns a socket at this endpoint, next to one that lets others be bound there. It is connected to the peer, and
    /// registered with the poll under that token.
    ///
    /// Returns `None` if the peer's address or port is 0, or if the system refuses it: there is no socket, it can't be
    /// bound or registered, or there is no route to the peer.
    pub(crate) fn made(poll: &Poll, at: Endpoint, peer: Endpoint, token: Token) -> Option<Link>
        ensures { IfSome result (λ link. link.peer ≡ peer) }
    {
        if !is_definite(peer) {
            return None;
        }
        let mut socket = connected(at, peer)?;
        let registry = poll.registry();
        let polled = registry.register(&mut socket, token, Interest::READABLE);
        if polled.is_err() {
            return None;
        }
        Some(Link { socket, peer })
    }

    pub(crate) fn descriptor(&self) -> RawFd {
        self.socket.as_raw_fd()
    }

    /// Keeps others from being bound next to it from now on. Returns false if the system doesn't set that.
    pub(crate) fn keep_alone(&self) -> bool {
        share(self.descriptor(), false)
    }

    /// Removes the datagrams that came before it was connected, from any sender. Once nobody else can be bound next to it,
    /// no datagrams of other senders come any more. Returns false if there may be more.
    pub(crate) fn is_emptied(&self) -> bool {
        let mut octets = [0u8; 1];
        for _ in 0..TRIES {
            if matches!(received(&self.socket, &mut octets), Ok(None)) {
                return true;
            }
        }
        false
    }

    /// Reads the next datagram of its peer.
    ///
    /// A connected socket reports an error once if its peer's machine didn't take a datagram. That is no fault of this
    /// socket, so after an error it is read once more. Returns `WireFault` if that fails too.
    pub(crate) fn receive(&self, octets: &mut [u8]) -> Result<Option<(usize, Endpoint)>, WireFault>
        ensures within { IfOk result (λ found. IfSome found (λ datagram. datagram.0 ≤ length octets.new)) }
        ensures from { IfOk result (λ found. IfSome found (λ datagram. datagram.1 ≡ self.now.peer)) }
    {
        let mut found = received(&self.socket, octets);
        if found.is_err() {
            found = received(&self.socket, octets);
        }
        match found? {
            Some(len) => Ok(Some((len, self.peer))),
            None => Ok(None),
        }
    }

    /// Sends a datagram to its peer. Returns false if it would have to wait, and `WireFault` if it failed. The failure may
    /// be the report of an earlier datagram's error; this datagram isn't sent.
    pub(crate) fn send(&self, octets: &[u8]) -> Result<bool, WireFault> {
        match self.socket.send(octets) {
            Ok(_) => Ok(true),
            Err(error) => {
                if error.kind() == io::ErrorKind::WouldBlock {
                    return Ok(false);
                }
                Err(WireFault)
            }
        }
    }
}
