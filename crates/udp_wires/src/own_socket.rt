//! A worker's own socket: it receives from any sender, and sends to any endpoint.
ghost use Rattle.std.specs.Prelude.{◌≤◌, IfOk, IfSome, length};

use crate::bind_error::BindError;
use crate::shared_port::{bound_beside, share};
use crate::sharing::Sharing;
use crate::wire::WireFault;
use mio::net::UdpSocket;
use peer_plan::Endpoint;
use std::io;
use std::net::{IpAddr, Ipv4Addr, Net, SocketAddr};
use std::os::fd::AsRawFd;

pub(crate) fn socket_address(endpoint: Endpoint) -> SocketAddr {
    SocketAddr::new(
        IpAddr::V4(Ipv4Addr::from_octets(endpoint.address)),
        endpoint.port,
    )
}

fn endpoint_of(address: SocketAddr) -> Option<Endpoint> {
    match address {
        SocketAddr::V4(address) => Some(Endpoint {
            address: address.ip().octets(),
            port: address.port(),
        }),
        SocketAddr::V6(_) => None,
    }
}

// Reads the next datagram, with its sender, which has to be an IPv4 endpoint.
pub(crate) fn received(
    socket: &UdpSocket,
    octets: &mut [u8],
) -> Result<Option<(usize, Endpoint)>, WireFault>
    ensures within { IfOk result (λ found. IfSome found (λ datagram. datagram.0 ≤ length octets.new)) }
{
    match socket.recv_from(octets) {
        Ok((len, from)) => match endpoint_of(from) {
            Some(sender) => Ok(Some((len, sender))),
            None => Err(WireFault),
        },
        Err(error) => {
            if error.kind() == io::ErrorKind::WouldBlock {
                return Ok(None);
            }
            Err(WireFault)
        }
    }
}

// Sends a datagram. Returns false if it would have to wait.
pub(crate) fn sent(socket: &UdpSocket, to: Endpoint, octets: &[u8]) -> Result<bool, WireFault> {
    match socket.send_to(octets, socket_address(to)) {
        Ok(_) => Ok(true),
        Err(error) => {
            if error.kind() == io::ErrorKind::WouldBlock {
                return Ok(false);
            }
            Err(WireFault)
        }
    }
}

// Returns a socket that is bound to this endpoint.
pub(crate) fn bound<N: Net>(
    rt: &N,
    at: Endpoint,
    sharing: Sharing,
) -> Result<UdpSocket, BindError> {
    if sharing == Sharing::Beside {
        return match bound_beside(at) {
            Some(socket) => Ok(UdpSocket::from_std(socket)),
            None => Err(BindError::Bind),
        };
    }
    let socket = UdpSocket::bind(rt, socket_address(at))?;
    if sharing == Sharing::First && !share(socket.as_raw_fd(), true) {
        return Err(BindError::Bind);
    }
    Ok(socket)
}
