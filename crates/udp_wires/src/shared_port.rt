//! Sockets that are bound to one endpoint. The system distributes datagrams among them by sender (`SO_REUSEPORT`), which
//! neither `std::net` nor `mio` offers. A connected socket gets the datagrams of its peer, and no others.
ghost use Rattle.std.specs.Prelude.{◌≡◌};
ghost use Rattle.udp_wires.specs.SocketAddress.{socket_address};

use libc::net as system;
use os::FromRawFd;
use peer_plan::Endpoint;
use std::net::UdpSocket;
use std::os::fd::{AsRawFd, RawFd};

// The length of C's `sockaddr_in`, in octets.
const ADDRESS_OCTETS: u32 = 16;

fn socket_address(at: Endpoint) -> [u8; system::_SS_SIZE]
    ensures { result ≡ socket_address at }
{
    let mut octets = [0u8; system::_SS_SIZE];
    octets[..2].copy_from_slice(&(system::AF_INET as u16).to_ne_bytes());
    octets[2..4].copy_from_slice(&at.port.to_be_bytes());
    octets[4..8].copy_from_slice(&at.address);
    octets
}

// Sets whether other sockets that share the endpoint may be bound next to it from now on. Returns false if the system
// doesn't set that.
pub(crate) fn share(descriptor: RawFd, shared: bool) -> bool {
    let mut value = [0u8; 16];
    value[..4].copy_from_slice(&i32::from(shared).to_ne_bytes());
    let status = unsafe {
        system::setsockopt(
            descriptor,
            system::SOL_SOCKET,
            system::SO_REUSEPORT,
            &value,
            4,
        )
    };
    status == 0
}

// Returns a socket that isn't bound yet. It never waits.
fn unbound() -> Option<UdpSocket> {
    let kind = system::SOCK_DGRAM | system::SOCK_NONBLOCK | system::SOCK_CLOEXEC;
    let descriptor = unsafe { system::socket(system::AF_INET, kind, 0) };
    if descriptor < 0 {
        return None;
    }
    Some(unsafe { UdpSocket::from_raw_fd(descriptor) })
}

// Returns a socket that is bound next to others that share this endpoint. It never waits.
pub(crate) fn bound_beside(at: Endpoint) -> Option<UdpSocket> {
    let socket = unbound()?;
    let descriptor = socket.as_raw_fd();
    if !share(descriptor, true) {
        return None;
    }
    let status = unsafe { system::bind(descriptor, &socket_address(at), ADDRESS_OCTETS) };
    if status == 0 { Some(socket) } else { None }
}
