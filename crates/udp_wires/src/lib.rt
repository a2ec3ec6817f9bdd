//! Wires: the interface of sockets for datagrams, and the sockets of the system. They know the endpoints of peers, but no
//! exchange.
#![tactic(auto)]

mod bind_error;
mod link;
mod mio_wire;
mod own_socket;
mod peer_counts;
mod shared_port;
mod sharing;
mod socket_set;
mod sockets;
mod traffic;
mod waker;
mod wire;

pub use bind_error::BindError;
pub use mio_wire::MioWire;
pub use peer_counts::PeerCounts;
pub use sharing::Sharing;
pub use traffic::Traffic;
pub use waker::WireWaker;
pub use wire::{Wire, WireFault};
