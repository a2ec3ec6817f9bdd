//! The endpoint of a worker or a peer.

/// An IPv4 address and a UDP port.
#[derive(Clone, Copy, Debug, PartialEq, Eq)]
pub struct Endpoint {
    /// The four numbers of the address, the first one first.
    pub address: [u8; 4],
    /// 1 ..= 65,535 in a plan.
    pub port: u16,
}
