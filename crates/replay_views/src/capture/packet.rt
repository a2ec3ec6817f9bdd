//! The packets of a capture.

/// The most octets of payload that a UDP datagram has over IPv4: 65,535, less a header of 20 octets and one of 8.
pub const MOST_PAYLOAD: usize = 65507;

/// Where a datagram comes from or goes to.
#[derive(Clone, Copy)]
pub struct UdpEndpoint {
    /// The IPv4 address, its first octet the highest.
    pub address: u32,
    pub port: u16,
}

/// A UDP datagram over IPv4, as one side sends it to the other.
#[derive(Clone, Copy)]
pub struct Packet<'a> {
    /// In milliseconds since 1970 began, or since whatever moment is 0.
    pub moment: u64,
    pub from: UdpEndpoint,
    pub to: UdpEndpoint,
    /// At most `MOST_PAYLOAD` octets.
    pub payload: &'a [u8],
}
