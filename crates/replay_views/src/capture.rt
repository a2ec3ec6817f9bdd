//! Captures of UDP datagrams over IPv4, in the file format of libpcap.
//!
//! `Capture::new` begins one, `push` adds a packet, `octets` are the file's.
ghost use Rattle.std.specs.Prelude.{◌≡◌, ◌+◌, ◌≤◌, ◌<◌, ◌++◌, ◌↔◌, length, Err, IfOk, OnOk, OnErr};
ghost use Rattle.replay_views.specs.Capture.{file_header, packet_octets as octets_of};

mod internet_checksum;
pub mod laws;
mod packet;
mod spelling;

pub use internet_checksum::checksum;
pub use packet::{MOST_PAYLOAD, Packet, UdpEndpoint};
use spelling::packet_octets;
use std::alloc::{AllocError, Global};
use std::marker::Model;

/// The reason why a packet isn't in a capture, in the order in which reasons are checked.
#[derive(Clone, Copy, Debug, PartialEq, Eq)]
pub enum CaptureError {
    /// It has more octets of payload than a UDP datagram can have over IPv4.
    TooLong,
    /// A request for memory was refused.
    Memory,
}

/// A capture. Contracts see the octets of its file.
#[derive(Drop)]
pub struct Capture {
    file: Vec<u8>,
}

impl Model for Capture {
    ghost use Rattle.std.specs.Prelude.{List, ℕ};

    ghost Value = { List ℕ };

    ghost view = { λ capture. capture.file.items };
}

// Magic number, version 2.4, no zone, no accuracy, the most octets of a packet, raw IP.
const FILE_HEADER: [u8; 24] = [
    0xa1, 0xb2, 0xc3, 0xd4, 0, 2, 0, 4, 0, 0, 0, 0, 0, 0, 0, 0, 0, 0, 0xff, 0xff, 0, 0, 0, 101,
];

impl Capture {
    /// Returns an empty capture: the 24 octets of the file's header.
    ///
    /// `AllocError`: a request for memory was refused.
    pub fn new(alloc: Global) -> Result<Capture, AllocError>
        ensures { IfOk result (λ capture. capture ≡ file_header) }
    {
        let mut file = Vec::new(alloc);
        file.extend_from_slice(&FILE_HEADER)?;
        Ok(Capture { file })
    }

    /// Adds a packet behind the others. A capture that refuses it stays as it was.
    ///
    /// `TooLong`: its payload has more than 65,507 octets. `Memory`: a request for memory was refused.
    pub fn push(&mut self, alloc: Global, packet: &Packet<'_>) -> Result<(), CaptureError>
        ensures ok { OnOk result (self.new ≡ self.old ++ octets_of packet.now) }
        ensures long { (result ≡ Err CaptureError.TooLong) ↔ (65507 < length packet.now.payload.now) }
        ensures err { OnErr result (self.new ≡ self.old) }
    {
        if packet.payload.len() > MOST_PAYLOAD {
            return Err(CaptureError::TooLong);
        }
        let Ok(octets) = packet_octets(alloc, packet) else {
            return Err(CaptureError::Memory);
        };
        match self.file.extend_from_slice(&octets) {
            Ok(()) => Ok(()),
            Err(_) => Err(CaptureError::Memory),
        }
    }

    /// Returns the octets of the file: its header, and the packets in their order.
    pub fn octets(&self) -> &[u8]
        ensures { result.now ≡ self.now }
    {
        &self.file
    }
}
