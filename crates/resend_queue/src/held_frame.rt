//! A frame that waits for its acknowledgement.

use iax_frames::Frame;

/// A full frame that was sent with a sequence number and isn't acknowledged yet.
#[derive(Debug, Drop)]
pub struct Held<F = Frame> {
    /// The octet of its sequence number, OSeqno.
    pub number: u8,
    /// The frame, without its call numbers and sequence numbers, or the place where who holds it finds it.
    pub frame: F,
    /// The moment when it was last sent, in milliseconds.
    pub last: u64,
    /// How often it was sent again because it was due, at most 2^32 - 1 times.
    pub tries: u32,
}
