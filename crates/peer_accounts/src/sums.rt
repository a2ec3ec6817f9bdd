//! The sums of a peer's accounts, for read-only queries.

/// The media octets of a peer, and its steps, as they are at one moment.
#[derive(Clone, Copy, Debug, Default, PartialEq, Eq)]
pub struct Sums {
    /// Octets accepted from this peer.
    pub accepted: u64,
    /// Octets carried to it and written into frames.
    pub packed: u64,
    /// Octets carried to it that wait for a trunk frame.
    pub queued: u64,
    /// Octets carried to it and dropped.
    pub dropped: u64,
    /// The part of the dropped octets that the other side had quelched.
    pub quelched: u64,
    /// The number of steps that it made.
    pub steps: u64,
}
