//! The moments of a call.

/// The moments at which a leg's call was first offered, accepted, answered and over, in milliseconds, or `None`. They are
/// of the clock that is passed to the leg's steps, not of its peer's.
#[derive(Clone, Copy, Debug, Default, PartialEq, Eq)]
pub struct Moments {
    /// The leg entered `Offered`: the call of the other side was handed up.
    pub offered: Option<u64>,
    /// The leg entered `Linked` or `Up` by the called side: by an order if the call was offered, otherwise by a frame.
    pub accepted: Option<u64>,
    /// The leg entered `Up` in this way. A caller's own ANSWER doesn't count.
    pub answered: Option<u64>,
    /// The leg entered `Closing` or `Ended`: a HANGUP or a REJECT was sent or received, or the leg failed.
    pub over: Option<u64>,
}
