//! The end of a call.

use crate::leg_moment::LegMoment;

/// The frame that ended a call ("Call Tear Down", "Call Setup").
#[derive(Clone, Copy)]
pub enum Ending {
    /// The exchange sent a HANGUP.
    HungUpHere,
    /// The peer sent a HANGUP.
    HungUpByPeer,
    /// The exchange sent a REJECT.
    RejectedHere,
    /// The peer, which was called, sent a REJECT before an ACCEPT.
    RejectedByPeer,
}

/// The end of a call.
#[derive(Clone, Copy)]
pub struct CallEnd {
    pub how: Ending,
    pub at: LegMoment,
    /// The CAUSECODE of the frame, 0 ..= 255, if it has one of one octet ("Information Elements").
    pub cause: Option<u8>,
}
