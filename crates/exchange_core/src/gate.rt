//! A hook that is called inside each locked section of a peer.

/// Called inside each locked section of a peer.
pub trait Gate: Drop {
    /// Called once the lock of the peer at this place of the plan was taken.
    fn enter(&self, peer: u16);
}

/// A gate that does nothing.
#[derive(Clone, Copy)]
pub struct NoGate;

impl Gate for NoGate {
    fn enter(&self, _peer: u16) {}
}
