//! The call numbers of a peer.

/// Consecutive local call numbers.
#[derive(Clone, Copy, Debug, PartialEq, Eq)]
pub struct NumberRange {
    /// The lowest, from 1 on.
    pub first: u16,
    /// The number of call numbers: 1 ..= 512.
    pub count: u16,
}
