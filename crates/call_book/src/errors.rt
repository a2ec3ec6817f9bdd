//! The refusals of the book.

/// The reason why no name was given out.
#[derive(Clone, Copy, Debug, PartialEq, Eq)]
pub enum ReserveError {
    /// The next serial would be 2^64 - 1, which is never given out.
    SerialsSpent,
    /// No number of the peer is free, or the book doesn't know the peer.
    NoNumber,
}

/// The reason why two names were not bridged.
#[derive(Clone, Copy, Debug, PartialEq, Eq)]
pub enum BridgeError {
    /// They are one name.
    Same,
    /// The book hasn't one of the names.
    Stale,
    /// One of the names has a partner already.
    Bridged,
}

/// The book hasn't that name.
#[derive(Clone, Copy, Debug, PartialEq, Eq)]
pub struct Stale;
