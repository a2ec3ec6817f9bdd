//! The two sides of a leg.
ghost use Rattle.std.specs.Prelude.{◌≡◌};
ghost use Rattle.call_records.specs.Courses as course;

/// A side of a leg.
#[derive(Clone, Copy)]
pub enum Side {
    /// The other side: the peer.
    Peer,
    /// This side: the exchange.
    Exchange,
}

impl Side {
    // Returns whether both are the same side.
    pub(crate) fn is(self, other: Side) -> bool
        ensures { result ≡ course.is_side self other }
    {
        matches!(
            (self, other),
            (Side::Peer, Side::Peer) | (Side::Exchange, Side::Exchange)
        )
    }

    // Returns whether this side is the called one, if `opener` opened the call.
    pub(crate) fn is_called(self, opener: Option<Side>) -> bool
        ensures { result ≡ course.is_called opener self }
    {
        match opener {
            Some(Side::Peer) => self.is(Side::Exchange),
            Some(Side::Exchange) => self.is(Side::Peer),
            None => false,
        }
    }
}
