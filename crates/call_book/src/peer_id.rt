//! The places of peers in the plan.
ghost use Rattle.std.specs.Prelude.{◌≡◌, ◌<◌, ◌^◌};

use std::marker::Model;

/// A peer: its place in the plan, from 0 on. Contracts see the place.
#[derive(Clone, Copy, Debug, PartialEq, Eq, PartialOrd, Ord)]
pub struct PeerId {
    place: u16,
}

impl Model for PeerId {
    ghost use Rattle.std.specs.Prelude.{ℕ, ◌<◌, ◌^◌};

    ghost Value = { ℕ };

    ghost view = { λ peer. peer.place };

    ghost invariant = { λ peer. peer.place < 2 ^ 16 };

    ghost inverse = { λ place. record { place = place } };
}

impl PeerId {
    /// Returns the peer at this place in the plan.
    pub fn new(place: u16) -> PeerId
        ensures { result ≡ place }
    {
        PeerId { place }
    }

    /// Returns the peer's place in the plan.
    pub fn get(self) -> u16
        ensures { result ≡ self }
    {
        self.place
    }

    /// Returns the peer's place in the plan, as an index of a list of all peers.
    pub fn index(self) -> usize
        ensures { result ≡ self }
    {
        usize::from(self.place)
    }
}
