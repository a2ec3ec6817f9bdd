//! Names of call legs.
ghost use Rattle.std.specs.Prelude.{◌≡◌};

use crate::peer_id::PeerId;

/// The name of a leg: a call number that is used again, under a serial that never is.
#[derive(Clone, Copy, Debug, PartialEq, Eq)]
pub struct LegName {
    /// The place of the leg's peer in the plan, from 0 on.
    pub peer: u16,
    /// The local call number, within its peer's range.
    pub number: u16,
    /// How many names were given out before, plus the first serial.
    pub serial: u64,
}

impl LegName {
    /// Returns the leg's peer.
    pub fn owner(self) -> PeerId
        ensures { result ≡ self.peer }
    {
        PeerId::new(self.peer)
    }
}
