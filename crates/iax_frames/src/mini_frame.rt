//! Mini frames ("Mini Frames").
ghost use Rattle.std.specs.Prelude.{◌≡◌, ◌≤◌, ◌<◌, ◌^◌, length};
ghost use Rattle.iax_frames.specs.MiniFrame.{mini_at};
ghost use Rattle.iax_frames.specs.Octets.{u16_at as word};

use crate::call_number::CallNumber;
use crate::octets::u16_at;
use std::marker::Model;

/// A mini frame in the octets of a datagram.
#[derive(Debug, Drop)]
pub struct Mini<'a> {
    octets: &'a [u8],
}

impl<'a> Model for Mini<'a> {
    ghost use Rattle.std.specs.Prelude.{◌≤◌, ◌<◌, ◌^◌, length};
    ghost use Rattle.iax_frames.specs.MiniFrame.{MiniFrame, mini_at};
    ghost use Rattle.iax_frames.specs.Octets.{u16_at as word};

    ghost Value = { MiniFrame };

    ghost view = { λ m. mini_at m.octets.now };

    ghost invariant = { λ m. (4 ≤ length m.octets.now) × (word m.octets.now 0 < 2 ^ 15) };
}

impl<'a> Mini<'a> {
    // Returns the mini frame that the octets spell, if they begin with 1 to 32,767.
    pub(crate) fn new(octets: &'a [u8]) -> Self
        requires long { 4 ≤ length octets.now }
        requires number { word octets.now 0 < 2 ^ 15 }
        ensures { result ≡ mini_at octets.now }
    {
        Mini { octets }
    }

    /// Returns the sender's number of the call, 1 ..= 32,767.
    pub fn source(&self) -> CallNumber
        ensures { result ≡ self.now.source }
    {
        CallNumber::new(u16_at(self.octets, 0))
    }

    /// Returns the low 16 bits of the timestamp, in milliseconds.
    pub fn timestamp(&self) -> u16
        ensures { result ≡ self.now.timestamp }
    {
        u16_at(self.octets, 2)
    }

    /// Returns the media, which may be empty.
    pub fn media(&self) -> &'a [u8]
        ensures { result.now ≡ self.now.media }
    {
        self.octets.split_at(4).1
    }
}
