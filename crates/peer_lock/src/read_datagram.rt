//! A datagram that comes, read once.
ghost use Rattle.std.specs.Prelude.{◌≡◌, Some, IfSome, option_copied};
ghost use Rattle.iax_frames.specs.FullFrame.{FullFrame, SpellsFull};

use iax_frames::{Datagram, FrameError, Full, read};
use std::marker::Model;

/// The octets of a datagram, and what `iax_frames::read` gives for them. Contracts see the octets alone, which decide the rest.
#[derive(Drop)]
pub struct ReadDatagram<'o> {
    pub(crate) octets: &'o [u8],
    pub(crate) answer: Result<Datagram<'o>, FrameError>,
}

impl<'o> Model for ReadDatagram<'o> {
    ghost use Rattle.std.specs.Prelude.{ℕ, List};
    ghost use Rattle.peer_lock.specs.ReadDatagram.{IsReading};

    ghost Value = { List ℕ };

    ghost view = { λ d. d.octets.now };

    ghost invariant = { λ d. IsReading d.octets.now d.answer };
}

impl<'o> ReadDatagram<'o> {
    /// Reads a datagram, of any length. Nothing is copied.
    pub fn of(octets: &'o [u8]) -> Self
        ensures { result ≡ octets.now }
    {
        ReadDatagram {
            octets,
            answer: read(octets),
        }
    }

    /// Returns the octets of the datagram.
    pub fn octets(&self) -> &'o [u8]
        ensures { result.now ≡ self.now }
    {
        self.octets
    }

    /// Returns the full frame that the octets spell, or `None` if they spell none.
    pub fn full(&self) -> Option<&Full<'o>>
        ensures spelled { IfSome result (λ frame. SpellsFull self.now frame.now) }
        ensures only { (frame : FullFrame) → SpellsFull self.now frame → option_copied result ≡ Some frame }
    {
        match &self.answer {
            Ok(Datagram::Full(frame)) => Some(frame),
            _ => None,
        }
    }
}
