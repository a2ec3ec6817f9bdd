//! The datagrams that show that a peer is there.
ghost use Rattle.std.specs.Prelude.{◌↔◌, ◌≡◌, ◌⊎◌, IsTrue, false};
ghost use Rattle.udp_workers.specs.Receipts.{SpellsIax};

use call_signals::codes::FRAME_IAX;
use peer_lock::ReadDatagram;

// Returns whether the octets spell a full frame of type IAX.
fn spells_iax(octets: &[u8]) -> bool
    ensures { IsTrue result ↔ SpellsIax octets.now }
{
    match ReadDatagram::of(octets).full() {
        Some(frame) => frame.frame_type() == FRAME_IAX,
        None => false,
    }
}

// Returns whether a datagram is a sign of life: it isn't refused, or spells a full frame of type IAX. Only a refused one is
// read again for that.
pub(crate) fn is_sign_of_life(is_refused: bool, octets: &[u8]) -> bool
    ensures { IsTrue result ↔ ((is_refused ≡ false) ⊎ SpellsIax octets.now) }
{
    !is_refused || spells_iax(octets)
}
