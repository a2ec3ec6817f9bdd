//! The datagrams that a draining service keeps from its exchange ("NEW").
ghost use Rattle.std.specs.Prelude.{◌↔◌, IsTrue};
ghost use Rattle.udp_workers.specs.Draining.{IsNew, IsTurnedAway, SpellsNew};

use call_signals::codes::{FRAME_IAX, IAX_NEW};
use exchange_core::ServiceStage;
use iax_frames::Full;
use peer_lock::ReadDatagram;

// Returns whether a full frame is a NEW that may open a leg.
fn is_new(frame: &Full) -> bool
    ensures { IsTrue result ↔ IsNew frame.now }
{
    if frame.frame_type() != FRAME_IAX || frame.meaning() != Some(IAX_NEW as u64) {
        return false;
    }
    frame.destination().get() == 0 && frame.oseqno() == 0
}

// Returns whether the octets spell a NEW that may open a leg.
fn spells_new(octets: &[u8]) -> bool
    ensures { IsTrue result ↔ SpellsNew octets.now }
{
    match ReadDatagram::of(octets).full() {
        Some(frame) => is_new(frame),
        None => false,
    }
}

// Returns whether a datagram of a peer is kept from the exchange.
pub(crate) fn is_turned_away(stage: ServiceStage, octets: &[u8]) -> bool
    ensures { IsTrue result ↔ IsTurnedAway stage octets.now }
{
    match stage {
        ServiceStage::Draining => spells_new(octets),
        ServiceStage::Serving | ServiceStage::Ended => false,
    }
}
