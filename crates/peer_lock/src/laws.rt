//! Laws that functions need: of media that a datagram hands up, and of legs that rest.
ghost use Rattle.std.specs.Prelude.{◌≡◌, ℕ, true, [], length, All, List, Option};
ghost use Rattle.iax_frames.specs.Datagram.{Spells};
ghost use Rattle.iax_frames.specs.declared.datagram.Datagram.{Datagram};
ghost use Rattle.peer_lock.specs.Arrivals.{datagram_step};
ghost use Rattle.peer_lock.specs.CarriedMedia.{CarriesItsOwn};
ghost use Rattle.peer_legs.specs.Legs.{NamedLeg};
ghost use Rattle.peer_legs.specs.Rests.{is_resting};
ghost use Rattle.peer_lock.specs.Peer.{PeerView};
ghost use Rattle.peer_lock.specs.Ticks.{legs_tick};

/// Media that a datagram's step hands up is part of the datagram, each piece 1 to 1,380 octets long. The step takes credit
/// for exactly all of it.
pub fn media_is_the_datagrams()
    ensures { (first : ℕ) (peer : PeerView) (octets : List ℕ) (datagram : Datagram) (now : ℕ) → Spells octets datagram →
        CarriesItsOwn (length octets) (datagram_step first peer datagram now) }
{
    leg_machine::laws::media_is_the_frames();
}

/// Legs that rest stay as they are at a tick, and send nothing.
pub fn resting_legs_stay()
    ensures { (skips : List ℕ) (now : ℕ) (places : List (Option NamedLeg)) → All (λ place. is_resting place now ≡ true) places →
        legs_tick skips places now ≡ record { places = places; datagrams = []; skipped = 0 } }
{
    leg_machine::laws::idle_legs_stay();
}
