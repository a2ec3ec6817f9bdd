//! The figures of a peer, as metrics.
ghost use Rattle.std.specs.Prelude.{◌≡◌};
ghost use Rattle.service_state.specs.Figures.{family_of, help_of, value_of};

use crate::metrics::{Family, Kind, Sample};
use crate::reach::Reach;

/// The figures of a peer. Counts begin with the service, and wrap to 0 after 2^64 - 1.
#[derive(Clone, Copy)]
pub struct PeerFigures<'a> {
    /// The name that the plan gives it.
    pub name: &'a str,
    /// The number of its legs.
    pub legs: u16,
    /// The number of its local call numbers.
    pub numbers: u16,
    /// The number of its ended legs.
    pub legs_ended: u64,
    /// Milliseconds since its last sign of life; none if it never gave one.
    pub silent_ms: Option<u64>,
    /// Whether it is there.
    pub reach: Reach,
    /// Milliseconds since it is unreachable; `None` if it isn't.
    pub unreachable_ms: Option<u64>,
    /// Milliseconds from the last POKE that it answered to its PONG; `None` before the first.
    pub round_trip_ms: Option<u64>,
    /// Datagrams received from it, whether accepted or refused.
    pub received: u64,
    /// Datagrams that would have opened calls while the service drained.
    pub turned_away: u64,
    /// Datagrams sent to it.
    pub sent: u64,
    /// Datagrams to it that were lost.
    pub lost: u64,
    /// Octets of media accepted from it.
    pub accepted: u64,
    /// Octets of media to it that were written into frames.
    pub packed: u64,
    /// Octets of media to it that wait for a trunk frame.
    pub queued: u64,
    /// Octets of media to it that were dropped.
    pub dropped: u64,
    /// The part of `dropped` that it had quelched.
    pub quelched: u64,
}

/// A figure of each peer.
#[derive(Clone, Copy)]
pub enum Figure {
    Received,
    TurnedAway,
    Sent,
    Lost,
    Legs,
    Numbers,
    LegsEnded,
    Silence,
    Up,
    Unreachable,
    RoundTrip,
    Accepted,
    Packed,
    Queued,
    Dropped,
    Quelched,
}

impl Figure {
    // Returns the kind of its values, the name of its family (lower-case ASCII letters and `_`), and its help text, a
    // sentence in ASCII.
    fn told(self) -> (Kind, &'static str, &'static str)
        ensures kind { result.0 ≡ (family_of self).0 }
        ensures name { result.1.now ≡ (family_of self).1 }
        ensures help { result.2.now ≡ help_of self }
    {
        match self {
            Figure::Received => (
                Kind::Counter,
                "iax_datagrams_received_total",
                "Datagrams that came from the peer.",
            ),
            Figure::TurnedAway => (
                Kind::Counter,
                "iax_datagrams_turned_away_total",
                "Datagrams that would have opened a call while the exchange was stopping.",
            ),
            Figure::Sent => (
                Kind::Counter,
                "iax_datagrams_sent_total",
                "Datagrams that went to the peer.",
            ),
            Figure::Lost => (
                Kind::Counter,
                "iax_datagrams_lost_total",
                "Datagrams to the peer that the socket did not take.",
            ),
            Figure::Legs => (Kind::Gauge, "iax_legs", "Call legs that the peer has."),
            Figure::Numbers => (
                Kind::Gauge,
                "iax_numbers",
                "Call legs that the peer can have at once.",
            ),
            Figure::LegsEnded => (
                Kind::Counter,
                "iax_legs_ended_total",
                "Call legs of the peer that have ended.",
            ),
            Figure::Silence => (
                Kind::Gauge,
                "iax_peer_silence_seconds",
                "Seconds since the last sign of life of the peer.",
            ),
            Figure::Up => (
                Kind::Gauge,
                "iax_peer_up",
                "Whether the peer is there: 0 if it answers no POKE and gives no other sign of life.",
            ),
            Figure::Unreachable => (
                Kind::Gauge,
                "iax_peer_unreachable_seconds",
                "Seconds since the last sign of life of a peer that is unreachable.",
            ),
            Figure::RoundTrip => (
                Kind::Gauge,
                "iax_peer_round_trip_milliseconds",
                "Milliseconds between the last POKE that the peer answered and its PONG.",
            ),
            Figure::Accepted => (
                Kind::Counter,
                "iax_media_octets_accepted_total",
                "Octets of media that came from the peer and were accepted.",
            ),
            Figure::Packed => (
                Kind::Counter,
                "iax_media_octets_packed_total",
                "Octets of media to the peer that were written into frames.",
            ),
            Figure::Queued => (
                Kind::Gauge,
                "iax_media_octets_queued",
                "Octets of media to the peer that wait for a trunk frame.",
            ),
            Figure::Dropped => (
                Kind::Counter,
                "iax_media_octets_dropped_total",
                "Octets of media to the peer that were dropped.",
            ),
            Figure::Quelched => (
                Kind::Counter,
                "iax_media_octets_quelched_total",
                "Octets of media that were dropped because the peer wanted none.",
            ),
        }
    }

    /// Returns its family with these samples: the kind, the name, and the help text.
    pub fn family<'a>(self, samples: &'a [Sample<'a>]) -> Family<'a>
        ensures kind { result.kind ≡ (family_of self).0 }
        ensures name { result.name.now ≡ (family_of self).1 }
        ensures help { result.help.now ≡ help_of self }
        ensures samples { result.samples.now ≡ samples.now }
    {
        let (kind, name, help) = self.told();
        Family {
            name,
            help,
            kind,
            samples,
        }
    }

    /// Returns its value at a peer. A silence is in whole seconds, and is none if the peer never sent anything. `Up` is 1 or 0,
    /// and none while it is unknown. `Unreachable`, in whole seconds, is none for every other peer.
    pub fn value(self, peer: &PeerFigures<'_>) -> Option<u64>
        ensures { result ≡ value_of self peer.now }
    {
        match self {
            Figure::Received => Some(peer.received),
            Figure::TurnedAway => Some(peer.turned_away),
            Figure::Sent => Some(peer.sent),
            Figure::Lost => Some(peer.lost),
            Figure::Legs => Some(u64::from(peer.legs)),
            Figure::Numbers => Some(u64::from(peer.numbers)),
            Figure::LegsEnded => Some(peer.legs_ended),
            Figure::Silence => match peer.silent_ms {
                Some(ms) => Some(ms / 1000),
                None => None,
            },
            Figure::Up => match peer.reach {
                Reach::Unknown => None,
                Reach::Up => Some(1),
                Reach::Unreachable(_) => Some(0),
            },
            Figure::Unreachable => match peer.unreachable_ms {
                Some(ms) => Some(ms / 1000),
                None => None,
            },
            Figure::RoundTrip => peer.round_trip_ms,
            Figure::Accepted => Some(peer.accepted),
            Figure::Packed => Some(peer.packed),
            Figure::Queued => Some(peer.queued),
            Figure::Dropped => Some(peer.dropped),
            Figure::Quelched => Some(peer.quelched),
        }
    }
}
