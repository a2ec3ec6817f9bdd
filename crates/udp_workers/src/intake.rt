//! The limit on the datagrams of a turn.
ghost use Rattle.std.specs.Prelude.{◌≡◌, ◌<◌, ◌^◌, length};
ghost use Rattle.udp_workers.specs.Intake.{IsLoaded, IsWeightOf, fits, may_open, media_octets, weight_of_full, with_weight};

use call_signals::codes::{FRAME_IAX, FRAME_VOICE, IAX_NEW, IAX_VNAK};
use iax_frames::{Datagram, Full, Trunk, read};

// An outbox has 256 datagrams, one of which is left for the trunk queue, which has 256 entries.
const MOST_ENTRIES: u64 = 255;

// The octets of media in a full trunk queue.
const MOST_OCTETS: u64 = 16_384;

// The greatest number of frames that a VNAK has retransmitted.
const VNAK_ENTRIES: u64 = 128;

// The greatest number of frames that follow a full frame, as a rule.
const FULL_ENTRIES: u64 = 4;

// The challenge of a turn is for one NEW.
const MOST_OPENINGS: u64 = 1;

// The longest media.
const MEDIA_OCTETS: usize = 1380;

/// The limit on the datagrams of a turn, in addition to 64 datagrams, and the peers that it ticks.
#[derive(Clone, Copy, Debug, PartialEq, Eq)]
pub enum Intake {
    /// No further limit. All peers are ticked.
    Whole,
    /// The room of an empty outbox and of a trunk queue with less than a trunk frame: 255 entries and 16,384 octets of
    /// media, or one datagram. At most one NEW that may open a leg is among them, so that a challenge is for one leg. All
    /// peers are ticked, or, at the moment of the turn before, those that are due (`Worker::run_until`).
    Bounded,
}

/// The most that one datagram, or several together, may put into queues and outboxes.
#[derive(Clone, Copy, Debug, PartialEq, Eq)]
pub(crate) struct Weight {
    /// Entries of a trunk queue, or datagrams of an outbox.
    pub(crate) entries: u64,
    /// Octets of media.
    pub(crate) octets: u64,
    /// Legs that it may open.
    pub(crate) openings: u64,
}

const NO_WEIGHT: Weight = Weight {
    entries: 0,
    octets: 0,
    openings: 0,
};

// Returns whether it is a NEW that may open a leg: it has no destination and OSeqno 0 ("NEW").
fn may_open(frame: &Full<'_>) -> bool
    ensures { result ≡ may_open frame.now }
{
    let is_new = frame.frame_type() == FRAME_IAX && frame.meaning() == Some(IAX_NEW as u64);
    is_new && (frame.destination().get() == 0 && frame.oseqno() == 0)
}

// Returns the weight of a full frame.
fn weight_of_full(frame: &Full<'_>) -> Weight
    ensures { result ≡ weight_of_full frame.now }
{
    let is_vnak = frame.frame_type() == FRAME_IAX && frame.subclass() == IAX_VNAK;
    let is_voice = frame.frame_type() == FRAME_VOICE;
    Weight {
        entries: if is_vnak { VNAK_ENTRIES } else { FULL_ENTRIES },
        octets: if is_voice {
            frame.payload().len().min(MEDIA_OCTETS) as u64
        } else {
            0
        },
        openings: u64::from(may_open(frame)),
    }
}

// Returns the weight of a trunk frame, in one pass over the heads of its entries.
fn weight_of_trunk(frame: &Trunk<'_>) -> Weight
    requires few { length frame.now.entries < 2 ^ 64 }
    requires short { media_octets frame.now.entries < 2 ^ 64 }
    ensures entries { result.entries ≡ length frame.now.entries }
    ensures octets { result.octets ≡ media_octets frame.now.entries }
    ensures openings { result.openings ≡ 0 }
{
    let mut weight = NO_WEIGHT;
    let mut left = frame.entries();
    while let Some(entry) = left.next() {
        weight.entries += 1;
        weight.octets += entry.2.len() as u64;
    }
    weight
}

// Returns the weight of a datagram.
fn weigh(octets: &[u8]) -> Weight
    ensures { IsWeightOf octets.now result }
{
    match read(octets) {
        Ok(Datagram::Full(frame)) => weight_of_full(&frame),
        Ok(Datagram::Mini(frame)) => Weight {
            entries: 1,
            octets: frame.media().len() as u64,
            openings: 0,
        },
        Ok(Datagram::Trunk(frame)) => weight_of_trunk(&frame),
        Ok(Datagram::Video(_)) | Err(_) => NO_WEIGHT,
    }
}

// Returns whether an empty outbox has room for it and a trunk frame, and whether the turn's challenge suffices.
fn fits(weight: Weight) -> bool
    ensures { result ≡ fits weight }
{
    weight.entries <= MOST_ENTRIES
        && (weight.octets <= MOST_OCTETS && weight.openings <= MOST_OPENINGS)
}

// Returns the weight of a turn with one more datagram, or `None` if the datagram doesn't fit.
fn with_weight(taken: Option<Weight>, one: Weight) -> Option<Weight>
    ensures { result ≡ with_weight taken one }
{
    let Some(taken) = taken else {
        return Some(one);
    };
    let both = Weight {
        entries: taken.entries.saturating_add(one.entries),
        octets: taken.octets.saturating_add(one.octets),
        openings: taken.openings.saturating_add(one.openings),
    };
    if fits(both) { Some(both) } else { None }
}

/// Returns the weight of a turn with one more datagram, or `None` if it doesn't fit. `taken` is `None` before the first
/// datagram. A turn without a limit weighs nothing.
pub(crate) fn loaded(intake: Intake, taken: Option<Weight>, octets: &[u8]) -> Option<Weight>
    ensures { IsLoaded intake taken octets.now result }
{
    match intake {
        Intake::Whole => Some(NO_WEIGHT),
        Intake::Bounded => with_weight(taken, weigh(octets)),
    }
}
