//! The note of a step.
ghost use Rattle.std.specs.Prelude.{◌≡◌, [], ◌∷◌, ◌++◌};
ghost use Rattle.step_log.specs.Notes.{without_lease};

use crate::seen::Seen;
use crate::trail::Trail;
use call_auth::Challenge;
use call_book::{BridgeError, Lease, LegName, PeerId, ReserveError, Stale};
use iax_frames::{FullHead, Octets, Out};
use leg_machine::{Caller, Command, Format};
use peer_lock::{
    Description, EndedLeg, Losses, Onwards, OpenError, OrderError, PeerError, Pokes, RejectError,
    Status, Step, StepsSpent, Sums, TickReport,
};

/// A request to a locked state, and its answer. Moments are in milliseconds.
#[derive(Drop)]
pub enum Made {
    /// A datagram came to a peer: its octets, the moment, the answer, and the signals handed up.
    Datagram(PeerId, Octets, u64, Result<Step, PeerError>, Seen<Onwards>),
    /// A received NEW opens a leg of a peer: the name, the frame's head and data, the moment, the challenge, the answer,
    /// and the signals handed up.
    OpenIn(
        PeerId,
        LegName,
        FullHead,
        Octets,
        u64,
        Seen<Challenge>,
        Result<Step, OpenError>,
        Seen<Onwards>,
    ),
    /// A peer rejects a received NEW for want of a number: the frame's head and data, and the answer.
    RejectNew(PeerId, FullHead, Octets, Result<Step, RejectError>),
    /// A NEW of the exchange opens a leg of a peer: the name, the number that is called, the caller, the format, the
    /// moment, and the answer.
    OpenOut(PeerId, LegName, Octets, Seen<Caller>, Format, u64, Result<Step, OpenError>),
    /// A leg of a peer gets an order: the leg's name, the order with its media, the moment, and the answer.
    Order(PeerId, LegName, Command<()>, Octets, u64, Result<Step, OrderError>),
    /// A tick of a peer: the moment, and the answer.
    Tick(PeerId, u64, Result<TickReport, StepsSpent>),
    /// A query of a leg of a peer: its local number, and its status.
    Look(PeerId, u16, Option<Status>),
    /// A query of a leg of a peer: its local number, and the leg with the values of its call.
    Describe(PeerId, u16, Option<Seen<Description>>),
    /// A query of a peer's next leg: the least local number that it may have, and the leg with the values of its call.
    DescribeFrom(PeerId, u16, Option<Seen<Description>>),
    /// A query of the number of a peer's legs.
    CountLegs(PeerId, usize),
    /// A query of a peer's accounts.
    ShowSums(PeerId, Sums),
    /// A query of the datagrams that a full outbox of a peer lost.
    ShowLost(PeerId, Losses),
    /// A query of the exchange's POKEs to a peer.
    ShowPokes(PeerId, Pokes),
    /// A peer begins to drain, or drains no longer.
    SetDraining(PeerId, bool),
    /// A leg of a peer is taken out, if it can be: its name, and its facts and its record if it was.
    Retire(PeerId, LegName, Option<Seen<EndedLeg>>),
    /// The oldest datagram of a peer's outbox is taken out, if one waits: its octets.
    TakeOut(PeerId, Option<Seen<Out>>),
    /// The book gives a name of a peer.
    Reserve(PeerId, Result<LegName, ReserveError>),
    /// The book makes two names partners.
    Bridge(LegName, LegName, Result<(), BridgeError>),
    /// The book returns the partner of a name.
    Partner(LegName, Option<LegName>),
    /// A query of the book: the serial of the next name.
    NextSerial(u64),
    /// A name is returned to the book, which gives its former partner.
    Release(LegName, Result<Option<LegName>, Stale>),
    /// No locked state was asked.
    Unasked,
}

// Returns an answer without the lease that came back.
pub(crate) fn noted_answer<T: Copy, E: Copy>(answer: &Result<T, (Lease, E)>) -> Result<T, E>
    ensures { result ≡ without_lease answer.now }
{
    match answer {
        Ok(made) => Ok(*made),
        Err((_, error)) => Err(*error),
    }
}

// Adds a note behind those before it.
pub(crate) fn push(trail: &mut Trail, made: Made)
    ensures begun { trail.new.begun ≡ trail.old.begun }
    ensures items { trail.new.items ≡ trail.old.items ++ made ∷ [] }
{
    *trail = Trail::with(trail, &made);
}
