//! The answers of an exchange's calls.
ghost use Rattle.std.specs.Prelude.{◌≡◌, false};
ghost use Rattle.peer_lock.specs.Statuses.{IsHistory};
ghost use Rattle.peer_lock.specs.declared.errors.OpenError.{OpenError as OpenErrorValue};
ghost use Rattle.exchange_core.specs.Refusals.{from_peer, from_open, from_reject, from_reserve, reserves_nothing};

use call_book::{LegName, ReserveError};
use peer_lock::{LegFacts, OpenError, PeerError, RejectError, Rejection};
use seq_window::Record;

/// The reason why a call did nothing: it made no step, and changed no leg and no bridge.
#[derive(Clone, Copy, Debug, PartialEq, Eq)]
pub enum Refusal {
    /// No peer has that endpoint.
    Stranger,
    /// The peer has no step credit left.
    StepsSpent,
    /// More than 2,048 octets, or a full frame with more than 1,388 octets of data.
    TooLong,
    /// It is shorter than any frame of its kind ("Full Frames", "Mini Frames", "Meta Frames").
    Short,
    /// A meta frame of another command than trunking.
    MetaCommand,
    /// An entry of a trunk frame passes the end.
    EntryCut,
    /// A full frame from call number 0.
    NoSource,
    /// The last information element of an IAX frame passes the end.
    Cut,
    /// A NEW without a call token of its endpoint, from a peer that needs one.
    NoToken,
    /// No leg has this call.
    NoCall,
    /// The leg's record has no room for one more full frame and its answer.
    RecordFull,
    /// A frame of destination 0 for a leg whose peer knows its number.
    Unaddressed,
    /// An answer to a NEW that isn't acknowledged.
    NewUnacknowledged,
    /// No serial is left for a name.
    SerialsSpent,
    /// No number of the peer is free.
    NoNumber,
    /// A leg has that number.
    NumberBusy,
    /// The peer began to drain while a number was reserved for the NEW.
    Draining,
    /// A leg has that remote number already.
    RemoteBusy,
    /// A request for memory was refused.
    Memory,
}

impl Refusal {
    /// Returns the refusal of a datagram, or `None` if it needs a number for its leg.
    pub(crate) fn of_datagram(error: PeerError) -> Option<Refusal>
        ensures { result ≡ from_peer error }
    {
        match error {
            PeerError::StepsSpent => Some(Refusal::StepsSpent),
            PeerError::TooLong => Some(Refusal::TooLong),
            PeerError::Short => Some(Refusal::Short),
            PeerError::MetaCommand => Some(Refusal::MetaCommand),
            PeerError::EntryCut => Some(Refusal::EntryCut),
            PeerError::NoSource => Some(Refusal::NoSource),
            PeerError::Cut => Some(Refusal::Cut),
            PeerError::NeedsNumber => None,
            PeerError::NoToken => Some(Refusal::NoToken),
            PeerError::NoCall => Some(Refusal::NoCall),
            PeerError::RecordFull => Some(Refusal::RecordFull),
            PeerError::Unaddressed => Some(Refusal::Unaddressed),
            PeerError::NewUnacknowledged => Some(Refusal::NewUnacknowledged),
            PeerError::Memory => Some(Refusal::Memory),
        }
    }

    /// Returns whether no number was reserved for a datagram of this refusal, so that the exchange is as if the datagram had
    /// never come. Refusals that the opening of a leg gives too aren't among these.
    pub fn reserves_nothing(self) -> bool
        ensures value { result ≡ reserves_nothing self }
        ensures opening { (error : OpenErrorValue) → from_open error ≡ self → result ≡ false }
    {
        match self {
            Refusal::StepsSpent
            | Refusal::NumberBusy
            | Refusal::Draining
            | Refusal::RemoteBusy
            | Refusal::Memory => false,
            Refusal::Stranger
            | Refusal::TooLong
            | Refusal::Short
            | Refusal::MetaCommand
            | Refusal::EntryCut
            | Refusal::NoSource
            | Refusal::Cut
            | Refusal::NoToken
            | Refusal::NoCall
            | Refusal::RecordFull
            | Refusal::Unaddressed
            | Refusal::NewUnacknowledged
            | Refusal::SerialsSpent
            | Refusal::NoNumber => true,
        }
    }
}

impl From<OpenError> for Refusal {
    ghost from_gives = { λ of e. e ≡ from_open of };

    fn from(error: OpenError) -> Refusal {
        match error {
            OpenError::StepsSpent => Refusal::StepsSpent,
            OpenError::NumberBusy => Refusal::NumberBusy,
            OpenError::Draining => Refusal::Draining,
            OpenError::RemoteBusy => Refusal::RemoteBusy,
            OpenError::Memory => Refusal::Memory,
        }
    }
}

impl From<RejectError> for Refusal {
    ghost from_gives = { λ of e. e ≡ from_reject of };

    fn from(error: RejectError) -> Refusal {
        match error {
            RejectError::Unanswered => Refusal::NoNumber,
            RejectError::StepsSpent => Refusal::StepsSpent,
            RejectError::RemoteBusy => Refusal::RemoteBusy,
        }
    }
}

impl From<ReserveError> for Refusal {
    ghost from_gives = { λ of e. e ≡ from_reserve of };

    fn from(error: ReserveError) -> Refusal {
        match error {
            ReserveError::SerialsSpent => Refusal::SerialsSpent,
            ReserveError::NoNumber => Refusal::NoNumber,
        }
    }
}

/// A leg that was taken out, with its record, which is one that a window may have.
#[derive(Drop)]
pub struct Retired {
    /// Its name.
    pub name: LegName,
    /// Its facts other than its record.
    pub facts: LegFacts,
    /// The moment at which it was taken out, in milliseconds.
    pub ended: u64,
    /// The leg with which it was bridged until then. None if it never was, or if that one was taken out before it: that
    /// one's `partner` is this leg then.
    pub partner: Option<LegName>,
    /// Its record: the frames sent, acknowledged and accepted.
    pub history: Record,
    ghost legal: { ∥ IsHistory history.entries ∥₁ },
}

/// The result of a call of the exchange.
#[derive(Drop)]
pub struct Answer {
    /// The number of steps made under the pass.
    pub steps: u64,
    /// The refusal, if the call did nothing. An order that is refused later, within the call, is no refusal of the call.
    pub refused: Option<Refusal>,
    /// The rejection that a step reports, if there is one.
    pub rejected: Option<Rejection>,
    /// The legs that were taken out, in order.
    pub retired: Vec<Retired>,
}

/// The reason why no call was placed, in the order in which reasons are checked.
#[derive(Clone, Copy, Debug, PartialEq, Eq)]
pub enum CallError {
    /// The number isn't 1 to 64 octets, each of them 0x21 ..= 0x7e.
    BadNumber,
    /// No serial is left for a name.
    SerialsSpent,
    /// No number of the peer is free.
    NoNumber,
    /// The peer has no step credit left.
    StepsSpent,
    /// A leg has that number.
    NumberBusy,
    /// A request for memory was refused.
    Memory,
}
