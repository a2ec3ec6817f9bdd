//! The refusals of a peer.
ghost use Rattle.std.specs.Prelude.{◌≡◌};
ghost use Rattle.peer_lock.specs.Errors.{from_step, from_frame, from_leg};
ghost use Rattle.peer_lock.specs.declared.errors.PeerError.TheVariants as errors;

use iax_frames::FrameError;
use leg_machine::{OrderError as LegOrderError, StepError};
use std::alloc::AllocError;

/// The peer has no step credit left.
#[derive(Clone, Copy, Debug, PartialEq, Eq)]
pub struct StepsSpent;

/// The reason why a datagram is refused, in the order in which reasons are checked. A refused datagram changes nothing.
#[derive(Clone, Copy, Debug, PartialEq, Eq)]
pub enum PeerError {
    /// The peer has no step credit left.
    StepsSpent,
    /// More than 2,048 octets, or a full frame with more than 1,388 octets of data.
    TooLong,
    /// It is shorter than any frame of its kind ("Full Frames", "Mini Frames", "Meta Frames").
    Short,
    /// A meta frame of another command than trunking.
    MetaCommand,
    /// An entry of a trunk frame passes the end.
    EntryCut,
    /// A full frame from call number 0.
    NoSource,
    /// The last information element of an IAX frame passes the end.
    Cut,
    /// A NEW that no leg has yet: it needs a number for its leg.
    NeedsNumber,
    /// A NEW that no leg has yet, without a call token of its endpoint, from a peer that needs one.
    NoToken,
    /// No leg has this call.
    NoCall,
    /// The leg's record has no room for one more full frame and its answer.
    RecordFull,
    /// A frame of destination 0 for a leg whose peer knows its number.
    Unaddressed,
    /// An answer to a NEW that isn't acknowledged.
    NewUnacknowledged,
    /// A request for memory was refused.
    Memory,
}

/// The reason why no leg was opened, in the order in which reasons are checked.
#[derive(Clone, Copy, Debug, PartialEq, Eq)]
pub enum OpenError {
    /// The peer has no step credit left.
    StepsSpent,
    /// A leg has that number, or the lease isn't of this peer and its range.
    NumberBusy,
    /// The peer drains, and a NEW came.
    Draining,
    /// A leg has that remote number already.
    RemoteBusy,
    /// A request for memory was refused.
    Memory,
}

/// The reason why a NEW that finds no free number isn't rejected, in the order in which reasons are checked.
#[derive(Clone, Copy, Debug, PartialEq, Eq)]
pub enum RejectError {
    /// The peer's rules leave it unanswered.
    Unanswered,
    /// The peer has no step credit left.
    StepsSpent,
    /// A leg has its remote number already.
    RemoteBusy,
}

/// The reason why an order is refused, in the order in which reasons are checked.
#[derive(Clone, Copy, Debug, PartialEq, Eq)]
pub enum OrderError {
    /// The peer has no step credit left.
    StepsSpent,
    /// No leg has that name.
    Gone,
    /// The leg's stage has no such order.
    WrongStage,
    /// Too many frames are held for this one.
    WindowFull,
    /// The leg's record has no room for one more full frame and its answer.
    RecordFull,
    /// A request for memory was refused.
    Memory,
}

impl From<AllocError> for PeerError {
    ghost from_gives = { λ _ e. e ≡ errors.Memory };

    fn from(_error: AllocError) -> PeerError {
        PeerError::Memory
    }
}

impl From<StepError> for PeerError {
    ghost from_gives = { λ of e. e ≡ from_step of };

    fn from(error: StepError) -> PeerError {
        match error {
            StepError::RecordFull => PeerError::RecordFull,
            StepError::Unaddressed => PeerError::Unaddressed,
            StepError::NewUnacknowledged => PeerError::NewUnacknowledged,
            StepError::Memory => PeerError::Memory,
        }
    }
}

impl From<FrameError> for PeerError {
    ghost from_gives = { λ of e. e ≡ from_frame of };

    fn from(error: FrameError) -> PeerError {
        match error {
            FrameError::Short => PeerError::Short,
            FrameError::MetaCommand(_) => PeerError::MetaCommand,
            FrameError::EntryCut(_) => PeerError::EntryCut,
        }
    }
}

impl From<LegOrderError> for OrderError {
    ghost from_gives = { λ of e. e ≡ from_leg of };

    fn from(error: LegOrderError) -> OrderError {
        match error {
            LegOrderError::WrongStage => OrderError::WrongStage,
            LegOrderError::WindowFull => OrderError::WindowFull,
            LegOrderError::RecordFull => OrderError::RecordFull,
            LegOrderError::Memory => OrderError::Memory,
        }
    }
}
