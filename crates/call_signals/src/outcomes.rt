//! The answers of a leg's calls.
ghost use Rattle.std.specs.Prelude.{◌≡◌};
ghost use Rattle.call_signals.specs.declared.outcomes.StepError.TheVariants.{Memory};

use crate::reply::Replies;
use crate::signal::{Onward, Signal};
use std::alloc::AllocError;

/// The judgement of a full frame ("Message Transport").
#[derive(Clone, Copy, Debug, PartialEq, Eq)]
pub enum Judged {
    /// It was the next, and was recorded.
    Taken,
    /// It came before; an ACK answers it.
    Repeat,
    /// One before it is missing; a VNAK answers it.
    Gap,
    /// It was the next, but its answer found no room; it isn't taken.
    NoRoom,
    /// It isn't numbered, or there is no frame.
    Unnumbered,
}

/// The answer of a call, apart from the datagrams that it writes to the lent list.
#[derive(Clone, Copy, Debug, PartialEq, Eq)]
pub struct Heard {
    pub judged: Judged,
    pub signal: Option<Signal>,
}

/// The result of a call: the judgement of the frame, the datagrams to be sent, and the signal handed up.
#[derive(Debug, Drop)]
pub struct Outcome {
    pub judged: Judged,
    pub replies: Replies,
    pub onward: Option<Onward>,
}

/// The result of a tick: the datagrams to be sent, and the number of frames that were due and had no memory.
#[derive(Debug, Drop)]
pub struct TickOutcome {
    pub replies: Replies,
    pub skipped: u32,
}

/// Whether media of the other side counts.
#[derive(Clone, Copy, Debug, PartialEq, Eq)]
pub enum MediaIn {
    /// It counts.
    Accepted,
    /// It doesn't count: the leg isn't talking, took no voice of its format yet, or the media hasn't 1 to 1,380 octets.
    NotYet,
}

/// The refusal of a full frame, in the order in which causes are checked.
#[derive(Clone, Copy, Debug, PartialEq, Eq)]
pub enum StepError {
    /// The record has no room for one more full frame and its answer.
    RecordFull,
    /// A frame of destination 0 for a hardened leg whose peer knows its number, and no repeat of a numbered one.
    Unaddressed,
    /// An ACCEPT, AUTHREQ, REJECT or HANGUP for a hardened leg whose NEW isn't acknowledged.
    NewUnacknowledged,
    /// A request for memory was refused.
    Memory,
}

impl From<AllocError> for StepError {
    ghost from_gives = { λ _ e. e ≡ Memory };

    fn from(_error: AllocError) -> StepError {
        StepError::Memory
    }
}
