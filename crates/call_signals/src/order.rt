//! The commands of the layer above to a leg, and the refusals of orders.
ghost use Rattle.std.specs.Prelude.{◌≡◌, length};
ghost use Rattle.call_signals.specs.Order.{kind_of, media_of, media_over, LiesWithin};

use crate::cause::Cause;
use crate::format::Format;
use crate::signal::{Digit, Indication, MediaSpan};
use std::alloc::AllocError;

/// A command of the layer above to a leg. `M` is the form of its media.
#[derive(Clone, Copy, Debug, PartialEq, Eq)]
pub enum Command<M> {
    /// Accepts the offered call, in this format.
    Accept(Format),
    /// Rejects the offered call.
    Reject(Cause),
    /// Reports the progress of the call.
    Indicate(Indication),
    /// Answers the call.
    Answer,
    /// Sends a digit.
    Dtmf(Digit),
    /// Sends media.
    Media(M),
    /// Hangs up, for this cause.
    Hangup(Cause),
    /// Hangs up as soon as a tick can, for this cause.
    Doom(Cause),
    /// Reports that the layer above is done with the end of the call.
    Paid,
}

/// An order of the layer above to a leg. Its media is 1 to 1,380 octets.
pub type Order<'a> = Command<&'a [u8]>;

impl<M> Command<M> {
    /// Returns the command without its media.
    pub fn kind(&self) -> Command<()>
        ensures { result ≡ kind_of self.now }
    {
        match self {
            Command::Accept(format) => Command::Accept(*format),
            Command::Reject(cause) => Command::Reject(*cause),
            Command::Indicate(indication) => Command::Indicate(*indication),
            Command::Answer => Command::Answer,
            Command::Dtmf(digit) => Command::Dtmf(*digit),
            Command::Media(_) => Command::Media(()),
            Command::Hangup(cause) => Command::Hangup(*cause),
            Command::Doom(cause) => Command::Doom(*cause),
            Command::Paid => Command::Paid,
        }
    }
}

/// Returns the order with the octets of its media, whose place is within these octets of a datagram.
pub fn order_of<'a>(command: &Command<MediaSpan>, octets: &'a [u8]) -> Order<'a>
    requires { LiesWithin command.now (length octets.now) }
    ensures kind { kind_of result ≡ kind_of command.now }
    ensures media { media_of result ≡ media_over command.now octets.now }
{
    match command {
        Command::Accept(format) => Order::Accept(*format),
        Command::Reject(cause) => Order::Reject(*cause),
        Command::Indicate(indication) => Order::Indicate(*indication),
        Command::Answer => Order::Answer,
        Command::Dtmf(digit) => Order::Dtmf(*digit),
        Command::Media(span) => Order::Media(&octets[span.start..span.end]),
        Command::Hangup(cause) => Order::Hangup(*cause),
        Command::Doom(cause) => Order::Doom(*cause),
        Command::Paid => Order::Paid,
    }
}

/// The refusal of an order, in the order in which causes are checked.
#[derive(Clone, Copy, Debug, PartialEq, Eq)]
pub enum OrderError {
    /// The leg's stage has no such order.
    WrongStage,
    /// Too many frames are held for this one.
    WindowFull,
    /// The record has no room for one more full frame and its answer.
    RecordFull,
    /// A request for memory was refused.
    Memory,
}

impl From<AllocError> for OrderError {
    ghost use Rattle.call_signals.specs.declared.order.OrderError.TheVariants.{Memory};

    ghost from_gives = { λ _ e. e ≡ Memory };

    fn from(_error: AllocError) -> OrderError {
        OrderError::Memory
    }
}
