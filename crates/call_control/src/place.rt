//! The place of a call among its steps.
ghost use Rattle.std.specs.Prelude.{◌≡◌};

use call_book::{LegName, PeerId};
use leg_machine::{Cause, Command, Format, MediaSpan, Signal};

/// The place of a call among its steps.
#[derive(Clone, Copy)]
pub enum Place {
    /// A datagram of this peer came.
    Datagram(PeerId),
    /// The datagram needs a number for its leg.
    ReserveIn(PeerId),
    /// No number is free for the NEW: it is rejected.
    RejectNew(PeerId),
    /// The leg of the NEW is opened under this name.
    OpenIn(LegName),
    /// The opening was refused; the name was never bridged.
    GiveBack(LegName),
    /// This leg is offered.
    Routing(LegName),
    /// The offered leg is rejected.
    Rejecting(LegName, Cause),
    /// The call of the offered leg leads to this peer, in this format.
    ReserveOut(LegName, PeerId, Format),
    /// The offered leg, and the name of its far leg.
    Bridging(LegName, LegName, Format),
    /// The offered leg is accepted, before its far leg is opened.
    Accepting(LegName, LegName, Format),
    /// The far leg of the offered one is opened.
    OpenOut(LegName, LegName),
    /// This far leg is new, and its name may have lost its partner.
    Checking(LegName),
    /// The call of the offered leg was refused: the name of its far leg is returned, then the offered leg is doomed.
    Undoing(LegName, LegName),
    /// This leg is doomed, for this cause.
    Dooming(LegName, Cause),
    /// The signal of this leg is for its partner.
    Finding(LegName, Command<MediaSpan>),
    /// The partner gets the order.
    Passing(LegName, Command<MediaSpan>),
    /// This leg is finished.
    Looking(LegName),
    /// The leg of this peer and number, if there is one, is finished.
    LookingAt(PeerId, u16),
    /// This leg owes: its partner is hung up, for the cause of the leg's end.
    FindingPartner(LegName, Cause),
    /// The leg that owes, and its partner.
    HangingUp(LegName, LegName, Cause),
    /// The partner of this leg is hung up, or there is none.
    Paying(LegName, Cause),
    /// This leg is taken out, if it can be.
    Retiring(LegName, Cause),
    /// This leg was taken out.
    Freeing(LegName, Cause),
    /// This peer is ticked.
    Tick(PeerId),
    /// This leg is hung up from outside.
    HangUp(LegName),
    /// A call to this peer is made from outside.
    ReserveCall(PeerId),
    /// The leg of that call is opened.
    OpenCall(LegName),
    /// Nothing is left to be done.
    End,
}

impl Place {
    ghost use Rattle.call_control.specs.Work.{place_for};

    /// Returns the first place for a leg's signal, or `None` if it needs no step.
    pub fn for_signal(name: LegName, signal: Signal) -> Option<Place>
        ensures { result ≡ place_for name signal }
    {
        match signal {
            Signal::Offered => Some(Place::Routing(name)),
            Signal::Indicated(indication) => Some(Place::Finding(
                name,
                Command::Indicate(indication),
            )),
            Signal::Answered => Some(Place::Finding(name, Command::Answer)),
            Signal::Dtmf(digit) => Some(Place::Finding(name, Command::Dtmf(digit))),
            Signal::Media(span) => Some(Place::Finding(name, Command::Media(span))),
            Signal::Hangup => None,
        }
    }
}
