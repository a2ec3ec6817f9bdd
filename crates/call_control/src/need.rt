//! The steps that a call needs.

use call_book::{LegName, PeerId};
use leg_machine::{Command, Format, MediaSpan};

/// The result of routing an offered call.
#[derive(Clone, Copy)]
pub enum Route {
    /// No route leads to the called number.
    Nowhere,
    /// The called number has octets that no number has.
    BadNumber,
    /// The peer has no format of the call.
    WithoutFormat,
    /// This peer, in this format.
    To(PeerId, Format),
}

/// A step that a call has to make next.
#[derive(Clone, Copy)]
pub enum Need {
    /// Gives the datagram to this peer.
    Datagram(PeerId),
    /// Opens a leg by the received NEW, under a lease on this name.
    OpenIn(LegName),
    /// Rejects the received NEW at this peer.
    RejectNew(PeerId),
    /// Opens a leg by a NEW of the exchange, under a lease on this name.
    OpenOut(LegName),
    /// Gives an order to the leg of this name.
    Order(LegName, Command<MediaSpan>),
    /// Ticks this peer.
    Tick(PeerId),
    /// Reads the status of the leg of this peer and number.
    Look(PeerId, u16),
    /// Takes out the leg of this name, if it has ended and owes nothing.
    Retire(LegName),
    /// Reserves a name of this peer in the book.
    Reserve(PeerId),
    /// Makes two names partners in the book.
    Bridge(LegName, LegName),
    /// Reads the partner of this name in the book.
    Partner(LegName),
    /// Returns the lease on this name to the book.
    Release(LegName),
    /// Routes the call that the leg of this name offers.
    Route(LegName),
}
