//! The answers to the steps of a call.

use crate::need::Route;
use call_book::{BridgeError, LegName, ReserveError, Stale};
use peer_lock::{
    Onwards, OpenError, OrderError, PeerError, RejectError, Rejection, Status, StepsSpent,
};

/// The answer to a step of a peer: the leg concerned, the rejection, and the signals handed up.
#[derive(Drop)]
pub struct StepReply {
    pub touched: Option<LegName>,
    pub rejected: Option<Rejection>,
    pub onwards: Onwards,
}

/// The answer to a step: one for each that a call can need.
#[derive(Drop)]
pub enum Reply {
    /// The answer to a datagram's step.
    Datagram(Result<StepReply, PeerError>),
    /// The answer to the opening by the received NEW.
    OpenIn(Result<StepReply, OpenError>),
    /// Whether the received NEW was rejected.
    RejectNew(Result<(), RejectError>),
    /// Whether a leg was opened by a NEW of the exchange.
    OpenOut(Result<(), OpenError>),
    /// Whether the leg obeyed.
    Order(Result<(), OrderError>),
    /// Whether no leg of the peer has ended and none owes.
    Tick(Result<bool, StepsSpent>),
    /// The status of the leg of a number, if there is one.
    Look(Option<Status>),
    /// Whether the leg was taken out.
    Retire(bool),
    /// The name that the book gave.
    Reserve(Result<LegName, ReserveError>),
    /// Whether the names are partners now.
    Bridge(Result<(), BridgeError>),
    /// The partner of the name, if it has one.
    Partner(Option<LegName>),
    /// The former partner.
    Release(Result<Option<LegName>, Stale>),
    /// The route of the offered call.
    Route(Route),
}
