//! The arguments and the results of the calls that the driver without locks makes.

use call_book::LegName;
use call_control::Reply;
use exchange_core::{Refusal, Rejection};
use peer_lock::{LegFacts, OrderError, PeerError};
use seq_window::Record;
use std::alloc::Global;

/// A removed leg, with its history.
#[derive(Drop)]
pub struct Gone {
    pub name: LegName,
    pub partner: Option<LegName>,
    pub facts: LegFacts,
    pub history: Record,
}

/// The arguments of a call of the exchange.
#[derive(Clone, Copy)]
pub struct Given<'a> {
    pub octets: &'a [u8],
    pub called: Option<&'a [u8]>,
    pub now: u64,
}

/// The result of a call.
#[derive(Drop)]
pub struct Made {
    /// The number of steps that its work named, of peers and of the book.
    pub asked: u64,
    /// The number of steps of peers.
    pub steps: u64,
    /// The refusal of a datagram, a tick or a placed call, if no step was made.
    pub refused: Option<Refusal>,
    /// The refusal of a hang-up, if no step was made.
    pub disobeyed: Option<OrderError>,
    pub rejected: Option<Rejection>,
    /// The last name that the book gave.
    pub named: Option<LegName>,
    pub gone: Vec<Gone>,
}

// Names a peer's refusal of a datagram. The lines cause no others.
fn refusal_of(error: PeerError) -> Option<Refusal> {
    match error {
        PeerError::NeedsNumber => None,
        PeerError::NoCall => Some(Refusal::NoCall),
        PeerError::RecordFull => Some(Refusal::RecordFull),
        _ => Some(Refusal::Stranger),
    }
}

impl Made {
    /// Returns the result of a call that has made no step yet.
    pub fn nothing(alloc: Global) -> Made {
        Made {
            asked: 0,
            steps: 0,
            refused: None,
            disobeyed: None,
            rejected: None,
            named: None,
            gone: Vec::new(alloc),
        }
    }

    /// Notes a refusal, a rejection or a name in a step's answer.
    pub fn note(&mut self, reply: &Reply) {
        match reply {
            Reply::Datagram(Ok(heard)) | Reply::OpenIn(Ok(heard)) => {
                self.rejected = heard.rejected.or(self.rejected);
            }
            Reply::Datagram(Err(error)) => self.refused = refusal_of(*error),
            Reply::OpenIn(Err(error)) | Reply::OpenOut(Err(error)) => {
                self.refused = Some(Refusal::from(*error));
            }
            Reply::RejectNew(Err(error)) => self.refused = Some(Refusal::from(*error)),
            Reply::Reserve(Err(error)) => self.refused = Some(Refusal::from(*error)),
            Reply::Reserve(Ok(name)) => self.named = Some(*name),
            Reply::Tick(Err(_)) => self.refused = Some(Refusal::StepsSpent),
            Reply::Order(Err(error)) => self.disobeyed = Some(*error),
            Reply::RejectNew(Ok(())) => self.rejected = Some(Rejection::NoNumber),
            _ => {}
        }
    }
}
