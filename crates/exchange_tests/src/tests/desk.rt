//! An exchange of two peers, `west` and `east`, and a pass of it, as a test steps it.

use call_auth::Challenge;
use call_book::{LegName, PeerId};
use exchange_core::{Answer, Exchange, Gate, Pass, Refusal, Rejection};
use iax_frames::Out;
use peer_lock::{LedgerSet, OrderError, Status};
use peer_plan::Endpoint;
use std::process::Abort;
use std::sync::Wait;

/// The place of the peer `west` in the plans.
pub const WEST_PLACE: u16 = 0;

/// The place of the peer `east` in the plans.
pub const EAST_PLACE: u16 = 1;

/// The peer in the west.
pub const WEST: Endpoint = Endpoint {
    address: [127, 0, 0, 1],
    port: 5001,
};

/// The peer in the east.
pub const EAST: Endpoint = Endpoint {
    address: [127, 0, 0, 1],
    port: 5002,
};

/// An exchange, a pass of it, and the challenge of its callers. A call for a peer or a number returns `None` if the plan
/// doesn't have this peer.
#[derive(Drop)]
pub struct Desk<'a, R: Wait, G: Gate, J: LedgerSet> {
    pub rt: &'a R,
    pub exchange: &'a Exchange<G, J>,
    pub pass: &'a mut Pass<J>,
    pub challenge: Challenge,
}

/// Returns the peer of a number.
pub fn peer_of(number: u16) -> u16 {
    if number <= 4 { WEST_PLACE } else { EAST_PLACE }
}

impl<'a, R: Abort + Wait, G: Gate, J: LedgerSet> Desk<'a, R, G, J> {
    ghost use Rattle.std.specs.Prelude.{◌≡◌};

    /// Returns a desk with a pass of an exchange, with the challenge `0`.
    pub fn new(rt: &'a R, exchange: &'a Exchange<G, J>, pass: &'a mut Pass<J>) -> Self
        ensures { result.exchange.now ≡ exchange.now }
    {
        Desk {
            rt,
            exchange,
            pass,
            challenge: Challenge::new(b"0").expect(rt, "a challenge"),
        }
    }
}

impl<R: Wait, G: Gate, J: LedgerSet> Desk<'_, R, G, J> {
    /// Gives a datagram from an endpoint to the exchange.
    pub fn datagram(&mut self, from: Endpoint, octets: &[u8], now: u64) -> Told {
        told_by(
            self.exchange
                .datagram(self.rt, self.pass, from, octets, now, &self.challenge),
        )
    }

    /// Ticks a peer.
    pub fn tick(&mut self, peer: u16, now: u64) -> Option<Told> {
        if peer >= self.exchange.plan().peer_count() {
            return None;
        }
        Some(told_by(
            self.exchange
                .tick(self.rt, self.pass, PeerId::new(peer), now),
        ))
    }

    /// Hangs up a leg. Returns the refusal, if there is one.
    pub fn hang_up(&mut self, name: LegName, now: u64) -> Option<OrderError> {
        if name.peer >= self.exchange.plan().peer_count() {
            return Some(OrderError::Gone);
        }
        self.exchange.hang_up(self.rt, self.pass, name, now).err()
    }

    /// Sets whether a peer drains.
    pub fn set_draining(&mut self, peer: u16, drains: bool) {
        if peer < self.exchange.plan().peer_count() {
            self.exchange
                .set_draining(self.rt, self.pass, PeerId::new(peer), drains);
        }
    }

    /// Takes the oldest datagram for a peer, or returns `None` if none waits.
    pub fn take_out(&mut self, peer: u16) -> Option<Out> {
        if peer >= self.exchange.plan().peer_count() {
            return None;
        }
        self.exchange
            .take_out(self.rt, self.pass, PeerId::new(peer))
    }

    /// Returns the status of the leg of a number, at any peer, or `None` if there is none.
    pub fn status(&mut self, number: u16) -> Option<Status> {
        let peer = peer_of(number);
        if peer >= self.exchange.plan().peer_count() {
            return None;
        }
        self.exchange
            .status(self.rt, self.pass, PeerId::new(peer), number)
    }
}

/// The answer of a call, without the legs that were taken out.
#[derive(Clone, Copy)]
pub struct Told {
    pub refused: Option<Refusal>,
    pub rejected: Option<Rejection>,
    pub steps: u64,
    /// The number of legs that were taken out.
    pub retired: usize,
}

// Converts an answer.
fn told_by(answer: Answer) -> Told {
    Told {
        refused: answer.refused,
        rejected: answer.rejected,
        steps: answer.steps,
        retired: answer.retired.len(),
    }
}

/// Gives a datagram from a peer to the exchange.
pub fn heard<R: Wait, G: Gate, J: LedgerSet>(
    desk: &mut Desk<'_, R, G, J>,
    peer: u16,
    octets: &[u8],
    now: u64,
) -> Told {
    let from = if peer == WEST_PLACE { WEST } else { EAST };
    desk.datagram(from, octets, now)
}

/// Ticks both peers.
pub fn tick_both<R: Wait, G: Gate, J: LedgerSet>(desk: &mut Desk<'_, R, G, J>, now: u64) {
    let _west = desk.tick(WEST_PLACE, now);
    let _east = desk.tick(EAST_PLACE, now);
}

impl Told {
    /// Returns whether it was one step, and wasn't refused.
    pub fn is_one_step(&self) -> bool {
        self.refused.is_none() && self.steps == 1
    }
}
