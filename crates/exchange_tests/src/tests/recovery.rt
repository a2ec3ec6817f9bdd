//! Properties of an exchange after any events: every leg can be removed, callers get all numbers, and the accounts balance.

use crate::tests::desk::{Desk, EAST_PLACE, WEST_PLACE, heard, tick_both};
use crate::tests::same::{holds, same};
use call_book::LegName;
use exchange_core::{Exchange, Gate, Pass, SettleError, Settlement};
use peer_lock::{LedgerSet, OrderError};
use std::process::Abort;
use std::sync::Wait;

/// The greatest number of the plans of two peers.
pub const NUMBERS: u16 = 8;

/// A NEW for 200 from call number 0.
const LATE_NEW: [u8; 33] = [
    0x80, 0, 0, 0, 0, 0, 0, 0, 0, 0, 6, 1, 0x0b, 2, 0, 2, 1, 3, 0x32, 0x30, 0x30, 9, 4, 0, 0, 0, 4,
    8, 4, 0, 0, 0, 4,
];

// Returns whether the leg hangs up, or is past that. A growth that is refused is requested again.
fn hangs_up<R: Wait, G: Gate, J: LedgerSet>(
    desk: &mut Desk<'_, R, G, J>,
    name: LegName,
    now: u64,
) -> bool {
    for _ in 0..2 {
        match desk.hang_up(name, now) {
            Some(OrderError::Memory) => {}
            None | Some(OrderError::WrongStage) => return true,
            _ => return false,
        }
    }
    true
}

// Hangs up each leg.
fn all_hang_up<R: Wait, G: Gate, J: LedgerSet>(desk: &mut Desk<'_, R, G, J>, now: u64) -> bool {
    for number in 1..=NUMBERS {
        if let Some(status) = desk.status(number) {
            if !hangs_up(desk, status.name, now) {
                return false;
            }
        }
    }
    true
}

// Waits until retries run out, within twenty seconds, without an answer. Returns the moment after them.
fn wait_out<R: Wait, G: Gate, J: LedgerSet>(desk: &mut Desk<'_, R, G, J>, now: u64) -> u64 {
    let mut moment = now;
    for _ in 0..20 {
        moment = moment.saturating_add(1000);
        tick_both(desk, moment);
    }
    moment
}

/// Returns the number of numbers that have a leg.
pub fn leg_count<R: Wait, G: Gate, J: LedgerSet>(desk: &mut Desk<'_, R, G, J>) -> u16 {
    let mut legs = 0u16;
    for number in 1..=NUMBERS {
        if desk.status(number).is_some() {
            legs = legs.saturating_add(1);
        }
    }
    legs
}

// Returns whether four callers of a peer are accepted, as many as it has numbers. A growth that is refused is requested
// again.
fn all_are_let_in<R: Wait, G: Gate, J: LedgerSet>(
    desk: &mut Desk<'_, R, G, J>,
    peer: u16,
    now: u64,
) -> bool {
    let mut octets = LATE_NEW;
    for source in 96..100 {
        octets[1] = source;
        if heard(desk, peer, &octets, now).refused.is_some()
            && heard(desk, peer, &octets, now).refused.is_some()
        {
            return false;
        }
    }
    true
}

/// Hangs up every leg and waits. Returns the moment after that, or `None` if a leg is left then.
pub fn all_end<R: Wait, G: Gate, J: LedgerSet>(
    desk: &mut Desk<'_, R, G, J>,
    now: u64,
) -> Option<u64> {
    if !all_hang_up(desk, now) {
        return None;
    }
    let later = wait_out(desk, now);
    if leg_count(desk) == 0 {
        Some(later)
    } else {
        None
    }
}

/// Hangs up every leg and waits. Returns whether none is left then, and callers get every number of both peers, so that no
/// lease was kept.
pub fn recovers<R: Wait, G: Gate, J: LedgerSet>(desk: &mut Desk<'_, R, G, J>, now: u64) -> bool {
    let Some(later) = all_end(desk, now) else {
        return false;
    };
    all_are_let_in(desk, WEST_PLACE, later)
        && all_are_let_in(desk, EAST_PLACE, later)
        && leg_count(desk) == NUMBERS
}

/// The sums of closed accounts.
#[derive(Clone, Copy)]
pub struct Sums {
    pub accepted: u64,
    pub packed: u64,
    pub queued: u64,
    pub dropped: u64,
    pub steps: u64,
}

impl Sums {
    // Returns the number of octets that were neither packed nor dropped, and aren't queued.
    fn left(&self) -> Option<u64> {
        let unpacked = self.accepted.checked_sub(self.packed)?;
        let unqueued = unpacked.checked_sub(self.queued)?;
        unqueued.checked_sub(self.dropped)
    }
}

/// The result of a try to close the accounts.
type Settled<G, J> = Result<Settlement<J>, (Exchange<G, J>, Vec<Pass<J>>, SettleError)>;

// Closes the accounts. A growth that is refused is requested again.
fn settled<G: Gate, J: LedgerSet>(exchange: Exchange<G, J>, passes: Vec<Pass<J>>) -> Settled<G, J> {
    match exchange.settle(passes) {
        Err((exchange, passes, SettleError::Memory)) => exchange.settle(passes),
        settled => settled,
    }
}

// Asserts that the accounts stay open if a pass is missing, and returns everything.
fn handed_back<R: Abort, G: Gate, J: LedgerSet>(
    rt: &R,
    settled: Settled<G, J>,
) -> (Exchange<G, J>, Vec<Pass<J>>) {
    match settled {
        Err((exchange, passes, SettleError::Missing)) => (exchange, passes),
        _ => panic!(rt; "the accounts stay open"),
    }
}

// Returns the sums of closed accounts.
fn sums_of<R: Abort, G: Gate, J: LedgerSet>(rt: &R, settled: Settled<G, J>) -> Sums {
    match settled {
        Ok(settlement) => Sums {
            accepted: settlement.accepted,
            packed: settlement.packed,
            queued: settlement.queued,
            dropped: settlement.dropped,
            steps: settlement.steps,
        },
        Err(_) => panic!(rt; "the accounts are closed"),
    }
}

/// Tries to close the accounts without one pass, which is refused; then closes them with all passes, and checks that they
/// balance.
pub fn ended<R: Abort, G: Gate, J: LedgerSet>(
    rt: &R,
    exchange: Exchange<G, J>,
    passes: Vec<Pass<J>>,
) -> Sums {
    let mut passes = passes;
    let pass = passes.pop().expect(rt, "a pass");
    let others = passes.len();
    let (exchange, mut passes) = handed_back(rt, settled(exchange, passes));
    holds(rt, "all other passes", passes.len() == others);
    passes.push(pass).expect(rt, "room for a pass");
    let sums = sums_of(rt, settled(exchange, passes));
    same(rt, &sums.left(), &Some(0));
    sums
}
