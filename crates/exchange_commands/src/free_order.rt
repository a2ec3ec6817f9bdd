//! The order in which the free numbers of a peer are given out.
ghost use Rattle.std.specs.Prelude.{◌<◌, length};

use crate::decimal;
use crate::replay_context::ReplayContext;
use crate::viewer::Stop;
use crate::words::peer_of;
use call_auth::Challenge;
use exchange_core::{CallError, Exchange, NoGate, Pass};
use peer_lock::LedgerSet;
use peer_plan::{NumberRange, PeerId};
use std::alloc::Global;
use std::sync::Wait;

// Returns the number that these digits spell.
fn number_of(digits: &[u8]) -> Option<u16> {
    u16::try_from(decimal(digits)?).ok()
}

// Returns the numbers that a part of a text names, as a first and a last, or `None` if it names none.
fn ends_of(part: &[u8]) -> Option<(u16, u16)> {
    let mut ends = part.splitn(2, |octet| *octet == b'-');
    let first = number_of(ends.next().unwrap_or(b""))?;
    let last = match ends.next() {
        Some(digits) => number_of(digits)?,
        None => first,
    };
    Some((first, last))
}

// Adds the numbers from one to another to a list. More numbers than a peer can have are refused.
fn list_range(numbers: &mut Vec<u16>, first: u16, last: u16) -> Result<(), Stop> {
    for number in first..=last {
        if numbers.len() == 512 {
            return Err(Stop::Script);
        }
        if numbers.push(number).is_err() {
            return Err(Stop::Memory);
        }
    }
    Ok(())
}

// Adds the numbers that a text lists, each alone or as a range, as `5-7,1`.
fn list_numbers(numbers: &mut Vec<u16>, text: &[u8]) -> Result<(), Stop> {
    for part in text.split(|octet| *octet == b',') {
        match ends_of(part) {
            Some((first, last)) => {
                if let Err(stop) = list_range(numbers, first, last) {
                    return Err(stop);
                }
            }
            None => return Err(Stop::Script),
        }
    }
    Ok(())
}

/// Returns how many numbers a text lists: a `free` line with it uses so many serials. The count of a text that `order_free`
/// refuses has no meaning.
pub(crate) fn count_numbers(text: &[u8]) -> u64 {
    let mut count: u64 = 0;
    for part in text.split(|octet| *octet == b',') {
        match ends_of(part) {
            Some((first, last)) if first <= last => {
                count = count.saturating_add(u64::from(last - first) + 1);
            }
            _ => {}
        }
    }
    count
}

// Returns the numbers that a text lists.
fn listed(alloc: Global, text: &[u8]) -> Result<Vec<u16>, Stop> {
    let mut numbers = Vec::new(alloc);
    match list_numbers(&mut numbers, text) {
        Ok(()) => Ok(numbers),
        Err(stop) => Err(stop),
    }
}

// Returns whether a list has each number of a range once, and no other.
fn is_order_of(numbers: &[u16], range: NumberRange) -> bool {
    if numbers.len() != usize::from(range.count) {
        return false;
    }
    for place in 0..range.count {
        let number = range.first.saturating_add(place);
        if !numbers.contains(&number) {
            return false;
        }
    }
    true
}

// Returns a full frame from call number 1 that acknowledges the NEW of the leg of this number, and rejects its call
// ("REJECT").
fn reject(number: u16) -> [u8; 12] {
    let [high, low] = number.to_be_bytes();
    [0x80, 1, high, low, 0, 0, 0, 0, 0, 1, 6, 6]
}

// Opens a call for each free number of the peer, and then ends the calls in this order.
fn take_and_free<J: LedgerSet, R: Wait>(
    rt: &R,
    exchange: &Exchange<NoGate, J>,
    pass: &mut Pass<J>,
    peer: PeerId,
    numbers: &[u16],
    now: u64,
    challenge: &Challenge,
) -> Result<(), Stop>
    requires { peer < length exchange.now.peers }
{
    for _ in numbers {
        match exchange.call(rt, pass, peer, b"0", now) {
            Ok(_) => {}
            Err(CallError::Memory) => return Err(Stop::Memory),
            Err(_) => return Err(Stop::Script),
        }
    }
    let from = exchange.plan().endpoint(peer);
    for number in numbers {
        let octets = reject(*number);
        let _freed = exchange.datagram(rt, pass, from, &octets, now, challenge);
    }
    Ok(())
}

/// Sets the order in which the numbers of a peer are given out to that of this text. To do so, it opens calls for all of
/// them and ends these in that order. Nothing of this is visible. The datagrams in the peer's outbox are dropped.
///
/// Returns `Script` if no peer has that name, one of its numbers has a leg, or the text doesn't list each of its numbers
/// once.
pub(crate) fn order_free<J: LedgerSet, R: Wait, V>(
    context: &mut ReplayContext<'_, R, J, V>,
    peer: &[u8],
    text: &[u8],
    now: u64,
    challenge: &Challenge,
) -> Result<(), Stop> {
    let exchange = context.exchange;
    let peer = match peer_of(exchange.plan(), peer) {
        Ok(peer) => peer,
        Err(stop) => return Err(stop),
    };
    let numbers = match listed(context.alloc, text) {
        Ok(numbers) => numbers,
        Err(stop) => return Err(stop),
    };
    let (rt, range) = (context.rt, exchange.plan().range(peer));
    if !is_order_of(&numbers, range) || exchange.leg_count(rt, context.pass, peer) > 0 {
        return Err(Stop::Script);
    }
    if let Err(stop) = take_and_free(rt, exchange, context.pass, peer, &numbers, now, challenge) {
        return Err(stop);
    }
    for _ in 0..u64::MAX {
        if exchange.take_out(rt, context.pass, peer).is_none() {
            break;
        }
    }
    Ok(())
}
