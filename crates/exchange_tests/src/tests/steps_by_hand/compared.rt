//! Comparisons of an exchange with peers and a book without locks: after each line, and at the end.

use crate::tests::desk::{Desk, EAST, EAST_PLACE, WEST, WEST_PLACE, peer_of};
use crate::tests::same::{holds, same};
use crate::tests::steps_by_hand::lines::{COUNT, LINES, Line};
use crate::tests::steps_by_hand::made::{Given, Gone, Made};
use crate::tests::steps_by_hand::plain::Plain;
use call_book::{CallBook, LegName, PeerId};
use call_control::Work;
use exchange_core::{Answer, CallError, Exchange, Gate, Pass, Refusal, Retired, Settlement};
use peer_lock::{ClosedPeer, LedgerSet, OrderError};
use seq_window::{EntryView, FrameView, Record};
use std::process::Abort;
use std::sync::Wait;

// The greatest number of the plan.
const NUMBERS: u16 = 8;

// Returns whether two frames of records are equal.
fn is_same_frame(one: &FrameView<'_>, other: &FrameView<'_>) -> bool {
    one.ts == other.ts
        && one.kind == other.kind
        && one.subclass == other.subclass
        && one.payload == other.payload
}

// Returns whether two entries of records are equal.
fn is_same_entry(one: &EntryView<'_>, other: &EntryView<'_>) -> bool {
    match (one, other) {
        (EntryView::Sent(one), EntryView::Sent(other)) => is_same_frame(one, other),
        (EntryView::Taken(one), EntryView::Taken(other)) => is_same_frame(one, other),
        (EntryView::Acked(one), EntryView::Acked(other)) => *one == *other,
        _ => false,
    }
}

// Returns whether two records have the same entries.
fn is_same_record(one: &Record, other: &Record) -> bool {
    if one.len() != other.len() {
        return false;
    }
    for place in 0..one.len() {
        match (one.entry(place), other.entry(place)) {
            (Some(one), Some(other)) if is_same_entry(&one, &other) => {}
            _ => return false,
        }
    }
    true
}

// Returns whether two removed legs are equal, and the first ended at this moment.
fn is_same_leg(retired: &Retired, gone: &Gone, now: u64) -> bool {
    retired.name == gone.name
        && retired.partner == gone.partner
        && retired.facts == gone.facts
        && retired.ended == now
        && is_same_record(&retired.history, &gone.history)
}

// Asserts that the answer of an exchange equals the driver's result.
fn compare(rt: &impl Abort, answer: &Answer, made: &Made, now: u64) {
    same(rt, &answer.steps, &made.steps);
    same(rt, &answer.refused, &made.refused);
    same(rt, &answer.rejected, &made.rejected);
    same(rt, &answer.retired.len(), &made.gone.len());
    for place in 0..made.gone.len() {
        match (answer.retired.get(place), made.gone.get(place)) {
            (Some(retired), Some(gone)) => {
                holds(
                    rt,
                    "a leg that was removed",
                    is_same_leg(retired, gone, now),
                );
            }
            _ => panic!(rt; "a leg"),
        }
    }
}

// Names the refusal of a placed call.
fn refusal_of(error: CallError) -> Refusal {
    match error {
        CallError::BadNumber => Refusal::TooLong,
        CallError::SerialsSpent => Refusal::SerialsSpent,
        CallError::NoNumber => Refusal::NoNumber,
        CallError::StepsSpent => Refusal::StepsSpent,
        CallError::NumberBusy => Refusal::NumberBusy,
        CallError::Memory => Refusal::Memory,
    }
}

// Gives both a datagram of a peer.
fn hear<R: Abort + Wait, G: Gate, J: LedgerSet, K: LedgerSet>(
    desk: &mut Desk<'_, R, G, J>,
    plain: &mut Plain<'_, K>,
    peer: u16,
    octets: &[u8],
    now: u64,
) {
    let from = if peer == WEST_PLACE { WEST } else { EAST };
    let answer = desk
        .exchange
        .datagram(desk.rt, desk.pass, from, octets, now, &desk.challenge);
    let given = Given {
        octets,
        called: None,
        now,
    };
    let made = plain.carry_out(desk.rt, Work::of_datagram(PeerId::new(peer)), &given);
    compare(desk.rt, &answer, &made, now);
}

// Has both place a call to the east. A number that is too long is refused before any step.
fn place<R: Abort + Wait, G: Gate, J: LedgerSet, K: LedgerSet>(
    desk: &mut Desk<'_, R, G, J>,
    plain: &mut Plain<'_, K>,
    called: &[u8],
    now: u64,
) {
    let (rt, exchange) = (desk.rt, desk.exchange);
    assert!(rt;
        EAST_PLACE < exchange.plan().peer_count(),
        "the peer in the east"
    );
    let placed = exchange.call(rt, desk.pass, PeerId::new(EAST_PLACE), called, now);
    if called.len() > 64 {
        same(rt, &placed.err(), &Some(CallError::BadNumber));
        return;
    }
    let given = Given {
        octets: &[],
        called: Some(called),
        now,
    };
    let made = plain.carry_out(rt, Work::of_call(PeerId::new(EAST_PLACE)), &given);
    match placed {
        Ok(name) => {
            same(rt, &made.named, &Some(name));
            same(rt, &made.refused, &None);
        }
        Err(error) => same(rt, &made.refused, &Some(refusal_of(error))),
    }
}

// Has both hang up the leg of a number, if there is one.
fn hang_up<R: Abort + Wait, G: Gate, J: LedgerSet, K: LedgerSet>(
    desk: &mut Desk<'_, R, G, J>,
    plain: &mut Plain<'_, K>,
    number: u16,
    now: u64,
) {
    let Some(status) = desk.status(number) else {
        return;
    };
    let (rt, exchange, name) = (desk.rt, desk.exchange, status.name);
    assert!(rt;
        name.peer < exchange.plan().peer_count(),
        "a peer of the plan"
    );
    let answer = exchange.hang_up(rt, desk.pass, name, now);
    let given = Given {
        octets: &[],
        called: None,
        now,
    };
    let made = plain.carry_out(rt, Work::of_hang_up(name), &given);
    match answer {
        Ok(answer) => {
            same(rt, &made.disobeyed, &None);
            compare(rt, &answer, &made, now);
        }
        Err(error) => same(rt, &made.disobeyed, &Some(error)),
    }
}

// Ticks a peer of both. It has four numbers.
fn tick<R: Abort + Wait, G: Gate, J: LedgerSet, K: LedgerSet>(
    desk: &mut Desk<'_, R, G, J>,
    plain: &mut Plain<'_, K>,
    peer: u16,
    now: u64,
) {
    let (rt, exchange) = (desk.rt, desk.exchange);
    assert!(rt; peer < exchange.plan().peer_count(), "a peer of the plan");
    let answer = exchange.tick(rt, desk.pass, PeerId::new(peer), now);
    let first = if peer == WEST_PLACE { 1 } else { 5 };
    let given = Given {
        octets: &[],
        called: None,
        now,
    };
    let made = plain.carry_out(rt, Work::of_tick(PeerId::new(peer), first, 4), &given);
    compare(rt, &answer, &made, now);
}

// Gives a line to both.
fn play<R: Abort + Wait, G: Gate, J: LedgerSet, K: LedgerSet>(
    desk: &mut Desk<'_, R, G, J>,
    plain: &mut Plain<'_, K>,
    line: Line,
    now: u64,
) {
    match line {
        Line::Datagram(peer, octets) => hear(desk, plain, peer, octets, now),
        Line::Call(called) => place(desk, plain, called, now),
        Line::HangUp(number) => hang_up(desk, plain, number, now),
        Line::Tick => {
            tick(desk, plain, WEST_PLACE, now);
            tick(desk, plain, EAST_PLACE, now);
        }
    }
}

// Asserts that both outboxes of a peer have the same datagrams. Returns how many.
fn empty<R: Abort + Wait, G: Gate, J: LedgerSet, K: LedgerSet>(
    desk: &mut Desk<'_, R, G, J>,
    plain: &mut Plain<'_, K>,
    peer: u16,
) -> usize {
    for taken in 0..256 {
        match (desk.take_out(peer), plain.take_out(peer)) {
            (Some(one), Some(other)) => same(desk.rt, &one.octets(), &other.octets()),
            (None, None) => return taken,
            _ => panic!(desk.rt; "as many datagrams"),
        }
    }
    panic!(desk.rt; "an empty outbox");
}

// Asserts that the legs of all numbers have the same status.
fn look<R: Abort + Wait, G: Gate, J: LedgerSet, K: LedgerSet>(
    desk: &mut Desk<'_, R, G, J>,
    plain: &mut Plain<'_, K>,
) {
    for number in 1..=NUMBERS {
        let status = plain.status(peer_of(number), number);
        same(desk.rt, &desk.status(number), &status);
    }
}

/// Plays all lines from this one on, and then those before it, ten milliseconds apart. Returns how many datagrams went out.
pub fn play_lines<R: Abort + Wait, G: Gate, J: LedgerSet, K: LedgerSet>(
    desk: &mut Desk<'_, R, G, J>,
    plain: &mut Plain<'_, K>,
    start: usize,
) -> usize {
    let mut sent = 0usize;
    let mut now = 0u64;
    for place in 0..COUNT {
        let line = LINES.get(start.wrapping_add(place) % COUNT);
        play(desk, plain, *line.expect(desk.rt, "a line"), now);
        sent = sent.saturating_add(empty(desk, plain, WEST_PLACE));
        sent = sent.saturating_add(empty(desk, plain, EAST_PLACE));
        look(desk, plain);
        now = now.saturating_add(10);
    }
    sent
}

// The counts of an exchange, or of peers.
#[derive(Clone, Copy, Debug, PartialEq)]
struct Sums {
    accepted: u64,
    packed: u64,
    queued: u64,
    dropped: u64,
    quelched: u64,
    steps: u64,
}

// Returns the counts of a settlement.
fn sums_of<J: LedgerSet>(settlement: &Settlement<J>) -> Sums {
    Sums {
        accepted: settlement.accepted,
        packed: settlement.packed,
        queued: settlement.queued,
        dropped: settlement.dropped,
        quelched: settlement.quelched,
        steps: settlement.steps,
    }
}

// Returns the counts of a closed peer, without the octets that passes dropped.
fn own_sums_of<J: LedgerSet>(peer: &ClosedPeer<J>) -> Sums {
    Sums {
        accepted: peer.accepted(),
        packed: peer.packed(),
        queued: peer.queued(),
        dropped: peer.dropped(),
        quelched: peer.quelched(),
        steps: peer.steps(),
    }
}

impl Sums {
    // Adds the counts of another peer. The octets that are left in the pass count as dropped.
    fn with(self, other: Sums, left: u64) -> Sums {
        Sums {
            accepted: self.accepted.saturating_add(other.accepted),
            packed: self.packed.saturating_add(other.packed),
            queued: self.queued.saturating_add(other.queued),
            dropped: self
                .dropped
                .saturating_add(other.dropped)
                .saturating_add(left),
            quelched: self.quelched.saturating_add(other.quelched),
            steps: self.steps.saturating_add(other.steps),
        }
    }
}

// Asserts that two closed peers have the same legs and accounts.
fn compare_peers<J: LedgerSet, K: LedgerSet>(
    rt: &impl Abort,
    one: &ClosedPeer<J>,
    other: &ClosedPeer<K>,
) {
    same(rt, &one.peer(), &other.peer());
    same(rt, &own_sums_of(one), &own_sums_of(other));
    same(rt, &one.lost(), &other.lost());
    for number in 1..=NUMBERS {
        same(rt, &one.look(number), &other.look(number));
    }
}

// Reserves the next name of a peer in a book.
fn next_name(book: &mut CallBook, peer: u16) -> Option<LegName> {
    match book.reserve(PeerId::new(peer)) {
        Ok(lease) => Some(lease.name()),
        Err(_) => None,
    }
}

// Asserts that two books give the same names, and the same partners to the legs of a peer.
fn compare_books<J: LedgerSet>(
    rt: &impl Abort,
    one: &mut CallBook,
    other: &mut CallBook,
    peer: &ClosedPeer<J>,
) {
    for number in 1..=NUMBERS {
        if let Some(status) = peer.look(number) {
            holds(rt, "the name of a leg", one.contains(status.name));
            same(rt, &one.partner(status.name), &other.partner(status.name));
        }
    }
    for _ in 0..5 {
        same(
            rt,
            &next_name(one, peer.peer()),
            &next_name(other, peer.peer()),
        );
    }
}

/// Settles the exchange. Asserts that its legs, accounts and names equal those of the driver.
pub fn compare_ends<R: Abort, G: Gate, J: LedgerSet, K: LedgerSet>(
    rt: &R,
    exchange: Exchange<G, J>,
    passes: Vec<Pass<J>>,
    plain: Plain<'_, K>,
) {
    let Ok(mut settlement) = exchange.settle(passes) else {
        panic!(rt; "a settlement");
    };
    let sums = sums_of(&settlement);
    let (west, east, mut book, left) = plain.close();
    let [first, second] = settlement.peers.as_slice() else {
        panic!(rt; "two peers");
    };
    compare_peers(rt, first, &west);
    compare_peers(rt, second, &east);
    same(
        rt,
        &sums,
        &own_sums_of(&west).with(own_sums_of(&east), left),
    );
    compare_books(rt, &mut settlement.book, &mut book, &west);
    compare_books(rt, &mut settlement.book, &mut book, &east);
}
