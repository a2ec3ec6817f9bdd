//! A driver whose peers begin to drain before a step of a line, next to one whose peers never drain.

use crate::tests::desk::{EAST_PLACE, WEST_PLACE, peer_of};
use crate::tests::same::{holds, same};
use crate::tests::steps_by_hand::lines::{LINES, Line};
use crate::tests::steps_by_hand::made::{Given, Made};
use crate::tests::steps_by_hand::plain::Plain;
use call_book::PeerId;
use call_control::Work;
use exchange_core::{Refusal, Rejection};
use peer_lock::{LedgerSet, Status};
use std::process::Abort;

// The greatest number of the plan.
const NUMBERS: u16 = 8;

// Returns the work of a line, or `None` if there is none: a number that is too long is refused before, and no leg may have
// the number that is hung up. Of a tick it is the west's.
fn work_of<J: LedgerSet>(plain: &mut Plain<'_, J>, line: Line) -> Option<Work> {
    match line {
        Line::Datagram(peer, _) => Some(Work::of_datagram(PeerId::new(peer))),
        Line::Call(called) if called.len() > 64 => None,
        Line::Call(_) => Some(Work::of_call(PeerId::new(EAST_PLACE))),
        Line::HangUp(number) => {
            let status = plain.status(peer_of(number), number)?;
            Some(Work::of_hang_up(status.name))
        }
        Line::Tick => Some(Work::of_tick(PeerId::new(WEST_PLACE), 1, 4)),
    }
}

// Makes the steps of a line.
fn make<J: LedgerSet>(rt: &impl Abort, plain: &mut Plain<'_, J>, line: Line, now: u64) -> Made {
    let (octets, called): (&[u8], Option<&[u8]>) = match line {
        Line::Datagram(_, octets) => (octets, None),
        Line::Call(called) => (&[], Some(called)),
        Line::HangUp(_) | Line::Tick => (&[], None),
    };
    let given = Given {
        octets,
        called,
        now,
    };
    match work_of(plain, line) {
        Some(work) => plain.carry_out(rt, work, &given),
        None => Made::nothing(plain.alloc),
    }
}

// Asserts that the outboxes of a peer have the same datagrams.
fn empty_alike<J: LedgerSet, K: LedgerSet>(
    rt: &impl Abort,
    one: &mut Plain<'_, J>,
    other: &mut Plain<'_, K>,
    peer: u16,
) {
    for _ in 0..256 {
        match (one.take_out(peer), other.take_out(peer)) {
            (Some(one), Some(other)) => same(rt, &one.octets(), &other.octets()),
            (None, None) => return,
            _ => panic!(rt; "as many datagrams"),
        }
    }
    panic!(rt; "an empty outbox");
}

// Asserts that the legs of all numbers, and the datagrams that wait, are the same.
fn look_alike<J: LedgerSet, K: LedgerSet>(
    rt: &impl Abort,
    one: &mut Plain<'_, J>,
    other: &mut Plain<'_, K>,
) {
    empty_alike(rt, one, other, WEST_PLACE);
    empty_alike(rt, one, other, EAST_PLACE);
    for number in 1..=NUMBERS {
        let peer = peer_of(number);
        same(rt, &one.status(peer, number), &other.status(peer, number));
    }
}

// Returns how many datagrams wait for a peer, and takes them.
fn taken<J: LedgerSet>(plain: &mut Plain<'_, J>, peer: u16) -> u64 {
    let mut count = 0u64;
    for _ in 0..256 {
        if plain.take_out(peer).is_none() {
            break;
        }
        count = count.saturating_add(1);
    }
    count
}

// Asserts that the NEW of a line was rejected, if the drain began before its first step, or was refused before its leg was
// opened. There is no leg but those of before it, and no datagram but the REJECT. Once the drain is over, it opens its leg.
fn expect_kept_out<J: LedgerSet>(
    rt: &impl Abort,
    plain: &mut Plain<'_, J>,
    made: &Made,
    legs: &[Option<Status>],
    is_rejected: bool,
) {
    let wanted = if is_rejected {
        (1, None, Some(Rejection::Draining))
    } else {
        (0, Some(Refusal::Draining), None)
    };
    same(rt, &(made.steps, made.refused, made.rejected), &wanted);
    let out = (taken(plain, WEST_PLACE), taken(plain, EAST_PLACE));
    same(rt, &out, &(if is_rejected { 1 } else { 0 }, 0));
    for number in 1..=NUMBERS {
        let status = plain.status(peer_of(number), number);
        let before = legs.get(usize::from(number.wrapping_sub(1)));
        same(rt, &Some(&status), &before);
    }
}

/// Has both play the lines before one, and that line, before a step of which the peers of the second begin to drain. Asserts
/// that a NEW that would open a leg is kept out if the drain began before the leg was opened, and that the line is the same
/// without and with the drain otherwise. Returns how many steps the line has without it.
pub fn play_drained<J: LedgerSet, K: LedgerSet>(
    rt: &impl Abort,
    calm: &mut Plain<'_, J>,
    drained: &mut Plain<'_, K>,
    place: usize,
    step: u64,
) -> u64 {
    let mut now = 0u64;
    for before in LINES.iter().take(place) {
        make(rt, calm, *before, now);
        make(rt, drained, *before, now);
        look_alike(rt, calm, drained);
        now = now.saturating_add(10);
    }
    let line = *LINES.get(place).expect(rt, "a line");
    let mut legs = Vec::new(drained.alloc);
    for number in 1..=NUMBERS {
        legs.push(drained.status(peer_of(number), number))
            .expect(rt, "room");
    }
    let wanted = make(rt, calm, line, now);
    drained.drains_before = Some(step);
    let found = make(rt, drained, line, now);
    drained.drains_before = None;
    // A NEW needs its peer, then the book, and then its peer again, which opens the leg.
    let is_opening = matches!(line, Line::Datagram(_, _)) && wanted.named.is_some();
    if is_opening && step < 3 {
        expect_kept_out(rt, drained, &found, legs.as_slice(), step == 0);
        drained.peers.set_draining(false);
        let again = make(rt, drained, line, now);
        holds(
            rt,
            "it opens its leg later",
            again.named.is_some() && again.steps > 0,
        );
    } else {
        same(
            rt,
            &(found.steps, found.refused),
            &(wanted.steps, wanted.refused),
        );
        same(
            rt,
            &(found.rejected, found.named),
            &(wanted.rejected, wanted.named),
        );
        same(rt, &found.gone.len(), &wanted.gone.len());
        look_alike(rt, calm, drained);
    }
    wanted.asked
}
