//! A storm of datagrams on calls of all numbers: no leg changes but those concerned, and in the end all settles. So too while
//! peers begin and end to drain, in this thread or in another.

use crate::tests::datagrams::{Call, Dice, Sent, new_call};
use crate::tests::desk::{Desk, EAST_PLACE, Told, WEST_PLACE, heard, peer_of, tick_both};
use crate::tests::legs::Legs;
use crate::tests::opened::{Play, Scene, play_on, play_with};
use crate::tests::recovery::recovers;
use crate::tests::same::{holds, same};
use exchange_core::{Gate, NoGate, Refusal, Rejection};
use layer_tests::plans::{ONE_WORKER, TWO_PASSES};
use peer_lock::LedgerSet;
use std::process::Abort;
use std::sync::Wait;
use std::sync::atomic::{AtomicBool, Ordering};
use std::test::*;
use std::thread;
use std::time::{Clock, Duration};

/// The number of datagrams in the storm.
const DATAGRAMS: u64 = 100_000;

/// The drains in a storm. With them it has a tenth of the datagrams.
#[derive(Clone, Copy)]
pub enum Drains<'a> {
    /// No peer drains.
    None,
    /// Between datagrams a peer begins or ends to drain now and then.
    Own,
    /// Another thread begins and ends drains. It ends them all once the flag is set, and then clears the flag.
    Others(&'a AtomicBool),
}

impl Drains<'_> {
    // Returns the number of datagrams.
    fn datagrams(self) -> u64 {
        match self {
            Drains::None => DATAGRAMS,
            Drains::Own | Drains::Others(_) => DATAGRAMS / 10,
        }
    }

    // Returns whether a drain may begin between two steps of a datagram.
    fn may_come_between(self) -> bool {
        matches!(self, Drains::Others(_))
    }
}

/// The state of the peers, and the datagram that was sent last.
#[derive(Drop)]
struct Peers {
    dice: Dice,
    // By the exchange's number, from 1 on.
    calls: [Call; 8],
    last: Sent,
    late: Sent,
}

fn call_of(number: u16) -> Call {
    Call {
        peer: peer_of(number),
        number,
        source: 0,
        next: 0,
        expected: 0,
    }
}

impl Peers {
    fn new() -> Peers {
        Peers {
            dice: Dice::new(0x2545_f491_4f6c_dd1d),
            calls: [
                call_of(1),
                call_of(2),
                call_of(3),
                call_of(4),
                call_of(5),
                call_of(6),
                call_of(7),
                call_of(8),
            ],
            last: new_call(1),
            late: new_call(2),
        }
    }

    // Returns one of the calls.
    fn call(&mut self) -> Call {
        let place = self.dice.place(self.calls.len());
        self.calls.get(place).copied().unwrap_or(call_of(1))
    }

    // Returns a datagram that one of the peers could send now.
    fn real(&mut self, now: u64) -> Sent {
        let call = self.call();
        match self.dice.below(12) {
            0 => new_call(u16::try_from(self.dice.below(40)).unwrap_or(0)),
            1 => call.mini(),
            2 => {
                let other = self.call();
                call.trunk(&other)
            }
            _ => call.full(now, &mut self.dice),
        }
    }

    // Returns the next datagram: one of the calls, as it is or spoilt; or the last one again; or one that was held up.
    fn next(&mut self, now: u64) -> Sent {
        let sent = match self.dice.below(16) {
            0 => self.last,
            1 => self.late,
            _ => {
                let real = self.real(now);
                real.spoilt(&self.last, &mut self.dice)
            }
        };
        if self.dice.below(16) == 0 {
            self.late = self.last;
        }
        self.last = sent;
        sent
    }

    // A peer learns from a full frame that it gets ("Message Transport").
    fn learn(&mut self, octets: &[u8]) {
        let [a, b, c, d, _, _, _, _, oseqno, iseqno, kind, subclass, ..] = octets else {
            return;
        };
        if *a < 0x80 || *c >= 0x80 {
            return;
        }
        let number = u16::from_be_bytes([*a & 0x7f, *b]);
        let destination = u16::from_be_bytes([*c, *d]);
        let is_numbered = *kind != 6 || !matches!(*subclass, 4 | 0x0a | 0x12);
        if let Some(call) = self.calls.get_mut(usize::from(number.wrapping_sub(1))) {
            call.source = if destination == 0 {
                number.saturating_add(100)
            } else {
                destination
            };
            call.next = *iseqno;
            call.expected = if is_numbered {
                oseqno.wrapping_add(1)
            } else {
                *oseqno
            };
        }
    }
}

// Delivers all waiting datagrams to a peer.
fn deliver_to<R: Wait, G: Gate, J: LedgerSet>(
    desk: &mut Desk<'_, R, G, J>,
    peers: &mut Peers,
    peer: u16,
) {
    for _ in 0..256 {
        match desk.take_out(peer) {
            Some(out) => peers.learn(out.octets()),
            None => return,
        }
    }
}

// Returns whether a datagram may meet this refusal. Credit, serials and memory are ample, and a free number has no leg.
fn is_expected(refusal: Refusal, drains: Drains<'_>) -> bool {
    match refusal {
        Refusal::Stranger
        | Refusal::StepsSpent
        | Refusal::SerialsSpent
        | Refusal::NumberBusy
        | Refusal::Memory => false,
        Refusal::Draining => drains.may_come_between(),
        _ => true,
    }
}

// Returns whether the change of the legs agrees with the answer to a datagram: a refused one changes none, and neither does
// one that is rejected because of a drain, another only those that it concerns.
fn is_allowed(legs: &mut Legs, sent: &Sent, told: Told, drains: Drains<'_>) -> bool {
    match told.refused {
        Some(refusal) => is_expected(refusal, drains) && legs.are_unchanged(),
        None if told.rejected == Some(Rejection::Draining) => legs.are_unchanged(),
        None => {
            legs.pair_new();
            legs.differ_where_concerned(sent)
        }
    }
}

// Handles a datagram. No leg changes except those that it concerns.
fn hear_one<R: Abort + Wait, G: Gate, J: LedgerSet>(
    rt: &R,
    desk: &mut Desk<'_, R, G, J>,
    legs: &mut Legs,
    sent: &Sent,
    now: u64,
    drains: Drains<'_>,
) -> Told {
    let told = heard(desk, sent.peer, sent.octets(), now);
    legs.look(desk);
    let is_so = is_allowed(legs, sent, told, drains);
    assert!(rt; is_so, "{:?}: {:?}", told.refused, sent.octets());
    told
}

/// The number of the storm's datagrams with each effect.
#[derive(Drop)]
struct Tally {
    answered: u64,
    retired: u64,
    drained: u64,
}

impl Tally {
    // Counts a datagram.
    fn count(&mut self, told: Told) {
        if told.refused.is_none() {
            self.answered = self.answered.saturating_add(1);
        }
        if told.rejected == Some(Rejection::Draining) || told.refused == Some(Refusal::Draining) {
            self.drained = self.drained.saturating_add(1);
        }
        self.retired = self.retired.saturating_add(told.retired as u64);
    }
}

// Returns a peer.
fn any_peer(dice: &mut Dice) -> u16 {
    if dice.below(2) == 0 {
        WEST_PLACE
    } else {
        EAST_PLACE
    }
}

/// The peers that drain by this thread's will.
#[derive(Clone, Copy)]
struct Drained {
    west: bool,
    east: bool,
}

impl Drained {
    fn has(self, peer: u16) -> bool {
        if peer == WEST_PLACE {
            self.west
        } else {
            self.east
        }
    }

    // Has a peer begin or end to drain. No leg changes.
    fn turn<R: Abort + Wait, G: Gate, J: LedgerSet>(
        &mut self,
        desk: &mut Desk<'_, R, G, J>,
        legs: &mut Legs,
        peer: u16,
    ) {
        let drains = !self.has(peer);
        if peer == WEST_PLACE {
            self.west = drains;
        } else {
            self.east = drains;
        }
        desk.set_draining(peer, drains);
        legs.look(desk);
        holds(desk.rt, "a drain changes no leg", legs.are_unchanged());
    }

    // Asserts that a datagram of a peer that drains opened no leg of it, and that one of another peer isn't rejected.
    fn expect(self, rt: &impl Abort, legs: &Legs, sent: &Sent, told: Told) {
        if self.has(sent.peer) {
            holds(rt, "no new leg", !legs.has_new_of(sent.peer));
        } else {
            let is_rejected = told.rejected == Some(Rejection::Draining);
            holds(rt, "no drain", !is_rejected);
        }
    }
}

// A hundred thousand datagrams, many of them spoilt.
fn storm<R: Abort + Wait, G: Gate, J: LedgerSet>(
    rt: &R,
    desk: &mut Desk<'_, R, G, J>,
    drains: Drains<'_>,
) -> Tally {
    let mut peers = Peers::new();
    let mut legs = Legs::none();
    let mut tally = Tally {
        answered: 0,
        retired: 0,
        drained: 0,
    };
    let mut drained = Drained {
        west: false,
        east: false,
    };
    for now in 0..drains.datagrams() {
        let sent = peers.next(now);
        let told = hear_one(rt, desk, &mut legs, &sent, now, drains);
        tally.count(told);
        if let Drains::Own = drains {
            drained.expect(rt, &legs, &sent, told);
            if peers.dice.below(100) == 0 {
                let peer = any_peer(&mut peers.dice);
                drained.turn(desk, &mut legs, peer);
            }
        }
        legs.part_gone();
        if now.is_multiple_of(250) {
            tick_both(desk, now);
            legs.look(desk);
            legs.part_gone();
        }
        deliver_to(desk, &mut peers, WEST_PLACE);
        deliver_to(desk, &mut peers, EAST_PLACE);
    }
    tally
}

// Asserts that the storm isn't all refusals, and that drains were met if there were any.
fn expect_all_kinds(rt: &impl Abort, tally: &Tally, drains: Drains<'_>) {
    more_than(rt, "answered", tally.answered, drains.datagrams() / 4);
    more_than(rt, "retired", tally.retired, drains.datagrams() / 200);
    match drains {
        Drains::None => same(rt, &tally.drained, &0),
        Drains::Own => more_than(rt, "met drains", tally.drained, 100),
        Drains::Others(_) => more_than(rt, "met drains", tally.drained, 0),
    }
}

/// Plays the storm, and then ends all calls.
pub fn storm_and_end<R: Abort + Clock + Wait, G: Gate, J: LedgerSet>(
    rt: &R,
    desk: &mut Desk<'_, R, G, J>,
    drains: Drains<'_>,
) {
    let tally = storm(rt, desk, drains);
    if let Drains::Others(is_over) = drains {
        is_over.store(true, Ordering::SeqCst);
        holds(rt, "the other thread ends", is_cleared_in_time(rt, is_over));
    }
    desk.set_draining(WEST_PLACE, false);
    desk.set_draining(EAST_PLACE, false);
    expect_all_kinds(rt, &tally, drains);
    holds(rt, "recovery", recovers(desk, drains.datagrams()));
}

// Returns whether a flag is cleared within ten thousand waits of a millisecond.
fn is_cleared_in_time(clock: &impl Clock, flag: &AtomicBool) -> bool {
    for _ in 0..10_000 {
        if !flag.load(Ordering::SeqCst) {
            return true;
        }
        thread::sleep(clock, Duration::from_millis(1));
    }
    false
}

/// Begins and ends drains of the peers until the flag is set. Then clears it, and no longer drains any.
pub fn drain_until_over<R: Clock + Wait, G: Gate, J: LedgerSet>(
    rt: &R,
    desk: &mut Desk<'_, R, G, J>,
    is_over: &AtomicBool,
) {
    let mut dice = Dice::new(0x9e37_79b9_7f4a_7c15);
    // More than the storm takes.
    for _ in 0..10_000_000u64 {
        if is_over.load(Ordering::SeqCst) {
            is_over.store(false, Ordering::SeqCst);
            return;
        }
        let peer = any_peer(&mut dice);
        desk.set_draining(peer, dice.below(2) == 0);
        thread::sleep(rt, Duration::from_micros(dice.below(200)));
    }
}

// Asserts that a count is more than `least`.
fn more_than(rt: &impl Abort, what: &str, count: u64, least: u64) {
    assert!(rt; count > least, "{count} {what}");
}

#[test]
fn storm_with_drains(rt: HostRuntime) {
    let sums = play_on(&rt, rt.alloc(), ONE_WORKER, Scene::StormWithDrains);
    more_than(&rt, "packed", sums.packed, 20);
}

#[test]
fn storm_beside_drains(rt: HostRuntime) {
    let is_over = AtomicBool::new(false);
    let play = Play::StormAndDrains(&is_over);
    let sums = play_with(&rt, rt.alloc(), TWO_PASSES, NoGate, play);
    // How much gets through between the other thread's drains depends on the machine.
    more_than(&rt, "packed", sums.expect(&rt, "an exchange").packed, 0);
}

#[test]
fn storm_of_datagrams(rt: HostRuntime) {
    let sums = play_on(&rt, rt.alloc(), ONE_WORKER, Scene::Storm);
    more_than(&rt, "packed", sums.packed, 1000);
}
