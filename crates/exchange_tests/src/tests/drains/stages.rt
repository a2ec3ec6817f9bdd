//! A drain that begins at any stage of a call, of some peers or of all.

use crate::tests::desk::{Desk, EAST_PLACE, WEST_PLACE};
use crate::tests::drains::arrivals::{CHALLENGED_CALL, COUNT, STAGES};
use crate::tests::drains::newcomers::{expect_let_in, expect_rejected};
use crate::tests::legs::Legs;
use crate::tests::opened::{Play, play_with};
use crate::tests::same::{holds, same};
use call_auth::Challenge;
use call_signals::Stage;
use exchange_core::{Exchange, Gate, NoGate, Pass};
use iax_frames::Out;
use layer_tests::plans::{SECRET_WEST, TEN_PEERS};
use peer_lock::LedgerSet;
use std::alloc::Global;
use std::net::Net;
use std::process::Abort;
use std::sync::Wait;
use std::test::*;
use std::thread::Threads;
use std::time::Clock;

// After the last datagram.
const LATER: u64 = 200;

/// The peers that drain.
#[derive(Clone, Copy)]
pub enum Drained {
    All,
    Only(u16),
    None,
}

impl Drained {
    fn has(self, peer: u16) -> bool {
        match self {
            Drained::All => true,
            Drained::Only(only) => peer == only,
            Drained::None => false,
        }
    }
}

/// A drain that begins before the datagram of a place.
#[derive(Clone, Copy)]
pub struct Drain {
    place: usize,
    peers: Drained,
}

/// A datagram that went out, and its peer.
#[derive(Drop)]
pub struct Kept {
    to: u16,
    out: Out,
}

impl Drain {
    // Begins or ends the drain.
    fn set<R: Wait, G: Gate, J: LedgerSet>(self, desk: &mut Desk<'_, R, G, J>, drains: bool) {
        for peer in 0..desk.exchange.plan().peer_count() {
            if self.peers.has(peer) {
                desk.set_draining(peer, drains);
            }
        }
    }

    // Begins the drain. It changes no leg, and a NEW of each peer that drains is rejected each time.
    fn begin<R: Abort + Wait, G: Gate, J: LedgerSet>(self, desk: &mut Desk<'_, R, G, J>, now: u64) {
        let mut legs = Legs::none();
        legs.look(desk);
        self.set(desk, true);
        for peer in 0..desk.exchange.plan().peer_count() {
            if self.peers.has(peer) {
                expect_rejected(desk, peer, now);
                expect_rejected(desk, peer, now);
            }
        }
        legs.look(desk);
        holds(desk.rt, "no leg has changed", legs.are_unchanged());
    }

    // Ends the drain. A NEW of each peer that drains alone is rejected before that, and one of each other peer isn't.
    // After it none is.
    fn end<R: Abort + Wait, G: Gate, J: LedgerSet>(self, desk: &mut Desk<'_, R, G, J>) {
        let peers = desk.exchange.plan().peer_count();
        for peer in 0..peers {
            if self.peers.has(peer) {
                expect_rejected(desk, peer, LATER);
            } else {
                expect_let_in(desk, peer, LATER);
            }
        }
        self.set(desk, false);
        for peer in 0..peers {
            if self.peers.has(peer) {
                expect_let_in(desk, peer, LATER);
            }
        }
    }
}

// Takes all datagrams that wait.
fn keep_all<R: Abort + Wait, G: Gate, J: LedgerSet>(
    desk: &mut Desk<'_, R, G, J>,
    kept: &mut Vec<Kept>,
) {
    for to in 0..desk.exchange.plan().peer_count() {
        for _ in 0..256 {
            let Some(out) = desk.take_out(to) else {
                break;
            };
            kept.push(Kept { to, out }).expect(desk.rt, "room");
        }
    }
}

// Returns the stage of the leg of a number.
fn stage_of<R: Wait, G: Gate, J: LedgerSet>(
    desk: &mut Desk<'_, R, G, J>,
    number: u16,
) -> Option<Stage> {
    match desk.status(number) {
        Some(status) => Some(status.stage),
        None => None,
    }
}

// Gives the datagram of a place to the exchange. No datagram of the call is refused or rejected.
fn play_place<R: Abort + Wait, G: Gate, J: LedgerSet>(
    desk: &mut Desk<'_, R, G, J>,
    place: usize,
    kept: &mut Vec<Kept>,
) {
    let rt = desk.rt;
    let (at, from, octets) = *CHALLENGED_CALL.get(place).expect(rt, "a datagram");
    let told = desk.datagram(from, octets, at);
    same(rt, &told.refused, &None);
    same(rt, &told.rejected, &None);
    keep_all(desk, kept);
    let stages = (stage_of(desk, 1), stage_of(desk, 5));
    same(rt, &Some(&stages), &STAGES.get(place));
}

/// Plays the call with a drain on an exchange under its only pass. A drain before the first datagram ends before it, because
/// no call is there that could continue. Returns the datagrams of the call that went out.
pub fn play_drained<R: Abort + Wait, G: Gate, J: LedgerSet>(
    rt: &R,
    alloc: Global,
    drain: Drain,
    exchange: &Exchange<G, J>,
    passes: &mut [Pass<J>],
) -> Vec<Kept> {
    let [pass] = passes else {
        panic!(rt; "one pass");
    };
    let mut desk = Desk::new(rt, exchange, pass);
    desk.challenge = Challenge::new(b"a").expect(rt, "a challenge");
    let mut kept = Vec::new(alloc);
    for place in 0..COUNT {
        if place == drain.place {
            drain.begin(&mut desk, 0);
        }
        if place == 0 {
            drain.set(&mut desk, false);
        }
        play_place(&mut desk, place, &mut kept);
    }
    drain.set(&mut desk, true);
    drain.end(&mut desk);
    kept
}

// Plays the call with a drain on an exchange of a plan.
fn played<R: Abort + Clock + Net + Sync + Threads + Wait>(
    rt: &R,
    alloc: Global,
    plan: &str,
    drain: Drain,
) -> Vec<Kept> {
    let mut kept = Vec::new(alloc);
    let sums = play_with(rt, alloc, plan, NoGate, Play::Drained(drain, &mut kept));
    holds(rt, "balanced accounts", sums.is_some());
    kept
}

// Asserts that the same datagrams went out.
fn compare(rt: &impl Abort, found: &Vec<Kept>, wanted: &Vec<Kept>) {
    same(rt, &found.len(), &wanted.len());
    for place in 0..wanted.len() {
        match (found.get(place), wanted.get(place)) {
            (Some(found), Some(wanted)) => {
                same(rt, &found.to, &wanted.to);
                same(rt, &found.out.octets(), &wanted.out.octets());
            }
            _ => panic!(rt; "a datagram"),
        }
    }
}

// Has drains of these peers begin before each datagram of the call. The call is the same as without a drain.
fn drained_at_each_stage<R: Abort + Clock + Net + Sync + Threads + Wait>(
    rt: &R,
    alloc: Global,
    plan: &str,
    peers: Drained,
) {
    let none = Drain {
        place: COUNT,
        peers: Drained::None,
    };
    let wanted = played(rt, alloc, plan, none);
    holds(rt, "datagrams went out", wanted.len() == 10);
    for place in 0..COUNT {
        let found = played(rt, alloc, plan, Drain { place, peers });
        compare(rt, &found, &wanted);
    }
}

#[test]
fn two_peers_drain(rt: HostRuntime) {
    let alloc = rt.alloc();
    drained_at_each_stage(&rt, alloc, SECRET_WEST, Drained::All);
    drained_at_each_stage(&rt, alloc, SECRET_WEST, Drained::Only(WEST_PLACE));
    drained_at_each_stage(&rt, alloc, SECRET_WEST, Drained::Only(EAST_PLACE));
}

#[test]
fn ten_peers_drain(rt: HostRuntime) {
    let alloc = rt.alloc();
    drained_at_each_stage(&rt, alloc, TEN_PEERS, Drained::All);
    drained_at_each_stage(&rt, alloc, TEN_PEERS, Drained::Only(9));
}
