//! The calls that an observer gets in a turn.

use crate::tests::arrivals::WHOLE_CALL;
use crate::tests::desk::{EAST, EAST_PLACE, WEST, WEST_PLACE};
use crate::tests::opened::{Play, play_with};
use crate::tests::same::{holds, same};
use crate::tests::wires::both_at_once::Zero;
use crate::tests::wires::memory_wire::first_worker;
use call_auth::Challenge;
use exchange_core::{Event, Exchange, Gate, NoGate, Pass};
use layer_tests::plans::ONE_WORKER;
use peer_lock::LedgerSet;
use peer_plan::{Endpoint, PeerId};
use std::alloc::Global;
use std::process::Abort;
use std::sync::Wait;
use std::test::*;
use udp_workers::{Intake, RunContext, TurnClock, TurnObserver, Unwatched};

// The moment of the turn.
const MOMENT: u64 = 10;

// The moment of the turn, again and again.
#[derive(Drop)]
struct OneMoment;

impl TurnClock for OneMoment {
    fn now(&mut self) -> u64 {
        MOMENT
    }
}

// A call of an observer.
#[derive(Clone, Copy, Debug, PartialEq, Eq)]
enum Call<'c> {
    TurnBegins(u64, &'c [u8]),
    Datagram(Option<PeerId>, Endpoint, &'c [u8]),
    TicksBegin,
    Event(Event),
    TurnEnds,
}

/// The calls that an observer got.
#[derive(Clone, Copy, Debug, Default, Drop, PartialEq, Eq)]
pub struct Calls {
    /// The number of all calls.
    all: usize,
    /// The number of calls that were the expected ones of their places.
    expected: usize,
}

// Returns the expected call of a place, from 0 on: of a turn that takes the west's ACK and the east's ACCEPT, and sends the ACK
// of the ACCEPT to the east.
fn expected(place: usize) -> Option<Call<'static>> {
    let (west, east) = (PeerId::new(WEST_PLACE), PeerId::new(EAST_PLACE));
    let (ack, accept) = (WHOLE_CALL[1].2, WHOLE_CALL[2].2);
    match place {
        0 => Some(Call::TurnBegins(MOMENT, b"0")),
        1 => Some(Call::Datagram(Some(west), WEST, ack)),
        2 => Some(Call::Event(Event::Received {
            peer: west,
            now: MOMENT,
            is_alive: true,
        })),
        3 => Some(Call::Datagram(Some(east), EAST, accept)),
        4 => Some(Call::Event(Event::Received {
            peer: east,
            now: MOMENT,
            is_alive: true,
        })),
        5 => Some(Call::TicksBegin),
        6 => Some(Call::Event(Event::Sent { peer: east })),
        7 => Some(Call::TurnEnds),
        _ => None,
    }
}

impl Calls {
    // Compares the next call with the expected one.
    fn see(&mut self, call: &Call<'_>) {
        if let Some(expected) = expected(self.all) {
            if *call == expected {
                self.expected = self.expected.saturating_add(1);
            }
        }
        self.all = self.all.saturating_add(1);
    }
}

impl TurnObserver for Calls {
    fn turn_begins(&mut self, now: u64, challenge: &Challenge) {
        self.see(&Call::TurnBegins(now, challenge.as_slice()));
    }

    fn datagram(&mut self, peer: Option<PeerId>, from: Endpoint, octets: &[u8]) {
        self.see(&Call::Datagram(peer, from, octets));
    }

    fn ticks_begin(&mut self) {
        self.see(&Call::TicksBegin);
    }

    fn event(&mut self, event: Event) {
        self.see(&Call::Event(event));
    }

    fn turn_ends(&mut self) {
        self.see(&Call::TurnEnds);
    }
}

/// Has the only worker of a plan make a turn that takes two datagrams, after a turn that nobody observes. Returns the calls of
/// the second turn's observer.
pub fn play_observed<G: Gate, J: LedgerSet, R: Abort + Wait>(
    rt: &R,
    alloc: Global,
    exchange: &Exchange<G, J>,
    passes: &mut [Pass<J>],
) -> Calls {
    let (mut worker, mut wire) = first_worker(rt, alloc, exchange, 0);
    let pass = passes.first_mut().expect(rt, "a pass");
    let challenge = Challenge::new(b"0").expect(rt, "a challenge");
    let _put = wire.put(WEST, WHOLE_CALL[0].2);
    let _report = worker.turn(rt, &mut wire, exchange, pass, 0, &challenge);
    let _put = wire.put(WEST, WHOLE_CALL[1].2);
    let accept = WHOLE_CALL[2].2.to_vec(alloc).expect(rt, "a frame");
    wire.put_often(EAST, accept, 1);
    let mut calls = Calls::default();
    let context = RunContext {
        moments: &mut OneMoment,
        challenges: &mut Zero(challenge),
        observer: &mut calls,
    };
    let _report = worker.run_until(
        rt,
        &mut wire,
        exchange,
        pass,
        &Unwatched,
        Intake::Whole,
        1,
        context,
    );
    calls
}

#[test]
fn observer_sees_a_turn(rt: HostRuntime) {
    let mut calls = Calls::default();
    let played = Play::Observed(&mut calls);
    let sums = play_with(&rt, rt.alloc(), ONE_WORKER, NoGate, played);
    holds(&rt, "balances", sums.is_some());
    same(&rt, &(calls.all, calls.expected), &(8, 8));
}
