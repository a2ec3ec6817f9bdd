//! A whole call over a wire in memory, one datagram a turn.
ghost use Rattle.std.specs.Prelude.{◌≡◌};
ghost use Rattle.udp_workers.specs.Served.{AreEndpoints, peers_of};

use crate::tests::arrivals::{TO_EAST, TO_WEST, WHOLE_CALL};
use crate::tests::desk::{EAST, WEST};
use crate::tests::opened::{Play, play_with};
use crate::tests::same::{holds, same};
use crate::tests::wires::memory_wire::{MemoryWire, first_worker};
use call_auth::Challenge;
use exchange_core::{Exchange, Gate, NoGate, Pass};
use layer_tests::plans::ONE_WORKER;
use peer_lock::LedgerSet;
use std::alloc::Global;
use std::net::Net;
use std::process::Abort;
use std::sync::Wait;
use std::test::*;
use std::thread::Threads;
use std::time::Clock;
use udp_wires::Wire;
use udp_workers::{TurnReport, Worker};

/// The result of a call over a wire in memory.
#[derive(Clone, Copy)]
pub struct Played {
    /// The sum of the reports.
    pub report: TurnReport,
    /// Whether the peers were sent the datagrams of the whole call.
    pub is_whole: bool,
    /// The number of datagrams that the wire was given for the peer in the west, and for the one in the east.
    pub to_west: u64,
    pub to_east: u64,
    /// Whether `failures()` rose by the faults of each report, and `given()` by its sent and lost datagrams.
    pub counted: bool,
}

// Returns the sum of both reports.
fn sum_of(one: TurnReport, other: TurnReport) -> TurnReport {
    TurnReport {
        received: one.received.wrapping_add(other.received),
        refused: one.refused.wrapping_add(other.refused),
        sent: one.sent.wrapping_add(other.sent),
        lost: one.lost.wrapping_add(other.lost),
        faults: one.faults.wrapping_add(other.faults),
        retired: one.retired.wrapping_add(other.retired),
    }
}

// Makes one turn for each arrival, at its moment.
fn play_arrivals<G: Gate, J: LedgerSet, R: Wait>(
    rt: &R,
    exchange: &Exchange<G, J>,
    pass: &mut Pass<J>,
    worker: &mut Worker,
    wire: &mut MemoryWire,
    challenge: &Challenge,
) -> (TurnReport, bool)
    requires peers { worker.old.peers ≡ peers_of exchange.now worker.old.place }
    requires wire { AreEndpoints exchange.now worker.old.peers wire.old.peers.endpoints.items }
{
    let mut sum = TurnReport::default();
    let mut counted = true;
    for arrival in &WHOLE_CALL {
        let (at, from, octets) = *arrival;
        // A datagram that wasn't received because of a fault stays, and this one is lost before the wire.
        let _put = wire.put(from, octets);
        let given = wire.given();
        let failures = wire.failures();
        let report = worker.turn(rt, wire, exchange, pass, at, challenge);
        if wire.failures() != failures.wrapping_add(report.faults) {
            counted = false;
        }
        if wire.given() != given.wrapping_add(report.sent).wrapping_add(report.lost) {
            counted = false;
        }
        sum = sum_of(sum, report);
    }
    (sum, counted)
}

/// Plays the call over a wire in memory that fails at its call of this place, with the exchange's first pass; at 0 never.
pub fn play_call<G: Gate, J: LedgerSet, R: Abort + Wait>(
    rt: &R,
    alloc: Global,
    fails_at: u64,
    exchange: &Exchange<G, J>,
    passes: &mut [Pass<J>],
) -> Played {
    let pass = passes.first_mut().expect(rt, "a pass");
    let challenge = Challenge::new(b"0").expect(rt, "a challenge");
    let (mut worker, mut wire) = first_worker(rt, alloc, exchange, fails_at);
    let (report, counted) = play_arrivals(rt, exchange, pass, &mut worker, &mut wire, &challenge);
    Played {
        report,
        is_whole: wire.has_sent(WEST, &TO_WEST) && wire.has_sent(EAST, &TO_EAST),
        to_west: wire.given_to(WEST),
        to_east: wire.given_to(EAST),
        counted,
    }
}

/// Plays the call over a wire in memory that fails at its call of this place; at 0 never. The accounts balance.
pub fn play_over<R: Abort + Clock + Net + Sync + Threads + Wait>(
    rt: &R,
    alloc: Global,
    fails_at: u64,
) -> Played {
    let mut call = None;
    let played = Play::WholeCall(fails_at, &mut call);
    let sums = play_with(rt, alloc, ONE_WORKER, NoGate, played);
    holds(rt, "balances", sums.is_some());
    call.expect(rt, "a call")
}

#[test]
fn whole_call_over_a_wire(rt: HostRuntime) {
    let played = play_over(&rt, rt.alloc(), 0);
    let expected = TurnReport {
        received: 7,
        refused: 0,
        sent: 7,
        lost: 0,
        faults: 0,
        retired: 2,
    };
    same(&rt, &played.report, &expected);
    same(&rt, &(played.to_west, played.to_east), &(3, 4));
    holds(&rt, "counted, and whole", played.counted && played.is_whole);
}
