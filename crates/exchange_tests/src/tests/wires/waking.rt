//! Media that one worker receives and another sends.
ghost use Rattle.std.specs.Prelude.{◌≡◌, ◌<◌, length};
ghost use Rattle.udp_workers.specs.Served.{AreEndpoints, peers_of};

use crate::tests::arrivals::{Arrival, UP_WITH_VOICE};
use crate::tests::desk::{EAST, WEST};
use crate::tests::opened::{Play, play_with};
use crate::tests::same::same;
use crate::tests::wires::both_at_once::{AtOnce, Zero};
use crate::tests::wires::memory_wire::{MemoryWire, wire_of};
use call_auth::Challenge;
use exchange_core::{Exchange, Gate, NoGate, Pass, Retired};
use layer_tests::plans::TWO_WORKERS;
use peer_lock::LedgerSet;
use peer_plan::{Plan, WorkerId};
use std::alloc::Global;
use std::process::Abort;
use std::sync::Wait;
use std::sync::atomic::{AtomicU64, Ordering};
use std::test::*;
use udp_workers::{Event, Intake, RunContext, ServiceStage, Unobserved, Watch, Worker};

// A mini frame of voice from the east.
const MINI_FRAME: Arrival = (20, EAST, b"\x00\x09\x00\x14\xaa\xbb\xcc");

// How often each of two workers was woken.
#[derive(Drop)]
struct Wakes {
    first: AtomicU64,
    second: AtomicU64,
}

impl Wakes {
    fn none() -> Wakes {
        Wakes {
            first: AtomicU64::new(0),
            second: AtomicU64::new(0),
        }
    }

    fn counts(&self) -> (u64, u64) {
        (
            self.first.load(Ordering::SeqCst),
            self.second.load(Ordering::SeqCst),
        )
    }
}

impl Watch for Wakes {
    fn stage(&self) -> ServiceStage {
        ServiceStage::Serving
    }

    fn observe(&self, _event: Event) {}

    fn retire(&self, _worker: WorkerId, _leg: &Retired) {}

    fn no_thread(&self) {}

    fn wake(&self, worker: WorkerId) {
        let count = if worker == WorkerId::new(0) {
            &self.first
        } else {
            &self.second
        };
        count.fetch_add(1, Ordering::SeqCst);
    }
}

// A worker with what its turns need.
#[derive(Drop)]
struct Side<J: LedgerSet> {
    worker: Worker,
    wire: MemoryWire,
    pass: Pass<J>,
}

// Returns a worker of a plan.
fn side_of<J: LedgerSet>(
    rt: &impl Abort,
    alloc: Global,
    plan: &Plan,
    worker: WorkerId,
    pass: Pass<J>,
) -> Side<J>
    requires { worker < length plan.now.workers }
    ensures peers { result.worker.peers ≡ peers_of plan.now result.worker.place }
    ensures wire { AreEndpoints plan.now result.worker.peers result.wire.peers.endpoints.items }
{
    let worker = Worker::new(plan, worker);
    let wire = wire_of(rt, alloc, plan, &worker, 0);
    Side { worker, wire, pass }
}

// A datagram comes to a worker.
fn take<G: Gate, J: LedgerSet, R: Abort + Wait>(
    rt: &R,
    exchange: &Exchange<G, J>,
    side: &mut Side<J>,
    watch: &Wakes,
    arrival: &Arrival,
)
    requires peers { side.old.worker.peers ≡ peers_of exchange.now side.old.worker.place }
    requires wire { AreEndpoints exchange.now side.old.worker.peers side.old.wire.peers.endpoints.items }
    ensures peers { side.new.worker.peers ≡ peers_of exchange.now side.new.worker.place }
    ensures wire { AreEndpoints exchange.now side.new.worker.peers side.new.wire.peers.endpoints.items }
{
    let (_, from, octets) = *arrival;
    let _put = side.wire.put(from, octets);
    let challenge = Challenge::new(b"0").expect(rt, "a challenge");
    let _report = side.worker.run_until(
        rt,
        &mut side.wire,
        exchange,
        &mut side.pass,
        watch,
        Intake::Bounded,
        1,
        RunContext {
            moments: &mut AtOnce,
            challenges: &mut Zero(challenge),
            observer: &mut Unobserved,
        },
    );
}

// Plays until the call is up, and voice was sent to the west in a full frame.
fn bring_up<G: Gate, J: LedgerSet, R: Abort + Wait>(
    rt: &R,
    exchange: &Exchange<G, J>,
    west: &mut Side<J>,
    east: &mut Side<J>,
)
    requires west { west.old.worker.peers ≡ peers_of exchange.now west.old.worker.place }
    requires west_wire { AreEndpoints exchange.now west.old.worker.peers west.old.wire.peers.endpoints.items }
    requires east { east.old.worker.peers ≡ peers_of exchange.now east.old.worker.place }
    requires east_wire { AreEndpoints exchange.now east.old.worker.peers east.old.wire.peers.endpoints.items }
    ensures east { east.new.worker.peers ≡ peers_of exchange.now east.new.worker.place }
    ensures east_wire { AreEndpoints exchange.now east.new.worker.peers east.new.wire.peers.endpoints.items }
{
    let watch = Wakes::none();
    for arrival in &UP_WITH_VOICE {
        if arrival.1 == WEST {
            take(rt, exchange, west, &watch, arrival);
        } else {
            take(rt, exchange, east, &watch, arrival);
        }
    }
}

/// Has the second worker take five mini frames for a peer of the first in one turn. Returns how often each was woken, the
/// first worker's count first.
pub fn play_waking<G: Gate, J: LedgerSet, R: Abort + Wait>(
    rt: &R,
    alloc: Global,
    exchange: &Exchange<G, J>,
    passes: &mut Vec<Pass<J>>,
) -> (u64, u64) {
    let plan = exchange.plan();
    if plan.workers().len() != 2 {
        panic!(rt; "two workers");
    }
    let mut west = side_of(
        rt,
        alloc,
        plan,
        WorkerId::new(0),
        passes.pop().expect(rt, "a pass"),
    );
    let mut east = side_of(
        rt,
        alloc,
        plan,
        WorkerId::new(1),
        passes.pop().expect(rt, "a pass"),
    );
    bring_up(rt, exchange, &mut west, &mut east);
    let watch = Wakes::none();
    let frame = MINI_FRAME.2.to_vec(alloc).expect(rt, "a frame");
    east.wire.put_often(EAST, frame, 4);
    take(rt, exchange, &mut east, &watch, &MINI_FRAME);
    passes.push(west.pass).expect(rt, "room for a pass");
    passes.push(east.pass).expect(rt, "room for a pass");
    watch.counts()
}

#[test]
fn other_worker_is_woken_once_a_turn(rt: HostRuntime) {
    let mut woken = (0, 0);
    let sums = play_with(
        &rt,
        rt.alloc(),
        TWO_WORKERS,
        NoGate,
        Play::Waking(&mut woken),
    );
    same(&rt, &sums.expect(&rt, "an exchange").dropped, &0);
    same(&rt, &woken, &(1, 0));
}
