//! Two workers are inside the sections of two peers at once.
ghost use Rattle.std.specs.Prelude.{◌≡◌, ◌<◌, length};

use crate::tests::opened::{Play, play_with};
use crate::tests::same::{holds, same};
use crate::tests::two_peers::Progress;
use crate::tests::wires::memory_wire::{MemoryWire, wire_of};
use call_auth::Challenge;
use exchange_core::{Exchange, Gate, Pass};
use layer_tests::plans::TWO_WORKERS;
use peer_lock::LedgerSet;
use peer_plan::{Plan, WorkerId};
use std::alloc::Global;
use std::process::Abort;
use std::sync::Wait;
use std::sync::atomic::Ordering;
use std::test::*;
use std::thread::Threads;
use udp_workers::{Challenges, PlanBrand, Seat, TurnClock, Unobserved, Worker, run_all};

/// Moment 0.
#[derive(Drop)]
pub struct AtOnce;

impl TurnClock for AtOnce {
    fn now(&mut self) -> u64 {
        0
    }
}

/// The challenge `0`.
#[derive(Drop)]
pub struct Zero(pub Challenge);

impl Challenges for Zero {
    fn draw(&mut self) -> Challenge {
        self.0.copied()
    }
}

// A seat over a wire in memory.
type TestSeat<J, P> = Seat<MemoryWire, AtOnce, Zero, Unobserved, J, P>;

// Returns the seat of a worker of a plan, over a wire in memory.
fn seat_of<J: LedgerSet, P: PlanBrand>(
    rt: &impl Abort,
    alloc: Global,
    plan: &Plan,
    worker: WorkerId,
    pass: Pass<J>,
) -> TestSeat<J, P>
    requires plan { plan.now ≡ P.plan }
    requires worker { worker < length plan.now.workers }
{
    let worker = Worker::new(plan, worker);
    let wire = wire_of(rt, alloc, plan, &worker, 0);
    let challenge = Challenge::new(b"0").expect(rt, "a challenge");
    Seat::new(worker, wire, pass, AtOnce, Zero(challenge), Unobserved)
}

// Returns the seats of the workers of a plan, in its order, each with a separate pass.
fn seats_of<J: LedgerSet, P: PlanBrand>(
    rt: &impl Abort,
    alloc: Global,
    plan: &Plan,
    passes: &mut Vec<Pass<J>>,
) -> Vec<TestSeat<J, P>>
    requires { plan.now ≡ P.plan }
{
    let mut seats = Vec::new(alloc);
    for place in 0..plan.workers().len() {
        let pass = passes.pop().expect(rt, "a pass");
        let seat = seat_of(rt, alloc, plan, WorkerId::new(place as u16), pass);
        seats.push(seat).expect(rt, "room for a seat");
    }
    seats
}

// Returns the number of turns that the workers of these seats made. Their passes are returned.
fn turns_of<J: LedgerSet, P: PlanBrand>(
    rt: &impl Abort,
    seats: Vec<TestSeat<J, P>>,
    passes: &mut Vec<Pass<J>>,
) -> u64 {
    let mut turns: u64 = 0;
    for seat in seats {
        let place = seat.into_state();
        turns = turns.wrapping_add(place.worker.turns());
        passes.push(place.pass).expect(rt, "room for a pass");
    }
    turns
}

/// Makes one turn of each worker. Returns the number of workers that made theirs.
pub fn turn_on<
    G: Gate + Sync,
    J: LedgerSet,
    P: PlanBrand + Send + Sync,
    R: Abort + Threads + Wait + Sync,
>(rt: &R, alloc: Global, exchange: &Exchange<G, J>, passes: &mut Vec<Pass<J>>) -> u64
    requires { exchange.now ≡ P.plan }
{
    let mut seats = seats_of::<J, P>(rt, alloc, exchange.plan(), passes);
    if seats.len() > 8 || run_all(rt, exchange, &mut seats, 1).is_err() {
        panic!(rt; "a turn of each");
    }
    turns_of(rt, seats, passes)
}

#[test]
fn two_peers_at_once(rt: HostRuntime) {
    let entered = Progress::new();
    let gate = entered.gate(&rt, true);
    let mut turns = 0;
    let sums = play_with(
        &rt,
        rt.alloc(),
        TWO_WORKERS,
        gate,
        Play::OneTurn(&mut turns),
    );
    holds(&rt, "balances", sums.is_some());
    same(&rt, &turns, &2);
    holds(&rt, "in the west", entered.west.load(Ordering::SeqCst));
    holds(&rt, "in the east", entered.east.load(Ordering::SeqCst));
    holds(&rt, "met", !entered.in_vain.load(Ordering::SeqCst));
}
