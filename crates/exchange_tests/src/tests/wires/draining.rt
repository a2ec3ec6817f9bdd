//! While a service drains, NEWs are turned away, and each is reported of the peer that sent it.
ghost use Rattle.std.specs.Prelude.{◌≡◌};
ghost use Rattle.udp_workers.specs.Served.{AreEndpoints, peers_of};

use crate::tests::desk::{EAST, WEST, WEST_PLACE};
use crate::tests::opened::{Play, play_with};
use crate::tests::same::{holds, same};
use crate::tests::wires::both_at_once::{AtOnce, Zero};
use crate::tests::wires::memory_wire::{MemoryWire, first_worker};
use call_auth::Challenge;
use exchange_core::{Event, Exchange, Gate, NoGate, Pass, Retired, ServiceStage, Watch};
use layer_tests::frames::WEST_NEW;
use layer_tests::plans::ONE_WORKER;
use peer_lock::LedgerSet;
use peer_plan::{Endpoint, PeerId, WorkerId};
use std::alloc::Global;
use std::process::Abort;
use std::sync::Wait;
use std::sync::atomic::{AtomicU64, Ordering};
use std::test::*;
use udp_workers::{Intake, RunContext, Unobserved, Worker};

// An endpoint of no peer.
const STRANGER: Endpoint = Endpoint {
    address: [127, 0, 0, 1],
    port: 5009,
};

/// The datagrams of the west, of the east and of strangers that a draining service didn't accept.
#[derive(Clone, Copy, Debug, Default, Drop, PartialEq, Eq)]
pub struct Unaccepted {
    west_turned_away: u64,
    west_refused: u64,
    east_turned_away: u64,
    east_refused: u64,
    strangers: u64,
}

// Counts the reports of a draining service.
#[derive(Drop)]
struct Draining {
    west_turned_away: AtomicU64,
    west_refused: AtomicU64,
    east_turned_away: AtomicU64,
    east_refused: AtomicU64,
    strangers: AtomicU64,
}

impl Draining {
    fn begin() -> Draining {
        Draining {
            west_turned_away: AtomicU64::new(0),
            west_refused: AtomicU64::new(0),
            east_turned_away: AtomicU64::new(0),
            east_refused: AtomicU64::new(0),
            strangers: AtomicU64::new(0),
        }
    }

    fn counts(&self) -> Unaccepted {
        Unaccepted {
            west_turned_away: self.west_turned_away.load(Ordering::SeqCst),
            west_refused: self.west_refused.load(Ordering::SeqCst),
            east_turned_away: self.east_turned_away.load(Ordering::SeqCst),
            east_refused: self.east_refused.load(Ordering::SeqCst),
            strangers: self.strangers.load(Ordering::SeqCst),
        }
    }

    // Returns the count of an event, or `None` if it isn't counted.
    fn count_of(&self, event: Event) -> Option<&AtomicU64> {
        match event {
            Event::TurnedAway { peer } if is_west(peer) => Some(&self.west_turned_away),
            Event::TurnedAway { .. } => Some(&self.east_turned_away),
            Event::Refused { peer, .. } if is_west(peer) => Some(&self.west_refused),
            Event::Refused { .. } => Some(&self.east_refused),
            Event::Stranger { .. } => Some(&self.strangers),
            _ => None,
        }
    }
}

fn is_west(peer: PeerId) -> bool {
    peer == PeerId::new(WEST_PLACE)
}

impl Watch for Draining {
    fn stage(&self) -> ServiceStage {
        ServiceStage::Draining
    }

    fn observe(&self, event: Event) {
        if let Some(count) = self.count_of(event) {
            count.fetch_add(1, Ordering::SeqCst);
        }
    }

    fn retire(&self, _worker: WorkerId, _leg: &Retired) {}

    fn no_thread(&self) {}

    fn wake(&self, _worker: WorkerId) {}
}

// Has a worker make a turn while the service drains.
fn take<G: Gate, J: LedgerSet, R: Abort + Wait>(
    rt: &R,
    exchange: &Exchange<G, J>,
    pass: &mut Pass<J>,
    worker: &mut Worker,
    wire: &mut MemoryWire,
    watch: &Draining,
)
    requires peers { worker.old.peers ≡ peers_of exchange.now worker.old.place }
    requires wire { AreEndpoints exchange.now worker.old.peers wire.old.peers.endpoints.items }
    ensures place { worker.new.place ≡ worker.old.place }
    ensures peers { worker.new.peers ≡ worker.old.peers }
    ensures wire { wire.new.peers.endpoints.items ≡ wire.old.peers.endpoints.items }
{
    let challenge = Challenge::new(b"0").expect(rt, "a challenge");
    let _report = worker.run_until(
        rt,
        wire,
        exchange,
        pass,
        watch,
        Intake::Whole,
        1,
        RunContext {
            moments: &mut AtOnce,
            challenges: &mut Zero(challenge),
            observer: &mut Unobserved,
        },
    );
}

/// Has the only worker of a plan make two turns while the service drains. The first takes a NEW of the west and two of the
/// east, the second a datagram of the east that is too short and a NEW of a stranger. Returns the reports' counts.
pub fn play_draining<G: Gate, J: LedgerSet, R: Abort + Wait>(
    rt: &R,
    alloc: Global,
    exchange: &Exchange<G, J>,
    passes: &mut [Pass<J>],
) -> Unaccepted {
    let (mut worker, mut wire) = first_worker(rt, alloc, exchange, 0);
    let pass = passes.first_mut().expect(rt, "a pass");
    let watch = Draining::begin();
    let _put = wire.put(WEST, WEST_NEW);
    wire.put_often(EAST, WEST_NEW.to_vec(alloc).expect(rt, "a frame"), 2);
    take(rt, exchange, pass, &mut worker, &mut wire, &watch);
    let _put = wire.put(EAST, b"ab");
    wire.put_often(STRANGER, WEST_NEW.to_vec(alloc).expect(rt, "a frame"), 1);
    take(rt, exchange, pass, &mut worker, &mut wire, &watch);
    watch.counts()
}

#[test]
fn turned_away_is_counted_for_its_peer(rt: HostRuntime) {
    let mut counts = Unaccepted::default();
    let played = Play::Draining(&mut counts);
    let sums = play_with(&rt, rt.alloc(), ONE_WORKER, NoGate, played);
    holds(&rt, "balances", sums.is_some());
    let wanted = Unaccepted {
        west_turned_away: 1,
        west_refused: 0,
        east_turned_away: 2,
        east_refused: 1,
        strangers: 1,
    };
    same(&rt, &counts, &wanted);
}
