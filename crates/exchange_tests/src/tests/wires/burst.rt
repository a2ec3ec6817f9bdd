//! A burst of trunk frames, as a peer with many calls sends them.
ghost use Rattle.std.specs.Prelude.{◌≡◌};
ghost use Rattle.udp_workers.specs.Served.{AreEndpoints, peers_of};

use crate::tests::arrivals::UP_WITH_VOICE;
use crate::tests::desk::EAST;
use crate::tests::opened::{Play, play_with};
use crate::tests::same::same;
use crate::tests::wires::both_at_once::{AtOnce, Zero};
use crate::tests::wires::memory_wire::{MemoryWire, first_worker};
use call_auth::Challenge;
use exchange_core::{Exchange, Gate, NoGate, Pass};
use layer_tests::plans::{NO_TRUNKS, SILENT_THIRD};
use peer_lock::{LedgerSet, Losses};
use peer_plan::PeerId;
use std::alloc::{AllocError, Global};
use std::process::Abort;
use std::sync::Wait;
use std::test::*;
use udp_workers::{Intake, RunContext, Unobserved, Unwatched, Worker};

// The number of trunk frames that come at once.
const FRAMES: u64 = 64;

/// The number of turns in which a worker handles a burst: those of `run`, or those of a service, which are bounded.
#[derive(Clone, Copy)]
pub enum Burst {
    Run(u32),
    Bounded(u64),
}

/// The result of a burst at a worker.
#[derive(Clone, Copy, Debug, Default, PartialEq, Eq)]
pub struct Taken {
    /// The number of received datagrams.
    pub received: u64,
    /// The number of steps of peers.
    pub steps: u64,
    /// The losses of the west's outbox.
    pub lost: Losses,
}

// Returns a trunk frame from the east: eight entries of its call, each of 160 octets.
fn trunk_frame(alloc: Global) -> Result<Vec<u8>, AllocError> {
    let mut octets = b"\x00\x00\x01\x00\x00\x00\x00\x28".to_vec(alloc)?;
    for _ in 0..8 {
        octets.extend_from_slice(b"\x00\x09\x00\xa0")?;
        octets.extend_from_slice(&[0x55; 160])?;
    }
    Ok(octets)
}

// Plays until the call is up, and voice was sent to the west in a full frame.
fn play_up<G: Gate, J: LedgerSet, R: Wait>(
    rt: &R,
    exchange: &Exchange<G, J>,
    pass: &mut Pass<J>,
    worker: &mut Worker,
    wire: &mut MemoryWire,
    challenge: &Challenge,
)
    requires peers { worker.old.peers ≡ peers_of exchange.now worker.old.place }
    requires wire { AreEndpoints exchange.now worker.old.peers wire.old.peers.endpoints.items }
    ensures place { worker.new.place ≡ worker.old.place }
    ensures peers { worker.new.peers ≡ worker.old.peers }
    ensures wire { wire.new.peers.endpoints.items ≡ wire.old.peers.endpoints.items }
{
    for arrival in &UP_WITH_VOICE {
        let (at, from, octets) = *arrival;
        let _put = wire.put(from, octets);
        let _report = worker.turn(rt, wire, exchange, pass, at, challenge);
    }
}

/// Gives the only worker of a plan 64 trunk frames at once, while a call is up.
pub fn play_burst<G: Gate, J: LedgerSet, R: Abort + Wait>(
    rt: &R,
    alloc: Global,
    burst: Burst,
    exchange: &Exchange<G, J>,
    passes: &mut [Pass<J>],
) -> Taken {
    let pass = passes.first_mut().expect(rt, "a pass");
    let challenge = Challenge::new(b"0").expect(rt, "a challenge");
    let _peers = exchange.plan().peer_count();
    let (mut worker, mut wire) = first_worker(rt, alloc, exchange, 0);
    play_up(rt, exchange, pass, &mut worker, &mut wire, &challenge);
    wire.put_often(EAST, trunk_frame(alloc).expect(rt, "a frame"), FRAMES);
    let mut zero = Zero(challenge);
    let first = pass.steps();
    let report = match burst {
        Burst::Run(turns) => worker.run(
            rt,
            &mut wire,
            exchange,
            pass,
            turns,
            &mut AtOnce,
            &mut zero,
        ),
        Burst::Bounded(turns) => worker.run_until(
            rt,
            &mut wire,
            exchange,
            pass,
            &Unwatched,
            Intake::Bounded,
            turns,
            RunContext {
                moments: &mut AtOnce,
                challenges: &mut zero,
                observer: &mut Unobserved,
            },
        ),
    };
    Taken {
        received: report.received,
        steps: pass.steps().wrapping_sub(first),
        lost: exchange.lost(rt, pass, PeerId::new(0)),
    }
}

// The kind of turns; the number of received datagrams and of steps; and the octets of media that are packed and dropped.
// All turns have one moment.
static ROWS: [(Burst, u64, u64, u64, u64); 6] = [
    // Twelve frames of 1,280 octets of media fit 16,384. Each is a step at the east and eight at the west, and then all three
    // peers
    // are ticked.
    (Burst::Bounded(1), 12, 12 * 9 + 3, 12 * 1280, 0),
    // The silent peer isn't ticked again, the others are.
    (Burst::Bounded(5), 60, 60 * 9 + 3 + 4 * 2, 60 * 1280, 0),
    (Burst::Bounded(6), 64, 64 * 9 + 3 + 5 * 2, 64 * 1280, 0),
    // Without datagrams, no peer is.
    (Burst::Bounded(9), 64, 64 * 9 + 3 + 5 * 2, 64 * 1280, 0),
    // A trunk queue takes 102 entries of 160 octets.
    (
        Burst::Run(1),
        64,
        64 * 9 + 3,
        102 * 160,
        64 * 1280 - 102 * 160,
    ),
    // Turns of `run` tick each peer.
    (
        Burst::Run(3),
        64,
        64 * 9 + 3 * 3,
        102 * 160,
        64 * 1280 - 102 * 160,
    ),
];

#[test]
fn bounded_turns_lose_nothing(rt: HostRuntime) {
    for row in &ROWS {
        let (burst, received, steps, packed, dropped) = *row;
        let lost = Losses::default();
        let mut taken = Taken::default();
        let played = Play::Burst(burst, &mut taken);
        let sums = play_with(&rt, rt.alloc(), SILENT_THIRD, NoGate, played);
        let sums = sums.expect(&rt, "an exchange");
        let expected = Taken {
            received,
            steps,
            lost,
        };
        same(&rt, &taken, &expected);
        // An octet of voice went before.
        same(&rt, &(sums.packed, sums.dropped), &(packed + 1, dropped));
    }
}

// The kind of turns, and the number of the burst's 512 mini frames to the west that are lost.
static MINI_ROWS: [(Burst, u64); 2] = [(Burst::Run(1), 512 - 256), (Burst::Bounded(6), 0)];

#[test]
fn a_full_outbox_counts_what_it_loses(rt: HostRuntime) {
    for row in &MINI_ROWS {
        let (burst, mini) = *row;
        let mut taken = Taken::default();
        let played = Play::Burst(burst, &mut taken);
        let sums = play_with(&rt, rt.alloc(), NO_TRUNKS, NoGate, played);
        let sums = sums.expect(&rt, "an exchange");
        let lost = Losses {
            full: 0,
            mini,
            trunk: 0,
        };
        same(&rt, &(taken.received, taken.lost), &(64, lost));
        // Packed media stays packed. An octet of voice was sent before.
        same(&rt, &(sums.packed, sums.dropped), &(64 * 1280 + 1, 0));
    }
}
