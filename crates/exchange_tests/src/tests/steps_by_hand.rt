//! An exchange next to a driver without locks that makes the steps which `call_control::Work` names.
ghost use Rattle.std.specs.Prelude.{◌≡◌, ◌+◌, ◌^◌, length};

mod compared;
mod drained_steps;
mod lines;
mod made;
mod peer_steps;
mod plain;

use crate::tests::desk::{Desk, EAST_PLACE, WEST_PLACE};
use crate::tests::same::holds;
use crate::tests::steps_by_hand::compared::{compare_ends, play_lines};
use crate::tests::steps_by_hand::drained_steps::play_drained;
use crate::tests::steps_by_hand::lines::COUNT;
use crate::tests::steps_by_hand::plain::{Peers, Plain};
use call_auth::Challenge;
use call_book::{CallBook, PeerId};
use exchange_core::{Exchange, NoGate};
use layer_tests::plans::ONE_WORKER;
use media_ledger::{Blank, Share, supply};
use peer_lock::{LedgerSet, Pass, PeerState, Service};
use peer_plan::Plan;
use std::alloc::Global;
use std::marker::Brand;
use std::process::Abort;
use std::sync::Wait;
use std::sync::ledger::Ledger;
use std::test::*;

// The credit with which each peer of an exchange begins.
const CREDIT: u64 = 1 << 48;

// Divides a supply into the shares of the peer in the west, the peer in the east and the pass.
fn shares_of<L: Ledger>(
    rt: &impl Abort,
    alloc: Global,
    blank: Blank,
) -> (Share<L>, Share<L>, Share<L>)
    requires { (blank.name ≡ L.name) × (blank.parts ≡ L.parts) × (blank.parts ≡ 3) }
    ensures { (result.0 ≡ 2 ^ 48) × (result.1 ≡ 2 ^ 48) }
{
    let supplied = supply::<L>(alloc, blank, &[CREDIT, CREDIT, 0]);
    let (_, mut shares) = supplied.ok().expect(rt, "a supply");
    let pass = shares.pop().expect(rt, "three shares");
    let east = shares.pop().expect(rt, "three shares");
    let west = shares.pop().expect(rt, "three shares");
    (west, east, pass)
}

// Builds a peer of the plan. It has four numbers.
fn state_of<J: LedgerSet>(
    rt: &impl Abort,
    alloc: Global,
    plan: &Plan,
    peer: u16,
    octets: Share<J::Octets>,
    steps: Share<J::Steps>,
) -> PeerState<J>
    requires octets { octets ≡ J.first_octets }
    requires steps { steps ≡ J.first_steps }
{
    assert!(rt; peer < 2 && peer < plan.peer_count(), "a peer of the plan");
    let first = 4 * peer + 1;
    let state = PeerState::new(
        alloc,
        peer,
        plan.rules(PeerId::new(peer)),
        first,
        4,
        octets,
        steps,
    );
    state.ok().expect(rt, "a peer")
}

// Builds the peers and the book of a plan, and an empty pass.
fn plain_of<'p, O: Ledger + Send + Sync, T: Ledger + Send + Sync>(
    rt: &impl Abort,
    alloc: Global,
    plan: &'p Plan,
    octets: Blank,
    steps: Blank,
) -> Plain<'p, Service<O, T>>
    requires octets { (octets.name ≡ O.name) × (octets.parts ≡ O.parts) × (octets.parts ≡ 3) }
    requires steps { (steps.name ≡ T.name) × (steps.parts ≡ T.parts) × (steps.parts ≡ 3) }
{
    let (west_octets, east_octets, no_octets) = shares_of::<O>(rt, alloc, octets);
    let (west_steps, east_steps, no_steps) = shares_of::<T>(rt, alloc, steps);
    let west = state_of::<Service<O, T>>(rt, alloc, plan, WEST_PLACE, west_octets, west_steps);
    let east = state_of::<Service<O, T>>(rt, alloc, plan, EAST_PLACE, east_octets, east_steps);
    Plain {
        alloc,
        plan,
        challenge: Challenge::new(b"0").expect(rt, "a challenge"),
        peers: Peers { west, east },
        book: CallBook::new(alloc, &[4, 4], 0).ok().expect(rt, "a book"),
        pass: Pass::new(no_octets, no_steps),
        lease: None,
        leaving: None,
        drains_before: None,
    }
}

// The blanks of the octets' ledger and the steps' ledger.
#[derive(Drop)]
struct Blanks {
    octets: Blank,
    steps: Blank,
}

// Has an exchange of the plan and the driver play the lines from this one on, and compares them at the end.
// Returns how many datagrams went out.
fn played<
    R: Abort + Wait,
    O: Ledger + Send + Sync,
    T: Ledger + Send + Sync,
    P: Ledger + Send + Sync,
    Q: Ledger + Send + Sync,
>(
    rt: &R,
    alloc: Global,
    plan: Plan,
    copy: &Plan,
    start: usize,
    locked: Blanks,
    plain: Blanks,
) -> usize
    requires octets { (locked.octets.name ≡ O.name) × (locked.octets.parts ≡ O.parts) ×
        (locked.octets.parts ≡ length plan.peers + plan.passes) }
    requires steps { (locked.steps.name ≡ T.name) × (locked.steps.parts ≡ T.parts) ×
        (locked.steps.parts ≡ length plan.peers + plan.passes) }
    requires plain_octets { (plain.octets.name ≡ P.name) × (plain.octets.parts ≡ P.parts) × (plain.octets.parts ≡ 3) }
    requires plain_steps { (plain.steps.name ≡ Q.name) × (plain.steps.parts ≡ Q.parts) × (plain.steps.parts ≡ 3) }
{
    let opened = Exchange::<NoGate, Service<O, T>>::open(
        alloc,
        plan,
        NoGate,
        locked.octets,
        locked.steps,
    );
    let (exchange, mut passes) = opened.ok().expect(rt, "an exchange");
    let mut beside = plain_of::<P, Q>(rt, alloc, copy, plain.octets, plain.steps);
    let [pass] = &mut *passes else {
        panic!(rt; "one pass");
    };
    let sent = play_lines(&mut Desk::new(rt, &exchange, pass), &mut beside, start);
    compare_ends(rt, exchange, passes, beside);
    sent
}

// Reads a plan of two peers with four numbers each, and one pass.
fn plan_of(rt: &impl Abort, alloc: Global) -> Plan {
    Plan::read(alloc, ONE_WORKER.as_bytes())
        .ok()
        .expect(rt, "a plan")
}

// Plays the lines from this one on. Returns how many datagrams went out.
fn played_from<R: Abort + Wait>(rt: &R, alloc: Global, start: usize) -> usize {
    let (plan, copy) = (plan_of(rt, alloc), plan_of(rt, alloc));
    let parts = u64::from(plan.peer_count()) + u64::from(plan.passes());
    let locked = Blanks {
        octets: Blank::new(parts),
        steps: Blank::new(parts),
    };
    let plain = Blanks {
        octets: Blank::new(3),
        steps: Blank::new(3),
    };
    played::<R, Brand, Brand, Brand, Brand>(rt, alloc, plan, &copy, start, locked, plain)
}

#[test]
fn lines_in_each_rotation(rt: HostRuntime) {
    for start in 0..COUNT {
        let sent = played_from(&rt, rt.alloc(), start);
        holds(&rt, "datagrams went out", sent > 10);
    }
}

// Has two drivers of the plan play the lines up to this one, and the second drain from before this step of it on. Returns how
// many steps the line has.
fn beside_drained<
    R: Abort,
    O: Ledger + Send + Sync,
    T: Ledger + Send + Sync,
    P: Ledger + Send + Sync,
    Q: Ledger + Send + Sync,
>(rt: &R, alloc: Global, plan: &Plan, line: usize, step: u64, calm: Blanks, drained: Blanks) -> u64
    requires octets { (calm.octets.name ≡ O.name) × (calm.octets.parts ≡ O.parts) × (calm.octets.parts ≡ 3) }
    requires steps { (calm.steps.name ≡ T.name) × (calm.steps.parts ≡ T.parts) × (calm.steps.parts ≡ 3) }
    requires drained_octets { (drained.octets.name ≡ P.name) × (drained.octets.parts ≡ P.parts) × (drained.octets.parts ≡ 3) }
    requires drained_steps { (drained.steps.name ≡ Q.name) × (drained.steps.parts ≡ Q.parts) × (drained.steps.parts ≡ 3) }
{
    let mut one = plain_of::<O, T>(rt, alloc, plan, calm.octets, calm.steps);
    let mut other = plain_of::<P, Q>(rt, alloc, plan, drained.octets, drained.steps);
    play_drained(rt, &mut one, &mut other, line, step)
}

// As `beside_drained`, over ledgers of its own.
fn drained_at(rt: &impl Abort, alloc: Global, plan: &Plan, line: usize, step: u64) -> u64 {
    let calm = Blanks {
        octets: Blank::new(3),
        steps: Blank::new(3),
    };
    let other = Blanks {
        octets: Blank::new(3),
        steps: Blank::new(3),
    };
    beside_drained::<_, Brand, Brand, Brand, Brand>(rt, alloc, plan, line, step, calm, other)
}

// A drain that begins before any step of any line.
#[test]
fn drains_before_each_step(rt: HostRuntime) {
    let plan = plan_of(&rt, rt.alloc());
    let mut places = 0u64;
    for line in 0..COUNT {
        for step in 0..100 {
            if drained_at(&rt, rt.alloc(), &plan, line, step) <= step {
                break;
            }
            places = places.saturating_add(1);
        }
    }
    holds(&rt, "steps", places > 50);
}
