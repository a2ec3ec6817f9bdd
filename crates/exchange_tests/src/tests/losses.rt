//! The losses of a full outbox in a report.
ghost use Rattle.std.specs.Prelude.{◌≡◌, ◌+◌, length};

use crate::tests::arrivals::{UP_WITH_VOICE, hear_all};
use crate::tests::desk::{Desk, EAST, WEST, WEST_PLACE};
use crate::tests::same::same;
use exchange_core::{Exchange, NoGate, Pass, PeerLosses, losses_of};
use layer_tests::frames::WEST_NEW;
use layer_tests::plans::NO_TRUNKS;
use media_ledger::Blank;
use peer_lock::{LedgerSet, Losses, Service};
use peer_plan::{PeerId, Plan};
use std::alloc::Global;
use std::marker::Brand;
use std::process::Abort;
use std::sync::Wait;
use std::sync::ledger::Ledger;
use std::test::*;

// Loses datagrams at a peer's outbox. A call is up, and its ACCEPT, its ANSWER and a voice frame wait for the west.
// Then 300 mini frames come for it, and its NEW ten times, which is answered each time. Nothing is sent.
fn losses_at_west<R: Abort + Wait, J: LedgerSet>(
    rt: &R,
    exchange: &Exchange<NoGate, J>,
    pass: &mut Pass<J>,
) -> PeerLosses {
    let mut desk = Desk::new(rt, exchange, pass);
    hear_all(&mut desk, &UP_WITH_VOICE);
    for _ in 0..300 {
        let _told = desk.datagram(EAST, b"\x00\x09\x00\x28\x55", 40);
    }
    for _ in 0..10 {
        let _told = desk.datagram(WEST, WEST_NEW, 40);
    }
    assert!(rt;
        WEST_PLACE < exchange.plan().peer_count(),
        "the peer in the west"
    );
    losses_of(rt, exchange, desk.pass, PeerId::new(WEST_PLACE))
}

// Loses datagrams in an exchange of a plan over two ledgers.
fn losses_over<R: Abort + Wait, O: Ledger + Send + Sync, T: Ledger + Send + Sync>(
    rt: &R,
    alloc: Global,
    plan: Plan,
    octets: Blank,
    steps: Blank,
) -> PeerLosses
    requires octets { (octets.name ≡ O.name) × (octets.parts ≡ O.parts) × (octets.parts ≡ length plan.peers + plan.passes) }
    requires steps { (steps.name ≡ T.name) × (steps.parts ≡ T.parts) × (steps.parts ≡ length plan.peers + plan.passes) }
{
    let opened = Exchange::<NoGate, Service<O, T>>::open(alloc, plan, NoGate, octets, steps);
    let (exchange, mut passes) = opened.ok().expect(rt, "an exchange");
    let pass = passes.first_mut().expect(rt, "a pass");
    losses_at_west(rt, &exchange, pass)
}

// An outbox has room for 256 datagrams.
#[test]
fn losses_are_told_by_kind(rt: HostRuntime) {
    let alloc = rt.alloc();
    let plan = Plan::read(alloc, NO_TRUNKS.as_bytes())
        .ok()
        .expect(&rt, "a plan");
    let parts = u64::from(plan.peer_count()) + u64::from(plan.passes());
    let (octets, steps) = (Blank::new(parts), Blank::new(parts));
    let losses = losses_over::<HostRuntime, Brand, Brand>(&rt, alloc, plan, octets, steps);
    let outbox = Losses {
        full: 10,
        mini: 3 + 300 - 256,
        trunk: 0,
    };
    same(&rt, &losses, &PeerLosses { outbox, queue: 0 });
}
