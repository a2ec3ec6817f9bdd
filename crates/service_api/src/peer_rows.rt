//! The peers of an exchange as rows for clients.
ghost use Rattle.std.specs.Prelude.{◌<◌, OnOk, length};
ghost use Rattle.service_api.specs.Peers.{AddsPeer, AsksPeer, IsPeerRow, TellsPeer, TellsPeers};

use control_requests::{PeerRow, Rows};
use exchange_core::{Exchange, NoGate, Pass, PeerLosses, losses_of};
use peer_lock::{LedgerSet, Pokes};
use peer_plan::{Endpoint, PeerId, Plan};
use service_state::{AUTH_FAILURES, ServiceWatch, reach_of};
use std::alloc::{AllocError, Global};
use std::sync::Wait;

// Counts of a peer that are read under its lock.
#[derive(Clone, Copy)]
struct Counted {
    legs: u16,
    losses: PeerLosses,
    pokes: Pokes,
}

// Asks a peer for its counts.
fn count<J: LedgerSet, R: Wait>(
    rt: &R,
    exchange: &Exchange<NoGate, J>,
    pass: &mut Pass<J>,
    peer: PeerId,
) -> Counted
    requires { peer < length exchange.now.peers }
    ensures { AsksPeer peer result pass.old pass.new }
{
    Counted {
        legs: exchange.leg_count(rt, pass, peer),
        losses: losses_of(rt, exchange, pass, peer),
        pokes: exchange.pokes(rt, pass, peer),
    }
}

// Returns the number of the peer's calls that failed to authenticate, modulo 2^64.
fn unauthenticated(watch: &ServiceWatch, peer: PeerId) -> u64 {
    let mut count: u64 = 0;
    for failure in &AUTH_FAILURES {
        count = count.wrapping_add(watch.unauthenticated(peer, *failure));
    }
    count
}

// Returns the row of a peer, with its endpoint as text.
fn row_of<'a>(
    plan: &'a Plan,
    watch: &ServiceWatch,
    endpoint: &'a str,
    peer: PeerId,
    counted: Counted,
    now: u64,
) -> PeerRow<'a>
    requires { peer < length plan.now.peers }
    ensures { IsPeerRow plan.now peer counted result }
{
    let marks = watch.marks(peer);
    let unanswered_since = counted.pokes.unanswered_since(plan.rules(peer), now);
    let reach = reach_of(marks.heard, unanswered_since);
    PeerRow {
        name: plan.name(peer),
        endpoint,
        worker: plan.worker(peer).get(),
        legs: counted.legs,
        numbers: plan.range(peer).count,
        silent_ms: marks.heard.map(|heard| now.saturating_sub(heard)),
        received: marks.received,
        refused: marks.refused,
        sent: marks.sent,
        lost: marks.lost,
        outbox_lost: counted.losses.frames(),
        queue_dropped: counted.losses.queue,
        auth_failed: unauthenticated(watch, peer),
        reach: reach.name(),
        round_trip_ms: counted.pokes.round_trip,
        unreachable_ms: reach.unreachable_ms(now),
    }
}

// Adds the row of a peer with these counts behind the others.
fn push_row(
    alloc: Global,
    rows: &mut Rows,
    plan: &Plan,
    watch: &ServiceWatch,
    peer: PeerId,
    counted: Counted,
    now: u64,
) -> Result<(), AllocError>
    requires { peer < length plan.now.peers }
    ensures { OnOk result (AddsPeer plan.now peer counted rows.old rows.new) }
{
    let Endpoint { address, port } = plan.endpoint(peer);
    let [a, b, c, d] = address;
    let endpoint = format!(in alloc; "{a}.{b}.{c}.{d}:{port}")?;
    rows.push_peer(alloc, row_of(plan, watch, &endpoint, peer, counted, now))
}

// Asks a peer for its counts, and adds its row behind the others.
fn push_peer<J: LedgerSet, R: Wait>(
    rt: &R,
    alloc: Global,
    exchange: &Exchange<NoGate, J>,
    pass: &mut Pass<J>,
    watch: &ServiceWatch,
    rows: &mut Rows,
    peer: PeerId,
    now: u64,
) -> Result<(), AllocError>
    requires { peer < length exchange.now.peers }
    ensures { OnOk result (TellsPeer exchange.now peer pass.old pass.new rows.old rows.new) }
{
    let counted = count(rt, exchange, pass, peer);
    push_row(alloc, rows, exchange.plan(), watch, peer, counted, now)
}

/// Adds a row for each peer behind the others. Peers are asked one after another.
pub(crate) fn push_peers<J: LedgerSet, R: Wait>(
    rt: &R,
    alloc: Global,
    exchange: &Exchange<NoGate, J>,
    pass: &mut Pass<J>,
    watch: &ServiceWatch,
    rows: &mut Rows,
    now: u64,
) -> Result<(), AllocError>
    ensures { OnOk result (TellsPeers exchange.now (length exchange.now.peers) pass.old pass.new rows.old rows.new) }
{
    for place in 0..exchange.plan().peer_count() {
        let peer = PeerId::new(place);
        push_peer(rt, alloc, exchange, pass, watch, rows, peer, now)?;
    }
    Ok(())
}
