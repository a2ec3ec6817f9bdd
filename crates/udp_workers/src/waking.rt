//! The steps of a turn at the peers of other workers.
ghost use Rattle.std.specs.Prelude.{◌≡◌};

use crate::turning::Turn;
use call_book::PeerId;
use exchange_core::{Gate, Pass, Watch};
use peer_lock::LedgerSet;
use peer_plan::WorkerId;
use std::sync::Wait;

// The greatest number of workers of a plan.
const WORKERS: usize = 8;

// Asks the watch to wake a worker, unless it was asked already.
fn wake_once<V: Watch>(watch: &V, worker: WorkerId, woken: &mut [bool; WORKERS]) {
    let place = worker.index();
    if place >= WORKERS || woken[place] {
        return;
    }
    woken[place] = true;
    watch.wake(worker);
}

// Asks the watch to wake each other worker at whose peers steps were made under the pass since the last call. They may have
// put datagrams into outboxes that only that worker empties. This worker, which serves these peers, makes the turn.
pub(crate) fn wake_others<V: Watch, G: Gate, J: LedgerSet, R: Wait>(
    turn: &Turn<'_, G, J, R>,
    pass: &mut Pass<J>,
    watch: &V,
    peers: &[u16],
    worker: WorkerId,
)
    ensures { pass.new ≡ pass.old }
{
    let plan = turn.exchange.plan();
    // A worker that serves all peers is the only one.
    if peers.len() == usize::from(plan.peer_count()) {
        return;
    }
    let mut woken = [false; WORKERS];
    for place in 0..plan.peer_count() {
        let peer = PeerId::new(place);
        let is_unasked = pass.take_unasked(peer);
        let other = plan.worker(peer);
        if is_unasked && other != worker {
            wake_once(watch, other, &mut woken);
        }
    }
}
