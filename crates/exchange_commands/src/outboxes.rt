//! Sends datagrams, and shows them to a viewer.
use crate::replay_context::ReplayContext;
use crate::viewer::{PeerOfPlan, Stop, Viewer};
use peer_lock::LedgerSet;
use peer_plan::PeerId;
use std::sync::Wait;

/// Sends all datagrams to a peer of the plan.
pub(crate) fn empty_outbox<J: LedgerSet, R: Wait, V: Viewer>(
    context: &mut ReplayContext<'_, R, J, V>,
    peer: PeerId,
    moment: u64,
) -> Result<(), Stop> {
    let exchange = context.exchange;
    if peer.get() >= exchange.plan().peer_count() {
        return Ok(());
    }
    let shown = PeerOfPlan::at(exchange.plan(), peer);
    for _ in 0..u64::MAX {
        match exchange.take_out(context.rt, context.pass, peer) {
            Some(out) => {
                if let Err(stop) = context.viewer.sent(moment, shown, out.octets()) {
                    return Err(stop);
                }
            }
            None => break,
        }
    }
    Ok(())
}
