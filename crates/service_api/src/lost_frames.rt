//! The metrics of frames that full outboxes lost.
use crate::scraping::{Told, push_family};
use exchange_core::{Exchange, NoGate, Pass, PeerLosses, losses_of};
use peer_lock::{LedgerSet, Losses};
use peer_plan::PeerId;
use service_state::{Kind, Label, Labels, Metrics, Sample};
use std::alloc::{AllocError, Global};
use std::sync::Wait;

const OUTBOX_LOST: Told = Told {
    kind: Kind::Counter,
    name: "iax_outbox_frames_lost_total",
    help: "Frames to the peer that were lost because 256 others waited to be sent.",
};

// Adds the frames that the outbox of a peer lost, by kind.
fn push_losses_of<'x>(
    samples: &mut Vec<Sample<'x>>,
    losses: PeerLosses,
    name: &'x str,
) -> Result<(), AllocError> {
    let of_peer = Label {
        name: "peer",
        value: name,
    };
    let Losses { full, mini, trunk } = losses.outbox;
    for (kind, value) in [("full", full), ("mini", mini), ("trunk", trunk)] {
        let of_kind = Label {
            name: "frame",
            value: kind,
        };
        let labels = Labels::Two(of_peer, of_kind);
        samples.push(Sample { labels, value })?;
    }
    Ok(())
}

// Adds the frames that outboxes lost.
pub(crate) fn push_losses<J: LedgerSet, R: Wait>(
    rt: &R,
    alloc: Global,
    metrics: &mut Metrics,
    exchange: &Exchange<NoGate, J>,
    pass: &mut Pass<J>,
) -> Result<(), AllocError> {
    let plan = exchange.plan();
    let mut samples = Vec::new(alloc);
    for place in 0..plan.peer_count() {
        let peer = PeerId::new(place);
        let losses = losses_of(rt, exchange, pass, peer);
        push_losses_of(&mut samples, losses, plan.name(peer))?;
    }
    push_family(alloc, metrics, &OUTBOX_LOST, &samples)
}
