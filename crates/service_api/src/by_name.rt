//! The metrics that count by a peer and a name: datagrams that were refused or rejected, and authentication that failed.
use crate::scraping::{Told, push_family};
use exchange_core::{Rejection, refusal_name, rejection_name};
use peer_plan::{PeerId, Plan};
use service_state::{
    AUTH_FAILURES, Kind, Label, Labels, Metrics, REASONS, REFUSALS, REJECTIONS, Sample,
    ServiceWatch,
};
use std::alloc::{AllocError, Global};

const REFUSED: Told = Told {
    kind: Kind::Counter,
    name: "iax_datagrams_refused_total",
    help: "Datagrams of the peer that did nothing, by the name of the refusal.",
};

const REJECTED: Told = Told {
    kind: Kind::Counter,
    name: "iax_datagrams_rejected_total",
    help: "Datagrams of the peer that an answer rejected, and trunk frames of which entries were dropped, by name. Plan versions 1 and 2 answer a Reflection.",
};

const FAILED: Told = Told {
    kind: Kind::Counter,
    name: "iax_authentications_failed_total",
    help: "Calls of the peer whose authentication failed, by reason.",
};

const CALLS_FAILED: Told = Told {
    kind: Kind::Counter,
    name: "iax_calls_failed_total",
    help: "Call legs of the peer that ended with a reason, by the reason that call records have.",
};

// Adds what is counted of a peer under a name.
fn push_count<'x>(
    samples: &mut Vec<Sample<'x>>,
    peer: &'x str,
    label: &'static str,
    name: &'x str,
    value: u64,
) -> Result<(), AllocError> {
    let of_peer = Label {
        name: "peer",
        value: peer,
    };
    let of_name = Label {
        name: label,
        value: name,
    };
    let labels = Labels::Two(of_peer, of_name);
    samples.push(Sample { labels, value })?;
    Ok(())
}

/// Adds the refused datagrams of all peers.
pub(crate) fn push_refusals(
    alloc: Global,
    metrics: &mut Metrics,
    plan: &Plan,
    watch: &ServiceWatch,
) -> Result<(), AllocError> {
    let mut samples = Vec::new(alloc);
    for place in 0..plan.peer_count() {
        let peer = PeerId::new(place);
        let name = plan.name(peer);
        for refusal in &REFUSALS {
            let count = watch.refused_for(peer, *refusal);
            push_count(&mut samples, name, "refusal", refusal_name(*refusal), count)?;
        }
    }
    push_family(alloc, metrics, &REFUSED, &samples)
}

// Returns whether it is counted in plan versions 1 and 2, too: a challenge that was sent back, and a call that came during a
// drain.
fn is_of_all_formats(rejection: Rejection) -> bool {
    matches!(rejection, Rejection::Reflection | Rejection::Draining)
}

/// Adds the rejected datagrams of all peers.
pub(crate) fn push_rejections(
    alloc: Global,
    metrics: &mut Metrics,
    plan: &Plan,
    watch: &ServiceWatch,
) -> Result<(), AllocError> {
    let mut samples = Vec::new(alloc);
    for place in 0..plan.peer_count() {
        let peer = PeerId::new(place);
        let (name, is_hardened) = (plan.name(peer), plan.rules(peer).is_hardened);
        for rejection in &REJECTIONS {
            if is_hardened || is_of_all_formats(*rejection) {
                let count = watch.rejected(peer, *rejection);
                let rejection = rejection_name(*rejection);
                push_count(&mut samples, name, "rejection", rejection, count)?;
            }
        }
    }
    push_family(alloc, metrics, &REJECTED, &samples)
}

/// Adds the calls of all peers that failed to authenticate.
pub(crate) fn push_failures(
    alloc: Global,
    metrics: &mut Metrics,
    plan: &Plan,
    watch: &ServiceWatch,
) -> Result<(), AllocError> {
    let mut samples = Vec::new(alloc);
    for place in 0..plan.peer_count() {
        let peer = PeerId::new(place);
        let name = plan.name(peer);
        for failure in &AUTH_FAILURES {
            let count = watch.unauthenticated(peer, *failure);
            push_count(&mut samples, name, "reason", failure.name(), count)?;
        }
    }
    push_family(alloc, metrics, &FAILED, &samples)
}

/// Adds the failed calls of all peers.
pub(crate) fn push_failed_calls(
    alloc: Global,
    metrics: &mut Metrics,
    plan: &Plan,
    watch: &ServiceWatch,
) -> Result<(), AllocError> {
    let mut samples = Vec::new(alloc);
    for place in 0..plan.peer_count() {
        let peer = PeerId::new(place);
        let name = plan.name(peer);
        for reason in &REASONS {
            let count = watch.failed(peer, reason);
            push_count(&mut samples, name, "reason", reason, count)?;
        }
    }
    push_family(alloc, metrics, &CALLS_FAILED, &samples)
}
