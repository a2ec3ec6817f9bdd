//! Log lines about the start.
use crate::lines::{address_of, log_line};
use log::{Level, Log};
use peer_plan::{PeerId, Plan};

/// Logs the program's version, the plan's path and the endpoints that are served.
pub fn log_start<L: Log>(log: &L, plan: &Plan, version: &str, path: &str) {
    let line = format_args!("exchange_main {version} serves {path}");
    log_line(log, Level::Info, &line);
    for (place, endpoint) in plan.workers().iter().enumerate() {
        let at = address_of(*endpoint);
        log_line(log, Level::Info, &format_args!("worker {place} at {at}"));
    }
    log_peers(log, plan);
}

// Logs the peers, each with its worker.
fn log_peers<L: Log>(log: &L, plan: &Plan) {
    for place in 0..plan.peer_count() {
        let peer = PeerId::new(place);
        let (name, worker) = (plan.name(peer), plan.worker(peer).get());
        let at = address_of(plan.endpoint(peer));
        let line = format_args!("peer {name} at {at}, of worker {worker}");
        log_line(log, Level::Info, &line);
    }
}
