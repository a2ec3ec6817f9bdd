//! Log lines about a service that can't start: the refusal, its address or path, and the system's error.
use crate::running::Settings;
use control_server::NotBound;
use log::{Log, error};
use peer_plan::{Endpoint, Plan};
use std::fmt::Display;
use std::io;
use std::net::{Ipv4Addr, Net, SocketAddr, SocketAddrV4, UdpSocket};

// Logs the refusal, and the system's error if there is one.
fn log_fault<L: Log, D: Display>(log: &L, what: &D, code: Option<i32>) {
    match code {
        Some(code) => error!(log; "{what}: {}", io::Error::from_raw_os_error(code)),
        None => error!(log; "{what}"),
    }
}

/// Logs which listener isn't bound.
pub(crate) fn log_not_bound<L: Log>(log: &L, settings: &Settings<'_>, fault: NotBound) {
    let Settings {
        control,
        metrics,
        ..
    } = *settings;
    match (fault.name, control, metrics) {
        ("Control", Some(path), _) => {
            log_fault(log, &format_args!("control socket {path}"), fault.code)
        }
        ("Metrics", _, Some(address)) => {
            log_fault(log, &format_args!("metrics at {address}"), fault.code)
        }
        _ => {}
    }
}

/// Logs which worker's address and port can't be bound. By then no worker is bound any more.
pub(crate) fn log_unbound_worker<L: Log, R: Net>(rt: &R, log: &L, plan: &Plan) {
    for (place, endpoint) in plan.workers().iter().enumerate() {
        let Endpoint { address, port } = *endpoint;
        let [a, b, c, d] = address;
        let at = SocketAddrV4::new(Ipv4Addr::new(a, b, c, d), port);
        if let Err(error) = UdpSocket::bind(rt, SocketAddr::V4(at)) {
            let what = format_args!("worker {place} at {at}");
            log_fault(log, &what, error.raw_os_error());
            return;
        }
    }
}

/// Logs why no trace is written to a folder.
pub(crate) fn log_trace_fault<L: Log>(log: &L, path: &str, error: &io::Error) {
    error!(log; "trace in {path}, a folder of this user alone (mode 0700) with regular files: {error}");
}
