//! Log lines, and counts that are logged once a round.
use log::{Level, Log, log};
use peer_plan::Endpoint;
use service_state::counted_since;
use std::fmt::Display;
use std::net::{Ipv4Addr, SocketAddrV4};

/// Writes a line if its level is logged.
pub(crate) fn log_line<L: Log, D: Display>(log: &L, level: Level, line: &D) {
    log!(log; level, "{line}");
}

/// Logs a count of events in a round of `seconds` seconds, unless it is 0.
pub(crate) fn log_count<L: Log, D: Display>(
    log: &L,
    level: Level,
    what: &D,
    count: u64,
    seconds: u64,
) {
    if count > 0 {
        log!(log; level, "{what}: {count} in {seconds} s");
    }
}

/// Returns the increase of a count since it was last logged, and stores the count in `logged`.
pub(crate) fn more_than(logged: &mut u64, count: u64) -> u64 {
    let more = counted_since(*logged, count);
    *logged = count;
    more
}

/// Converts an endpoint to the form that log lines print.
pub(crate) fn address_of(endpoint: Endpoint) -> SocketAddrV4 {
    let Endpoint { address, port } = endpoint;
    let [a, b, c, d] = address;
    SocketAddrV4::new(Ipv4Addr::new(a, b, c, d), port)
}
