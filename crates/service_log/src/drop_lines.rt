//! Log lines about datagrams that the system dropped.
use crate::lines::{log_count, log_line, more_than};
use log::{Level, Log};
use service_state::{DropCount, NoDrops};
use std::iter;

/// Logs the datagrams that the system dropped at each worker's socket in a round of `seconds` seconds.
pub(crate) fn log_drops<L: Log>(log: &L, logged: &mut [u64], counts: &[DropCount], seconds: u64) {
    for (logged, count) in iter::zip(logged.iter_mut(), counts) {
        if let Some(drops) = count.drops {
            let more = more_than(logged, drops);
            let worker = &count.worker;
            let what = format_args!("the system dropped at the socket of worker {worker}");
            log_count(log, Level::Warn, &what, more, seconds);
        }
    }
}

/// Warns that the drops aren't known. Logs nothing before they are first counted.
pub(crate) fn log_unknown<L: Log>(log: &L, why: NoDrops) {
    let why = match why {
        NoDrops::NotCounted => return,
        NoDrops::NoTable => "/proc/net/udp can't be read: no drops are known",
        NoDrops::TooManySockets => {
            "too many UDP sockets: the drops at the workers' sockets aren't known"
        }
        NoDrops::NoMemory => "no memory for the drops at sockets",
    };
    log_line(log, Level::Warn, &why);
}
