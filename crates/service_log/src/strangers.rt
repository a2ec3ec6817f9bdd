//! The strangers of a round of the log: the latest by address, the rest as one count.
use crate::lines::{address_of, log_count};
use log::{Level, Log};
use lru::LruCache;
use peer_plan::Endpoint;
use std::alloc::{AllocError, Global};
use std::net::SocketAddrV4;
use std::num::NonZeroUsize;

// The greatest number of addresses that a round logs.
const ADDRESSES: usize = 64;

/// The strangers of this round.
#[derive(Drop)]
pub(crate) struct Strangers {
    latest: LruCache<SocketAddrV4, u64>,
    // The number of datagrams already logged. A stranger is counted before `see` gets its address. If it is logged in
    // between, it is one of the rest.
    logged: u64,
}

impl Strangers {
    /// Returns a round without strangers.
    pub(crate) fn new(alloc: Global) -> Result<Strangers, AllocError> {
        let Some(limit) = NonZeroUsize::new(ADDRESSES) else {
            return Err(AllocError);
        };
        Ok(Strangers {
            latest: LruCache::new(alloc, limit)?,
            logged: 0,
        })
    }

    /// Adds a stranger's endpoint. Without memory the stranger is counted as one of the rest.
    pub(crate) fn see(&mut self, from: Endpoint) {
        let from = address_of(from);
        let count = match self.latest.peek(&from) {
            Some(count) => count.saturating_add(1),
            None => 1,
        };
        let _ = self.latest.put(from, count);
    }

    // Logs a line for each of the latest strangers. Returns the number of datagrams that these sent.
    fn log_latest<L: Log>(&self, log: &L, seconds: u64) -> u64 {
        let mut sum: u64 = 0;
        for (from, count) in self.latest.iter() {
            let what = format_args!("datagrams from stranger {from}");
            log_count(log, Level::Warn, &what, *count, seconds);
            sum = sum.saturating_add(*count);
        }
        sum
    }

    /// Ends a round of `seconds` seconds. `count` is the number of datagrams from strangers since the start.
    pub(crate) fn log_line<L: Log>(&mut self, log: &L, count: u64, seconds: u64) {
        let named = self.log_latest(log, seconds);
        self.latest.clear();
        self.logged = self.logged.saturating_add(named);
        let rest = count.saturating_sub(self.logged);
        log_count(
            log,
            Level::Warn,
            &"datagrams from other strangers",
            rest,
            seconds,
        );
        self.logged = self.logged.saturating_add(rest);
    }
}
