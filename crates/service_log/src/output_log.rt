//! The log's state for each output next to the calls: the file of call records, and the trace.
use crate::lines::{log_count, more_than};
use log::{Level, Log};

/// The log's state for an output: its last fault, and the number of lost entries.
#[derive(Clone, Copy)]
pub(crate) struct OutputLog<T> {
    pub(crate) wrong: Option<T>,
    lost: u64,
}

impl<T> OutputLog<T> {
    /// Returns a state in which nothing was logged yet.
    pub(crate) fn new() -> OutputLog<T> {
        OutputLog {
            wrong: None,
            lost: 0,
        }
    }

    /// Logs the number of entries lost in a round of `seconds` seconds. `lost` is the number since the start.
    pub(crate) fn log_lost<L: Log>(&mut self, log: &L, what: &str, lost: u64, seconds: u64) {
        let more = more_than(&mut self.lost, lost);
        log_count(log, Level::Warn, &what, more, seconds);
    }
}
