//! Log lines about the trace.
use crate::call_file_lines::error_of;
use crate::lines::log_line;
use crate::output_log::OutputLog;
use call_files::Fault;
use log::{Level, Log};
use trace_writer::TraceState;

/// Warns, at the end, of the number of calls of the exchange that couldn't be written to the trace in the folder `path`. Logs
/// nothing if there are none.
pub fn log_trace_end<L: Log>(log: &L, path: &str, state: TraceState) {
    if state.left > 0 {
        let left = state.left;
        let line = format_args!(
            "calls of the exchange that couldn't be written to the trace in {path}: {left}"
        );
        log_line(log, Level::Warn, &line);
    }
}

impl OutputLog<Fault> {
    /// Logs once that the trace in the folder `path` has ended before the service.
    pub(crate) fn log_changes<L: Log>(&mut self, log: &L, path: &str, state: TraceState) {
        if state.fault != self.wrong {
            self.wrong = state.fault;
            if let Some(fault) = state.fault {
                let error = error_of(fault);
                let line = format_args!(
                    "the trace in {path} has ended, it can't be written to: {error}"
                );
                log_line(log, Level::Warn, &line);
            }
        }
    }
}
