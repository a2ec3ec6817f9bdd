//! Log lines about the file of call records.
use crate::lines::log_line;
use crate::output_log::OutputLog;
use call_files::{Fault, FileState, Trouble};
use log::{Level, Log};
use std::io;
use std::io::ErrorKind;

/// Returns the system's error for a fault.
pub(crate) fn error_of(fault: Fault) -> io::Error {
    match fault.code {
        Some(code) => io::Error::from_raw_os_error(code),
        None => io::Error::from(ErrorKind::WriteZero),
    }
}

// Warns of a fault of the file of call records.
fn log_file_fault<L: Log>(log: &L, path: &str, what: &str, fault: Fault) {
    let error = error_of(fault);
    log_line(log, Level::Warn, &format_args!("{path} {what}: {error}"));
}

// Logs trouble with the file of call records, or that the trouble is over.
fn log_trouble<L: Log>(log: &L, path: &str, trouble: Option<Trouble>) {
    let (what, fault) = match trouble {
        None => {
            log_line(
                log,
                Level::Info,
                &format_args!("{path} is written to again"),
            );
            return;
        }
        Some(Trouble::Open(fault)) => ("can't be opened, call records wait", fault),
        Some(Trouble::Write(fault)) => ("can't be written to, call records wait", fault),
        Some(Trouble::Sync(fault)) => ("isn't known to be on the disk", fault),
    };
    log_file_fault(log, path, what, fault);
}

impl OutputLog<Trouble> {
    /// Logs trouble with the file at `path` once, when it begins, and its end.
    pub(crate) fn log_changes<L: Log>(&mut self, log: &L, path: &str, state: FileState) {
        if state.trouble != self.wrong {
            self.wrong = state.trouble;
            log_trouble(log, path, state.trouble);
        }
    }
}

/// Warns, at the end, of the number of rows that couldn't be written to `path`. Logs nothing if there are none.
pub fn log_call_file_end<L: Log>(log: &L, path: &str, state: FileState) {
    if state.waiting > 0 {
        let waiting = state.waiting;
        log_line(
            log,
            Level::Warn,
            &format_args!("call records that couldn't be written to {path}: {waiting}"),
        );
    }
}
