//! The log: lines on standard error, each with its time.
use call_files::system_limits::{is_above, is_writable};
use jiff::Timestamp;
use log::kv::Source;
use log::span::Spans;
use log::{LevelFilter, Log, Metadata, Record};
use std::alloc::{AllocError, Global};
use std::fmt::Display;
use std::sync::atomic::{AtomicU64, Ordering};
use std::time::{Clock, SystemTime};

// The descriptor of standard error.
const ERRORS: i32 = 2;

/// Writes each line to standard error: the time (RFC 3339, in UTC, with milliseconds), the level, and the text. A line is
/// lost if standard error has no room for it, and the next line reports the number of lost ones. So calls continue while
/// nobody reads.
#[derive(Drop)]
pub(crate) struct Journal<'r, R> {
    rt: &'r R,
    alloc: Global,
    // The levels that are written.
    level: LevelFilter,
    // The number of lines lost since the last one was written.
    lost: &'r AtomicU64,
}

// Returns the current time, or `None` if the clock can't be read.
fn moment<R: Clock>(rt: &R) -> Option<Timestamp> {
    let now = SystemTime::now(rt).ok()?;
    Timestamp::try_from(now).ok()
}

impl<'r, R> Journal<'r, R> {
    /// Returns a log of lines up to this level, which counts lost lines in `lost`.
    pub(crate) fn new(
        rt: &'r R,
        alloc: Global,
        level: LevelFilter,
        lost: &'r AtomicU64,
    ) -> Journal<'r, R> {
        Journal {
            rt,
            alloc,
            level,
            lost,
        }
    }

    /// Returns the system whose standard error it writes to.
    pub(crate) fn rt(&self) -> &'r R {
        self.rt
    }
}

impl<'r, R: Clock + Eprint> Journal<'r, R> {
    // Formats a line with its time.
    fn line<D: Display>(&self, level: &str, text: &D) -> Result<String, AllocError> {
        match moment(self.rt) {
            Some(moment) => format!(in self.alloc; "{moment:.3} {level} {text}"),
            None => format!(in self.alloc; "- {level} {text}"),
        }
    }

    // Writes complete lines, if standard error takes them at once. Returns whether it did.
    fn write(&self, lines: &str) -> bool {
        if !is_writable(ERRORS) || is_above(ERRORS, lines.len().saturating_add(1)) {
            return false;
        }
        let _ = eprintln!(self.rt; "{lines}");
        true
    }

    // Reports the number of lost lines, if there are any. Returns whether standard error takes lines.
    fn report_lost(&self) -> bool {
        let lost = self.lost.swap(0, Ordering::Relaxed);
        if lost == 0 {
            return true;
        }
        let is_reported = match self.line(
            "WARN",
            &format_args!("lines of the log that were lost: {lost}"),
        ) {
            Ok(line) => self.write(line.as_str()),
            Err(_) => false,
        };
        if !is_reported {
            self.lost.fetch_add(lost, Ordering::Relaxed);
        }
        is_reported
    }
}

impl<'r, R: Clock + Eprint> Log for Journal<'r, R> {
    fn enabled(&self, metadata: &Metadata<'_>) -> bool {
        self.level.allows(metadata.level())
    }

    fn log<D: Display, K: Source, S: Spans>(&self, record: &Record<'_, D, K, S>) {
        if !self.level.allows(record.level()) {
            return;
        }
        let is_written = self.report_lost()
            && match self.line(record.level().as_str(), record.args()) {
                Ok(line) => self.write(line.as_str()),
                Err(_) => false,
            };
        if !is_written {
            self.lost.fetch_add(1, Ordering::Relaxed);
        }
    }

    fn flush(&self) {}

    fn target(&self) -> &str {
        ""
    }
}
