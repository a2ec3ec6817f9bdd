//! Rows that wait for a file, and are written to it one after the other.
ghost use Rattle.std.specs.Prelude.{◌≡◌, ◌+◌, ◌<◌, ◌≤◌, ◌↔◌, ◌++◌, None, IsTrue, OnOk, OnErr, ℕ, List, is_some, length};
ghost use Rattle.call_records.specs.Backlog.{with_row};
ghost use Rattle.call_files.specs.Logs.{IsBegun, IsUnopened, IsWritten, IsMoved, row_count};

use crate::appender::{Appender, Trouble};
use crate::fault::Fault;
use crate::row_file::RowFile;
use call_records::Backlog;
use std::alloc::{AllocError, Global};
use std::marker::Model;

/// Formats rows.
pub trait Spelling<T> {
    ghost use Rattle.std.specs.Prelude.{ℕ, List};

    /// These octets are the line of a row, with its end.
    ghost is_line: { Self → T → List ℕ → Type 0 };

    /// Adds a row's line, with its end. If a request for memory is refused, the added octets are of no use.
    fn spell(&self, row: &T, octets: &mut Vec<u8>) -> Result<(), AllocError>
        ensures line { OnOk result ((line : List ℕ) × is_line self.now row.now line
            × (octets.new.items ≡ octets.old.items ++ line)) };
}

/// Rows that wait for a file, in their order, and the file. None is lost below a bound. A row that the file didn't take to
/// its end is continued if the file is the same, and written again from its start to another file.
///
/// Moments are in milliseconds. Contracts see the waiting rows, and the file with the lines that are being written to it.
#[derive(Drop)]
pub struct RowLog<F: RowFile + Drop, T: Drop> {
    alloc: Global,
    appender: Appender<F>,
    waiting: Backlog<T>,
}

impl<F: RowFile + Drop, T: Drop> Model for RowLog<F, T> {
    ghost use Rattle.call_files.specs.Logs.{LogView, log_code};

    ghost Value = { LogView T };

    ghost coded = { log_code T.code };

    ghost view = { λ log. record { backlog = log.waiting; file = log.appender } };
}

impl<F: RowFile + Drop, T: Drop> RowLog<F, T> {
    /// Returns a log of these waiting rows and this file, with its pending row if it has one.
    pub fn new(alloc: Global, appender: Appender<F>, waiting: Backlog<T>) -> RowLog<F, T>
        ensures { result ≡ record { backlog = waiting; file = appender } }
    {
        RowLog {
            alloc,
            appender,
            waiting,
        }
    }

    /// Opens the file, at `now`, in milliseconds.
    ///
    /// Returns `Fault` if the system refuses. The rows are kept, and `write` tries again.
    pub fn open(&mut self, now: u64) -> Result<(), Fault>
        ensures waiting { self.new.backlog ≡ self.old.backlog }
        ensures ok { OnOk result (IsBegun self.old.file self.new.file) }
        ensures err { OnErr result (IsUnopened self.old.file self.new.file) }
    {
        self.appender.open(now)
    }

    /// Adds a row behind the others. Returns false if the bound is reached, and the row is lost.
    pub fn push(&mut self, row: T) -> bool
        ensures kept { IsTrue result ↔ (length self.old.backlog.waiting < self.old.backlog.capacity) }
        ensures after { self.new ≡ record self.old { backlog = with_row self.old.backlog row } }
    {
        self.waiting.push(row)
    }

    /// Returns the number of waiting rows, not counting the one that is being written.
    pub fn waiting(&self) -> usize
        ensures { result ≡ length self.now.backlog.waiting }
    {
        self.waiting.len()
    }

    /// Returns whether a row is being written.
    pub fn has_row(&self) -> bool
        ensures { result ≡ is_some self.now.file.row }
    {
        self.appender.has_row()
    }

    /// Returns the number of lost rows, modulo 2^64.
    pub fn lost(&self) -> u64
        ensures { result ≡ self.now.backlog.lost }
    {
        self.waiting.lost()
    }

    /// Returns the file's trouble, if it has any.
    pub fn trouble(&self) -> Option<Trouble> {
        self.appender.trouble()
    }

    // Begins the next row. Returns false if none waits, or if there is no memory for its text.
    fn take_next<S: Spelling<T>>(&mut self, spelling: &S) -> bool
        requires { self.old.file.row ≡ None }
        ensures { IsWritten (S.is_line spelling.now) self.old 0 self.new }
    {
        let Some(row) = self.waiting.front() else {
            return false;
        };
        let mut octets = Vec::new(self.alloc);
        if spelling.spell(row, &mut octets).is_err() {
            return false;
        }
        let _taken = self.waiting.take();
        self.appender.take(octets);
        true
    }

    // Writes the waiting rows to a file that is ready, as far as it takes them, at most this many. Returns the number of rows
    // written to their ends.
    fn write_all<S: Spelling<T>>(&mut self, spelling: &S, most: u64, now: u64) -> u64
        ensures written { IsWritten (S.is_line spelling.now) self.old result self.new }
        ensures most { result ≤ most }
    {
        let mut count = 0;
        for _ in 0..most {
            let Ok(is_row) = self.appender.go_on(now) else {
                break;
            };
            if is_row {
                count += 1;
            }
            if !self.take_next(spelling) {
                break;
            }
        }
        count
    }

    /// Writes the waiting rows as far as the file takes them, at most `most`, at `now`, in milliseconds. A slow file holds its
    /// caller up for no longer than these take. Returns the number of rows written to their ends; if it is `most`, more may
    /// wait for the next call. Called every tenth of a second, it syncs written rows to the disk within a second.
    pub fn write<S: Spelling<T>>(&mut self, spelling: &S, most: u64, now: u64) -> u64
        // The oldest rows are written as their lines, in order.
        ensures lines { IsMoved (S.is_line spelling.now) self.old result self.new }
        // No row is lost: each was written, or still waits.
        ensures count { result + row_count self.new ≡ row_count self.old }
        ensures most { result ≤ most }
    {
        let mut count = 0;
        let is_wanted = self.appender.has_row() || !self.waiting.is_empty();
        if self.appender.is_ready(now, is_wanted) {
            count = self.write_all(spelling, most, now);
        }
        self.appender.sync_in_time(now);
        count
    }

    /// Syncs the written rows to the disk at `now`, in milliseconds, as far as the system allows.
    pub fn end(&mut self, now: u64)
        ensures { self.new ≡ self.old }
    {
        self.appender.end(now);
    }
}
