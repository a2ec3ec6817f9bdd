//! The thread that writes the call records.
ghost use Rattle.std.specs.Prelude.{◌≡◌, ◌+◌, ◌%◌, ◌^◌, [], ℕ};
ghost use Rattle.rtrb.specs.Ring.{received};
ghost use Rattle.call_files.specs.Logs.{IsMoved};
ghost use Rattle.call_files.specs.Ledgers.{IsNoted, with_noted};
ghost use Rattle.call_files.specs.RowLines.{IsRowLine};

use crate::disk::Disk;
use crate::disk_file::DiskFile;
use crate::outlets::{CallOutlets, FileState, Seam};
use crate::spelling::{Calendar, RowSpelling};
use crate::{Appender, RowLog};
use call_records::{Backlog, CallNumbering, CallRow, push_header};
use peer_plan::Plan;
use std::alloc::{AllocError, Global};
use std::sync::Wait;
use std::thread;
use std::thread::Threads;
use std::time::{Clock, Duration, Instant};

// The greatest number of rows that wait for the file, beyond those of the outlets.
const WAITING: usize = 65_536;

// The length of a round, in milliseconds.
const ROUND_MS: u64 = 100;

// The time for which rows that wait at the end are tried again, in milliseconds.
const END_MS: u64 = 5000;

// The greatest number of rows that are written before the clock is read again.
const ROWS: u64 = 16;

/// The writer's part: the other ends of the outlets, the serials of calls, and room for the rows that wait.
pub struct CallRows {
    alloc: Global,
    seams: Vec<Seam>,
    calls: CallNumbering,
    waiting: Backlog<CallRow>,
    line_end: Vec<u8>,
    header: Vec<u8>,
}

// Written out, so that an owner proves one call at its drop, not the drop of each field.
impl Drop for CallRows {
    fn drop(self) {
        let CallRows {
            alloc: _,
            seams: _,
            calls: _,
            waiting: _,
            line_end: _,
            header: _,
        } = self;
    }
}

// The rows that were received: each has the serial of its call, and waits for the file.
#[derive(Drop)]
struct Ledger<'a, D: Disk> {
    calls: CallNumbering,
    log: RowLog<DiskFile<'a, D>, CallRow>,
}

// The writer's state.
#[derive(Drop)]
struct Writer<'a, D: Disk> {
    seams: Vec<Seam>,
    ledger: Ledger<'a, D>,
    written: u64,
}

impl CallRows {
    /// Returns the outlets of a plan's workers and of one more thread, and the writer's part. The first serial of a call is
    /// the date, in microseconds since the beginning of 1970, so that those of a later run are greater.
    ///
    /// Returns `AllocError` if a request for memory was refused.
    pub fn new(
        alloc: Global,
        plan: &Plan,
        calendar: Calendar,
    ) -> Result<(CallOutlets, CallRows), AllocError> {
        let first = calendar.opened_us.cast_unsigned();
        let mut line_end = Vec::new(alloc);
        line_end.push(b'\n')?;
        let mut header = Vec::new(alloc);
        push_header(alloc, &mut header)?;
        let calls = CallNumbering::new(alloc, plan.number_count(), first)?;
        let waiting = Backlog::new(alloc, WAITING)?;
        let (outlets, seams) = CallOutlets::new(alloc, plan.workers().len() + 1)?;
        let rows = CallRows {
            alloc,
            seams,
            calls,
            waiting,
            line_end,
            header,
        };
        Ok((outlets, rows))
    }

    // Returns a writer to the file of this name, which isn't open yet.
    fn writer_to<'a, D: Disk>(self, disk: &'a D, path: &'a str) -> Writer<'a, D> {
        let CallRows {
            alloc,
            seams,
            calls,
            waiting,
            line_end,
            header,
        } = self;
        let appender = Appender::new(DiskFile::new(disk, path), line_end, header);
        Writer {
            seams,
            ledger: Ledger {
                calls,
                log: RowLog::new(alloc, appender, waiting),
            },
            written: 0,
        }
    }
}

impl<'a, D: Disk> Ledger<'a, D> {
    // Adds a row that was received.
    fn note(&mut self, row: CallRow)
        ensures rows { (record { calls = self.new.calls; backlog = self.new.log.backlog }) ≡ with_noted
            (record { calls = self.old.calls; backlog = self.old.log.backlog }) row }
        ensures file { self.new.log.file ≡ self.old.log.file }
    {
        let mut row = row;
        row.call = self.calls.number_of(row.name, row.partner);
        let _ = self.log.push(row);
    }

    // Takes `count` rows from a ring, the oldest first.
    fn take_sent(&mut self, seam: &mut Seam, count: usize)
        ensures rows { IsNoted (received seam.old.ring) (received seam.new.ring) []
            (record { calls = self.old.calls; backlog = self.old.log.backlog })
            (record { calls = self.new.calls; backlog = self.new.log.backlog }) }
        ensures file { self.new.log.file ≡ self.old.log.file }
    {
        for _ in 0..count {
            if let Ok(row) = seam.ring.pop() {
                self.note(row);
            }
        }
    }

    // Takes `before` rows from a ring, and then the rows that its outlet kept, which came after them.
    fn take_rest(&mut self, seam: &mut Seam, before: usize, kept: Backlog<CallRow>)
        ensures rows { IsNoted (received seam.old.ring) (received seam.new.ring) kept.waiting
            (record { calls = self.old.calls; backlog = self.old.log.backlog })
            (record { calls = self.new.calls; backlog = self.new.log.backlog }) }
        ensures file { self.new.log.file ≡ self.old.log.file }
    {
        let mut kept = kept;
        self.take_sent(seam, before);
        for _ in 0..kept.len() {
            if let Some(row) = kept.take() {
                self.note(row);
            }
        }
    }

    // Takes the rows of an outlet, the oldest first: if it keeps some, the rows of its ring come before them.
    fn take_from<R: Wait>(
        &mut self,
        rt: &R,
        alloc: Global,
        outlets: &CallOutlets,
        are_over: bool,
        seam: &mut Seam,
    ) {
        let Some((before, kept)) = outlets.take_kept(rt, alloc, seam, are_over) else {
            let count = seam.ring.slots();
            return self.take_sent(seam, count);
        };
        self.take_rest(seam, before, kept);
    }
}

impl<'a, D: Disk> Writer<'a, D> {
    // Takes all rows that were handed over.
    fn take_all<R: Wait>(&mut self, rt: &R, alloc: Global, outlets: &CallOutlets, are_over: bool) {
        for seam in self.seams.iter_mut() {
            self.ledger.take_from(rt, alloc, outlets, are_over, seam);
        }
    }

    // Writes rows that wait, at most this many. Returns whether more may be written at once.
    fn write(&mut self, spelling: &RowSpelling<'_>, most: u64, now: u64) -> bool
        ensures lines { (count : ℕ)
            × IsMoved (IsRowLine spelling.now.plan.now) self.old.ledger.log count self.new.ledger.log
            × (self.new.written ≡ (self.old.written + count) % 2 ^ 64) }
        ensures calls { self.new.ledger.calls ≡ self.old.ledger.calls }
    {
        let count = self.ledger.log.write(spelling, most, now);
        self.written = self.written.wrapping_add(count);
        count == most
    }

    // Reports the file's state.
    fn tell(&self, outlets: &CallOutlets) {
        let log = &self.ledger.log;
        outlets.tell(FileState {
            written: self.written,
            waiting: 0,
            lost: log.lost(),
            trouble: log.trouble(),
        });
    }

    // Returns whether no row waits.
    fn is_done(&self) -> bool {
        self.ledger.log.waiting() == 0 && !self.ledger.log.has_row()
    }

    // Appends the rows that are handed over, until the outlets have ended and no row waits, or for five seconds after that
    // end. The clock is read after every few rows, and at the end after each, because a file may be slow.
    fn write_rounds<R: Clock + Wait>(
        &mut self,
        rt: &R,
        opened: Instant,
        outlets: &CallOutlets,
        spelling: &RowSpelling<'_>,
    ) {
        let mut now = moment(rt, opened, 0);
        let _ = self.ledger.log.open(now);
        let mut until = u64::MAX;
        for _ in rt.forever() {
            // Read first, so that no row is missed that a thread handed over before its end.
            let are_over = outlets.are_over();
            now = moment(rt, opened, now);
            self.take_all(rt, spelling.alloc, outlets, are_over);
            if are_over {
                until = until.min(now.saturating_add(END_MS));
            }
            if now >= until {
                break;
            }
            let most = if are_over { 1 } else { ROWS };
            let has_more = self.write(spelling, most, now);
            self.tell(outlets);
            if are_over && self.is_done() {
                break;
            }
            if !has_more {
                thread::sleep(rt, Duration::from_millis(ROUND_MS));
            }
        }
        self.ledger.log.end(now);
        self.tell(outlets);
    }
}

// Returns milliseconds since the exchange was opened, or `last` if the clock can't be read.
fn moment<R: Clock>(rt: &R, opened: Instant, last: u64) -> u64 {
    match opened.elapsed(rt) {
        Ok(elapsed) => u64::try_from(elapsed.as_millis()).unwrap_or(last),
        Err(_) => last,
    }
}

/// Runs a service. A separate thread appends the rows that the service's threads hand over to the file of this name, every
/// tenth of a second. Rows are synced to the disk at most a second after they were written, and at the end.
///
/// A file that can't be opened or written to is tried again; at most 65,536 rows wait for it. If its name leads to another
/// file, that file is opened. The writer never waits for a file that isn't regular. At the end, rows that wait are tried
/// again for five seconds.
///
/// Returns the result of `serve`, or false if the thread was refused; then nothing is served. The outlets end once `serve`
/// has returned.
pub fn write_calls_beside<R: Clock + Threads + Wait + Sync, D: Disk + Sync, F: FnOnce() -> bool>(
    rt: &R,
    disk: &D,
    path: &str,
    plan: &Plan,
    calendar: Calendar,
    opened: Instant,
    outlets: &CallOutlets,
    rows: CallRows,
    serve: F,
) -> bool
    requires { F.pre serve }
{
    thread::scope(thread::scope_env(), rt, move |scope| {
        let is_written = scope
            .spawn(move || {
                let spelling = RowSpelling {
                    alloc: rows.alloc,
                    plan,
                    calendar,
                };
                let mut writer = rows.writer_to(disk, path);
                writer.write_rounds(rt, opened, outlets, &spelling);
            })
            .is_ok();
        let is_served = is_written && serve();
        outlets.end();
        is_served
    })
}
