//! The thread that writes the trace.
use crate::folder::Folder;
use crate::free_numbers::orders_of;
use crate::handed::Handed;
use crate::mark::{Batch, Input, Mark};
use crate::parts::{TraceFile, TraceFolder};
use crate::spelling::{Head, Manner, Script};
use crate::trace::Trace;
use call_files::Fault;
use peer_plan::Plan;
use std::alloc::{AllocError, Global};
use std::sync::Wait;
use std::thread;
use std::thread::Threads;
use std::time::{Clock, Duration, Instant};

// The writer's rest after a round, in milliseconds. After much output the rest is shorter, so that a thread's notes are
// still in the processor's cache when they are read and when they are overwritten.
const REST_MS: u64 = 20;

const SHORT_REST_MS: u64 = 10;

// Output counts as much from this number of octets for each millisecond of rest.
const MUCH: u64 = 3200;

// Lines are written once there are this many octets of them, and at the end of a round. A system call costs as much as
// writing some eight thousand octets.
const PIECE: usize = 262_144;

// At most 1 of this many octets of a file belongs to refused datagrams, so that neither strangers nor those who forge a
// peer's address push calls out of the trace by them.
const REFUSED: u64 = 8;

// The fault if there is no memory for a file's head or lines.
const NO_MEMORY: Fault = Fault { code: Some(12) };

// The time for which notes are written after the end of the service, in milliseconds, and the fault if that isn't enough: the
// system's error "Connection timed out".
const END_MS: u64 = 5000;

const TOO_SLOW: Fault = Fault { code: Some(110) };

// The batches that a thread has handed over, and the part already written: batches, then marks and octets of the next
// batch.
#[derive(Drop)]
struct Taken {
    batches: Vec<Batch>,
    written: usize,
    marks: usize,
    octets: usize,
}

impl Taken {
    // Returns the number of the next call, if there is one.
    fn next(&self) -> Option<u64> {
        let batch = self.batches.get(self.written)?;
        let mark = batch.marks.get(self.marks)?;
        Some(mark.number)
    }

    // Takes the thread's new batches, if all earlier ones are written.
    fn refill<R: Wait>(&mut self, rt: &R, trace: &Trace, thread: usize) {
        if self.written < self.batches.len() {
            return;
        }
        trace.trade(rt, thread, &mut self.batches);
        self.written = 0;
        self.marks = 0;
        self.octets = 0;
    }

    // Writes the lines of the thread's next calls, as long as their numbers are consecutive and they are in one batch.
    fn tell<R: Clock, D: Folder>(
        &mut self,
        rt: &R,
        thread: usize,
        writer: &mut Writer<'_, D>,
    ) -> Result<(), Fault> {
        let Some(batch) = self.batches.get(self.written) else {
            return Ok(());
        };
        for mark in batch.marks.get(self.marks..).unwrap_or(&[]) {
            if mark.number != writer.next {
                return Ok(());
            }
            let end = self.octets.saturating_add(mark.octets);
            let octets = batch.octets.get(self.octets..end).unwrap_or(b"");
            writer.tell(rt, thread, mark, octets)?;
            writer.next = writer.next.wrapping_add(1);
            self.marks = self.marks.saturating_add(1);
            self.octets = end;
        }
        self.written = self.written.saturating_add(1);
        self.marks = 0;
        self.octets = 0;
        Ok(())
    }
}

/// The writer's memory: room for the batches of the threads.
pub struct TraceNotes {
    alloc: Global,
    taken: Vec<Taken>,
}

// Written out, so that an owner proves one call at its drop, not the drop of each field.
impl Drop for TraceNotes {
    fn drop(self) {
        let TraceNotes { alloc: _, taken: _ } = self;
    }
}

/// The settings of a trace.
#[derive(Clone, Copy)]
pub struct TraceSettings<'a> {
    pub folder: TraceFolder<'a>,
    /// Whether digits are shown. Otherwise each is written as 0.
    pub shows_digits: bool,
    /// The line about the service in the head of each file.
    pub about: &'a str,
}

impl TraceNotes {
    /// Returns room for the batches of `threads` threads.
    ///
    /// Returns `AllocError` if a request for memory was refused.
    pub fn new(alloc: Global, threads: usize) -> Result<TraceNotes, AllocError> {
        let mut taken = Vec::new(alloc);
        for _ in 0..threads {
            let one = Taken {
                batches: Handed::list(alloc)?,
                written: 0,
                marks: 0,
                octets: 0,
            };
            if taken.push(one).is_err() {
                return Err(AllocError);
            }
        }
        Ok(TraceNotes { alloc, taken })
    }
}

// The writer's state.
#[derive(Drop)]
struct Writer<'a, D: Folder> {
    disk: &'a D,
    alloc: Global,
    trace: &'a Trace,
    settings: TraceSettings<'a>,
    script: Script<'a>,
    file: TraceFile,
    part: u64,
    // The number of the next call.
    next: u64,
    // The number of octets written in this round.
    written: u64,
    // The octets of the lines of refused datagrams in the file, and the number of those that were left out.
    refused: u64,
    left_out: u64,
    // The moment at which the service was first seen to have ended.
    ended: Option<Instant>,
}

impl<'a, D: Folder> Writer<'a, D> {
    // Returns the writer before its first line.
    fn new(
        disk: &'a D,
        trace: &'a Trace,
        plan: &'a Plan,
        settings: TraceSettings<'a>,
        alloc: Global,
        file: TraceFile,
    ) -> Result<Writer<'a, D>, Fault> {
        let manner = Manner {
            shows_digits: settings.shows_digits,
        };
        match Script::new(alloc, plan, manner) {
            Ok(script) => Ok(Writer {
                disk,
                alloc,
                trace,
                settings,
                script,
                file,
                part: 0,
                next: 0,
                written: 0,
                refused: 0,
                left_out: 0,
                ended: None,
            }),
            Err(_) => Err(NO_MEMORY),
        }
    }

    // Adds the first lines of the next file. With `orders` no call is up at its beginning, and these are the orders of free
    // numbers and the serial of the next leg.
    fn begin_part(&mut self, orders: Option<&[u8]>) -> Result<(), Fault> {
        self.part = self.part.wrapping_add(1);
        let exactness = if !self.settings.shows_digits {
            "# Not exact: digits are written as 0.\n"
        } else if orders.is_none() {
            "# Not exact: calls are up where this begins.\n"
        } else {
            "# Exact: no call is up where this begins.\n"
        };
        let head = Head {
            exactness,
            about: self.settings.about,
            part: self.part,
        };
        self.script.begin(&head, orders);
        if self.script.lines.is_cut {
            return Err(NO_MEMORY);
        }
        Ok(())
    }

    // Writes the lines to the file.
    fn write(&mut self) -> Result<(), Fault> {
        let before = self.file.length();
        self.file.write(&mut self.script.lines.octets)?;
        let octets = self.file.length().saturating_sub(before);
        self.written = self.written.saturating_add(octets);
        self.trace.count_written(octets);
        Ok(())
    }

    // Ends the file and begins the next.
    fn turn_over(&mut self, orders: Option<&[u8]>) -> Result<(), Fault> {
        self.end_refused();
        self.write()?;
        self.file.finish();
        self.file = self
            .settings
            .folder
            .next(self.disk, self.alloc, &self.file)?;
        self.begin_part(orders)
    }

    // Adds the file's last line, the number of refused datagrams that were left out, if there are any.
    fn end_refused(&mut self) {
        self.script.leave_out(self.left_out);
        self.refused = 0;
        self.left_out = 0;
    }

    // Adds the lines of a refused datagram, unless the file's share for them is used up. Returns whether there was memory for
    // them.
    fn push_refused(&mut self, thread: usize, mark: &Mark, octets: &[u8]) -> bool {
        if self.refused >= self.settings.folder.part() / REFUSED {
            self.left_out = self.left_out.saturating_add(1);
            // A pending note about missing calls comes before the next call.
            return self.script.push(thread, &mark.emptied(), b"");
        }
        let before = self.script.lines.octets.len() as u64;
        let is_pushed = self.script.push(thread, mark, octets);
        let after = self.script.lines.octets.len() as u64;
        let octets = after.saturating_sub(before);
        self.refused = self.refused.saturating_add(octets);
        is_pushed
    }

    // Returns whether the service has ended five seconds ago.
    fn is_late<R: Clock>(&mut self, rt: &R) -> bool {
        if !self.trace.are_over() {
            return false;
        }
        let Some(ended) = self.ended else {
            self.ended = Instant::now(rt).ok();
            return false;
        };
        match ended.elapsed(rt) {
            Ok(elapsed) => elapsed >= Duration::from_millis(END_MS),
            Err(_) => false,
        }
    }

    // Counts the calls that aren't written yet, and returns `TOO_SLOW`, if the service has ended five seconds ago.
    fn end_if_late<R: Clock>(&mut self, rt: &R) -> Result<(), Fault> {
        if !self.is_late(rt) {
            return Ok(());
        }
        self.trace.leave_rest(self.next.wrapping_add(1));
        Err(TOO_SLOW)
    }

    // Returns the length of the file once the lines are written.
    fn length(&self) -> u64 {
        self.file
            .length()
            .saturating_add(self.script.lines.octets.len() as u64)
    }

    // Adds the lines of a call, and begins the next file if this one is full. At a moment without calls it does so when the
    // file is half full.
    fn tell<R: Clock>(
        &mut self,
        rt: &R,
        thread: usize,
        mark: &Mark,
        octets: &[u8],
    ) -> Result<(), Fault> {
        let part = self.settings.folder.part();
        let length = self.length();
        if matches!(mark.input, Input::Rest) && length >= part / 2 {
            self.turn_over(Some(octets))?;
        } else if length >= part {
            self.turn_over(None)?;
        }
        let is_pushed = if mark.input.is_refused() {
            self.push_refused(thread, mark, octets)
        } else {
            self.script.push(thread, mark, octets)
        };
        if !is_pushed {
            self.trace.count_lost();
        }
        if self.script.lines.octets.len() < PIECE {
            return Ok(());
        }
        self.write()?;
        self.end_if_late(rt)
    }
}

// Writes the next calls of each thread in turn, in the order in which the calls began, as far as they have been handed
// over. Returns whether there were any.
fn tell_some<R: Clock + Wait, D: Folder>(
    rt: &R,
    taken: &mut [Taken],
    writer: &mut Writer<'_, D>,
) -> Result<bool, Fault> {
    let mut has_told = false;
    for (thread, one) in taken.iter_mut().enumerate() {
        one.refill(rt, writer.trace, thread);
        if one.next() == Some(writer.next) {
            one.tell(rt, thread, writer)?;
            has_told = true;
        }
    }
    Ok(has_told)
}

// Returns the writer's rest after a round that wrote `written` octets. `rest_ms` is the rest before that round.
fn rest_after(written: u64, rest_ms: u64) -> u64 {
    if written >= MUCH.saturating_mul(rest_ms) {
        SHORT_REST_MS
    } else {
        REST_MS
    }
}

// Writes all that the threads have noted up to now. If a file is so slow that the service ended five seconds ago, the rest is
// counted and left.
fn write_noted<R: Clock + Wait, D: Folder>(
    rt: &R,
    notes: &mut TraceNotes,
    writer: &mut Writer<'_, D>,
    are_over: bool,
) -> Result<(), Fault> {
    for _ in 0..u64::MAX {
        if !tell_some(rt, &mut notes.taken, writer)? {
            break;
        }
    }
    if are_over {
        writer.end_refused();
        writer.script.end();
    }
    writer.write()?;
    if are_over {
        writer.file.finish();
    }
    let is_half = writer.length() >= writer.settings.folder.part() / 2;
    writer.trace.ask_for_rest(is_half);
    Ok(())
}

// Writes the notes of a service's threads to the files of a folder, until the service has ended.
fn write_rounds<R: Clock + Wait, D: Folder>(
    rt: &R,
    notes: &mut TraceNotes,
    writer: &mut Writer<'_, D>,
) -> Result<(), Fault> {
    let (trace, plan) = (writer.trace, writer.script.plan);
    let orders = orders_of(writer.alloc, trace, plan, trace.first_serial());
    if orders.is_cut {
        return Err(NO_MEMORY);
    }
    writer.begin_part(Some(&orders.octets))?;
    let mut rest_ms = REST_MS;
    for _ in rt.forever() {
        // Read first, so that no note is missed that a thread made before its end.
        let are_over = writer.trace.are_over();
        writer.written = 0;
        write_noted(rt, notes, writer, are_over)?;
        if are_over {
            break;
        }
        rest_ms = rest_after(writer.written, rest_ms);
        thread::sleep(rt, Duration::from_millis(rest_ms));
    }
    Ok(())
}

/// Runs a service. A separate thread writes the notes of the service's threads to the files of a folder. It does so fifty
/// times a second, or a hundred times if there is much to write. The calls of the exchange appear in the order in which
/// they began. The trace ends once `serve` has returned.
///
/// Returns the result of `serve`, or false if the thread was refused; then nothing is served. If a file can't be written
/// to, the trace ends with a line that says so, and the service continues.
pub fn write_trace_beside<R: Clock + Threads + Wait + Sync, D: Folder + Sync, F: FnOnce() -> bool>(
    rt: &R,
    disk: &D,
    trace: &Trace,
    plan: &Plan,
    settings: TraceSettings<'_>,
    notes: TraceNotes,
    file: TraceFile,
    serve: F,
) -> bool
    requires { F.pre serve }
{
    thread::scope(thread::scope_env(), rt, move |scope| {
        let is_written = scope
            .spawn(move || {
                let mut notes = notes;
                let written = match Writer::new(disk, trace, plan, settings, notes.alloc, file) {
                    Ok(mut writer) => write_rounds(rt, &mut notes, &mut writer),
                    Err(fault) => Err(fault),
                };
                if let Err(fault) = written {
                    trace.give_up(fault);
                }
            })
            .is_ok();
        let is_served = is_written && serve();
        trace.end();
        is_served
    })
}
