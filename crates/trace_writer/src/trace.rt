//! State that the threads of a service share with the writer of its trace.
use crate::calls::Calls;
use crate::handed::Handed;
use crate::mark::Batch;
use call_files::Fault;
use std::alloc::{AllocError, Global};
use std::sync::atomic::{AtomicBool, AtomicU64, Ordering};
use std::sync::{Mutex, Wait};

/// The state of the trace.
#[derive(Clone, Copy, Default)]
pub struct TraceState {
    /// Octets written, modulo 2^64.
    pub written: u64,
    /// Calls of the exchange that weren't noted because the writer was too slow, modulo 2^64.
    pub lost: u64,
    /// The reason why the trace ended before the service, if it did.
    pub fault: Option<Fault>,
    /// Calls of the exchange that weren't written within five seconds of the end of the service.
    pub left: u64,
}

/// The notes of the threads, and the state of the writer's files. All threads share it.
pub struct Trace {
    pub(crate) calls: Calls,
    // The number of workers in a turn.
    turns: AtomicU64,
    // By thread: its notes, until the writer takes them.
    lanes: Vec<Mutex<Handed>>,
    // By number: 1 more than the count of numbers returned before it was last returned; 0 if it never was.
    freed: Vec<AtomicU64>,
    legs: AtomicU64,
    // The serial of the first leg.
    serial: AtomicU64,
    // Whether all peers drain.
    drains: AtomicBool,
    wants_rest: AtomicBool,
    has_ended: AtomicBool,
    are_over: AtomicBool,
    written: AtomicU64,
    lost: AtomicU64,
    fault: AtomicU64,
    left: AtomicU64,
}

// Written out, so that an owner proves one call at its drop, not the drop of each field.
impl Drop for Trace {
    fn drop(self) {
        let Trace {
            calls: _,
            turns: _,
            lanes: _,
            freed: _,
            legs: _,
            serial: _,
            drains: _,
            wants_rest: _,
            has_ended: _,
            are_over: _,
            written: _,
            lost: _,
            fault: _,
            left: _,
        } = self;
    }
}

impl Trace {
    /// Returns a trace of `threads` threads without notes. The exchange has the local numbers 1 ..= `numbers`.
    ///
    /// Returns `AllocError` if a request for memory was refused.
    pub fn new(alloc: Global, threads: usize, numbers: u16) -> Result<Trace, AllocError> {
        let mut lanes = Vec::new(alloc);
        for _ in 0..threads {
            let handed = Mutex::new(Handed::new(alloc)?);
            if lanes.push(handed).is_err() {
                return Err(AllocError);
            }
        }
        Ok(Trace {
            calls: Calls::new(),
            turns: AtomicU64::new(0),
            lanes,
            freed: never_freed(alloc, numbers)?,
            legs: AtomicU64::new(0),
            serial: AtomicU64::new(0),
            drains: AtomicBool::new(false),
            wants_rest: AtomicBool::new(false),
            has_ended: AtomicBool::new(false),
            are_over: AtomicBool::new(false),
            written: AtomicU64::new(0),
            lost: AtomicU64::new(0),
            fault: AtomicU64::new(0),
            left: AtomicU64::new(0),
        })
    }

    /// Sets whether all peers drain.
    pub(crate) fn set_draining(&self, drains: bool) {
        self.drains.store(drains, Ordering::SeqCst);
    }

    /// Returns whether all peers drain.
    pub(crate) fn drains(&self) -> bool {
        self.drains.load(Ordering::SeqCst)
    }

    /// The first leg of the service has this serial; 0 if nobody says so. No call is open yet.
    pub fn tell_serial(&self, serial: u64) {
        self.serial.store(serial, Ordering::SeqCst);
    }

    /// The serial of the first leg.
    pub(crate) fn first_serial(&self) -> u64 {
        self.serial.load(Ordering::SeqCst)
    }

    /// Notes that this local number is free again, behind the others: its leg was taken out, or it was skipped, which is
    /// reserved and returned at once.
    pub fn free(&self, number: u16) {
        if let Some(freed) = self.freed.get(usize::from(number)) {
            let legs = self.legs.fetch_add(1, Ordering::SeqCst);
            freed.store(legs.wrapping_add(1), Ordering::SeqCst);
        }
    }

    /// Returns whether a local number was returned.
    pub(crate) fn has_freed(&self) -> bool {
        self.legs.load(Ordering::SeqCst) != 0
    }

    /// Returns the state of the trace, as the threads and the writer last reported it. Contracts don't mention it.
    pub fn state(&self) -> TraceState {
        TraceState {
            written: self.written.load(Ordering::SeqCst),
            lost: self.lost.load(Ordering::SeqCst),
            fault: Fault::of_number(self.fault.load(Ordering::SeqCst)),
            left: self.left.load(Ordering::SeqCst),
        }
    }

    /// Returns whether the writer would begin a new file if no call were up. It wouldn't once the trace has ended.
    pub fn wants_rest(&self) -> bool {
        self.wants_rest.load(Ordering::SeqCst) && !self.has_ended()
    }

    /// Ends the notes: no thread notes anything after this. The writer writes the rest and ends.
    pub fn end(&self) {
        self.are_over.store(true, Ordering::SeqCst);
    }

    pub(crate) fn are_over(&self) -> bool {
        self.are_over.load(Ordering::SeqCst)
    }

    /// Returns whether the writer has given up.
    pub(crate) fn has_ended(&self) -> bool {
        self.has_ended.load(Ordering::SeqCst)
    }

    pub(crate) fn ask_for_rest(&self, wants: bool) {
        self.wants_rest.store(wants, Ordering::SeqCst);
    }

    /// Counts octets written.
    pub(crate) fn count_written(&self, octets: u64) {
        self.written.fetch_add(octets, Ordering::SeqCst);
    }

    /// Counts a call that wasn't noted.
    pub(crate) fn count_lost(&self) {
        self.lost.fetch_add(1, Ordering::SeqCst);
    }

    /// Records that of the calls of the exchange only the first `written` were written.
    pub(crate) fn leave_rest(&self, written: u64) {
        let begun = self.calls.begun_if_none_is_open().unwrap_or(written);
        self.left
            .store(begun.saturating_sub(written), Ordering::SeqCst);
    }

    /// Records that the writer gave up, and why.
    pub(crate) fn give_up(&self, fault: Fault) {
        self.fault.store(fault.number(), Ordering::SeqCst);
        self.has_ended.store(true, Ordering::SeqCst);
    }

    pub(crate) fn begin_turn(&self) {
        self.turns.fetch_add(1, Ordering::SeqCst);
    }

    pub(crate) fn end_turn(&self) {
        self.turns.fetch_sub(1, Ordering::SeqCst);
    }

    /// Returns whether a worker is in a turn.
    pub(crate) fn has_turn(&self) -> bool {
        self.turns.load(Ordering::SeqCst) > 0
    }

    /// Hands over the notes of a thread.
    pub(crate) fn hand_over<R: Wait>(&self, rt: &R, thread: usize, noted: &mut Batch) {
        if let Some(handed) = self.lanes.get(thread) {
            handed.lock(rt).hand_over(noted);
        }
    }

    /// Gives a thread back the last batch that it handed over, to continue it, if the writer has another to take.
    pub(crate) fn resume<R: Wait>(&self, rt: &R, thread: usize, noted: &mut Batch) {
        if let Some(handed) = self.lanes.get(thread) {
            handed.lock(rt).resume(noted);
        }
    }

    /// Takes the batches that a thread has handed over, and gives back those that are written.
    pub(crate) fn trade<R: Wait>(&self, rt: &R, thread: usize, batches: &mut Vec<Batch>) {
        if let Some(handed) = self.lanes.get(thread) {
            handed.lock(rt).trade(batches);
        }
    }

    /// Returns 1 more than the count of legs taken out before the last leg of a number; 0 if it had none.
    pub(crate) fn freed(&self, number: u16) -> u64 {
        match self.freed.get(usize::from(number)) {
            Some(freed) => freed.load(Ordering::SeqCst),
            None => 0,
        }
    }
}

// Returns a list in which no number was returned.
fn never_freed(alloc: Global, numbers: u16) -> Result<Vec<AtomicU64>, AllocError> {
    let mut freed = Vec::new(alloc);
    for _ in 0..=numbers {
        if freed.push(AtomicU64::new(0)).is_err() {
            return Err(AllocError);
        }
    }
    Ok(freed)
}
