//! The outlets by which the threads of a service hand over rows, and the state that the writer reports of its file.
use crate::{Fault, Outlet, Trouble};
use call_records::{Backlog, CallRow};
use rtrb::{Consumer, RingBuffer};
use std::alloc::{AllocError, Global};
use std::sync::atomic::{AtomicBool, AtomicU64, Ordering};
use std::sync::{Mutex, MutexGuard, Wait};

// The number of rows in the ring between a thread and the writer, and the number that the thread keeps beyond it. Two
// workers with 1,000 ended calls a second each can run for four seconds without the writer.
const RING: usize = 256;

const KEPT: usize = 4096;

// The same of the second outlet, which a thread uses while the writer has locked the first. The writer never locks it while
// threads run, so a thread always finds a free one.
const SECOND_RING: usize = 64;

/// The state of the file of call records.
#[derive(Clone, Copy, Default)]
pub struct FileState {
    /// Rows written completely, modulo 2^64.
    pub written: u64,
    /// Rows that were handed over and are neither written nor lost.
    pub waiting: u64,
    /// Rows that were lost because too many waited, modulo 2^64.
    pub lost: u64,
    /// The file's trouble, if it has any.
    pub trouble: Option<Trouble>,
}

/// An outlet, and the other end of its ring.
#[derive(Drop)]
pub(crate) struct Seam {
    pub(crate) outlet: usize,
    pub(crate) ring: Consumer<CallRow>,
}

// Returns whether the outlet at a place is the second one of its thread.
fn is_second(place: usize) -> bool {
    place % 2 == 1
}

/// Two outlets for each thread that takes legs out, and the state that the writer reports of its file. All threads share
/// it.
pub struct CallOutlets {
    outlets: Vec<Mutex<Outlet<CallRow>>>,
    // Rows that threads handed over, and rows that were written.
    handed: AtomicU64,
    written: AtomicU64,
    // Rows that a thread lost, and rows that the writer lost.
    lost: AtomicU64,
    lost_by_writer: AtomicU64,
    trouble: AtomicU64,
    are_over: AtomicBool,
}

// Written out, so that an owner proves one call at its drop, not the drop of each field.
impl Drop for CallOutlets {
    fn drop(self) {
        let CallOutlets {
            outlets: _,
            handed: _,
            written: _,
            lost: _,
            lost_by_writer: _,
            trouble: _,
            are_over: _,
        } = self;
    }
}

// Returns an outlet with an empty ring of this size, and the ring's other end.
fn outlet(
    alloc: Global,
    ring: usize,
) -> Result<(Mutex<Outlet<CallRow>>, Consumer<CallRow>), AllocError> {
    let (producer, consumer) = RingBuffer::new(alloc, ring)?;
    let kept = Backlog::new(alloc, KEPT)?;
    Ok((Mutex::new(Outlet::new(producer, kept)), consumer))
}

// The number of bits that a fault takes.
const FAULT_BITS: u32 = 33;

// Encodes a file's trouble as a number: 0 for none.
fn number_of(trouble: Option<Trouble>) -> u64 {
    let (kind, fault) = match trouble {
        None => return 0,
        Some(Trouble::Open(fault)) => (1, fault),
        Some(Trouble::Write(fault)) => (2, fault),
        Some(Trouble::Sync(fault)) => (3, fault),
    };
    kind << FAULT_BITS | fault.number()
}

// Decodes a file's trouble.
fn trouble_of(number: u64) -> Option<Trouble> {
    let fault = Fault::of_number(number & ((1 << FAULT_BITS) - 1))?;
    match number >> FAULT_BITS {
        1 => Some(Trouble::Open(fault)),
        2 => Some(Trouble::Write(fault)),
        3 => Some(Trouble::Sync(fault)),
        _ => None,
    }
}

impl CallOutlets {
    /// Returns the outlets for `threads` threads, and the other ends of their rings.
    pub(crate) fn new(
        alloc: Global,
        threads: usize,
    ) -> Result<(CallOutlets, Vec<Seam>), AllocError> {
        let mut outlets = Vec::new(alloc);
        let mut seams = Vec::new(alloc);
        for place in 0..threads.saturating_mul(2) {
            let room = if is_second(place) { SECOND_RING } else { RING };
            let (outlet, ring) = outlet(alloc, room)?;
            let seam = Seam {
                outlet: place,
                ring,
            };
            if outlets.push(outlet).is_err() || seams.push(seam).is_err() {
                return Err(AllocError);
            }
        }
        let shared = CallOutlets {
            outlets,
            handed: AtomicU64::new(0),
            written: AtomicU64::new(0),
            lost: AtomicU64::new(0),
            lost_by_writer: AtomicU64::new(0),
            trouble: AtomicU64::new(0),
            are_over: AtomicBool::new(false),
        };
        Ok((shared, seams))
    }

    // Returns a free outlet of a thread. The thread itself uses neither at this time, and the writer locks at most the
    // first.
    fn free_outlet(&self, thread: u16) -> Option<MutexGuard<'_, Outlet<CallRow>>> {
        let first = usize::from(thread) * 2;
        for place in [first, first + 1] {
            if let Some(outlet) = self.outlets.get(place) {
                if let Some(outlet) = outlet.try_lock() {
                    return Some(outlet);
                }
            }
        }
        None
    }

    /// Hands a row over without waiting. A thread is named by its place, and may not make two of these calls at once.
    /// Without room the row is lost, and counted.
    pub fn hand_over(&self, thread: u16, row: CallRow) {
        // Counted first, so that the written rows are never more than those handed over.
        self.handed.fetch_add(1, Ordering::SeqCst);
        let is_kept = match self.free_outlet(thread) {
            Some(mut outlet) => outlet.hand_over(row),
            None => false,
        };
        if !is_kept {
            self.handed.fetch_sub(1, Ordering::SeqCst);
            self.lost.fetch_add(1, Ordering::Relaxed);
        }
    }

    /// Returns the state of the file, as the threads and the writer last reported it. Contracts don't mention it.
    pub fn state(&self) -> FileState {
        let lost = self.lost.load(Ordering::Relaxed);
        let lost_by_writer = self.lost_by_writer.load(Ordering::SeqCst);
        let written = self.written.load(Ordering::SeqCst);
        // Read last, so that it isn't less than the sum of the other counts.
        let handed = self.handed.load(Ordering::SeqCst);
        FileState {
            written,
            waiting: handed.wrapping_sub(written).wrapping_sub(lost_by_writer),
            lost: lost.wrapping_add(lost_by_writer),
            trouble: trouble_of(self.trouble.load(Ordering::Relaxed)),
        }
    }

    /// Ends the outlets: no thread hands a row over after this. The writer writes the rest and ends.
    pub fn end(&self) {
        self.are_over.store(true, Ordering::SeqCst);
    }

    /// Returns whether the outlets have ended.
    pub(crate) fn are_over(&self) -> bool {
        self.are_over.load(Ordering::SeqCst)
    }

    /// Stores the writer's report: its written and lost rows, and the file's trouble. It doesn't count waiting rows.
    pub(crate) fn tell(&self, state: FileState) {
        self.written.store(state.written, Ordering::SeqCst);
        self.lost_by_writer.store(state.lost, Ordering::SeqCst);
        self.trouble
            .store(number_of(state.trouble), Ordering::Relaxed);
    }

    /// Returns the rows that an outlet keeps, if it keeps any, and the number of rows in its ring, which came before them.
    /// A second outlet is read only after the end of the outlets.
    pub(crate) fn take_kept<R: Wait>(
        &self,
        rt: &R,
        alloc: Global,
        seam: &mut Seam,
        are_over: bool,
    ) -> Option<(usize, Backlog<CallRow>)> {
        if is_second(seam.outlet) && !are_over {
            return None;
        }
        let outlet = self.outlets.get(seam.outlet)?;
        if outlet.lock(rt).kept() == 0 {
            return None;
        }
        // Memory is reserved before the lock, so that no thread waits for it.
        let spare = Backlog::new(alloc, KEPT).ok()?;
        let mut outlet = outlet.lock(rt);
        let before = seam.ring.slots();
        Some((before, outlet.take_kept(spare)))
    }
}
