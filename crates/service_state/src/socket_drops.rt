//! The datagrams that the system dropped at the workers' sockets, as they were last counted.
ghost use Rattle.std.specs.Prelude.{◌≡◌, ◌⊎◌, IfOk, vec_len};

use std::alloc::{AllocError, Global};
use std::marker::Model;
use std::sync::atomic::{AtomicBool, AtomicU64, Ordering};

/// The datagrams dropped at a worker's sockets.
#[derive(Drop)]
pub struct DropCount {
    /// The place of the worker, in digits.
    pub worker: String,
    /// None if the table has none of its sockets.
    pub drops: Option<u64>,
}

/// The reason why no drops are known.
#[derive(Clone, Copy, Debug, PartialEq, Eq)]
pub enum NoDrops {
    /// They weren't counted yet.
    NotCounted,
    /// The system's table of UDP sockets can't be read.
    NoTable,
    /// The table is longer than the thread that counts reads.
    TooManySockets,
    /// A request for memory was refused.
    NoMemory,
}

// The drops of a worker.
#[derive(Drop)]
struct DropMark {
    // Whether the table has a socket of the worker.
    is_known: AtomicBool,
    drops: AtomicU64,
}

const COUNTED: u64 = 0;

const NOT_COUNTED: u64 = 1;

const NO_TABLE: u64 = 2;

const TOO_MANY_SOCKETS: u64 = 3;

const NO_MEMORY: u64 = 4;

/// The drops at the sockets of each worker. One thread counts them, and the others read them without waiting. Contracts see
/// the number of workers.
#[derive(Drop)]
pub struct SocketDrops {
    marks: Vec<DropMark>,
    // Whether they are known, or why not.
    state: AtomicU64,
    // Whether the thread that counts is to end.
    is_over: AtomicBool,
}

impl Model for SocketDrops {
    ghost use Rattle.std.specs.Prelude.{ℕ, vec_len};

    ghost Value = { ℕ };

    ghost view = { λ drops. vec_len drops.marks };
}

impl SocketDrops {
    /// Returns the drops of so many workers before they were counted.
    ///
    /// `AllocError`: a request for memory was refused.
    pub fn new(alloc: Global, workers: usize) -> Result<SocketDrops, AllocError>
        ensures { IfOk result (λ drops. drops ≡ workers) }
    {
        let mut marks = Vec::new(alloc);
        for _ in 0..workers {
            let mark = DropMark {
                is_known: AtomicBool::new(false),
                drops: AtomicU64::new(0),
            };
            if marks.push(mark).is_err() {
                return Err(AllocError);
            }
        }
        Ok(SocketDrops {
            marks,
            state: AtomicU64::new(NOT_COUNTED),
            is_over: AtomicBool::new(false),
        })
    }

    /// Returns why no drops are known, or `None` if they are.
    pub fn unknown(&self) -> Option<NoDrops> {
        match self.state.load(Ordering::SeqCst) {
            COUNTED => None,
            NOT_COUNTED => Some(NoDrops::NotCounted),
            NO_TABLE => Some(NoDrops::NoTable),
            TOO_MANY_SOCKETS => Some(NoDrops::TooManySockets),
            _ => Some(NoDrops::NoMemory),
        }
    }

    /// Returns the drops at each worker's sockets, in order, or an empty list if they aren't known.
    ///
    /// `AllocError`: a request for memory was refused.
    pub fn counts(&self, alloc: Global) -> Result<Vec<DropCount>, AllocError>
        ensures { IfOk result (λ counts. (vec_len counts ≡ 0) ⊎ (vec_len counts ≡ self.now)) }
    {
        if self.unknown().is_some() {
            return Ok(Vec::new(alloc));
        }
        self.known_counts(alloc)
    }

    // Returns the drops that were last counted.
    fn known_counts(&self, alloc: Global) -> Result<Vec<DropCount>, AllocError>
        ensures { IfOk result (λ counts. vec_len counts ≡ self.now) }
    {
        let mut counts = Vec::new(alloc);
        for place in 0..self.marks.len() {
            let worker = format!(in alloc; "{place}")?;
            let drops = self.drops_at(place);
            if counts.push(DropCount { worker, drops }).is_err() {
                return Err(AllocError);
            }
        }
        Ok(counts)
    }

    // Returns the drops of the worker at this place, if the table has a socket of it.
    fn drops_at(&self, place: usize) -> Option<u64> {
        let mark = self.marks.get(place)?;
        match mark.is_known.load(Ordering::SeqCst) {
            true => Some(mark.drops.load(Ordering::SeqCst)),
            false => None,
        }
    }

    // Keeps the drops of the worker at this place.
    pub(crate) fn note(&self, place: usize, drops: Option<u64>) {
        if let Some(mark) = self.marks.get(place) {
            mark.drops.store(drops.unwrap_or(0), Ordering::SeqCst);
            mark.is_known.store(drops.is_some(), Ordering::SeqCst);
        }
    }

    // Keeps whether all drops are known now, or why not.
    pub(crate) fn set_unknown(&self, unknown: Option<NoDrops>) {
        let state = match unknown {
            None => COUNTED,
            Some(NoDrops::NotCounted) => NOT_COUNTED,
            Some(NoDrops::NoTable) => NO_TABLE,
            Some(NoDrops::TooManySockets) => TOO_MANY_SOCKETS,
            Some(NoDrops::NoMemory) => NO_MEMORY,
        };
        self.state.store(state, Ordering::SeqCst);
    }

    // Ends the thread that counts.
    pub(crate) fn end(&self) {
        self.is_over.store(true, Ordering::SeqCst);
    }

    // Returns whether the thread that counts is to end.
    pub(crate) fn is_over(&self) -> bool {
        self.is_over.load(Ordering::SeqCst)
    }
}
