//! The counters of a peer of a service.
use crate::authentication::AuthFailure;
use crate::reasons::REASONS;
use exchange_core::{Refusal, Rejection};
use std::alloc::{AllocError, Global};
use std::iter;
use std::sync::atomic::{AtomicU64, Ordering};

/// The reasons for which a peer's datagram is refused: all but `Stranger`.
pub const REFUSALS: [Refusal; 18] = [
    Refusal::StepsSpent,
    Refusal::TooLong,
    Refusal::Short,
    Refusal::MetaCommand,
    Refusal::EntryCut,
    Refusal::NoSource,
    Refusal::Cut,
    Refusal::NoToken,
    Refusal::NoCall,
    Refusal::RecordFull,
    Refusal::Unaddressed,
    Refusal::NewUnacknowledged,
    Refusal::SerialsSpent,
    Refusal::NoNumber,
    Refusal::NumberBusy,
    Refusal::Draining,
    Refusal::RemoteBusy,
    Refusal::Memory,
];

/// The rejections that steps report of a peer's datagrams.
pub const REJECTIONS: [Rejection; 6] = [
    Rejection::NoNumber,
    Rejection::Draining,
    Rejection::Registration,
    Rejection::CallToken,
    Rejection::ManyEntries,
    Rejection::Reflection,
];

// The number of datagrams refused for one reason.
#[derive(Drop)]
struct RefusalCount {
    refusal: Refusal,
    count: AtomicU64,
}

// The counters of a peer since the service began, modulo 2^64.
#[derive(Drop)]
pub(crate) struct PeerMarks {
    // The moment of its last sign of life plus 1, in milliseconds; 0 if there was none.
    pub(crate) heard: AtomicU64,
    pub(crate) received: AtomicU64,
    pub(crate) refused: AtomicU64,
    by_refusal: Vec<RefusalCount>,
    // In the order of `REASONS`.
    by_reason: Vec<AtomicU64>,
    without_number: AtomicU64,
    while_draining: AtomicU64,
    registrations: AtomicU64,
    without_token: AtomicU64,
    many_entries: AtomicU64,
    reflections: AtomicU64,
    wrong_answers: AtomicU64,
    without_answer: AtomicU64,
    pub(crate) turned_away: AtomicU64,
    pub(crate) sent: AtomicU64,
    pub(crate) lost: AtomicU64,
    pub(crate) legs_ended: AtomicU64,
}

/// The counters of a peer since the service began, modulo 2^64: its datagrams, and its ended legs.
#[derive(Clone, Copy, Default)]
pub struct PeerMarksRead {
    /// The moment of its last sign of life, in milliseconds since the exchange was opened.
    pub heard: Option<u64>,
    pub received: u64,
    /// The number of these that were turned away.
    pub refused: u64,
    pub turned_away: u64,
    pub sent: u64,
    pub lost: u64,
    pub legs_ended: u64,
}

// Returns a count of 0 for each reason of a refusal.
fn refusal_counts(alloc: Global) -> Result<Vec<RefusalCount>, AllocError> {
    let mut counts = Vec::with_capacity(alloc, REFUSALS.len())?;
    for refusal in &REFUSALS {
        let (refusal, count) = (*refusal, AtomicU64::new(0));
        if counts.push(RefusalCount { refusal, count }).is_err() {
            return Err(AllocError);
        }
    }
    Ok(counts)
}

// Returns a count of 0 for each reason of a failed call.
fn reason_counts(alloc: Global) -> Result<Vec<AtomicU64>, AllocError> {
    let mut counts = Vec::with_capacity(alloc, REASONS.len())?;
    for _ in &REASONS {
        if counts.push(AtomicU64::new(0)).is_err() {
            return Err(AllocError);
        }
    }
    Ok(counts)
}

impl PeerMarks {
    // Returns the counters of a peer before its first datagram.
    pub(crate) fn new(alloc: Global) -> Result<PeerMarks, AllocError> {
        Ok(PeerMarks {
            heard: AtomicU64::new(0),
            received: AtomicU64::new(0),
            refused: AtomicU64::new(0),
            by_refusal: refusal_counts(alloc)?,
            by_reason: reason_counts(alloc)?,
            without_number: AtomicU64::new(0),
            while_draining: AtomicU64::new(0),
            registrations: AtomicU64::new(0),
            without_token: AtomicU64::new(0),
            many_entries: AtomicU64::new(0),
            reflections: AtomicU64::new(0),
            wrong_answers: AtomicU64::new(0),
            without_answer: AtomicU64::new(0),
            turned_away: AtomicU64::new(0),
            sent: AtomicU64::new(0),
            lost: AtomicU64::new(0),
            legs_ended: AtomicU64::new(0),
        })
    }

    // Returns the count of datagrams refused for this reason.
    pub(crate) fn refused_for(&self, refusal: Refusal) -> Option<&AtomicU64> {
        for it in &self.by_refusal {
            if it.refusal == refusal {
                return Some(&it.count);
            }
        }
        None
    }

    // Returns the count of datagrams with this rejection.
    pub(crate) fn rejected(&self, rejection: Rejection) -> &AtomicU64 {
        match rejection {
            Rejection::NoNumber => &self.without_number,
            Rejection::Draining => &self.while_draining,
            Rejection::Registration => &self.registrations,
            Rejection::CallToken => &self.without_token,
            Rejection::ManyEntries => &self.many_entries,
            Rejection::Reflection => &self.reflections,
        }
    }

    // Returns the count of calls that failed for the reason of this name.
    pub(crate) fn failed(&self, reason: &str) -> Option<&AtomicU64> {
        for (name, count) in iter::zip(&REASONS, &self.by_reason) {
            if *name == reason {
                return Some(count);
            }
        }
        None
    }

    // Returns the count of calls that failed to authenticate in this way.
    pub(crate) fn unauthenticated(&self, failure: AuthFailure) -> &AtomicU64 {
        match failure {
            AuthFailure::WrongAnswer => &self.wrong_answers,
            AuthFailure::NoAnswer => &self.without_answer,
        }
    }

    pub(crate) fn read(&self) -> PeerMarksRead {
        PeerMarksRead {
            heard: self.heard.load(Ordering::Relaxed).checked_sub(1),
            received: self.received.load(Ordering::Relaxed),
            refused: self.refused.load(Ordering::Relaxed),
            turned_away: self.turned_away.load(Ordering::Relaxed),
            sent: self.sent.load(Ordering::Relaxed),
            lost: self.lost.load(Ordering::Relaxed),
            legs_ended: self.legs_ended.load(Ordering::Relaxed),
        }
    }
}

// Adds 1, modulo 2^64.
pub(crate) fn count_one(count: &AtomicU64) {
    count.fetch_add(1, Ordering::Relaxed);
}
