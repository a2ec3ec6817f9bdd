//! The calls of an exchange, by all threads, as they begin and end.
use std::sync::atomic::{AtomicU64, Ordering};

// An open call counts 1, and a call that has begun counts this.
const BEGUN: u64 = 0x1_0000;

/// The number of calls that have begun, and the number of open ones. Both are in one number, so that a call draws its own
/// at one moment.
#[derive(Drop)]
pub(crate) struct Calls {
    counts: AtomicU64,
}

/// An open call.
#[derive(Clone, Copy)]
pub(crate) struct OpenCall {
    /// The number of calls that had begun before it.
    pub(crate) number: u64,
    /// Whether another one was open when it began.
    pub(crate) is_beside: bool,
}

impl Calls {
    pub(crate) fn new() -> Calls {
        Calls {
            counts: AtomicU64::new(0),
        }
    }

    /// Begins a call.
    pub(crate) fn begin(&self) -> OpenCall {
        let before = self.counts.fetch_add(BEGUN + 1, Ordering::SeqCst);
        OpenCall {
            number: before / BEGUN,
            is_beside: before % BEGUN > 0,
        }
    }

    /// Ends a call. Returns whether another call was open, or began, while it was.
    pub(crate) fn end(&self, call: OpenCall) -> bool {
        let before = self.counts.fetch_sub(1, Ordering::SeqCst);
        call.is_beside || before / BEGUN != call.number.wrapping_add(1)
    }

    /// Ends a call, and begins the same thread's next one at the same moment. Returns whether another call was open, or began,
    /// while the first was.
    pub(crate) fn follow(&self, call: OpenCall) -> (bool, OpenCall) {
        let before = self.counts.fetch_add(BEGUN, Ordering::SeqCst);
        let number = before / BEGUN;
        let next = OpenCall {
            number,
            is_beside: before % BEGUN > 1,
        };
        (
            call.is_beside || number != call.number.wrapping_add(1),
            next,
        )
    }

    /// Returns the number of calls that have begun, if all of them have ended.
    pub(crate) fn begun_if_none_is_open(&self) -> Option<u64> {
        let counts = self.counts.load(Ordering::SeqCst);
        if counts % BEGUN > 0 {
            return None;
        }
        Some(counts / BEGUN)
    }
}
