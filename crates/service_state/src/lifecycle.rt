//! The lifecycle of a service.
use exchange_core::ServiceStage;
use std::sync::atomic::{AtomicBool, AtomicU64, Ordering};

const SERVING: u64 = 0;

const DRAINING: u64 = 1;

const ENDED: u64 = 2;

/// The lifecycle of a service: whether it takes new calls, ends with the last call, stops, or has ended. All threads share
/// it.
#[derive(Drop)]
pub struct Lifecycle {
    stage: AtomicU64,
    // Whether new calls are rejected, and whether the workers end with the last leg.
    drains: AtomicBool,
    ends_with_calls: AtomicBool,
}

impl Lifecycle {
    // Returns the lifecycle of a running service.
    pub(crate) fn new() -> Lifecycle {
        Lifecycle {
            stage: AtomicU64::new(SERVING),
            drains: AtomicBool::new(false),
            ends_with_calls: AtomicBool::new(false),
        }
    }

    /// Sets whether new calls are rejected. Returns false after a graceful stop was requested: new calls are then still
    /// rejected.
    pub fn drain(&self, drains: bool) -> bool {
        if self.ends_with_calls() && !drains {
            return false;
        }
        self.drains.store(drains, Ordering::SeqCst);
        true
    }

    /// Returns whether new calls are rejected while current calls continue.
    pub fn drains(&self) -> bool {
        self.drains.load(Ordering::SeqCst)
    }

    /// Rejects new calls, and ends the workers once no leg is left.
    pub fn stop_gracefully(&self) {
        self.drains.store(true, Ordering::SeqCst);
        self.ends_with_calls.store(true, Ordering::SeqCst);
    }

    /// Returns whether the workers end once no leg is left.
    pub fn ends_with_calls(&self) -> bool {
        self.ends_with_calls.load(Ordering::SeqCst)
    }

    /// Hangs up all calls and then ends the service. If the service stops already, ends its workers at once.
    pub fn stop(&self) {
        let first = self
            .stage
            .compare_exchange(SERVING, DRAINING, Ordering::SeqCst, Ordering::SeqCst);
        if first.is_err() {
            self.end();
        }
    }

    /// Ends the workers: none begins another turn.
    pub fn end(&self) {
        self.stage.store(ENDED, Ordering::SeqCst);
    }

    /// Returns whether a stop was requested and the workers still run.
    pub fn is_stopping(&self) -> bool {
        self.stage.load(Ordering::SeqCst) == DRAINING
    }

    /// Returns whether the workers are to end.
    pub fn has_ended(&self) -> bool {
        self.stage.load(Ordering::SeqCst) == ENDED
    }

    // Returns the stage that the workers read.
    pub(crate) fn stage(&self) -> ServiceStage {
        if self.has_ended() {
            ServiceStage::Ended
        } else if self.is_stopping() {
            ServiceStage::Draining
        } else {
            ServiceStage::Serving
        }
    }
}
