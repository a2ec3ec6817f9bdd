//! The wakers of a service's workers.
use peer_plan::WorkerId;
use std::alloc::{AllocError, Global};
use std::sync::OnceLock;
use udp_wires::WireWaker;

/// The waker of each worker that has one, by the worker's place in the plan. All threads share it, and none waits for another.
#[derive(Drop)]
pub(crate) struct WakerTable {
    slots: Vec<OnceLock<WireWaker>>,
}

impl WakerTable {
    /// Returns a table in which no worker has a waker.
    ///
    /// `AllocError`: a request for memory was refused.
    pub(crate) fn new(alloc: Global, workers: usize) -> Result<WakerTable, AllocError> {
        let mut slots = Vec::with_capacity(alloc, workers)?;
        for _ in 0..workers {
            if slots.push(OnceLock::new()).is_err() {
                return Err(AllocError);
            }
        }
        Ok(WakerTable { slots })
    }

    /// Keeps the waker of the worker at this place, unless it has one.
    pub(crate) fn keep(&self, worker: WorkerId, waker: WireWaker) {
        if let Some(slot) = self.slots.get(worker.index()) {
            let _kept = slot.try_set(waker);
        }
    }

    /// Wakes the worker at this place, if it has a waker.
    pub(crate) fn wake(&self, worker: WorkerId) {
        if let Some(slot) = self.slots.get(worker.index()) {
            if let Some(waker) = slot.get() {
                waker.wake();
            }
        }
    }

    /// Wakes each worker that has a waker.
    pub(crate) fn wake_all(&self) {
        for slot in &self.slots {
            if let Some(waker) = slot.get() {
                waker.wake();
            }
        }
    }
}
