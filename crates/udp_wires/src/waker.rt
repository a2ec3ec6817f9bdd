//! Wakes the thread that waits at a wire.
use mio::Waker;

/// Wakes the wire that gave it, from any thread.
#[derive(Drop)]
pub struct WireWaker {
    waker: Waker,
}

impl WireWaker {
    /// Returns a waker over one of the wire's poll.
    pub(crate) fn over(waker: Waker) -> WireWaker {
        WireWaker { waker }
    }

    /// Ends the current wait, or otherwise the next one, unless `receive` comes before it. It doesn't block. If the system
    /// refuses it, the wire continues to wait.
    pub fn wake(&self) {
        let _woken = self.waker.wake();
    }
}
