//! Moments by the clock of the system.
use std::time::{Clock, Instant};
use udp_workers::TurnClock;

/// Returns the milliseconds since an exchange was opened. If the clock can't be read, it returns the last ones again.
#[derive(Drop)]
pub struct SinceOpening<'t, R: Clock> {
    pub(crate) rt: &'t R,
    pub(crate) opened: Instant,
    // The last moment that it returned.
    pub(crate) last: u64,
}

impl<'t, R: Clock> TurnClock for SinceOpening<'t, R> {
    ghost use Rattle.std.specs.Prelude.{◌≡◌};

    // It keeps the moment.
    ghost gave = { λ _ now clock. now ≡ clock.last };

    // If the clock can't be read, the moment stays the same.
    fn now(&mut self) -> u64 {
        if let Ok(elapsed) = self.opened.elapsed(self.rt) {
            if let Ok(now) = u64::try_from(elapsed.as_millis()) {
                self.last = now;
            }
        }
        self.last
    }
}
