//! Moments of a leg.
ghost use Rattle.std.specs.Prelude.{◌≡◌};
ghost use Rattle.call_records.specs.Courses.{ms_between};

use crate::side::Side;

/// A moment of a leg, by the timestamp of a full frame ("Full Frames").
#[derive(Clone, Copy)]
pub struct LegMoment {
    /// Milliseconds since the leg was opened, modulo 2^32.
    pub ms: u32,
    /// The side whose clock measured it: the sender of the frame.
    pub clock: Side,
}

impl LegMoment {
    // Returns the milliseconds from this moment to another of the same clock, if that isn't earlier.
    pub(crate) fn ms_to(self, later: LegMoment) -> Option<u32>
        ensures { result ≡ ms_between self later }
    {
        if self.clock.is(later.clock) && self.ms <= later.ms {
            Some(later.ms - self.ms)
        } else {
            None
        }
    }
}
