//! Log lines with counts: each is due at most once a round.
ghost use Rattle.std.specs.Prelude.{◌≡◌, ◌+◌, ◌^◌, ◌⊎◌};
ghost use Rattle.service_state.specs.LogRounds.{due, begun};

/// Consecutive rounds of at least `period` milliseconds.
#[derive(Clone, Copy)]
pub struct Rounds {
    /// The shortest length of a round, in milliseconds.
    pub period: u64,
    /// The start of the current round, in milliseconds.
    pub since: u64,
}

impl Rounds {
    /// Returns the length of the current round in milliseconds if it is over at `now`, and begins the next. Returns `None`
    /// if it isn't over.
    pub fn due(&mut self, now: u64) -> Option<u64>
        ensures due { result ≡ due self.old.period self.old.since now }
        ensures next { self.new ≡ record self.old { since = begun self.old.period self.old.since now } }
    {
        let lasted = now.saturating_sub(self.since);
        if lasted < self.period {
            return None;
        }
        self.since = now;
        Some(lasted)
    }
}

/// Returns the increase since the count was `told`. Counts wrap to 0 after 2^64 - 1.
pub fn counted_since(told: u64, count: u64) -> u64
    ensures later { told + result ≡ count ⊎ told + result ≡ count + 2 ^ 64 }
{
    count.wrapping_sub(told)
}
