//! The time until which a tick has nothing to do ("Message Transport": retransmission; "PING").
ghost use Rattle.std.specs.Prelude.{◌≡◌, ℕ, ◌+◌, ◌^◌, ◌<◌, true, false};
ghost use Rattle.leg_machine.specs.Leg.{is_overdue};
ghost use Rattle.leg_machine.specs.Ticks as ticks;

use crate::machine::Machine;

impl Machine {
    ghost use Rattle.leg_machine.specs.Leg.{leg_of};

    // Returns the first moment at which a held frame is due, as far as 64 bits go.
    fn due_from(&self) -> u64
        ensures before { (now : ℕ) → now < result → ticks.is_none_due (leg_of self.now) now ≡ true }
        ensures then { result + 1 < 2 ^ 64 → ticks.is_none_due (leg_of self.now) result ≡ false }
    {
        let mut first = u64::MAX;
        for place in 0..self.window.held_len() {
            let sent = self.window.held_frame(place).last;
            first = first.min(sent.saturating_add(self.rules.retry_ms));
        }
        first
    }

    // Returns the first moment at which a PING is due, as far as 64 bits go.
    fn pings_from(&self) -> u64
        ensures before { (now : ℕ) → now < result → ticks.must_ping (leg_of self.now) now ≡ false }
        ensures then { result + 1 < 2 ^ 64 → ticks.must_ping (leg_of self.now) result ≡ true }
    {
        let has_room = self.window.held_len() < self.local_room();
        if self.stage.is_talking() && has_room && self.rules.ping_ms != 0 {
            self.pinged.saturating_add(self.rules.ping_ms)
        } else {
            u64::MAX
        }
    }

    // Returns the first moment at which the leg's challenge wasn't answered in time, as far as 64 bits go.
    fn overdue_from(&self) -> u64
        ensures before { (now : ℕ) → now < result → is_overdue (leg_of self.now) now ≡ false }
        ensures then { result + 1 < 2 ^ 64 → is_overdue (leg_of self.now) result ≡ true }
    {
        match self.rules.challenge_ms {
            Some(ms) => {
                if self.is_challenged() {
                    self.opened.saturating_add(ms)
                } else {
                    u64::MAX
                }
            }
            None => u64::MAX,
        }
    }

    /// Returns the first moment, in milliseconds, at which a tick has work. The largest moment means any
    /// later ones, and for none.
    pub fn idle_until(&self) -> u64
        ensures before { (now : ℕ) → now < result → ticks.is_idle (leg_of self.now) now ≡ true }
        ensures then { result + 1 < 2 ^ 64 → ticks.is_idle (leg_of self.now) result ≡ false }
    {
        if self.stage.is_ended() {
            return u64::MAX;
        }
        if self.is_record_full() || self.must_hang_up() {
            return 0;
        }
        self.due_from()
            .min(self.pings_from())
            .min(self.overdue_from())
    }
}
