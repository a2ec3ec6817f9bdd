//! The effect of a tick on a leg ("Message Transport": retransmission; "PING").
ghost use Rattle.std.specs.Prelude.{◌≡◌, ◌+◌, ◌<◌, ◌≤◌, ◌++◌, [], true, false, length, map};
ghost use Rattle.iax_frames.specs.FullFrame.{spelling};
ghost use Rattle.seq_window.specs.Window.{held_count, entry_count};
ghost use Rattle.leg_machine.specs.Leg.{is_record_full};
ghost use Rattle.leg_machine.specs.Ticks as ticks;

use crate::machine::Machine;
use call_signals::{Failure, Replies, ReplyFrame, Stage};

impl Machine {
    ghost use Rattle.leg_machine.specs.Leg.{leg_of, whole_leg, capacity_of, HasRoom};

    /// Returns whether a HANGUP is due: the leg is doomed, isn't over, and its window has room for one more frame.
    pub fn must_hang_up(&self) -> bool
        ensures due { result ≡ ticks.must_hang_up (leg_of self.now) }
        ensures room { result ≡ true → held_count self.now.window.state < self.now.window.state.width }
    {
        self.doomed && !self.stage.is_over() && !self.window.is_full()
    }

    fn is_ping_time(&self, now: u64) -> bool
        ensures { result ≡ ticks.is_ping_time (leg_of self.now) now }
    {
        let ping_ms = self.rules.ping_ms;
        let is_due = self.pinged <= now && ping_ms <= now - self.pinged;
        ping_ms != 0 && is_due
    }

    /// Returns whether a PING is due at the moment `now`, in milliseconds ("PING"). It is due if the leg is talking with
    /// local room, and `ping_ms`, which isn't 0, is over since the last PING or the opening.
    pub fn must_ping(&self, now: u64) -> bool
        ensures { result ≡ ticks.must_ping (leg_of self.now) now }
    {
        let is_ping_time = self.is_ping_time(now);
        let has_room = self.window.held_len() < self.local_room();
        self.stage.is_talking() && has_room && is_ping_time
    }

    /// Makes room for two entries if a HANGUP or a PING is due at the moment `now`, in milliseconds. Returns whether it
    /// did.
    pub fn grow(&mut self, now: u64) -> bool
        ensures leg { leg_of self.new ≡ leg_of self.old }
        ensures room { result ≡ true → is_record_full (leg_of self.new) ≡ false → HasRoom 2 self.new }
        ensures had_room { 2 ≤ self.old.window.spare → result ≡ false →
            (ticks.must_hang_up (leg_of self.old) ≡ false) × (ticks.must_ping (leg_of self.old) now ≡ false) }
        ensures capacity { capacity_of (whole_leg self.old) ≤ capacity_of (whole_leg self.new) }
    {
        let hangs_up = self.must_hang_up();
        let pings = self.must_ping(now);
        if !hangs_up && !pings {
            return false;
        }
        self.window.reserve(2).is_ok()
    }

    // Hangs up a doomed leg. Returns the number of skipped frames.
    fn hang_up(&mut self, grown: bool, now: u64, outs: &mut Replies) -> u32
        requires room { grown ≡ true → HasRoom 2 self.old }
        requires empty { outs.old ≡ [] }
        ensures room { grown ≡ true → HasRoom 1 self.new }
        ensures leg { leg_of self.new ≡ (ticks.hang_up_step grown (leg_of self.old) now).leg }
        ensures replies { outs.new ≡ map spelling (ticks.hang_up_step grown (leg_of self.old) now).replies }
        ensures skipped { result ≡ (ticks.hang_up_step grown (leg_of self.old) now).skipped }
        ensures few { length outs.new + held_count self.old.window.state ≤ self.old.window.state.width }
        ensures once { result ≤ 1 }
        ensures capacity { capacity_of (whole_leg self.old) ≤ capacity_of (whole_leg self.new) }
    {
        let held = self.window.held_len();
        prove!(held <= 127);
        if !self.must_hang_up() {
            return 0;
        }
        if !grown {
            return 1;
        }
        self.enter(Stage::Closing, now);
        self.send(ReplyFrame::Hangup(self.cause), now, outs);
        0
    }

    // Sends a PING that is due. Returns the number of skipped frames.
    fn ping(&mut self, grown: bool, now: u64, outs: &mut Replies) -> u32
        requires room { grown ≡ true → HasRoom 1 self.old }
        requires more { length outs.old < 128 }
        ensures leg { leg_of self.new ≡ (ticks.ping_step grown (leg_of self.old) now).leg }
        ensures replies { outs.new ≡ outs.old ++ map spelling (ticks.ping_step grown (leg_of self.old) now).replies }
        ensures skipped { result ≡ (ticks.ping_step grown (leg_of self.old) now).skipped }
        ensures once { result ≤ 1 }
        ensures capacity { capacity_of (whole_leg self.old) ≤ capacity_of (whole_leg self.new) }
    {
        if !self.must_ping(now) {
            return 0;
        }
        if !grown {
            return 1;
        }
        self.pinged = now;
        self.send(ReplyFrame::Ping, now, outs);
        0
    }

    // Ends the leg and the tick if a frame is spent. Otherwise sends a PING that is due.
    fn after_tries(&mut self, grown: bool, spent: bool, now: u64, outs: &mut Replies) -> u32
        requires room { grown ≡ true → HasRoom 1 self.old }
        requires more { length outs.old < 128 }
        ensures leg { leg_of self.new ≡ (ticks.last_step grown spent (leg_of self.old) now).leg }
        ensures replies { outs.new ≡ outs.old ++ map spelling (ticks.last_step grown spent (leg_of self.old) now).replies }
        ensures skipped { result ≡ (ticks.last_step grown spent (leg_of self.old) now).skipped }
        ensures once { result ≤ 1 }
        ensures capacity { capacity_of (whole_leg self.old) ≤ capacity_of (whole_leg self.new) }
    {
        if spent {
            self.fail(Failure::RetriesSpent, now);
            return 0;
        }
        self.ping(grown, now, outs)
    }

    // Sends the frames that are due: a doomed leg's HANGUP, then retransmissions of held frames, then a PING.
    fn due_frames(&mut self, grown: bool, now: u64, outs: &mut Replies) -> u32
        requires room { grown ≡ true → HasRoom 2 self.old }
        requires empty { outs.old ≡ [] }
        ensures leg { leg_of self.new ≡ (ticks.due_frames grown (leg_of self.old) now).leg }
        ensures replies { outs.new ≡ map spelling (ticks.due_frames grown (leg_of self.old) now).replies }
        ensures skipped { result ≡ (ticks.due_frames grown (leg_of self.old) now).skipped }
        ensures capacity { capacity_of (whole_leg self.old) ≤ capacity_of (whole_leg self.new) }
    {
        let turns = self.window.held_len();
        let width = self.window.width();
        prove!(width <= 127);
        let unsent = self.hang_up(grown, now, outs);
        let spent = self.try_again(turns, now, outs);
        unsent + self.after_tries(grown, spent, now, outs)
    }

    /// Ticks the leg at the moment `now`, in milliseconds: a doomed leg's HANGUP, then the held frames that are due, then a
    /// PING that is due. `grown` says that there is memory for a HANGUP or a PING. The leg's frames are written to the
    /// empty list.
    ///
    /// Returns the number of frames that were due and had no memory.
    pub fn tick(&mut self, grown: bool, now: u64, outs: &mut Replies) -> u32
        requires room { grown ≡ true → is_record_full (leg_of self.old) ≡ false → HasRoom 2 self.old }
        requires empty { outs.old ≡ [] }
        ensures leg { leg_of self.new ≡ (ticks.tick_step grown (leg_of self.old) now).leg }
        ensures replies { outs.new ≡ map spelling (ticks.tick_step grown (leg_of self.old) now).replies }
        ensures skipped { result ≡ (ticks.tick_step grown (leg_of self.old) now).skipped }
        ensures capacity { capacity_of (whole_leg self.old) ≤ capacity_of (whole_leg self.new) }
    {
        if self.stage.is_ended() {
            return 0;
        }
        if self.is_record_full() {
            self.fail(Failure::RecordFull, now);
            return 0;
        }
        if self.is_overdue(now) {
            self.fail(Failure::ChallengeTimeout, now);
            return 0;
        }
        self.due_frames(grown, now, outs)
    }
}
